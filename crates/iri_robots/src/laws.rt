//! Laws of the definitions: each function's contract is a law, and its body is empty.
ghost use Rattle.std.specs.Prelude.{◌≡◌, ◌↔◌, ℕ, true, List, [], ◌∷◌, ◌++◌, codes};
ghost use Rattle.std.specs.List.{list_all};
ghost use Rattle.iri_grammar.specs.Characters.{question_mark};
ghost use Rattle.iri_robots.specs.Allowed.{IsAllowed};
ghost use Rattle.iri_robots.specs.Compared.{compared};
ghost use Rattle.iri_robots.specs.Decided.{is_allowed, is_match};
ghost use Rattle.iri_robots.specs.Files.{file_records, is_byte};
ghost use Rattle.iri_robots.specs.Patterns.{Matches};
ghost use Rattle.iri_robots.specs.Records.{FileRule, FileRecord, rules_for};
ghost use Rattle.iri_robots.specs.RuleLines.{rule_lines, rules_in};

/// The question mark parts the compared forms of path and query.
pub fn question_marks_part_forms()
    ensures { (p q : List ℕ) → compared (p ++ question_mark ∷ q) ≡ compared p ++ question_mark ∷ compared q }
{}

/// Rules before the first user-agent line belong to no group.
pub fn first_rules_are_of_no_group()
    ensures { (token : List ℕ) (rule : FileRule) (records : List FileRecord)
        → rules_for token (FileRecord.Judged rule ∷ records) ≡ rules_for token records }
{}

/// Without rules each text is allowed, and with any rules the robots file.
pub fn what_is_allowed_always()
    ensures no_rules { (text : List ℕ) → IsAllowed [] text }
    ensures file { (rules : List FileRule) → IsAllowed rules (codes "/robots.txt") }
{}

/// An empty pattern matches nothing.
pub fn empty_patterns_match_nothing()
    ensures { (text : List ℕ) → Matches [] text → ⊥ }
{}

/// Functions tell whether a pattern matches, and whether rules allow a text.
pub fn rules_are_decided()
    ensures patterns { (pattern text : List ℕ) → (is_match pattern text ≡ true) ↔ Matches pattern text }
    ensures rules { (rules : List FileRule) (text : List ℕ) → (is_allowed rules text ≡ true) ↔ IsAllowed rules text }
{}

/// The rules of a file for a token are read back from the lines that are written of them.
pub fn rule_lines_are_read_back()
    ensures { (token file : List ℕ) → list_all is_byte file ≡ true
        → rules_in (rule_lines (rules_for token (file_records file))) ≡ rules_for token (file_records file) }
{}
