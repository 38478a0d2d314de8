//! The laws of entries.
ghost use Rattle.std.specs.Prelude.{◌≡◌, ◌↔◌, ℕ, List, [], ◌∷◌, ◌++◌, fold};
ghost use Rattle.iri_grammar.specs.Parts.{IsAbsolute, IsReference};
ghost use Rattle.iri_register.specs.Commands.{Command, Line, entries_of_commands, obeyed};
ghost use Rattle.iri_register.specs.Shared.{IsLive, Share, TargetsJoin, line_of};

use iri_grammar::spec::Spec;
use iri_normal::mode::CanonMode;

/// The entries of commands are what obeying one after the other leaves, from none on.
pub fn entries_are_those_of_the_commands()
    ensures none { entries_of_commands [] ≡ [] }
    ensures next { (cs : List Command) → (c : Command)
        → entries_of_commands (cs ++ c ∷ []) ≡ obeyed (entries_of_commands cs) c }
    ensures all { (cs : List Command) → fold obeyed [] cs ≡ entries_of_commands cs }
{}

/// Two live lines share an entry exactly where their canonical targets are equal, and that is, in each mode, exactly where
/// its steps join the targets of their references.
pub fn live_lines_share_an_entry<S: Spec>()
    ensures targets { (cs : List Command) → (l m : Line) → IsLive cs l → IsLive cs m
        → Share (entries_of_commands cs) l m ↔ (l.target ≡ m.target) }
    ensures steps { (mode : CanonMode) → (cs : List Command) → (base q r : List ℕ) → (m n : ℕ) → IsAbsolute S.tests base
        → IsReference S.tests q → IsReference S.tests r → IsLive cs (line_of S.tests mode base q m)
        → IsLive cs (line_of S.tests mode base r n)
        → Share (entries_of_commands cs) (line_of S.tests mode base q m) (line_of S.tests mode base r n)
        ↔ TargetsJoin S.tests mode base q r }
{}
