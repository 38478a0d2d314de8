// Robots files: the rules for one crawler, and what they say of a target.
ghost use Rattle.std.specs.Prelude.{◌≡◌, List, ℕ, true};
ghost use Rattle.std.specs.List.{list_all};
ghost use Rattle.iri_robots.specs.FileLines.{is_token};
ghost use Rattle.iri_robots.specs.Files.{file_records, is_byte};
ghost use Rattle.iri_robots.specs.Records.{rules_for};
ghost use Rattle.iri_robots.specs.RuleLines.{rule_lines};
ghost use Rattle.iri_robots_calls.specs.Outcomes.{AnsweredOrMemory, IsTarget, ReturnedOrMemory, allowed_outcome, file_outcome, rules_outcome};

use iri_robots_calls::robots;
use iri_robots_calls::status::MEMORY;
use std::alloc::Global;

/// The rules of a robots file for the crawler of a product token, as lines that `irikit_robots_allows` reads.
#[unsafe(no_mangle)]
pub extern "C" fn irikit_robots_rules(
    alloc: Global,
    token: &[u8],
    file: &[u8],
    out: &mut [u8],
    detail: &mut usize,
) -> u8
    ensures rules { AnsweredOrMemory (rules_outcome token.now file.now) out.old out.new detail.new result }
    // Allocation fails only where the token is one.
    ensures memory { result ≡ MEMORY → is_token token.now ≡ true }
{
    robots::irikit_robots_rules(alloc, token, file, out, detail)
}

/// What the rules of lines say of a target: whether the crawler may fetch it.
#[unsafe(no_mangle)]
pub extern "C" fn irikit_robots_allows(
    alloc: Global,
    grammar: u32,
    rules: &[u8],
    target: &[u8],
    detail: &mut usize,
) -> u8
    ensures allows { ReturnedOrMemory (allowed_outcome grammar rules.now target.now) detail.new result }
    // Over the rules of a file it is what the file says.
    ensures file { (token file : List ℕ) → list_all is_byte file ≡ true → rules.now ≡ rule_lines (rules_for token (file_records file))
        → ReturnedOrMemory (file_outcome grammar token file target.now) detail.new result }
    // Allocation fails only where the target is a URI of the grammar.
    ensures memory { result ≡ MEMORY → IsTarget grammar target.now }
{
    robots::irikit_robots_allows(alloc, grammar, rules, target, detail)
}
