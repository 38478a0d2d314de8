// The rules of a robots file for one crawler, and what they say of a target (RFC 9309 section 2.2).
ghost use Rattle.std.specs.Prelude.{◌≡◌, ◌↔◌, Bool, List, ℕ, None, Some, true};
ghost use Rattle.std.specs.List.{list_all};
ghost use Rattle.iri_grammar.specs.Fault.{bytes_fault};
ghost use Rattle.iri_grammar.specs.WholeFault.{iri_fault};
ghost use Rattle.iri_calls.specs.Numbers.{grammar_of};
ghost use Rattle.iri_robots.specs.FileLines.{is_token};
ghost use Rattle.iri_robots.specs.Files.{file_records, is_byte};
ghost use Rattle.iri_robots.specs.Records.{rules_for};
ghost use Rattle.iri_robots.specs.RuleLines.{rule_lines, rules_in};
ghost use Rattle.iri_robots_calls.specs.Outcomes.{AnsweredOrMemory, IsTarget, ReturnedOrMemory, allowed_outcome, allowed_status, file_outcome, judged_in, rules_outcome};

use crate::status::{BAD_TOKEN, DISALLOWED, MEMORY};
use iri_calls::buffer::answer_text;
use iri_calls::fault::answer;
use iri_calls::grammar::{IRI, URI};
use iri_calls::status::{OK, UNKNOWN};
use iri_calls::validation::{WITH_SCHEME, irikit_validate};
use iri_grammar::spec::{IriSpec, Spec, UriSpec};
use iri_robots::{RobotsError, Verdict, lines_verdict, rule_lines, subject_of};
use iri_types::view::RiStr;
use std::alloc::Global;

/// The rules of a robots file for the crawler of a product token, as lines that `irikit_robots_allows` reads.
pub fn irikit_robots_rules(
    alloc: Global,
    token: &[u8],
    file: &[u8],
    out: &mut [u8],
    detail: &mut usize,
) -> u8
    ensures rules { AnsweredOrMemory (rules_outcome token.now file.now) out.old out.new detail.new result }
    // Allocation fails only where the token is one.
    ensures memory { result ≡ MEMORY → is_token token.now ≡ true }
{
    let Ok(token) = str::from_utf8(token) else {
        return answer(BAD_TOKEN, detail);
    };
    match rule_lines(alloc, token, file) {
        Ok(lines) => answer_text(out, &lines.as_str(), detail),
        Err(RobotsError::Token) => answer(BAD_TOKEN, detail),
        Err(RobotsError::Memory(_)) => answer(MEMORY, detail),
    }
}

// The status for a verdict.
fn status_of(verdict: Verdict) -> u8
    ensures { (b : Bool) → (verdict ≡ Verdict.Allow) ↔ (b ≡ true) → result ≡ allowed_status b }
{
    match verdict {
        Verdict::Allow => OK,
        Verdict::Disallow => DISALLOWED,
    }
}

// What the rules of lines say of a target in the grammar of this number.
fn allows_in<S: Spec>(
    alloc: Global,
    grammar: u32,
    rules: &[u8],
    target: &[u8],
    detail: &mut usize,
) -> u8
    requires { grammar_of grammar ≡ Some S.tests }
    ensures allows { ReturnedOrMemory (judged_in (rules_in rules.now) target.now S.tests) detail.new result }
    ensures memory { result ≡ MEMORY → bytes_fault (iri_fault S.tests) target.now ≡ None }
{
    let Ok(view) = RiStr::<S>::try_from_bytes(target) else {
        return irikit_validate(grammar, WITH_SCHEME, target, detail);
    };
    match subject_of(alloc, view) {
        Ok(subject) => answer(status_of(lines_verdict(rules, subject.as_str())), detail),
        Err(_) => answer(MEMORY, detail),
    }
}

/// What the rules of lines say of a target: whether the crawler may fetch it.
pub fn irikit_robots_allows(
    alloc: Global,
    grammar: u32,
    rules: &[u8],
    target: &[u8],
    detail: &mut usize,
) -> u8
    ensures allows { ReturnedOrMemory (allowed_outcome grammar rules.now target.now) detail.new result }
    // Over the rules of a file it is what the file says.
    ensures file { (token file : List ℕ) → list_all is_byte file ≡ true → rules.now ≡ rule_lines (rules_for token (file_records file))
        → ReturnedOrMemory (file_outcome grammar token file target.now) detail.new result }
    // Allocation fails only where the target is a URI of the grammar.
    ensures memory { result ≡ MEMORY → IsTarget grammar target.now }
{
    match grammar {
        URI => allows_in::<UriSpec>(alloc, grammar, rules, target, detail),
        IRI => allows_in::<IriSpec>(alloc, grammar, rules, target, detail),
        _ => answer(UNKNOWN, detail),
    }
}
