// The records of a robots file, and what decides of their rules.
ghost use Rattle.std.specs.Prelude.{◌≡◌, nat_lt, true, false, IfOk, MatchOption, [], string_bytes};
ghost use Rattle.std.specs.Str.{IsAscii};
ghost use Rattle.iri_robots.specs.Compared.{compared};
ghost use Rattle.iri_robots.specs.FileLines.{line_of};
ghost use Rattle.iri_robots.specs.Records.{FileRecord, line_records, records_escapes};
ghost use Rattle.iri_robots.specs.inside.BestRule.{IsBestOf};
ghost use Rattle.iri_robots.specs.inside.Groups.{IsOf, has, rules_in_groups};
ghost use Rattle.iri_robots.specs.inside.SecondBytes.{IsApart};
ghost use Rattle.iri_robots.specs.Stored.{record_text, optional_record};

use crate::compared::compared_form;
use crate::escape::has_more_escapes;
use crate::groups::Groups;
use crate::line::{Said, read_line};
use crate::rule::{Best, Rule, is_apart, judge, second_of};
use std::alloc::{AllocError, Global};

// A record of a robots file: the agent of a user-agent line, or the rule of an allow or disallow line.
#[derive(Drop)]
pub(crate) enum Record {
    UserAgent(String),
    Judged(Rule),
}

fn agent_record(alloc: Global, agent: &[u8]) -> Result<Record, AllocError>
    requires { IsAscii agent.now }
    ensures { IfOk result (λ r. record_text r ≡ FileRecord.UserAgent agent.now) }
{
    let agent = unsafe { str::from_utf8_unchecked(agent) };
    Ok(Record::UserAgent(String::from_str(alloc, agent)?))
}

fn rule_record(
    alloc: Global,
    groups: Groups,
    allows: bool,
    pattern: &[u8],
) -> Result<Record, AllocError>
    ensures groups { IfOk result (λ r. IsOf groups r) }
    ensures record { IfOk result (λ r. record_text r ≡ FileRecord.Judged (record {
      allows = allows;
      pattern = compared
          pattern.now;
    })) }
{
    let pattern = compared_form(alloc, pattern)?;
    Ok(Record::Judged(Rule {
        allows,
        groups,
        pattern,
    }))
}

// The record of a line, where it has one; a rule is of these groups.
pub(crate) fn line_record(
    alloc: Global,
    groups: Groups,
    line: &[u8],
) -> Result<Option<Record>, AllocError>
    ensures groups { IfOk result (λ r. MatchOption r (Unit {0}) (λ x. IsOf groups x)) }
    ensures record { IfOk result (λ r. optional_record r ≡ line_records (line_of line.now)) }
    ensures none { line_records (line_of line.now) ≡ [] → result ≡ Ok None }
{
    match read_line(line) {
        Said::UserAgent(agent) => Ok(Some(agent_record(alloc, agent)?)),
        Said::Allow(pattern) => Ok(Some(rule_record(alloc, groups, true, pattern)?)),
        Said::Disallow(pattern) => Ok(Some(rule_record(alloc, groups, false, pattern)?)),
        Said::Nothing => Ok(None),
    }
}

// Whether the pattern of a line's rule has more escapes than so many.
pub(crate) fn line_has_more_escapes(line: &[u8], most: usize) -> bool
    ensures { result ≡ nat_lt most (records_escapes (line_records (line_of line.now))) }
{
    match read_line(line) {
        Said::Allow(pattern) | Said::Disallow(pattern) => has_more_escapes(pattern, most),
        Said::UserAgent(_) | Said::Nothing => false,
    }
}

// A rule of these groups that may match a text with this second byte.
fn counts(rule: &Rule, own: bool, second: u8) -> bool
    ensures counts { result ≡ true → has own rule.now.groups ≡ true }
    ensures not { result ≡ false → has own rule.now.groups ≡ true → IsApart (string_bytes rule.now.pattern) second }
{
    !is_apart(rule.pattern.as_bytes(), second) && rule.groups.has(own)
}

// What decides of the rules of the crawler's own groups, or of those that have `*`. Most rules of a site go by their second
// byte: a rule takes 23 of a link's instructions in place of 92 (2026-12-01).
pub(crate) fn best_of(records: &[Record], own: bool, text: &[u8]) -> Option<Best>
    ensures { IsBestOf (rules_in_groups own records.now) text.now result }
{
    let second = second_of(text);
    let mut best = None;
    for record in records {
        if let Record::Judged(rule) = record {
            if counts(rule, own, second) {
                best = judge(best, rule.allows, rule.pattern.as_bytes(), text);
            }
        }
    }
    best
}
