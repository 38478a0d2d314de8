// The rules for one crawler as lines, and what they say when they are read back.
ghost use Rattle.std.specs.Prelude.{◌≡◌, ◌↔◌, ◌++◌, ◌∷◌, [], List, MatchOption, MatchResult, OnOk, true, false, string_bytes};
ghost use Rattle.iri_robots.specs.Allowed.{IsAllowed};
ghost use Rattle.iri_robots.specs.FileLines.{is_token};
ghost use Rattle.iri_robots.specs.Files.{file_records};
ghost use Rattle.iri_robots.specs.Records.{FileRule, rules_for};
ghost use Rattle.iri_robots.specs.RuleLines.{line_rules, rule_line, rule_lines, rule_word, rules_in};
ghost use Rattle.iri_robots.specs.Stored.{rule_text};
ghost use Rattle.iri_robots.specs.inside.BestRule.{IsBestOf};
ghost use Rattle.iri_robots.specs.inside.Groups.{rules_in_groups};
ghost use Rattle.iri_robots.specs.inside.SecondBytes.{second_of};

use crate::line::cut;
use crate::record::Record;
use crate::robots::{Robots, RobotsError, Verdict};
use crate::rule::{Best, Rule, decides, is_apart, judge, second_of};
use iri_text::Text;
use std::alloc::{AllocError, Global};

// The word before a pattern.
fn word_of(allows: bool) -> &'static str
    ensures { result.now ≡ rule_word allows }
{
    if allows { "allow " } else { "disallow " }
}

// Writes a rule, as a line.
fn push_rule(lines: &mut String, rule: &Rule) -> Result<(), AllocError>
    ensures { OnOk result (string_bytes lines.new ≡ string_bytes lines.old ++ rule_line (rule_text rule.now)) }
{
    lines.push_str(word_of(rule.allows))?;
    lines.push_str(rule.pattern.as_str())?;
    lines.push('\n')
}

// Writes the rules of the crawler's own groups, or of those that have `*`, a line each.
pub(crate) fn push_rules(
    lines: &mut String,
    records: &[Record],
    own: bool,
) -> Result<(), AllocError>
    ensures { OnOk result (string_bytes lines.new ≡ string_bytes lines.old ++ rule_lines (rules_in_groups own records.now)) }
{
    for record in records {
        if let Record::Judged(rule) = record {
            if rule.groups.has(own) {
                push_rule(lines, rule)?;
            }
        }
    }
    Ok(())
}

/// The rules of a robots file for the crawler of a product token (RFC 9309 section 2.2.1), a line each: `allow PATTERN`
/// or `disallow PATTERN` and an LF, in the order of the file, with each pattern in the form in which it is compared
/// (section 2.2.2). [`lines_verdict`] reads them. A CR or an LF ends a line of the file.
///
/// # Errors
///
/// - `Token` exactly where the text is no product token.
/// - `Memory` where allocation fails.
///
/// ```
/// use iri::robots::rule_lines;
/// let file = "User-agent: *\nDisallow: /\n\nUser-agent: ExampleBot\nAllow: /ツ # all\n".as_bytes();
/// assert_eq!(rt; rule_lines(rt.alloc(), "examplebot", file)?.as_str(), "allow /%E3%83%84\n");
/// ```
pub fn rule_lines(alloc: Global, token: &str, file: &[u8]) -> Result<Text, RobotsError>
    ensures lines { MatchResult result
        (λ t. (is_token token.now ≡ true) × (t ≡ rule_lines (rules_for token.now (file_records file.now))))
        (λ e. e ≡ RobotsError.Token → is_token token.now ≡ false) }
    ensures refused { is_token token.now ≡ false → result ≡ Err RobotsError.Token }
{
    let mut robots = match Robots::new(alloc, token) {
        Ok(robots) => robots,
        Err(error) => return Err(error),
    };
    match robots.feed_file(file) {
        Ok(()) => (),
        Err(error) => return Err(RobotsError::Memory(error)),
    }
    match robots.rule_lines() {
        Ok(lines) => Ok(lines),
        Err(error) => Err(RobotsError::Memory(error)),
    }
}

// The rule of a line.
#[derive(Clone, Copy)]
struct LineRule<'a> {
    allows: bool,
    pattern: &'a [u8],
}

// The rule of a line, where it has one.
fn read_rule(line: &[u8]) -> Option<LineRule<'_>>
    ensures { MatchOption result (line_rules line.now ≡ [])
        (λ r. line_rules line.now ≡ (record { allows = r.allows; pattern = r.pattern.now }) ∷ []) }
{
    if let Some(pattern) = line.strip_prefix(b"allow ") {
        return Some(LineRule {
            allows: true,
            pattern,
        });
    }
    match line.strip_prefix(b"disallow ") {
        Some(pattern) => Some(LineRule {
            allows: false,
            pattern,
        }),
        None => None,
    }
}

// What decides with the rule of one line more.
fn judge_line(best: Option<Best>, line: &[u8], second: u8, text: &[u8]) -> Option<Best>
    requires { second ≡ second_of text.now }
    ensures { (rules : List FileRule) → IsBestOf rules text.now best → IsBestOf (rules ++ line_rules line.now) text.now result }
{
    match read_rule(line) {
        Some(rule) => {
            if is_apart(rule.pattern, second) {
                return best;
            }
            judge(best, rule.allows, rule.pattern, text)
        }
        None => best,
    }
}

// What decides of the rules of lines.
fn best_in(lines: &[u8], text: &[u8]) -> Option<Best>
    ensures { IsBestOf (rules_in lines.now) text.now result }
{
    let second = second_of(text);
    let mut best = None;
    let mut rest = lines;
    'lines: loop {
        let (line, after) = cut(rest, b'\n');
        best = judge_line(best, line, second, text);
        match after {
            Some(after) => rest = after,
            None => return best,
        }
    }
}

/// What the rules of lines say of a text, as [`Robots::verdict`]: over the lines that [`rule_lines`] writes it is what
/// the robots file says for that crawler. It allocates nothing.
///
/// ```
/// use iri::robots::{Verdict, lines_verdict};
/// let lines = b"disallow /example/\nallow /example/*.gif$\n";
/// assert!(rt; matches!(lines_verdict(lines, "/example/page.html"), Verdict::Disallow));
/// assert!(rt; matches!(lines_verdict(lines, "/example/image.gif"), Verdict::Allow));
/// ```
pub fn lines_verdict(lines: &[u8], subject: &str) -> Verdict
    ensures { (result ≡ Verdict.Allow) ↔ IsAllowed (rules_in lines.now) subject.now }
{
    let text = subject.as_bytes();
    if decides(best_in(lines, text), text) {
        Verdict::Allow
    } else {
        Verdict::Disallow
    }
}
