// The rules for one crawler.
ghost use Rattle.std.specs.Prelude.{◌≡◌, ◌↔◌, ◌<◌, ◌≤◌, ◌++◌, ◌∷◌, [], MatchOption, MatchResult, IfErr, IfOk, OnOk, true, false, string_bytes};
ghost use Rattle.iri_robots.specs.FileLines.{is_token, line_of};
ghost use Rattle.iri_robots.specs.Records.{rules_for, line_records, records_escapes};
ghost use Rattle.iri_robots.specs.Allowed.{IsAllowed};
ghost use Rattle.iri_robots.specs.Files.{file_records};
ghost use Rattle.iri_robots.specs.RuleLines.{rule_lines};
ghost use Rattle.iri_robots.specs.Stored.{record_texts, optional_record};
ghost use Rattle.iri_robots.specs.inside.Groups.{IsOf, IsRead};

use crate::groups::{Groups, Reading, past};
use crate::line::{cut_line, token_len};
use crate::record::{Record, best_of, line_has_more_escapes, line_record};
use crate::rule::decides;
use crate::rules_text::push_rules;
use iri_text::Text;
use std::alloc::{AllocError, Global};
use thiserror::Error;

/// Why there are no rules.
///
/// ```
/// use iri::robots::{Robots, RobotsError};
/// assert!(rt; matches!(Robots::new(rt.alloc(), "Bot/1.0"), Err(RobotsError::Token)));
/// ```
#[derive(Debug, Drop, Error)]
pub enum RobotsError {
    /// The product token isn't one or more ASCII letters, `_` and `-`.
    #[error("invalid token")]
    Token,
    /// Allocation failure.
    #[error(transparent)]
    Memory(#[from] AllocError),
}

/// Why a line isn't stored.
///
/// ```
/// use iri::robots::{LineError, Robots};
/// let mut rules = Robots::new(rt.alloc(), "ExampleBot")?;
/// assert!(rt; matches!(rules.feed_line_within(b"Disallow: /%2A", 0), Err(LineError::Escapes)));
/// ```
#[derive(Debug, Drop, Error)]
pub enum LineError {
    /// The pattern of its rule has more escapes than the caller takes.
    #[error("too many escapes")]
    Escapes,
    /// Allocation failure.
    #[error(transparent)]
    Memory(#[from] AllocError),
}

/// What the rules say of a text.
///
/// ```
/// use iri::robots::{Robots, Verdict};
/// let mut rules = Robots::new(rt.alloc(), "foobot")?;
/// rules.feed_line(b"User-Agent: foobot")?;
/// rules.feed_line(b"Allow: /example/page/")?;
/// rules.feed_line(b"Disallow: /example/page/disallowed.gif")?;
/// assert_eq!(rt; rules.verdict("/example/page/"), Verdict::Allow);
/// assert_eq!(rt; rules.verdict("/example/page/disallowed.gif"), Verdict::Disallow);
/// ```
#[derive(Clone, Copy, Debug, PartialEq, Eq)]
pub enum Verdict {
    /// The crawler may fetch it.
    Allow,
    /// The crawler may not fetch it.
    Disallow,
}

/// The records of a robots file, for the crawler of one product token (RFC 9309 section 2.2).
///
/// ```
/// use iri::robots::{Robots, Verdict};
/// let mut rules = Robots::new(rt.alloc(), "ExampleBot")?;
/// rules.feed_line(b"User-agent: *")?;
/// rules.feed_line(b"Disallow: *.gif$")?;
/// rules.feed_line(b"Disallow: /example/")?;
/// rules.feed_line(b"Allow: /publications/")?;
/// assert!(rt; matches!(rules.verdict("/example/page.html"), Verdict::Disallow));
/// assert!(rt; matches!(rules.verdict("/publications/page.html"), Verdict::Allow));
/// assert!(rt; matches!(rules.verdict("/image.gif"), Verdict::Disallow));
/// ```
#[derive(Drop)]
#[derive_where(Debug)]
pub struct Robots {
    #[derive_where(skip(Debug))]
    alloc: Global,
    token: String,
    #[derive_where(skip(Debug))]
    records: Vec<Record>,
    #[derive_where(skip(Debug))]
    reading: Reading,
    ghost read: { ∥ IsRead (string_bytes token) records.items reading ∥₁ },
}

/// Whether a text is a product token (RFC 9309 section 2.2.1): one or more ASCII letters, `_` and `-`.
///
/// ```
/// use iri::robots::is_product_token;
/// assert!(rt; is_product_token("ExampleBot"));
/// assert!(rt; !is_product_token("ExampleBot/1.0"));
/// ```
pub fn is_product_token(text: &str) -> bool
    ensures { result ≡ is_token text.now }
{
    !text.is_empty() && token_len(text.as_bytes()) == text.len()
}

impl Robots {
    /// The rules for the crawler of this product token (RFC 9309 section 2.2.1). No line is read yet.
    ///
    /// # Errors
    ///
    /// - `Token` exactly where the text is no product token, which `is_product_token` tests.
    /// - `Memory` where allocation fails; the text is a product token then.
    pub fn new(alloc: Global, token: &str) -> Result<Robots, RobotsError>
        ensures made { MatchResult result
            (λ r. (is_token token.now ≡ true) × (string_bytes r.token ≡ token.now) × (r.records.items ≡ []))
            (λ e. e ≡ RobotsError.Token → is_token token.now ≡ false) }
        ensures refused { is_token token.now ≡ false → result ≡ Err RobotsError.Token }
    {
        if !is_product_token(token) {
            return Err(RobotsError::Token);
        }
        match String::from_str(alloc, token) {
            Ok(token) => Ok(Robots {
                alloc,
                token,
                records: Vec::new(alloc),
                reading: Reading {
                    named: false,
                    in_run: false,
                    groups: Groups {
                        own: false,
                        any: false,
                    },
                },
            }),
            Err(e) => Err(RobotsError::Memory(e)),
        }
    }

    // Stores a record, where there is one; after an allocation failure nothing has changed.
    fn store(&mut self, added: Option<Record>) -> Result<(), AllocError>
        requires { MatchOption added (Unit {0}) (λ x. IsOf self.old.reading.groups x) }
        ensures token { string_bytes self.new.token ≡ string_bytes self.old.token }
        ensures records { MatchResult result (λ _. record_texts self.new.records.items
            ≡ record_texts self.old.records.items ++ optional_record added)
            (λ _. record_texts self.new.records.items ≡ record_texts self.old.records.items) }
        ensures none { optional_record added ≡ [] → result ≡ Ok tt }
    {
        match added {
            Some(record) => {
                let reading = past(self.reading, self.token.as_str(), &record);
                self.records.push(record)?;
                self.reading = reading;
                Ok(())
            }
            None => Ok(()),
        }
    }

    /// Stores the record of a line of the robots file, where it has one (RFC 9309 section 2.2). The line is any bytes,
    /// without its line end: one that isn't UTF-8, or that has no key of a record, is ignored.
    ///
    /// # Errors
    ///
    /// Where allocation fails, only where the line has a record; nothing has changed then.
    ///
    /// ```
    /// use iri::robots::{Robots, Verdict};
    /// let mut rules = Robots::new(rt.alloc(), "ExampleBot")?;
    /// rules.feed_line(b"User-agent: examplebot/2.0 # any case")?;
    /// rules.feed_line(b"Disallow: /private")?;
    /// assert!(rt; matches!(rules.verdict("/private/a"), Verdict::Disallow));
    /// ```
    pub fn feed_line(&mut self, line: &[u8]) -> Result<(), AllocError>
        ensures token { string_bytes self.new.token ≡ string_bytes self.old.token }
        ensures records { MatchResult result (λ _. record_texts self.new.records.items
            ≡ record_texts self.old.records.items ++ line_records (line_of line.now))
            (λ _. record_texts self.new.records.items ≡ record_texts self.old.records.items) }
        ensures none { line_records (line_of line.now) ≡ [] → result ≡ Ok tt }
    {
        self.store(line_record(self.alloc, self.reading.groups, line)?)
    }

    // Stores the records of a robots file. A CR or an LF ends a line of it.
    pub(crate) fn feed_file(&mut self, file: &[u8]) -> Result<(), AllocError>
        ensures token { string_bytes self.new.token ≡ string_bytes self.old.token }
        ensures records { OnOk result (record_texts self.new.records.items
            ≡ record_texts self.old.records.items ++ file_records file.now) }
    {
        let mut rest = file;
        'lines: loop {
            let (line, after) = cut_line(rest);
            self.feed_line(line)?;
            match after {
                Some(after) => rest = after,
                None => return Ok(()),
            }
        }
    }

    // The rules for the crawler, a line each.
    pub(crate) fn rule_lines(&self) -> Result<Text, AllocError>
        ensures { IfOk result (λ t. t
            ≡ rule_lines (rules_for (string_bytes self.now.token) (record_texts self.now.records.items))) }
    {
        let mut lines = String::new(self.alloc);
        push_rules(&mut lines, self.records.as_slice(), self.reading.named)?;
        Ok(Text::from_string(lines))
    }

    /// [`Robots::feed_line`] for a file that nobody vouches for: a rule whose pattern has more than `most` escapes
    /// (each `%2A`, `%24` and `$` counts) isn't stored.
    ///
    /// # Errors
    ///
    /// Nothing has changed then.
    ///
    /// - `Escapes` exactly where the rule has more escapes, whatever memory there is.
    /// - `Memory` where allocation fails, only where the line has a record.
    ///
    /// ```
    /// use iri::robots::{LineError, Robots};
    /// let mut rules = Robots::new(rt.alloc(), "ExampleBot")?;
    /// assert!(rt; rules.feed_line_within(b"User-agent: *", 1).is_ok());
    /// assert!(rt; rules.feed_line_within(b"Disallow: *.gif$", 1).is_ok());
    /// assert!(rt; matches!(rules.feed_line_within(b"Disallow: /%2A%2A", 1), Err(LineError::Escapes)));
    /// ```
    pub fn feed_line_within(&mut self, line: &[u8], most: usize) -> Result<(), LineError>
        ensures token { string_bytes self.new.token ≡ string_bytes self.old.token }
        ensures records { MatchResult result (λ _. record_texts self.new.records.items
            ≡ record_texts self.old.records.items ++ line_records (line_of line.now))
            (λ _. record_texts self.new.records.items ≡ record_texts self.old.records.items) }
        ensures escapes { MatchResult result (λ _. records_escapes (line_records (line_of line.now)) ≤ most)
            (λ e. e ≡ LineError.Escapes → most < records_escapes (line_records (line_of line.now))) }
        ensures refused { most < records_escapes (line_records (line_of line.now)) → result ≡ Err LineError.Escapes }
        ensures none { line_records (line_of line.now) ≡ [] → result ≡ Ok tt }
    {
        if line_has_more_escapes(line, most) {
            return Err(LineError::Escapes);
        }
        match self.feed_line(line) {
            Ok(()) => Ok(()),
            Err(e) => Err(LineError::Memory(e)),
        }
    }

    /// What the lines so far say of a text, as a rule: that of the longest pattern in bytes that matches, and of an
    /// allow rule where patterns are equally long. The path of the robots file itself, and what no rule matches, is
    /// allowed (RFC 9309 section 2.2.2). It allocates nothing.
    pub fn verdict(&self, subject: &str) -> Verdict
        ensures { (result ≡ Verdict.Allow)
            ↔ IsAllowed (rules_for (string_bytes self.now.token) (record_texts self.now.records.items)) subject.now }
    {
        let text = subject.as_bytes();
        let best = best_of(self.records.as_slice(), self.reading.named, text);
        if decides(best, text) {
            Verdict::Allow
        } else {
            Verdict::Disallow
        }
    }
}
