// The written form of link-values (RFC 8288 section 3).
ghost use Rattle.std.specs.Prelude.{◌≡◌, ◌++◌, ◌∷◌, MatchOption};
ghost use Rattle.iri_text.specs.Shown.{Shows};
ghost use Rattle.iri_link.specs.Stored.{links_of};
ghost use Rattle.iri_link.specs.Written.{escaped, written};
ghost use Rattle.iri_link.specs.inside.CutDelimiters.{IsDelimiterAt, IsCutAtDelimiter};

use crate::link::Link;
use crate::param::Param;
use iri_text::{Show, Stop, TextSink, show_each, show_five, show_three, show_two};
use memchr::memchr2;

// Where the first `"` or `\` stands.
#[tactic(auto, using(crate::proofs::EscapeLemmas::delimiter_found))]
fn find_delimiter(s: &str) -> Option<usize>
    ensures { MatchOption result (escaped s.now ≡ s.now) (λ at. IsDelimiterAt s.now at) }
{
    memchr2(b'"', b'\\', s.as_bytes())
}

// What comes before the first `"` or `\`, that byte, and what follows it.
fn cut_delimiter(s: &str) -> Option<(&str, &str, &str)>
    ensures { MatchOption result (escaped s.now ≡ s.now) (λ r. IsCutAtDelimiter s.now r.0.now r.1.now r.2.now) }
{
    match find_delimiter(s) {
        Some(at) => Some((&s[..at], &s[at..at + 1], &s[at + 1..])),
        None => None,
    }
}

// Shows a value with a `\` before each `"` and `\`.
pub(crate) fn show_escaped<W: TextSink>(sink: &mut W, value: &str) -> Result<(), Stop>
    ensures { Shows W.puts W.halts W.stops sink.old (escaped value.now) sink.new result }
{
    let mut rest = value;
    'delimiters: loop {
        match cut_delimiter(rest) {
            Some((prefix, delimiter, after)) => {
                show_three(sink, &prefix, &"\\", &delimiter)?;
                rest = after;
            }
            None => return sink.put(rest),
        }
    }
}

// The value of a parameter, as it stands in a quoted string.
#[derive(Drop)]
pub(crate) struct Escaped<'a> {
    pub(crate) value: &'a str,
}

impl Show for Escaped<'_> {
    ghost text = { λ e. escaped e.value.now };

    fn show<W: TextSink>(&self, sink: &mut W) -> Result<(), Stop> {
        show_escaped(sink, self.value)
    }
}

impl Show for Param {
    ghost use Rattle.iri_link.specs.Stored.{param_of};
    ghost use Rattle.iri_link.specs.Written.{written_param};

    ghost text = { λ p. written_param (param_of p) };

    fn show<W: TextSink>(&self, sink: &mut W) -> Result<(), Stop> {
        match &self.value {
            Some(value) => {
                let value = Escaped {
                    value: value.as_str(),
                };
                show_five(sink, &"; ", &self.name, &"=\"", &value, &"\"")
            }
            None => show_two(sink, &"; ", &self.name),
        }
    }
}

impl Show for Link {
    ghost use Rattle.iri_link.specs.Stored.{link_of};
    ghost use Rattle.iri_link.specs.Written.{written_link};

    ghost text = { λ l. written_link (link_of l) };

    fn show<W: TextSink>(&self, sink: &mut W) -> Result<(), Stop> {
        show_three(sink, &"<", &self.target, &">")?;
        show_each(sink, &self.params)
    }
}

// Shows link-values in their written form.
pub(crate) fn show_links<W: TextSink>(sink: &mut W, links: &[Link]) -> Result<(), Stop>
    ensures { Shows W.puts W.halts W.stops sink.old (written (links_of links.now)) sink.new result }
{
    let mut between = "";
    for link in links {
        show_two(sink, &between, link)?;
        between = ", ";
    }
    Ok(())
}
