// What a crawler may fetch (RFC 9309).
use iri_grammar::spec::{Spec, UriSpec};
use iri_robots::{LineError, Robots, RobotsError, Verdict, is_product_token, matches, subject_of};
use iri_rows::answer::{displayed, yes_or_no};
use iri_rows::error::RowError;
use iri_rows::field::Field;
use iri_rows::in_grammar;
use iri_types::view::RiStr;
use std::alloc::{AllocError, Global};

// The lines of the robots file that verdicts are of.
#[derive(Drop)]
pub(crate) struct File {
    lines: Vec<Vec<u8>>,
}

impl File {
    pub(crate) fn new(alloc: Global) -> File {
        File {
            lines: Vec::new(alloc),
        }
    }
}

// `matches PATTERN PATH`: whether a pattern matches.
fn matched(alloc: Global, pattern: &Field, path: &Field) -> Result<String, RowError> {
    Ok(yes_or_no(alloc, matches(pattern.bytes(), path.bytes()))?)
}

// `file`: begins a file, with no lines.
fn begun(alloc: Global, file: &mut File) -> Result<String, AllocError> {
    file.lines.clear();
    String::from_str(alloc, "empty")
}

// `line LINE`: one line more of the file; how many it has.
fn line_added(alloc: Global, file: &mut File, line: &Field) -> Result<String, AllocError> {
    let mut bytes = Vec::new(alloc);
    bytes.extend_from_slice(line.bytes())?;
    file.lines.push(bytes)?;
    displayed(alloc, &file.lines.len())
}

fn fed(alloc: Global, file: &File, token: &str) -> Result<Robots, RobotsError> {
    let mut robots = Robots::new(alloc, token)?;
    for line in file.lines.iter() {
        robots.feed_line(line.as_slice())?;
    }
    Ok(robots)
}

fn word_of(robots: &Robots, subject: &str) -> &'static str {
    match robots.verdict(subject) {
        Verdict::Allow => "allow",
        Verdict::Disallow => "disallow",
    }
}

fn refused(alloc: Global, error: RobotsError) -> Result<String, RowError> {
    match error {
        RobotsError::Memory(error) => Err(RowError::Memory(error)),
        error => Ok(displayed(alloc, &error)?),
    }
}

fn verdict_of(
    alloc: Global,
    file: &File,
    token: &Field,
    subject: &str,
) -> Result<String, RowError> {
    match fed(alloc, file, token.text()?) {
        Ok(robots) => Ok(String::from_str(alloc, word_of(&robots, subject))?),
        Err(error) => refused(alloc, error),
    }
}

// `verdict TOKEN SUBJECT`: what the file says to a crawler of a subject.
fn verdict(alloc: Global, file: &File, token: &Field, subject: &Field) -> Result<String, RowError> {
    verdict_of(alloc, file, token, subject.text()?)
}

// `target TOKEN TARGET`: the same of the subject of a target.
fn target_verdict(
    alloc: Global,
    file: &File,
    token: &Field,
    target: &Field,
) -> Result<String, RowError> {
    let subject = subject_in::<UriSpec>(alloc, target)?;
    verdict_of(alloc, file, token, subject.as_str())
}

fn subject_in<S: Spec>(alloc: Global, target: &Field) -> Result<String, RowError> {
    let target: RiStr<'_, S> = target.view()?;
    Ok(subject_of(alloc, target)?.into_string())
}

// `subject GRAMMAR TARGET`: what rules are compared with.
fn subject(alloc: Global, grammar: &Field, target: &Field) -> Result<String, RowError> {
    in_grammar!(grammar, subject_in(alloc, target))
}

// `token TOKEN`: whether it is a crawler's name.
fn token(alloc: Global, token: &Field) -> Result<String, RowError> {
    let token = token.text()?;
    match Robots::new(alloc, token) {
        Ok(_) => Ok(yes_or_no(alloc, is_product_token(token))?),
        Err(RobotsError::Memory(error)) => Err(RowError::Memory(error)),
        Err(error) => {
            if is_product_token(token) {
                return refused(alloc, error);
            }
            Ok(yes_or_no(alloc, false)?)
        }
    }
}

// `names TOKEN LINE`: whether a rule after the line is the crawler's.
fn names(alloc: Global, token: &Field, line: &Field) -> Result<String, RowError> {
    let mut robots = match Robots::new(alloc, token.text()?) {
        Ok(robots) => robots,
        Err(error) => return refused(alloc, error),
    };
    robots.feed_line(line.bytes())?;
    robots.feed_line(b"Sitemap: /s")?;
    robots.feed_line(b"Disallow: /")?;
    Ok(yes_or_no(alloc, matches!(robots.verdict("/x"), Verdict::Disallow))?)
}

// `rule TOKEN RULE SUBJECT`: what one rule for all crawlers says.
fn rule(alloc: Global, token: &Field, rule: &Field, subject: &Field) -> Result<String, RowError> {
    let mut robots = match Robots::new(alloc, token.text()?) {
        Ok(robots) => robots,
        Err(error) => return refused(alloc, error),
    };
    robots.feed_line(b"user-agent: *")?;
    robots.feed_line(rule.bytes())?;
    Ok(String::from_str(alloc, word_of(&robots, subject.text()?))?)
}

fn fed_within(
    alloc: Global,
    robots: &mut Robots,
    line: &[u8],
    most: usize,
) -> Result<String, RowError> {
    match robots.feed_line_within(line, most) {
        Ok(()) => Ok(String::from_str(alloc, "stored")?),
        Err(LineError::Memory(error)) => Err(RowError::Memory(error)),
        Err(error) => Ok(displayed(alloc, &error)?),
    }
}

// `within MOST RULE SUBJECT`: whether a rule with at most so many escapes is stored, and what it then says. A record of no rule is
// taken whatever it has.
fn within(alloc: Global, most: &Field, rule: &Field, subject: &Field) -> Result<String, RowError> {
    let mut robots = match Robots::new(alloc, "a") {
        Ok(robots) => robots,
        Err(error) => return refused(alloc, error),
    };
    robots.feed_line(b"user-agent: a")?;
    let stored = fed_within(alloc, &mut robots, rule.bytes(), most.number()?)?;
    let word = word_of(&robots, subject.text()?);
    let other = fed_within(alloc, &mut robots, b"sitemap: $$$", 0)?;
    Ok(format!(in alloc; "{stored}, {word}, {other}")?)
}

// `error NAME`: an error as it is displayed.
fn error(alloc: Global, name: &Field) -> Result<String, RowError> {
    match name.text()? {
        "token" => Ok(displayed(alloc, &RobotsError::Token)?),
        "memory" => Ok(displayed(alloc, &RobotsError::Memory(AllocError))?),
        "line escapes" => Ok(displayed(alloc, &LineError::Escapes)?),
        "line memory" => Ok(displayed(alloc, &LineError::Memory(AllocError))?),
        _ => Err(RowError::NoRow),
    }
}

pub(crate) fn answer(
    alloc: Global,
    file: &mut File,
    verb: &str,
    fields: &[Field],
) -> Result<String, RowError> {
    match (verb, fields) {
        ("matches", [pattern, path]) => matched(alloc, pattern, path),
        ("file", []) => Ok(begun(alloc, file)?),
        ("line", [line]) => Ok(line_added(alloc, file, line)?),
        ("verdict", [token, subject]) => verdict(alloc, file, token, subject),
        ("target", [token, target]) => target_verdict(alloc, file, token, target),
        ("subject", [grammar, target]) => subject(alloc, grammar, target),
        ("token", [name]) => token(alloc, name),
        ("names", [token, line]) => names(alloc, token, line),
        ("rule", [token, line, subject]) => rule(alloc, token, line, subject),
        ("within", [most, rule, subject]) => within(alloc, most, rule, subject),
        ("error", [name]) => error(alloc, name),
        _ => Err(RowError::NoRow),
    }
}
