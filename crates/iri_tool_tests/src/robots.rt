use iri_robots::laws::{
    empty_patterns_match_nothing, first_rules_are_of_no_group, question_marks_part_forms,
    rule_lines_are_read_back, rules_are_decided, what_is_allowed_always,
};
use iri_robots::{Robots, RobotsError, Verdict, lines_verdict, matches, rule_lines};
use std::alloc::Global;
use std::test::Fail;

// A thousand stars are searched, each at its leftmost place.
#[test]
fn many_stars(rt: HostRuntime) -> Result<(), Fail> {
    let mut pattern = Vec::new(rt.alloc());
    let mut text = Vec::new(rt.alloc());
    for _ in 0..1000 {
        pattern.extend_from_slice(b"*a")?;
        text.push(b'a')?;
    }
    text.push(b'b')?;
    assert!(rt; matches(pattern.as_slice(), text.as_slice()));
    pattern.push(b'$')?;
    assert!(rt; !matches(pattern.as_slice(), text.as_slice()));
    Ok(())
}

fn fed(alloc: Global, token: &str, lines: &[&str]) -> Result<Robots, RobotsError> {
    let mut robots = Robots::new(alloc, token)?;
    for line in lines {
        robots.feed_line(line.as_bytes())?;
    }
    Ok(robots)
}

fn allows(robots: &Robots, subject: &str) -> bool {
    matches!(robots.verdict(subject), Verdict::Allow)
}

// A refused allocation leaves the rules as they were.
#[test]
fn kept_where_memory_is_refused(rt: HostRuntime) -> Result<(), Fail> {
    let mut robots = fed(rt.alloc(), "a", &["user-agent: a", "disallow: /"])?;
    for &rule in &["allow: /x", "allow: /y", "allow: /z"] {
        let subject = rule.strip_prefix("allow: ").ok_or("no rule")?;
        let stored = robots.feed_line(rule.as_bytes());
        assert!(rt; allows(&robots, subject) == stored.is_ok(), "{rule}");
        stored?;
    }
    assert!(rt; !allows(&robots, "/w"));
    Ok(())
}

// By the laws: rules before the first user-agent line are of no group, the robots file and what no rule speaks of are
// allowed, an empty pattern matches nothing, and the subject of a path and a query is that of the path, a `?`, and the query's form.
#[test]
fn laws_of_rules(rt: HostRuntime) -> Result<(), Fail> {
    first_rules_are_of_no_group();
    what_is_allowed_always();
    empty_patterns_match_nothing();
    rules_are_decided();
    question_marks_part_forms();
    let none = fed(rt.alloc(), "a", &[])?;
    let first = fed(rt.alloc(), "a", &["disallow: /x", "user-agent: a"])?;
    let all = fed(rt.alloc(), "a", &["user-agent: a", "disallow: /"])?;
    assert!(rt; allows(&none, "/x"));
    assert!(rt; allows(&first, "/x"));
    assert!(rt; !allows(&all, "/x"));
    assert!(rt; allows(&all, "/robots.txt"));
    assert!(rt; !matches(b"", b"/x"));
    Ok(())
}

// By the law, the lines of a file's rules say what the file says.
#[test]
fn rules_as_lines(rt: HostRuntime) -> Result<(), Fail> {
    rule_lines_are_read_back();
    let file = b"user-agent: a\ndisallow: /x\rallow: /x\r\nuser-agent: *\ndisallow: /";
    for &(token, lines, subject, verdict) in &[
        ("A", "disallow /x\nallow /x\n", "/x", Verdict::Allow),
        ("A", "disallow /x\nallow /x\n", "/", Verdict::Allow),
        ("b", "disallow /\n", "/x", Verdict::Disallow),
    ] {
        let written = rule_lines(rt.alloc(), token, file)?;
        assert!(rt; written.as_str() == lines);
        assert!(rt; lines_verdict(lines.as_bytes(), subject) == verdict);
    }
    assert!(rt; matches!(rule_lines(rt.alloc(), "*", file), Err(RobotsError::Token)));
    Ok(())
}
