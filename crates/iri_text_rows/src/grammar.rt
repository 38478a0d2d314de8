// Classes of characters, productions with their first fault, and the split (RFC 3986 appendices A and B; RFC 3987 section 2.2).
use iri_grammar::authority::AuthoritySpan;
use iri_grammar::class::{
    is_any_char, is_fragment_char, is_path_char, is_pchar, is_query_char, is_reg_name_char,
    is_unreserved, is_userinfo_char,
};
use iri_grammar::error::Error;
use iri_grammar::host::host_is_reg_name;
use iri_grammar::spec::Spec;
use iri_grammar::splitter::Splitter;
use iri_grammar::validate::{
    absolute_iri, authority, fragment, host, iri, iri_reference, path, path_segment, port, query,
    reg_name, relative_ref, scheme, userinfo,
};
use iri_rows::answer::{displayed, spaced, yes_or_no};
use iri_rows::error::RowError;
use iri_rows::field::Field;
use iri_rows::in_grammar;
use std::alloc::{AllocError, Global};

// The names of what is so, parted by spaces.
fn names(alloc: Global, answers: &[(&str, bool)]) -> Result<String, AllocError> {
    let mut text = String::new(alloc);
    for (name, holds) in answers {
        if *holds {
            if !text.is_empty() {
                text.push_str(" ")?;
            }
            text.push_str(name)?;
        }
    }
    Ok(text)
}

fn character(field: &Field) -> Result<char, RowError> {
    let mut characters = field.text()?.chars();
    match (characters.next(), characters.next()) {
        (Some(c), None) => Ok(c),
        _ => Err(RowError::NoRow),
    }
}

// `classes GRAMMAR CHARACTER`: the classes that a character is in.
fn classes<S: Spec>(alloc: Global, field: &Field) -> Result<String, RowError> {
    let c = character(field)?;
    Ok(names(
        alloc,
        &[
            ("unreserved", is_unreserved::<S>(c)),
            ("reg-name", is_reg_name_char::<S>(c)),
            ("userinfo", is_userinfo_char::<S>(c)),
            ("pchar", is_pchar::<S>(c)),
            ("path", is_path_char::<S>(c)),
            ("query", is_query_char::<S>(c)),
            ("fragment", is_fragment_char::<S>(c)),
            ("any", is_any_char::<S>(c)),
        ],
    )?)
}

// `private GRAMMAR CHARACTER`: whether a character past ASCII is allowed in queries alone.
fn private<S: Spec>(alloc: Global, field: &Field) -> Result<String, RowError> {
    let is_private = S::is_nonascii_char_private(character(field)?);
    Ok(yes_or_no(alloc, is_private)?)
}

// What a text is tried as: a production of the grammar.
fn tried<S: Spec>(production: &str, text: &str) -> Result<Result<(), Error>, RowError> {
    match production {
        "scheme" => Ok(scheme(text)),
        "userinfo" => Ok(userinfo::<S>(text)),
        "host" => Ok(host::<S>(text)),
        "reg-name" => Ok(reg_name::<S>(text)),
        "port" => Ok(port(text)),
        "authority" => Ok(authority::<S>(text)),
        "path" => Ok(path::<S>(text)),
        "segment" => Ok(path_segment::<S>(text)),
        "query" => Ok(query::<S>(text)),
        "fragment" => Ok(fragment::<S>(text)),
        "whole" => Ok(iri::<S>(text)),
        "absolute" => Ok(absolute_iri::<S>(text)),
        "reference" => Ok(iri_reference::<S>(text)),
        "relative" => Ok(relative_ref::<S>(text)),
        _ => Err(RowError::NoRow),
    }
}

// `fault GRAMMAR PRODUCTION TEXT`: the first fault of a text, by its description, or `valid`.
fn fault<S: Spec>(alloc: Global, production: &Field, text: &Field) -> Result<String, RowError> {
    let word = match tried::<S>(production.text()?, text.text()?)? {
        Ok(()) => "valid",
        Err(error) => error.kind().description(),
    };
    Ok(String::from_str(alloc, word)?)
}

// `message GRAMMAR PRODUCTION TEXT`: the same as the error is displayed.
fn message<S: Spec>(alloc: Global, production: &Field, text: &Field) -> Result<String, RowError> {
    match tried::<S>(production.text()?, text.text()?)? {
        Ok(()) => Ok(String::from_str(alloc, "valid")?),
        Err(error) => Ok(displayed(alloc, &error)?),
    }
}

// `named GRAMMAR HOST`: whether a host is a registered name.
fn named<S: Spec>(alloc: Global, text: &str) -> Result<String, RowError> {
    match host::<S>(text) {
        Ok(()) => Ok(yes_or_no(alloc, host_is_reg_name::<S>(text))?),
        Err(_) => Err(RowError::NoRow),
    }
}

// `authority GRAMMAR TEXT`: the userinfo, the host and the port, with `-` for what is absent.
fn authority_parts<S: Spec>(alloc: Global, text: &str) -> Result<String, RowError> {
    match authority::<S>(text) {
        Ok(()) => {
            let parts = AuthoritySpan::of::<S>(text);
            let userinfo = parts.userinfo().unwrap_or("-");
            let port = parts.port().unwrap_or("-");
            Ok(spaced(alloc, &[userinfo, parts.host(), port])?)
        }
        Err(error) => Ok(String::from_str(alloc, error.kind().description())?),
    }
}

// `split GRAMMAR REFERENCE`: the five parts of a reference, with `-` for what is absent.
fn split<S: Spec>(alloc: Global, text: &Field) -> Result<String, RowError> {
    match Splitter::new::<S>(text.text()?) {
        Ok(parts) => {
            let scheme = parts.scheme().unwrap_or("-");
            let authority = parts.authority().unwrap_or("-");
            let query = parts.query().unwrap_or("-");
            let fragment = parts.fragment().unwrap_or("-");
            Ok(spaced(alloc, &[scheme, authority, parts.path(), query, fragment])?)
        }
        Err(error) => Ok(String::from_str(alloc, error.kind().description())?),
    }
}

// `notes GRAMMAR REFERENCE`: what the scan of a reference notes.
fn notes<S: Spec>(alloc: Global, text: &Field) -> Result<String, RowError> {
    match Splitter::new::<S>(text.text()?) {
        Ok(parts) => {
            let seen = parts.seen();
            Ok(names(
                alloc,
                &[
                    ("path-triplets", seen.path_triplets),
                    ("query-triplets", seen.query_triplets),
                    ("fragment-triplets", seen.fragment_triplets),
                    ("dots", seen.dots),
                    ("capitals", seen.capitals),
                    ("other-authority", seen.other_authority),
                ],
            )?)
        }
        Err(error) => Ok(String::from_str(alloc, error.kind().description())?),
    }
}

fn of_grammar<S: Spec>(alloc: Global, verb: &str, fields: &[Field]) -> Result<String, RowError> {
    match (verb, fields) {
        ("classes", [c]) => classes::<S>(alloc, c),
        ("private", [c]) => private::<S>(alloc, c),
        ("fault", [production, text]) => fault::<S>(alloc, production, text),
        ("message", [production, text]) => message::<S>(alloc, production, text),
        ("named", [text]) => named::<S>(alloc, text.text()?),
        ("authority", [text]) => authority_parts::<S>(alloc, text.text()?),
        ("split", [text]) => split::<S>(alloc, text),
        ("notes", [text]) => notes::<S>(alloc, text),
        _ => Err(RowError::NoRow),
    }
}

pub(crate) fn answer(alloc: Global, verb: &str, fields: &[Field]) -> Result<String, RowError> {
    let [grammar, rest @ ..] = fields else {
        return Err(RowError::NoRow);
    };
    in_grammar!(grammar, of_grammar(alloc, verb, rest))
}
