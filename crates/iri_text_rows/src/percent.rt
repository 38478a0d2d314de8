// Percent-encoding: octets, normal forms, the mapping to URIs (RFC 3986 sections 2.1, 2.4 and 6.2.2; RFC 3987 section 3.1).
use iri_grammar::spec::Spec;
use iri_grammar::validate::{authority, host, query};
use iri_percent::canon_mode::default_port;
use iri_percent::{
    DecodeTextError, MappedKind, MappedToUri, NormalizedAuthority, NormalizedHost,
    PctCaseNormalized, PercentEncoded, decode_whatwg_bytes,
};
use iri_rows::answer::yes_or_no;
use iri_rows::error::RowError;
use iri_rows::field::Field;
use iri_rows::in_grammar;
use iri_text::ToStringFallible;
use iri_types::kind::{Absolute, Fragment, Iri, Query, Reference, Relative};
use iri_types::view::View;
use std::alloc::{AllocError, Global};

// `octets TEXT`: the octets that a text is decoded to.
fn octets(alloc: Global, text: &Field) -> Result<Vec<u8>, AllocError> {
    decode_whatwg_bytes(text.bytes()).into_bytes(alloc)
}

// `string TEXT`: the same as characters; `not UTF-8:` and the octets, where they aren't UTF-8.
fn string(alloc: Global, text: &Field) -> Result<Vec<u8>, AllocError> {
    match decode_whatwg_bytes(text.bytes()).into_string(alloc) {
        Ok(decoded) => Ok(decoded.into_bytes()),
        Err(DecodeTextError::NotUtf8(bytes)) => {
            let mut answer = String::from_str(alloc, "not UTF-8: ")?.into_bytes();
            answer.extend_from_slice(bytes.into_vec().as_slice())?;
            Ok(answer)
        }
        Err(DecodeTextError::Memory(error)) => Err(error),
    }
}

// `plain TEXT`: whether nothing is decoded, and the text is borrowed as it is.
fn plain(alloc: Global, text: &Field) -> Result<String, AllocError> {
    match decode_whatwg_bytes(text.bytes()).to_bytes() {
        Some(bytes) => yes_or_no(alloc, bytes == text.bytes()),
        None => yes_or_no(alloc, false),
    }
}

// The encoding of a text for a place.
fn encoder<'a, S: Spec>(place: &str, raw: &'a str) -> Result<PercentEncoded<&'a str, S>, RowError> {
    match place {
        "reg-name" => Ok(PercentEncoded::from_reg_name(raw)),
        "user" => Ok(PercentEncoded::from_user(raw)),
        "password" => Ok(PercentEncoded::from_password(raw)),
        "segment" => Ok(PercentEncoded::from_path_segment(raw)),
        "path" => Ok(PercentEncoded::from_path(raw)),
        "query" => Ok(PercentEncoded::from_query(raw)),
        "fragment" => Ok(PercentEncoded::from_fragment(raw)),
        "unreserved" => Ok(PercentEncoded::unreserve(raw)),
        "characters" => Ok(PercentEncoded::characters(raw)),
        _ => Err(RowError::NoRow),
    }
}

// `encoded GRAMMAR PLACE TEXT`: a text encoded for a place.
fn encoded<S: Spec>(alloc: Global, place: &Field, raw: &Field) -> Result<String, RowError> {
    let encoder = encoder::<S>(place.text()?, raw.text()?)?;
    Ok(encoder.try_to_string(alloc)?)
}

// `part GRAMMAR TEXT`: the normal form of a query's percent-encoded octets.
fn part<S: Spec>(alloc: Global, text: &str) -> Result<String, RowError> {
    match query::<S>(text) {
        Ok(()) => Ok(PctCaseNormalized::<S>::new(text).try_to_string(alloc)?),
        Err(_) => Ok(String::from_str(alloc, "no query")?),
    }
}

// `host GRAMMAR TEXT`: the normal form of a host.
fn normal_host<S: Spec>(alloc: Global, text: &str) -> Result<String, RowError> {
    match host::<S>(text) {
        Ok(()) => Ok(NormalizedHost::<S>::new(text).try_to_string(alloc)?),
        Err(_) => Ok(String::from_str(alloc, "no host")?),
    }
}

// `authority GRAMMAR TEXT PORT`: the normal form of an authority, without this port.
fn normal_authority<S: Spec>(
    alloc: Global,
    text: &str,
    dropped: Option<&str>,
) -> Result<String, RowError> {
    match authority::<S>(text) {
        Ok(()) => Ok(NormalizedAuthority::<S>::new(text, dropped).try_to_string(alloc)?),
        Err(_) => Ok(String::from_str(alloc, "no authority")?),
    }
}

// `default_port SCHEME`: the default port of a scheme.
fn port_of(alloc: Global, scheme: &Field) -> Result<String, RowError> {
    Ok(String::from_str(alloc, default_port(scheme.text()?).unwrap_or("-"))?)
}

// `dropped_port MODE SCHEME`: the port that the mode drops; a scheme may be absent.
fn dropped_port(alloc: Global, by: &Field, scheme: &Field) -> Result<String, RowError> {
    let port = by.mode()?.dropped_port(scheme.optional()?).unwrap_or("-");
    Ok(String::from_str(alloc, port)?)
}

fn mapped_of<S: Spec, K: MappedKind>(alloc: Global, text: &Field) -> Result<String, RowError> {
    let view: View<'_, S, K> = text.view()?;
    Ok(MappedToUri::of(view).try_to_string(alloc)?)
}

// `mapped GRAMMAR KIND TEXT`: a text mapped to a URI.
fn mapped<S: Spec>(alloc: Global, kind: &Field, text: &Field) -> Result<String, RowError> {
    match kind.text()? {
        "reference" => mapped_of::<S, Reference>(alloc, text),
        "whole" => mapped_of::<S, Iri>(alloc, text),
        "absolute" => mapped_of::<S, Absolute>(alloc, text),
        "relative" => mapped_of::<S, Relative>(alloc, text),
        "query" => mapped_of::<S, Query>(alloc, text),
        "fragment" => mapped_of::<S, Fragment>(alloc, text),
        _ => Err(RowError::NoRow),
    }
}

fn of_grammar<S: Spec>(alloc: Global, verb: &str, fields: &[Field]) -> Result<String, RowError> {
    match (verb, fields) {
        ("encoded", [place, raw]) => encoded::<S>(alloc, place, raw),
        ("part", [text]) => part::<S>(alloc, text.text()?),
        ("host", [text]) => normal_host::<S>(alloc, text.text()?),
        ("authority", [text, port]) => {
            normal_authority::<S>(alloc, text.text()?, port.optional()?)
        }
        ("mapped", [kind, text]) => mapped::<S>(alloc, kind, text),
        _ => Err(RowError::NoRow),
    }
}

// What answers in characters.
fn words(alloc: Global, verb: &str, fields: &[Field]) -> Result<String, RowError> {
    match (verb, fields) {
        ("plain", [text]) => Ok(plain(alloc, text)?),
        ("default_port", [scheme]) => port_of(alloc, scheme),
        ("dropped_port", [by, scheme]) => dropped_port(alloc, by, scheme),
        (_, [grammar, rest @ ..]) => in_grammar!(grammar, of_grammar(alloc, verb, rest)),
        _ => Err(RowError::NoRow),
    }
}

pub(crate) fn answer(alloc: Global, verb: &str, fields: &[Field]) -> Result<Vec<u8>, RowError> {
    match (verb, fields) {
        ("octets", [text]) => Ok(octets(alloc, text)?),
        ("string", [text]) => Ok(string(alloc, text)?),
        _ => Ok(words(alloc, verb, fields)?.into_bytes()),
    }
}
