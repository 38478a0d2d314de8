use crate::same::same;
use iri_grammar::spec::{IriSpec, Spec, UriSpec};
use iri_grammar::splitter::Splitter;
use iri_grammar::validate::{iri, iri_reference, relative_ref};
use iri_grammar::{authority_laws, laws};

#[test]
fn splits_what_was_validated(rt: HostRuntime) {
    let text = "foo://example.com:8042/over/there?name=ferret#nose";
    match iri_reference::<IriSpec>(text) {
        Ok(()) => {
            let parts = Splitter::of::<IriSpec>(text);
            same(&rt, parts.scheme(), Some("foo"));
            same(&rt, parts.authority(), Some("example.com:8042"));
            same(&rt, Some(parts.path()), Some("/over/there"));
            same(&rt, parts.query(), Some("name=ferret"));
            same(&rt, parts.fragment(), Some("nose"));
        }
        Err(e) => same(&rt, Some(e.kind()), None),
    }
    match Splitter::new::<IriSpec>("a#b?c") {
        Ok(parts) => {
            same(&rt, parts.query(), None);
            same(&rt, parts.fragment(), Some("b?c"));
        }
        Err(e) => same(&rt, Some(e.kind()), None),
    }
}

// The laws of one spec, where they speak of it.
fn laws_of<S: Spec>() {
    laws::one_split::<S>();
    laws::iri_or_relative::<S>();
    laws::no_fault_of_wholes::<S>();
    laws::no_fault_of_authorities::<S>();
    laws::no_fault_of_components::<S>();
    laws::uri_wholes_within::<S>();
    laws::uri_components_within::<S>();
    authority_laws::over_is_units::<S>();
    authority_laws::one_reading::<S>();
}

#[test]
fn what_the_laws_say(rt: HostRuntime) {
    laws_of::<UriSpec>();
    laws_of::<IriSpec>();
    laws::utf8_and_chars();
    authority_laws::ipv6_is_groups();
    assert!(rt; iri::<UriSpec>("g").is_err() && relative_ref::<IriSpec>("g").is_ok());
}
