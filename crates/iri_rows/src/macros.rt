// Calls whose type arguments fields name.

/// A call with the grammar that a field names as its type argument.
#[macro_export]
macro_rules! in_grammar {
    ($grammar:expr, $call:ident($($argument:expr),*)) => {
        match $grammar.text()? {
            "uri" => $call::<iri_grammar::spec::UriSpec>($($argument),*),
            "iri" => $call::<iri_grammar::spec::IriSpec>($($argument),*),
            _ => Err($crate::error::RowError::NoRow),
        }
    };
}

/// A call with a grammar, and with the kind of text that a field names, as its type arguments.
#[macro_export]
macro_rules! in_kind {
    ($kind:expr, $call:ident::<$grammar:ty>($($argument:expr),*)) => {
        match $kind.text()? {
            "whole" => $call::<$grammar, iri_types::kind::Iri>($($argument),*),
            "absolute" => $call::<$grammar, iri_types::kind::Absolute>($($argument),*),
            "relative" => $call::<$grammar, iri_types::kind::Relative>($($argument),*),
            "reference" => $call::<$grammar, iri_types::kind::Reference>($($argument),*),
            _ => Err($crate::error::RowError::NoRow),
        }
    };
}
