//! The operators of expressions (RFC 6570 section 2.2), and what each writes besides values (section 3.2.1, appendix A).
ghost use Rattle.std.specs.Prelude.{◌≡◌};
ghost use Rattle.iri_template.specs.Expansion.{row_of, lead};
ghost use Rattle.iri_template.specs.Reading.{operator_at};

// What an expression begins with, and so how it is expanded (RFC 6570 section 3.2).
#[derive(Clone, Copy, Debug, PartialEq, Eq)]
pub(crate) enum Operator {
    // None: simple string expansion.
    Simple,
    // `+`: reserved characters and percent-encoded octets stay.
    Reserved,
    // `#`: a fragment.
    Fragment,
    // `.`: labels, each with a dot before it.
    Label,
    // `/`: segments of a path.
    PathSegment,
    // `;`: parameters of a path.
    PathParameter,
    // `?`: the query of a form.
    FormQuery,
    // `&`: what continues the query of a form.
    FormContinuation,
}

impl Operator {
    // The operator that this byte is.
    pub(crate) fn at(b: u8) -> Operator
        ensures { result ≡ operator_at b }
    {
        match b {
            b'+' => Operator::Reserved,
            b'#' => Operator::Fragment,
            b'.' => Operator::Label,
            b'/' => Operator::PathSegment,
            b';' => Operator::PathParameter,
            b'?' => Operator::FormQuery,
            b'&' => Operator::FormContinuation,
            _ => Operator::Simple,
        }
    }

    // The operator's first text, or its separator where a text was written before.
    pub(crate) fn lead(self, written: bool) -> &'static str
        ensures { result.now ≡ lead (row_of self) written }
    {
        match (self, written) {
            (Operator::Simple | Operator::Reserved, false) => "",
            (Operator::Simple | Operator::Reserved | Operator::Fragment, true) => ",",
            (Operator::Fragment, false) => "#",
            (Operator::Label, _) => ".",
            (Operator::PathSegment, _) => "/",
            (Operator::PathParameter, _) => ";",
            (Operator::FormQuery, false) => "?",
            (Operator::FormQuery | Operator::FormContinuation, true) => "&",
            (Operator::FormContinuation, false) => "&",
        }
    }

    // Whether names are written.
    pub(crate) fn is_named(self) -> bool
        ensures { result ≡ (row_of self).named }
    {
        matches!(
            self,
            Operator::PathParameter | Operator::FormQuery | Operator::FormContinuation
        )
    }

    // What follows the name of an empty string.
    pub(crate) fn if_empty(self) -> &'static str
        ensures { result.now ≡ (row_of self).ifemp }
    {
        match self {
            Operator::FormQuery | Operator::FormContinuation => "=",
            _ => "",
        }
    }

    // Whether reserved characters and percent-encoded octets stay.
    pub(crate) fn allows_reserved(self) -> bool
        ensures { result ≡ (row_of self).allow }
    {
        matches!(self, Operator::Reserved | Operator::Fragment)
    }
}
