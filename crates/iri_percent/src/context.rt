// The places of a reference that raw text is encoded for.
ghost use Rattle.std.specs.Prelude.{◌≡◌, ℕ};
ghost use Rattle.iri_grammar.specs.ClassTests.{class_test};
ghost use Rattle.iri_percent.specs.Encoding.{keeps};

use iri_grammar::class::Class;
use iri_grammar::spec::Spec;

#[derive(Clone, Copy)]
pub(crate) enum Context {
    RegName,
    // What comes before or after the first colon of a userinfo.
    UserOrPassword,
    PathSegment,
    Path,
    Query,
    Fragment,
    Unreserved,
    Any,
}

// The class of the characters that are kept. A userinfo has the colon beside those of a reg-name.
#[tactic(auto, using(crate::proofs::coding::EncodedRuns::user_is_reg_name))]
pub(crate) fn class_of<S: Spec>(context: Context) -> Class
    ensures { (c : ℕ) → class_test S.tests result c ≡ keeps S.tests context c }
{
    match context {
        Context::RegName => Class::RegName,
        Context::UserOrPassword => Class::RegName,
        Context::PathSegment => Class::Pchar,
        Context::Path => Class::Path,
        Context::Query => Class::Query,
        Context::Fragment => Class::Fragment,
        Context::Unreserved => Class::Unreserved,
        Context::Any => Class::Any,
    }
}
