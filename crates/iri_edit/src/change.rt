// Parts of an owned text changed in place.
ghost use Rattle.std.specs.Prelude.{◌≡◌, ◌≤◌, [], length, None};
ghost use Rattle.std.specs.Str.{IsCharBoundary};
ghost use Rattle.iri_owned.specs.Spliced.{spliced};
ghost use Rattle.iri_types.specs.Texts.{text};

use iri_grammar::spec::Spec;
use iri_owned::owned::Owned;
use iri_types::kind::{Kind, WholeKind};
use iri_types::view::{RiReferenceStr, View};

// The text as a reference.
pub(crate) fn reference_of<S: Spec, K: WholeKind>(owned: &Owned<S, K>) -> RiReferenceStr<'_, S>
    ensures text { text result ≡ owned.now.text }
    ensures valid { K.fault S.tests owned.now.text ≡ None }
{
    View::<'_, S, K>::from_valid(owned.as_str()).as_reference()
}

// Takes out what is between the two positions. Allocates nothing.
pub(crate) fn cut_out<S: Spec, K: Kind>(owned: &mut Owned<S, K>, start: usize, end: usize)
    requires ordered { start ≤ end }
    requires low { IsCharBoundary owned.old.text start }
    requires high { IsCharBoundary owned.old.text end }
    requires valid { K.fault S.tests (spliced owned.old.text start end []) ≡ None }
    ensures text { owned.new.text ≡ spliced owned.old.text start end [] }
    ensures capacity { owned.new.capacity ≡ owned.old.capacity }
{
    match owned.splice(start..end, "") {
        Ok(()) => (),
        Err(_) => unreachable!(),
    }
}

// Puts a text in the place of a range, where there is room for what comes out.
pub(crate) fn put_in_room<S: Spec, K: Kind>(
    owned: &mut Owned<S, K>,
    start: usize,
    end: usize,
    new: &str,
)
    requires ordered { start ≤ end }
    requires low { IsCharBoundary owned.old.text start }
    requires high { IsCharBoundary owned.old.text end }
    requires valid { K.fault S.tests (spliced owned.old.text start end new.now) ≡ None }
    requires room { length (spliced owned.old.text start end new.now) ≤ owned.old.capacity }
    ensures text { owned.new.text ≡ spliced owned.old.text start end new.now }
    ensures capacity { owned.old.capacity ≤ owned.new.capacity }
{
    match owned.splice(start..end, new) {
        Ok(()) => (),
        Err(_) => unreachable!(),
    }
}
