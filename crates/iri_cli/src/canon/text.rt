// Canonical texts, shown and in a buffer.
ghost use Rattle.std.specs.Prelude.{◌≡◌, ◌≤◌, ◌+◌, length};
ghost use Rattle.iri_types.specs.SplitText.{split_text};
ghost use Rattle.iri_types.specs.Texts.{text};
ghost use Rattle.iri_normal.specs.NormalForm.{canonical_in};
ghost use Rattle.iri_normal.specs.Resolver.{base_text};

use iri_grammar::spec::Spec;
use iri_normal::canonical::show_canonical_in;
use iri_normal::mode::CanonMode;
use iri_normal::resolver::FixedBaseResolver;
use iri_text::{CapacityOverflowError, Show, Stop, TextSink, write_to_slice};
use iri_types::kind::Reference;
use iri_types::split::SplitView;
use iri_types::view::RiStr;

/// The canonical text of a reference against a resolver's base, by the rules of a mode.
#[derive(Drop)]
pub(crate) struct CanonicalText<'r, 'a, S: Spec> {
    pub(crate) mode: CanonMode,
    pub(crate) resolver: &'r FixedBaseResolver<'a, S>,
    pub(crate) reference: &'r SplitView<'a, S, Reference>,
}

impl<S: Spec> Show for CanonicalText<'_, '_, S> {
    ghost use Rattle.iri_types.specs.SplitText.{split_text};
    ghost use Rattle.iri_normal.specs.NormalForm.{canonical_in};
    ghost use Rattle.iri_normal.specs.Resolver.{base_text};

    ghost text = { λ c. canonical_in S.tests c.mode (base_text c.resolver.now) (split_text c.reference.now) };

    fn show<W: TextSink>(&self, sink: &mut W) -> Result<(), Stop> {
        show_canonical_in(sink, self.mode, self.resolver, self.reference)
    }
}

/// The canonical text of an accepted reference, by the rules of a mode, in a buffer that has room for it.
pub(crate) fn write_canonical<'b, 'a, S: Spec>(
    output: &'b mut [u8],
    mode: CanonMode,
    resolver: &FixedBaseResolver<'a, S>,
    reference: &SplitView<'a, S, Reference>,
) -> RiStr<'b, S>
    requires { length (base_text resolver.now) + length (split_text reference.now) + 3
        ≤ length output.old }
    ensures { text result ≡ canonical_in S.tests mode (base_text resolver.now)
        (split_text reference.now) }
{
    let canonical = CanonicalText {
        mode,
        resolver,
        reference,
    };
    match write_to_slice(output, &canonical) {
        Ok(text) => RiStr::from_valid(text),
        Err(CapacityOverflowError) => unreachable!(),
    }
}
