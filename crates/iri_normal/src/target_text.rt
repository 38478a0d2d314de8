//! The target of a reference, shown as one text.
ghost use Rattle.iri_text.specs.Shown.{Shows};
ghost use Rattle.iri_types.specs.SplitText.{split_text};
ghost use Rattle.iri_grammar.specs.Parts.{recompose};
ghost use Rattle.iri_grammar.specs.Split.{split_of};
ghost use Rattle.iri_normal.specs.Resolver.{base_text};
ghost use Rattle.iri_normal.specs.Target.{target};

use crate::resolver::FixedBaseResolver;
use iri_grammar::spec::Spec;
use iri_text::{Show, Stop, TextSink};
use iri_types::kind::Reference;
use iri_types::split::SplitView;

/// Shows the target of a reference against a resolver's base (RFC 3986 section 5.2.2), with its dot segments and all else as it
/// stands. Allocates nothing.
///
/// # Errors
///
/// Only where the sink's count of stops rises; the sink has stopped within the text then.
///
/// ```
/// use iri::format::SliceSink;
/// use iri::resolve::{FixedBaseResolver, show_target};
/// use iri::spec::UriSpec;
/// use iri::types::{SplitView, UriAbsoluteStr};
/// let page = FixedBaseResolver::new(UriAbsoluteStr::new("HTTP://a/b/c")?);
/// let link = SplitView::<UriSpec, _>::new("../%7eg")?;
/// let mut buffer = [0; 32];
/// let mut sink = SliceSink::new(&mut buffer);
/// assert!(rt; show_target(&mut sink, &page, &link).is_ok());
/// assert_eq!(rt; sink.as_str(), "HTTP://a/b/../%7eg");
/// ```
pub fn show_target<'a, S: Spec, W: TextSink>(
    sink: &mut W,
    resolver: &FixedBaseResolver<'a, S>,
    reference: &SplitView<'a, S, Reference>,
) -> Result<(), Stop>
    ensures { Shows W.puts W.halts W.stops sink.old
        (recompose (target (split_of (base_text resolver.now)) (split_of (split_text reference.now)))) sink.new result }
{
    resolver.shown(reference, true).show(sink)
}
