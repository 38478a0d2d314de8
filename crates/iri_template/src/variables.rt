//! The variables of a template.
ghost use Rattle.std.specs.Prelude.{◌≡◌, None};
ghost use Rattle.iri_template.specs.Fault.{text_fault};
ghost use Rattle.iri_template.specs.Places.{placed_pieces};
ghost use Rattle.iri_template.specs.Reading.{pieces_of};
ghost use Rattle.iri_template.specs.Template.{names_of};

use crate::parts::Parts;
use crate::var_name::VarName;
use crate::varspec::VarSpec;
use crate::varspecs::VarSpecs;
use std::alloc::AllocError;

/// The names of a template's variables, from left to right, each as often as it stands there.
///
/// ```
/// use iri::template::UriTemplateStr;
/// let mut names = UriTemplateStr::new("/{owner}{?q}")?.variables();
/// assert_eq!(rt; names.next().ok_or("a name")?.as_str(), "owner");
/// assert_eq!(rt; names.next().ok_or("a name")?.as_str(), "q");
/// assert!(rt; names.next().is_none());
/// ```
#[derive(Debug, Drop)]
pub struct UriTemplateVariables<'a> {
    // What is left of an expression.
    pub(crate) varspecs: VarSpecs<'a>,
    // The parts that follow it.
    pub(crate) parts: Parts<'a>,
}

impl Clone for UriTemplateVariables<'_> {
    ghost is_clone = { λ v w. (w.varspecs.text ≡ v.varspecs.text) × (w.varspecs.end ≡ v.varspecs.end)
        × (w.parts.rest ≡ v.parts.rest) × (w.parts.len ≡ v.parts.len) };

    ghost is_infallible = { λ _. Unit {0} };

    fn clone(&self) -> Result<Self, AllocError> {
        Ok(UriTemplateVariables {
            varspecs: VarSpecs {
                text: self.varspecs.text,
                end: self.varspecs.end,
            },
            parts: Parts {
                rest: self.parts.rest,
                len: self.parts.len,
            },
        })
    }
}

impl<'a> UriTemplateVariables<'a> {
    ghost use Rattle.std.specs.Iterator.{YieldsFirstBy};
    ghost use Rattle.iri_template.specs.VarSpecs.{placed_of};
    ghost use Rattle.iri_template.specs.Variables.{names_left, places_left, placed_left};

    // The variables of a template with this text.
    #[tactic(auto, using(crate::proofs::PlacedNames::placed_are_names))]
    pub(crate) fn of(text: &'a str) -> Self
        requires { text_fault text.now ≡ None }
        ensures placed { placed_left result ≡ placed_pieces 0 (pieces_of text.now) }
        ensures names { names_left result ≡ names_of (pieces_of text.now) }
    {
        UriTemplateVariables {
            varspecs: VarSpecs::none(),
            parts: Parts::of(text),
        }
    }

    // The next varspec; none exactly where every one was given.
    pub(crate) fn next_varspec(&mut self) -> Option<VarSpec<'a>>
        ensures { YieldsFirstBy placed_of placed_left self.old result self.new }
    {
        'parts: loop {
            if let Some(varspec) = self.varspecs.next() {
                return Some(varspec);
            }
            self.varspecs = self.parts.next()?.varspecs();
        }
    }

    /// The next name, and how many bytes of the template stand before it; `None` exactly where every name was given.
    ///
    /// ```
    /// use iri::template::UriTemplateStr;
    /// let mut variables = UriTemplateStr::new("/{?q*,lang}")?.variables();
    /// let (place, name) = variables.next_with_place().ok_or("a name")?;
    /// assert_eq!(rt; (place, name.as_str()), (3, "q"));
    /// let (place, name) = variables.next_with_place().ok_or("a name")?;
    /// assert_eq!(rt; (place, name.as_str()), (6, "lang"));
    /// ```
    pub fn next_with_place(&mut self) -> Option<(usize, VarName<'a>)>
        ensures { YieldsFirstBy (λ p. (p.0, p.1.text.now)) places_left self.old result self.new }
    {
        match self.next_varspec() {
            Some(varspec) => Some((varspec.location, varspec.name)),
            None => None,
        }
    }
}

impl<'a> Iterator for UriTemplateVariables<'a> {
    type Item = VarName<'a>;

    ghost use Rattle.std.specs.Iterator.{item_count};
    ghost use Rattle.iri_template.specs.Variables.{names_left, GivesName};

    ghost next_gives = { GivesName };

    ghost remaining = { item_count names_left };

    /// The next name, which goes with its place; `None` exactly where every name was given.
    fn next(&mut self) -> Option<VarName<'a>> {
        match self.next_with_place() {
            Some((_, name)) => Some(name),
            None => None,
        }
    }
}
