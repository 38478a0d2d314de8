//! The varspecs of an expression, from left to right (RFC 6570 section 2.3).
ghost use Rattle.std.proofs.Props.{props};
ghost use Rattle.iri_template.specs.Left.{AreFine};

use crate::varspec::{VarSpec, read_varspec};
use iri_grammar::cutting::cut;

// The varspecs that are left of an expression, which have no fault.
#[derive(Debug, Drop)]
pub(crate) struct VarSpecs<'a> {
    // They are parted by commas; none where none is left.
    pub(crate) text: Option<&'a str>,
    // How many bytes of the template stand before the brace after them.
    pub(crate) end: usize,
    pub ghost fine: { AreFine text end } by { Prim.hlevel props },
}

impl<'a> VarSpecs<'a> {
    ghost use Rattle.std.specs.Prelude.{◌≡◌, None};
    ghost use Rattle.std.specs.Iterator.{YieldsFirstBy};
    ghost use Rattle.iri_template.specs.VarSpecs.{placed_of};
    ghost use Rattle.iri_template.specs.Variables.{varspecs_left};

    pub(crate) fn none() -> Self
        ensures { result.text ≡ None }
    {
        VarSpecs { text: None, end: 0 }
    }

    // The first of them; none exactly where none is left.
    pub(crate) fn next(&mut self) -> Option<VarSpec<'a>>
        ensures { YieldsFirstBy placed_of varspecs_left self.old result self.new }
    {
        match self.text {
            Some(text) => {
                let (first, others) = cut(text, b',');
                let location = self.end - text.len();
                *self = VarSpecs {
                    text: others,
                    end: self.end,
                };
                Some(read_varspec(first, location))
            }
            None => None,
        }
    }
}
