//! The parts of a template, from left to right (RFC 6570 section 2).
ghost use Rattle.std.proofs.Props.{props};
ghost use Rattle.iri_template.specs.Left.{IsRest};

use crate::part::{Part, read_part};

// The rest of a template, which has no fault.
#[derive(Debug, Drop)]
pub(crate) struct Parts<'a> {
    pub(crate) rest: &'a str,
    // How many bytes the template has.
    pub(crate) len: usize,
    pub ghost fine: { IsRest rest.now len } by { Prim.hlevel props },
}

impl<'a> Parts<'a> {
    ghost use Rattle.std.specs.Prelude.{◌≡◌, ◌-◌, length, MatchOption, None};
    ghost use Rattle.iri_template.specs.Fault.{text_fault};
    ghost use Rattle.iri_template.specs.inside.Parts.{IsFirst};

    // Those of a template with this text.
    pub(crate) fn of(text: &'a str) -> Self
        requires { text_fault text.now ≡ None }
        ensures rest { result.rest.now ≡ text.now }
        ensures len { result.len ≡ length text.now }
    {
        Parts {
            rest: text,
            len: text.len(),
        }
    }

    // How many bytes of the template stand before them.
    pub(crate) fn location(&self) -> usize
        ensures { result ≡ self.now.len - length self.now.rest.now }
    {
        self.len - self.rest.len()
    }

    // The first of them; none exactly where none is left.
    pub(crate) fn next(&mut self) -> Option<Part<'a>>
        ensures part { MatchOption result ((length self.old.rest.now ≡ 0) × (self.new ≡ self.old))
            (λ p. IsFirst p (self.old.len - length self.old.rest.now) self.old.rest.now self.new.rest.now) }
        ensures len { self.new.len ≡ self.old.len }
    {
        if self.rest.is_empty() {
            return None;
        }
        let (part, rest) = read_part(self.rest, self.location());
        *self = Parts {
            rest,
            len: self.len,
        };
        Some(part)
    }
}
