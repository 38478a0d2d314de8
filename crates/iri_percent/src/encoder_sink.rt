// A sink that encodes.
ghost use Rattle.std.specs.Prelude.{◌≡◌};

use crate::context::Context;
use std::marker::PhantomData;

// Encodes what is put for a place of a reference, and writes it to another sink.
#[derive(Drop)]
pub(crate) struct Encoder<'s, S, W> {
    pub(crate) to: &'s mut W,
    pub(crate) context: Context,
    spec: PhantomData<S>,
}

impl<'s, S, W> Encoder<'s, S, W> {
    pub(crate) fn new(to: &'s mut W, context: Context) -> Encoder<'s, S, W>
        ensures same { result.to.ghost_name ≡ to.entry.ghost_name }
        ensures now { result.to.now ≡ to.old }
        ensures context { result.context ≡ context }
    {
        Encoder {
            to,
            context,
            spec: PhantomData,
        }
    }
}
