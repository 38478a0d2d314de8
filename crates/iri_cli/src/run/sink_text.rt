// A sink of texts at the end of a sink of bytes.
ghost use Rattle.std.specs.Prelude.{◌≡◌};

// What is put goes to the sink of bytes. It stops where that fails.
#[derive(Drop)]
pub(crate) struct SinkText<'b, O> {
    pub(crate) to: &'b mut O,
}

impl<'b, O> SinkText<'b, O> {
    pub(crate) fn new(to: &'b mut O) -> SinkText<'b, O>
        ensures same { result.to.ghost_name ≡ to.entry.ghost_name }
        ensures now { result.to.now ≡ to.old }
    {
        SinkText { to }
    }
}
