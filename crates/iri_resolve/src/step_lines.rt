// Lines that steps are written in.
ghost use Rattle.std.specs.Prelude.{◌≡◌};

// Steps in words, a line each, written to another sink.
#[derive(Drop)]
pub(crate) struct StepLines<'s, W> {
    pub(crate) to: &'s mut W,
}

impl<'s, W> StepLines<'s, W> {
    pub(crate) fn new(to: &'s mut W) -> StepLines<'s, W>
        ensures same { result.to.ghost_name ≡ to.entry.ghost_name }
        ensures now { result.to.now ≡ to.old }
    {
        StepLines { to }
    }
}
