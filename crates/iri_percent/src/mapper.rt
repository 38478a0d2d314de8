// A sink that maps to URIs.
ghost use Rattle.std.specs.Prelude.{◌≡◌};

// Maps what is put to a URI, and writes it to another sink.
#[derive(Drop)]
pub(crate) struct Mapper<'s, W> {
    pub(crate) to: &'s mut W,
}

impl<'s, W> Mapper<'s, W> {
    pub(crate) fn new(to: &'s mut W) -> Mapper<'s, W>
        ensures same { result.to.ghost_name ≡ to.entry.ghost_name }
        ensures now { result.to.now ≡ to.old }
    {
        Mapper { to }
    }
}
