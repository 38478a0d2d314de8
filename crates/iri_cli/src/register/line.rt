// What the lines of `register` ask.
ghost use Rattle.std.specs.Prelude.{◌≡◌};
ghost use Rattle.iri_cli.specs.register.Lines.{line_of};
ghost use Rattle.iri_cli.specs.inside.Asked.{asked};

// What a line asks.
#[derive(Clone, Copy)]
pub(crate) enum Asked<'a> {
    // To put the line of this reference into its entry.
    Adds(&'a [u8]),
    // To take its entry out.
    Removes(&'a [u8]),
    // Where its entry stands.
    Finds(&'a [u8]),
    // Nothing of these.
    Bad,
}

// What a line asks.
#[tactic(auto, unfolding(crate::specs::register::Lines::line_of))]
pub(crate) fn line_of(line: &[u8]) -> Asked<'_>
    ensures { asked result ≡ line_of line.now }
{
    match line {
        [b'a', b' ', reference @ ..] => Asked::Adds(reference),
        [b'd', b' ', reference @ ..] => Asked::Removes(reference),
        [b'f', b' ', reference @ ..] => Asked::Finds(reference),
        _ => Asked::Bad,
    }
}
