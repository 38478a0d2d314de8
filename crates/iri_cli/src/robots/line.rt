// What the lines of `robots` say.
ghost use Rattle.std.specs.Prelude.{◌≡◌};
ghost use Rattle.iri_cli.specs.robots.Lines.{line_of};
ghost use Rattle.iri_cli.specs.inside.RobotsSaid.{said};

// What a line says.
#[derive(Clone, Copy)]
pub(crate) enum Said<'a> {
    // A line of the robots file.
    Feeds(&'a [u8]),
    // Whether a crawler may fetch this reference.
    Asks(&'a [u8]),
    // Nothing of these.
    Bad,
}

// What a line says.
#[tactic(auto, unfolding(crate::specs::robots::Lines::line_of))]
pub(crate) fn line_of(line: &[u8]) -> Said<'_>
    ensures { said result ≡ line_of line.now }
{
    match line {
        [b'r', b' ', rest @ ..] => Said::Feeds(rest),
        [b'u', b' ', reference @ ..] => Said::Asks(reference),
        _ => Said::Bad,
    }
}
