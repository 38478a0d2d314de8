// A sink over a formatter.
ghost use Rattle.std.specs.Prelude.{◌≡◌};

use std::fmt::Formatter;

/// A sink that writes what it takes to a formatter.
///
/// ```
/// use iri::format::FormatSink;
/// use iri::types::UriStr;
/// use std::fmt;
/// #[derive(Drop)]
/// struct Link<'a> {
///     target: UriStr<'a>,
/// }
/// impl fmt::Display for Link<'_> {
///     fn fmt<W: fmt::Write>(&self, f: &mut fmt::Formatter<W>) -> fmt::Result {
///         FormatSink::new(f).display(&self.target)
///     }
/// }
/// let link = Link { target: UriStr::new("http://a/b")? };
/// assert_eq!(rt; format!(in rt.alloc(); "<{link}>")?.as_str(), "<http://a/b>");
/// ```
#[derive(Drop)]
pub struct FormatSink<'f, W> {
    pub(crate) to: &'f mut Formatter<W>,
    pub(crate) stops: u64,
}

impl<'f, W> FormatSink<'f, W> {
    /// What is put goes to the formatter.
    pub fn new(to: &'f mut Formatter<W>) -> FormatSink<'f, W>
        ensures same { result.to.ghost_name ≡ to.entry.ghost_name }
        ensures now { result.to.now ≡ to.old }
        ensures stops { result.stops ≡ 0 }
    {
        FormatSink { to, stops: 0 }
    }
}
