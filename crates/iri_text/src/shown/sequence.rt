// Things shown one after the other. A `show` of several pieces is one call of these.
ghost use Rattle.std.specs.Prelude.{◌++◌};
ghost use Rattle.std.specs.List.{flat_map};
ghost use Rattle.iri_text.specs.Shown.{Shows};

use crate::{Show, Stop, TextSink};

/// Shows two values in a row.
///
/// # Errors
///
/// As those of `Show::show`: the sink stopped within the text of both.
///
/// ```
/// use iri::format::{SliceSink, show_two};
/// let mut buffer = [0; 8];
/// let mut sink = SliceSink::new(&mut buffer);
/// assert!(rt; show_two(&mut sink, &"port ", &80u8).is_ok());
/// assert_eq!(rt; sink.as_str(), "port 80");
/// ```
pub fn show_two<A: Show, B: Show, W: TextSink>(sink: &mut W, a: &A, b: &B) -> Result<(), Stop>
    ensures { Shows W.puts W.halts W.stops sink.old (A.text a.now ++ B.text b.now) sink.new result }
{
    a.show(sink)?;
    b.show(sink)
}

/// Shows three values in a row.
///
/// # Errors
///
/// As those of `show_two`.
pub fn show_three<A: Show, B: Show, C: Show, W: TextSink>(
    sink: &mut W,
    a: &A,
    b: &B,
    c: &C,
) -> Result<(), Stop>
    ensures { Shows W.puts W.halts W.stops sink.old (A.text a.now ++ (B.text b.now ++ C.text c.now)) sink.new result }
{
    a.show(sink)?;
    show_two(sink, b, c)
}

/// Shows four values in a row.
///
/// # Errors
///
/// As those of `show_two`.
pub fn show_four<A: Show, B: Show, C: Show, D: Show, W: TextSink>(
    sink: &mut W,
    a: &A,
    b: &B,
    c: &C,
    d: &D,
) -> Result<(), Stop>
    ensures { Shows W.puts W.halts W.stops sink.old
        (A.text a.now ++ (B.text b.now ++ (C.text c.now ++ D.text d.now))) sink.new result }
{
    a.show(sink)?;
    show_three(sink, b, c, d)
}

/// Shows five values in a row.
///
/// # Errors
///
/// As those of `show_two`.
pub fn show_five<A: Show, B: Show, C: Show, D: Show, E: Show, W: TextSink>(
    sink: &mut W,
    a: &A,
    b: &B,
    c: &C,
    d: &D,
    e: &E,
) -> Result<(), Stop>
    ensures { Shows W.puts W.halts W.stops sink.old
        (A.text a.now ++ (B.text b.now ++ (C.text c.now ++ (D.text d.now ++ E.text e.now)))) sink.new result }
{
    a.show(sink)?;
    show_four(sink, b, c, d, e)
}

/// Shows all the values of a slice in a row.
///
/// # Errors
///
/// As those of `show_two`.
///
/// ```
/// use iri::format::{SliceSink, show_each};
/// let mut buffer = [0; 8];
/// let mut sink = SliceSink::new(&mut buffer);
/// assert!(rt; show_each(&mut sink, &["/a", "/b"]).is_ok());
/// assert_eq!(rt; sink.as_str(), "/a/b");
/// ```
pub fn show_each<T: Show, W: TextSink>(sink: &mut W, values: &[T]) -> Result<(), Stop>
    ensures { Shows W.puts W.halts W.stops sink.old (flat_map T.text values.now) sink.new result }
{
    for value in values {
        value.show(sink)?;
    }
    Ok(())
}
