// Values with a text, and sinks for it.
ghost use Rattle.std.specs.Prelude.{ℕ, List, string_bytes};
ghost use Rattle.iri_text.specs.Shown.{AreSinkLaws, Shows};

/// A sink took no more.
///
/// ```
/// use iri::format::{SliceSink, Stop, TextSink};
/// let mut buffer = [0; 2];
/// assert!(rt; matches!(SliceSink::new(&mut buffer).put("abc"), Err(Stop)));
/// ```
#[derive(Clone, Copy, Debug)]
pub struct Stop;

/// What takes text in pieces. It needn't keep what it took.
///
/// ```
/// use iri::format::{SliceSink, TextSink};
/// let mut buffer = [0; 16];
/// let mut sink = SliceSink::new(&mut buffer);
/// assert!(rt; sink.put("http:").is_ok());
/// assert!(rt; sink.put("//a/b").is_ok());
/// assert_eq!(rt; sink.as_str(), "http://a/b");
/// ```
pub trait TextSink {
    /// The text went in: the sink before, the text, the sink after.
    ghost puts: { Self → List ℕ → Self → Type 0 };

    /// The sink stopped somewhere in the text.
    ghost halts: { Self → List ℕ → Self → Type 0 };

    /// How often it has stopped, up to 2^64 - 1, where the count stays. It never falls.
    ghost stops: { Self → ℕ };

    /// Takes the whole piece.
    ///
    /// # Errors
    ///
    /// Only where the count of stops rises; the sink has stopped within the piece then.
    fn put(&mut self, piece: &str) -> Result<(), Stop>
        ensures { Shows puts halts stops self.old piece.now self.new result };

    /// What is put one after the other is put as one.
    ghost rules: { AreSinkLaws puts halts };
}

/// What has a text, and shows it without memory.
///
/// ```
/// use iri::format::{Show, SliceSink};
/// use iri::types::UriStr;
/// let mut buffer = [0; 32];
/// let mut sink = SliceSink::new(&mut buffer);
/// assert!(rt; UriStr::new("http://a/b")?.show(&mut sink).is_ok());
/// assert!(rt; 80u8.show(&mut sink).is_ok());
/// assert_eq!(rt; sink.as_str(), "http://a/b80");
/// ```
pub trait Show {
    /// The text, as its UTF-8 bytes.
    ghost text: { Self → List ℕ };

    /// Appends the text to the sink.
    ///
    /// # Errors
    ///
    /// Only where the sink's count of stops rises; the sink has stopped within the text then.
    fn show<W: TextSink>(&self, sink: &mut W) -> Result<(), Stop>
        ensures { Shows W.puts W.halts W.stops sink.old (text self.now) sink.new result };
}

impl<'a> Show for &'a str {
    ghost text = { λ s. s.now };

    fn show<W: TextSink>(&self, sink: &mut W) -> Result<(), Stop> {
        sink.put(self)
    }
}

impl Show for String {
    ghost text = { string_bytes };

    fn show<W: TextSink>(&self, sink: &mut W) -> Result<(), Stop> {
        sink.put(self.as_str())
    }
}
