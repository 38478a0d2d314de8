//! Sources and sinks of bytes, and the lines of a source.

pub use iri_text::{
    Failed, LARGEST_LINE_LIMIT, LineFault, LineReader, MemorySink, MemorySource, PlainSource,
    ReadSource, Sink, Source, WriteSink,
};
