//! Values with a text, shown to a sink, a slice or a string.

pub use iri_text::{
    Bytes, CapacityOverflowError, FormatSink, Show, SliceSink, Stop, StringSink, Text, TextSink,
    ToDedicatedString, ToStringFallible, show_each, show_five, show_four, show_three, show_two,
    try_append_to_string, write_at_start, write_to_slice,
};
