// Values with a text, and sinks for texts.

pub(crate) mod format;
pub(crate) mod format_sink;
pub(crate) mod number;
pub(crate) mod owned;
pub(crate) mod owned_text;
pub(crate) mod sequence;
pub(crate) mod show;
pub(crate) mod slice;
pub(crate) mod slice_sink;
pub(crate) mod string_sink;
