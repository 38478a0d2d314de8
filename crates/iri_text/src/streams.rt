// Sources and sinks of bytes, and the lines of a source.

pub(crate) mod memory;
pub(crate) mod memory_sink;
pub(crate) mod memory_source;
pub(crate) mod plain_source;
pub(crate) mod read_source;
pub(crate) mod reader;
pub(crate) mod write_sink;
