//! The values of variables, in a map.

pub use iri_template::simple_context::{InsertError, SimpleContext};
pub use iri_template::value::{PairList, TextList, Value};
