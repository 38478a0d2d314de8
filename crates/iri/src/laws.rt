//! Laws: functions that do nothing, whose contracts are facts about the definitions that the other contracts cite. A call
//! brings the fact into the proof of the function that makes it, and costs nothing.
//!
//! A module has the name of its definitions in `Rattle.iri.specs`; [`authority`] and [`mapping`] are of `grammar` and
//! `normal`.
//!
//! ```
//! use iri::laws::grammar::one_split;
//! use iri::spec::UriSpec;
//! use iri::types::UriReferenceStr;
//! // A text has one split, so what was put together of these parts has these parts.
//! one_split::<UriSpec>();
//! assert_eq!(rt; UriReferenceStr::new("//a/b?c")?.path_str(), "/b");
//! ```

pub use iri_docs::laws as docs;
pub use iri_edit::laws as edit;
pub use iri_grammar::{authority_laws as authority, laws as grammar};
pub use iri_link::laws as link;
pub use iri_normal::{laws as normal, mapping_laws as mapping};
pub use iri_percent::laws as percent;
pub use iri_register::laws as register;
pub use iri_resolve::laws as steps;
pub use iri_robots::laws as robots;
pub use iri_template::laws as template;
pub use iri_text::laws as text;
pub use iri_types::laws as types;
