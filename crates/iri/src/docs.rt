//! Template documents in JSON.

pub use iri_docs::doc_error::DocError;
pub use iri_docs::document::Document;
pub use iri_docs::expand::{
    EXPANSION_LIMIT, expand_document, expand_document_against, expand_document_against_in,
    expand_document_in,
};
pub use iri_docs::expand_error::DocExpandError;
pub use iri_docs::read::{document_of, read_document};
pub use iri_docs::values::read_value;
pub use iri_docs::variables::{read_variable, read_variables};
