//! The laws of documents.
ghost use Rattle.std.specs.Prelude.{◌≡◌, Err};
ghost use Rattle.serde_json.specs.Data.{Members};
ghost use Rattle.iri_docs.specs.Documents.{variables};
ghost use Rattle.iri_docs.specs.FirstFault.{HasFirstFault};
ghost use Rattle.iri_docs.specs.declared.doc_error.DocError.{DocError};

/// The fault of variables is that of the first one that has a fault; those before it have none.
pub fn first_fault_of_variables()
    ensures { (ms : Members) (e : DocError) → variables ms ≡ Err e → HasFirstFault ms e }
{}
