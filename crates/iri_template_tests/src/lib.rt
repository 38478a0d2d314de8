//! Tests of `iri_template` and `iri_docs` over their public calls: contexts that change, values of each type, owned templates, documents
//! of JSON that is in memory, refused allocations. Rows are those of `iri_template_rows`. A crate with tests is proved twice, so they stand
//! apart from the libraries.
#![tactic(auto)]

#[cfg(test)]
mod contexts;
#[cfg(test)]
mod documents;
#[cfg(test)]
mod dynamic;
#[cfg(test)]
mod naive;
#[cfg(test)]
mod names;
#[cfg(test)]
mod same;
#[cfg(test)]
mod templates;
