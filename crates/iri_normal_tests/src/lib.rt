//! Tests of `iri_normal`, `iri_resolve` and `iri_edit` over their public calls: every join of five pieces of a path against the rewriting
//! of RFC 3986 section 5.2.4, every short text of dots and slashes against a stack of segments, sinks that are full, builders, refused
//! memory, code that is generic over their traits. Rows of the standards are those of `iri_normal_rows`. A crate with tests is proved
//! twice, so they stand apart from the libraries.
#![tactic(auto)]

#[cfg(test)]
mod by_scheme;
#[cfg(test)]
mod canonical;
#[cfg(test)]
mod edits;
#[cfg(test)]
mod generic;
#[cfg(test)]
mod normalized;
#[cfg(test)]
mod replay;
#[cfg(test)]
mod rewriting;
#[cfg(test)]
mod same;
#[cfg(test)]
mod segments;
#[cfg(test)]
mod shown_steps;
