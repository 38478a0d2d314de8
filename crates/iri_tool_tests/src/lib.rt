//! Tests of `iri_link`, `iri_robots`, `iri_register` and the runs of `iri_cli` over their public calls: laws, refused allocations,
//! devices that fail, long lines, links that come and go. Rows are those of `iri_tool_rows`. A crate with tests is proved twice, so they
//! stand apart from the libraries.
#![tactic(auto)]

#[cfg(test)]
mod link_fields;
#[cfg(test)]
mod register;
#[cfg(test)]
mod robots;
#[cfg(test)]
mod runs;
#[cfg(test)]
mod same;
