//! Tests of `iri_calls`, `iri_robots_calls` and `iri_run_calls` over their public calls. A crate with tests is proved twice, so they
//! stand apart from the libraries.
#![tactic(auto)]

#[cfg(test)]
mod calls;
#[cfg(test)]
mod robots;
#[cfg(test)]
mod runs;
