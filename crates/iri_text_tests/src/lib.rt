//! Tests of `iri_text`, `iri_grammar`, `iri_types`, `iri_owned` and `iri_percent` over their public calls: sinks, sources, iterators, laws,
//! refused memory. Rows of the standards are those of `iri_text_rows`. A crate with tests is proved twice, so they stand apart from the
//! libraries.
#![tactic(auto)]

#[cfg(test)]
mod decode;
#[cfg(test)]
mod lines;
#[cfg(test)]
mod mapped;
#[cfg(test)]
mod memory_sink;
#[cfg(test)]
mod normal_forms;
#[cfg(test)]
mod numbers;
#[cfg(test)]
mod owned;
#[cfg(test)]
mod percent_encoded;
#[cfg(test)]
mod read_source;
#[cfg(test)]
mod same;
#[cfg(test)]
mod shown;
#[cfg(test)]
mod splice;
#[cfg(test)]
mod split;
#[cfg(test)]
mod told;
#[cfg(test)]
mod units;
#[cfg(test)]
mod views;
#[cfg(test)]
mod wholes;
#[cfg(test)]
mod write_sink;
