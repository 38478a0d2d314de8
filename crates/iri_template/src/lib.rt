//! URI templates (RFC 6570): the grammar, template texts, values by name, and expansion (level 4).
//!
//! A [`UriTemplateStr`](template::UriTemplateStr) is a `&str` that is a template, with its
//! [`variables`](template::UriTemplateStr::variables); a [`UriTemplateString`](owned::UriTemplateString) owns one.
//! What is no template is refused with an [`Error`](error::Error), which has the kind of the first fault and its place
//! in bytes. A [`VarName`](var_name::VarName) is the name of a variable; a
//! [`SimpleContext`](simple_context::SimpleContext) maps names to values, which `value` has. `laws` says what holds of
//! the definitions.
//!
//! [`expand`](template::UriTemplateStr::expand) gives an [`Expanded`](expanded::Expanded), whose text is the expansion
//! with the values of a [`Context`](context::Context). A context tells the value of a name to a
//! [`Visitor`](visitor::Visitor), call by call; [`VisitValueNaive`](naive::VisitValueNaive) tells numbers, texts,
//! options, lists, sets and maps.
//!
//! Where values change while a template is expanded, a [`DynamicContext`](dynamic_context::DynamicContext) computes them
//! as they are asked for. [`expand_dynamic`](template::UriTemplateStr::expand_dynamic) writes the expansion to any sink,
//! [`expand_dynamic_to_string`](template::UriTemplateStr::expand_dynamic_to_string) gives it as a string. A
//! [`Fixed`](dynamic_context::Fixed) is such a context whose values stay those of a `Context`.
//!
//! Proved: bytes have no fault exactly where literals, percent-encoded octets and expressions spell them, and one list of
//! these does (`laws::no_fault_of_templates`); each constructor refuses exactly the other texts, with the first fault and
//! its place. `variables` gives the names from left to right, each as often as it stands there, and ends. An owned template
//! is one; what is joined is one; after an allocation failure it is as it was. `SimpleContext` is a map: `insert` answers
//! the old value, changes nothing where the key is no name, and hands key and value back where allocation fails. Equality,
//! order and hash of templates are those of their texts, and so is what is shown and displayed.
//!
//! `expand` refuses exactly where a varspec with a prefix has a list or an associative array that isn't empty, and
//! tells the first one's place before anything is written. The text of an `Expanded` is the definition's (`expansion`),
//! in whatever pieces a value puts its text; it allocates nothing, and where the sink stops, it stops within that text.
//! The conversions refuse exactly what is outside their production, and `try_into_text_within` what is longer.
//!
//! `expand_dynamic` visits each varspec twice: its value is looked at, and then written. Of a context that tells which value
//! comes at which call, the end is exact: all of the text was written; or the answer is `UnexpectedValueType` at the first
//! varspec with a prefix that was told a list or an associative array that isn't empty, at either visit, after exactly the
//! text before it; or it is `WriteFailed` at the varspec, or the literals and percent-encoded octets between expressions,
//! within whose text the sink stopped, after all text before it; no later varspec is visited then. Of any context:
//! `WriteFailed` comes only where the sink's count of stops rose, and no third refusal comes; the callbacks at the start and
//! at the end of an expansion are each called once, after a refusal too, where the context counts them.
//! `expand_dynamic_to_string` gives that text, and alone answers `Memory`, with the places of `WriteFailed`. With `Fixed`
//! both ways give the same text, or `UnexpectedValueType` at the same place (`laws::fixed_values`,
//! `laws::expanded_as_fixed`). Two values of each varspec alone decide what is written (`laws::numbered_calls`).
//!
//! Literals past ASCII are those of IRIs, `ucschar` and `iprivate`, whichever grammar an expansion is made for: where that
//! is the grammar of URIs, they become percent-encoded octets. Names, operators and lengths are ASCII.
//!
//! Not proved: the words of `CreateTemplateError`'s `Display`; that what takes memory gets it, which tests show with
//! ample memory; the text of `Debug`.
#![tactic(auto)]

mod byte_count;
pub mod context;
pub mod creation;
pub mod dynamic_context;
mod encoded_value;
pub mod error;
pub mod expanded;
mod expansion_writer;
mod fault;
mod held;
pub mod laws;
pub mod naive;
mod operator;
pub mod owned;
mod part;
mod parts;
pub mod simple_context;
pub mod template;
mod type_check;
pub mod value;
mod value_writer;
pub mod var_name;
pub mod variables;
mod varspec;
mod varspecs;
pub mod visitor;
