//! Passwords hidden, hosts and fragments changed in place, and whole texts built from parts (RFC 3986 sections 3.2, 3.5, 5.3 and
//! 7.5).
//!
//! `password` shows a view without its password ([`MaskPassword`](password::MaskPassword)), or with another text in its place;
//! `removal` takes it out of an owned text. `host` and `fragment` put another host or fragment into an owned text.
//! `shown_host` and `shown_removal` show a reference with another host, or without its password, and allocate nothing.
//! [`Builder`](builder::Builder) makes a text of each whole kind from parts, and tells the first part that is wrong.
//! `laws` says what else of a text an edit keeps.
//!
//! Proved: what is shown, and what an owned text becomes, is the text with that one part changed; a text without password, or
//! without authority, stays. An edited text stays in the production of its kind. A host is replaced exactly where an authority
//! stands, the new host is one of the grammar, and, for registered names, the old host is a name; otherwise nothing changes.
//! After allocation failure the text and its capacity are as they were; it comes only where what comes out is longer than the
//! capacity, which never becomes less. Passwords and fragments are taken out without memory. A
//! builder refuses exactly parts that make no text of the kind, with the first fault in the order of `build`, and otherwise
//! gives their recomposition, or that of their normal form where it is asked for and a scheme is set.
//!
//! Not proved: that a text with a replaced password is valid, which nobody promises; that the closure isn't called where no
//! password stands, which a test shows; that memory is allocated, which tests show.
#![tactic(auto)]

pub mod build_kind;
pub mod builder;
mod change;
pub mod fragment;
pub mod host;
pub mod laws;
pub mod password;
mod place;
mod recomposed;
pub mod removal;
pub mod shown_host;
pub mod shown_removal;
