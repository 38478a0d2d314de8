//! Owned texts as their texts: equal, ordered, hashed, shown.
ghost use Rattle.std.specs.Prelude.{refl, Some};
ghost use Rattle.std.proofs.Common.{rules};
ghost use Rattle.std.specs.Cmp.{partial_equiv_from_equiv};
ghost use Rattle.std.specs.Cmp.Rules.{hashing};
ghost use Rattle.std.specs.Hash as fed;
ghost use Rattle.iri_owned.specs.OwnedText.{text_eq, text_cmp};
ghost use Rattle.iri_owned.specs.Laws.{text_eq_equiv, text_cmp_total, text_ties, text_po};

use crate::owned::Owned;
use iri_grammar::spec::Spec;
use iri_text::{FormatSink, Show, Stop, TextSink};
use iri_types::kind::Kind;
use std::cmp::Ordering;
use std::fmt;
use std::hash::{Hash, Hasher};

impl<S: Spec, K: Kind> PartialEq for Owned<S, K> {
    ghost eq = { text_eq };

    ghost laws = { partial_equiv_from_equiv text_eq_equiv };

    fn eq(&self, other: &Self) -> bool {
        self.as_str() == other.as_str()
    }
}

impl<S: Spec, K: Kind> Eq for Owned<S, K> {
    ghost laws = { text_eq_equiv };
}

impl<S: Spec, K: Kind> PartialOrd for Owned<S, K> {
    ghost partial_cmp = { λ x y. Some (text_cmp x y) };

    ghost laws = { text_po };

    fn partial_cmp(&self, other: &Self) -> Option<Ordering> {
        Some(self.cmp(other))
    }
}

impl<S: Spec, K: Kind> Ord for Owned<S, K> {
    ghost cmp = { text_cmp };

    ghost total = { text_cmp_total };

    ghost matches_partial_cmp = { λ x y. refl };

    ghost matches_eq = { text_ties };

    fn cmp(&self, other: &Self) -> Ordering {
        self.as_str().cmp(other.as_str())
    }
}

impl<S: Spec, K: Kind> Hash for Owned<S, K> {
    ghost hash_input = { λ t. fed.str t.text };

    ghost respects_eq = { Prim.search (hashing, rules) };

    fn hash<H: Hasher>(&self, state: &mut H) {
        self.as_str().hash(state);
    }
}

impl<S: Spec, K: Kind> Show for Owned<S, K> {
    ghost text = { λ t. t.text };

    fn show<W: TextSink>(&self, sink: &mut W) -> Result<(), Stop> {
        sink.put(self.as_str())
    }
}

impl<S: Spec, K: Kind> fmt::Display for Owned<S, K> {
    ghost output = { λ t. Some t.text };

    ghost styled_output = { λ t _. Some t.text };

    fn fmt<W: fmt::Write>(&self, f: &mut fmt::Formatter<W>) -> fmt::Result {
        FormatSink::new(f).display(self)
    }
}
