// Texts and their components, shown as JSON. No character of them is escaped.
use iri_grammar::authority::AuthoritySpan;
use iri_grammar::spec::Spec;
use iri_grammar::splitter::Splitter;
use iri_text::{Show, Stop, TextSink, show_five, show_three};
use iri_types::kind::Iri;
use iri_types::split::SplitView;

// A member of an object after others, where it has a value. Its key stands with the comma before it and the quote after its colon.
#[derive(Clone, Copy)]
struct Member<'a> {
    key: &'a str,
    value: Option<&'a str>,
}

impl Show for Member<'_> {
    ghost use Rattle.iri_grammar.specs.OptionalSlices.{now_of};
    ghost use Rattle.iri_cli.specs.parts.Object.{member_text};

    ghost text = { λ m. member_text m.key.now (now_of m.value) };

    fn show<W: TextSink>(&self, sink: &mut W) -> Result<(), Stop> {
        match self.value {
            Some(value) => show_three(sink, &self.key, &value, &"\""),
            None => Ok(()),
        }
    }
}

// The members of an authority, where it stands.
#[derive(Clone, Copy)]
struct AuthorityMembers<'a> {
    authority: Option<&'a str>,
}

impl Show for AuthorityMembers<'_> {
    ghost use Rattle.iri_grammar.specs.OptionalSlices.{now_of};
    ghost use Rattle.iri_cli.specs.parts.Object.{authority_text};

    ghost text = { λ m. authority_text (now_of m.authority) };

    fn show<W: TextSink>(&self, sink: &mut W) -> Result<(), Stop> {
        let Some(authority) = self.authority else {
            return Ok(());
        };
        let span = AuthoritySpan::cut(authority);
        let userinfo = Member {
            key: ",\"userinfo\":\"",
            value: span.userinfo(),
        };
        let host = Member {
            key: ",\"host\":\"",
            value: Some(span.host()),
        };
        let port = Member {
            key: ",\"port\":\"",
            value: span.port(),
        };
        show_three(sink, &userinfo, &host, &port)
    }
}

// The members after the scheme's, and the end of the object.
#[derive(Clone, Copy)]
struct AfterScheme<'r, 'a> {
    parts: &'r Splitter<'a>,
}

impl Show for AfterScheme<'_, '_> {
    ghost use Rattle.iri_grammar.specs.Splitters.{parts};
    ghost use Rattle.iri_cli.specs.parts.Object.{after_scheme_text};

    ghost text = { λ m. after_scheme_text (parts m.parts.now) };

    fn show<W: TextSink>(&self, sink: &mut W) -> Result<(), Stop> {
        let authority = AuthorityMembers {
            authority: self.parts.authority(),
        };
        let path = Member {
            key: ",\"path\":\"",
            value: Some(self.parts.path()),
        };
        let query = Member {
            key: ",\"query\":\"",
            value: self.parts.query(),
        };
        let fragment = Member {
            key: ",\"fragment\":\"",
            value: self.parts.fragment(),
        };
        show_five(sink, &authority, &path, &query, &fragment, &"}\n")
    }
}

/// A text and its components, as an object and an LF.
#[derive(Drop)]
pub(crate) struct TakenApart<'a, S: Spec> {
    pub(crate) iri: SplitView<'a, S, Iri>,
}

impl<S: Spec> Show for TakenApart<'_, S> {
    ghost use Rattle.iri_grammar.specs.Split.{split_of};
    ghost use Rattle.iri_types.specs.SplitText.{split_text};
    ghost use Rattle.iri_cli.specs.parts.Object.{parts_text};

    ghost text = { λ t. parts_text (split_text t.iri) (split_of (split_text t.iri)) };

    fn show<W: TextSink>(&self, sink: &mut W) -> Result<(), Stop> {
        let parts = self.iri.parts();
        let scheme = Member {
            key: ",\"scheme\":\"",
            value: parts.scheme(),
        };
        show_five(
            sink,
            &"{\"text\":\"",
            &self.iri.view(),
            &"\"",
            &scheme,
            &AfterScheme { parts },
        )
    }
}
