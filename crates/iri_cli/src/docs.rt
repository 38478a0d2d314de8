// The answers of `docs`.
ghost use Rattle.std.specs.Prelude.{◌++◌, ◌∷◌, []};
ghost use Rattle.iri_docs.specs.ErrorTexts.{description};
ghost use Rattle.iri_text.specs.LineEnds.{line_feed};
ghost use Rattle.iri_text.specs.Sink.{PutsAll, sink_state};

use crate::expand::put_template;
use crate::run::answers::{AnswerError, Answers, Setup};
use crate::run::puts::say_good;
use iri_docs::doc_error::DocError;
use iri_docs::expand::EXPANSION_LIMIT;
use iri_docs::read::read_document;
use iri_grammar::spec::Spec;
use iri_normal::mode::CanonMode;
use iri_normal::resolver::FixedBaseResolver;
use iri_text::{Failed, Sink};
use std::alloc::{AllocError, Global};

// Why a line is no document, and an LF.
fn put_refusal<O: Sink>(sink: &mut O, error: DocError) -> Result<(), Failed>
    ensures { let state = sink_state O.written O.faults O.room_left in
        PutsAll (state sink.old) (state sink.new) result (description error ++ line_feed ∷ []) }
{
    sink.put_all(error.description().as_bytes())?;
    sink.put_all(b"\n")
}

/// Answers each template document in JSON as `expand` answers its template, where variables have its values.
#[derive(Drop)]
pub struct Docs {
    alloc: Global,
    mode: CanonMode,
    expansion: Vec<u8>,
    output: Vec<u8>,
}

impl<S: Spec> Answers<S> for Docs {
    type Start = Setup;

    ghost use Rattle.std.specs.Prelude.{refl};
    ghost use Rattle.std.specs.Vec.{vec_capacity};
    ghost use Rattle.iri_cli.specs.inside.DocsAt.{IsDocsAt};
    ghost use Rattle.iri_cli.specs.docs.Rules.{docs_rules};

    ghost rules = { λ setup. docs_rules S.tests setup.mode };

    ghost begins = { λ setup. record { line_limit = refl; input_limit = refl; refusal = refl } };

    ghost stands_at = { λ d base at. IsDocsAt S.tests d.mode base d.expansion.items
        (vec_capacity d.output) at };

    fn open(
        setup: Setup,
        _resolver: &FixedBaseResolver<'_, S>,
        output: Vec<u8>,
    ) -> Result<Self, AllocError> {
        let Setup { alloc, mode } = setup;
        Ok(Docs {
            alloc,
            mode,
            expansion: vec![in alloc; 0; EXPANSION_LIMIT]?,
            output,
        })
    }

    fn answer<O: Sink>(
        &mut self,
        resolver: &FixedBaseResolver<'_, S>,
        line: &[u8],
        sink: &mut O,
    ) -> Result<bool, AnswerError> {
        match read_document(self.alloc, line) {
            Ok(document) => put_template::<S, O>(
                sink,
                &mut self.output,
                &mut self.expansion,
                self.mode,
                resolver,
                document.context(),
                document.template().as_bytes(),
            ),
            Err(error) => match error {
                DocError::Memory => Err(AnswerError::Memory),
                _ => say_good(false, put_refusal(sink, error)),
            },
        }
    }

    fn close<O: Sink>(&mut self, _sink: &mut O) -> Result<(), Failed> {
        Ok(())
    }
}
