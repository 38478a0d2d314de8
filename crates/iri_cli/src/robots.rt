// The answers of `robots`.
ghost use Rattle.std.specs.Prelude.{◌≡◌, ◌↔◌, ◌++◌, ◌∷◌, [], Bool, true, None, Err, IfOk, OnOk, string_bytes};
ghost use Rattle.iri_grammar.specs.Fault.{bytes_fault};
ghost use Rattle.iri_robots.specs.FileLines.{is_token};
ghost use Rattle.iri_grammar.specs.Split.{split_of};
ghost use Rattle.iri_grammar.specs.WholeFault.{iri_fault, reference_fault};
ghost use Rattle.iri_normal.specs.NormalForm.{canonical_in};
ghost use Rattle.iri_normal.specs.Resolver.{base_text};
ghost use Rattle.iri_text.specs.LineEnds.{line_feed};
ghost use Rattle.iri_text.specs.Sink.{sink_state};
ghost use Rattle.iri_types.specs.SplitText.{split_text};
ghost use Rattle.iri_types.specs.Texts.{text};
ghost use Rattle.iri_robots.specs.Compared.{subject};
ghost use Rattle.iri_robots.specs.Decided.{is_allowed};
ghost use Rattle.iri_robots.specs.Records.{rules_for};
ghost use Rattle.iri_robots.specs.Stored.{record_texts};
ghost use Rattle.iri_cli.specs.robots.Answers.{answer_to, normal_base, verdict_word};
ghost use Rattle.iri_cli.specs.robots.Lines.{asks};
ghost use Rattle.iri_cli.specs.inside.RobotsAt.{PutsReply};
ghost use Rattle.iri_cli.specs.inside.Sites.{IsSiteOf, is_of_site};
ghost use Rattle.iri_cli.specs.robots.Rules.{robots_rules};
ghost use Rattle.iri_cli.specs.declared.run.answers.AnswerError.TheVariants.{Memory};
ghost use Rattle.iri_cli.specs.run.Run.{RunsLines, outside_state};

pub(crate) mod line;
pub(crate) mod sites;

use crate::robots::line::{Said, line_of};
use crate::robots::sites::Site;
use crate::run::MEMORY;
use crate::run::answers::{AnswerError, Answers, Setup};
use crate::run::buffers::CanonBuffers;
use crate::run::opening::run_lines;
use crate::run::puts::{put_bad, put_bad_line, put_line, say_good};
use iri_grammar::spec::Spec;
use iri_normal::mode::CanonMode;
use iri_normal::resolver::FixedBaseResolver;
use iri_robots::{Robots, RobotsError, Verdict, subject_of_split};
use iri_text::{Failed, Sink, Source};
use iri_types::kind::Reference;
use iri_types::split::SplitView;
use iri_types::view::RiStr;
use std::alloc::AllocError;

/// The crawler of a product token, which was fed no line of a robots file.
#[derive(Drop)]
pub struct Crawler {
    setup: Setup,
    robots: Robots,
    ghost unfed: { robots.records.items ≡ [] },
}

impl Crawler {
    /// The crawler of this token. It fails on allocation failure alone.
    pub(crate) fn new(setup: Setup, token: &str) -> Result<Self, AllocError>
        requires { is_token token.now ≡ true }
        ensures { IfOk result (λ c. (c.setup.mode ≡ setup.mode)
            × (string_bytes c.robots.token ≡ token.now)) }
    {
        match Robots::new(setup.alloc, token) {
            Ok(robots) => Ok(Crawler { setup, robots }),
            Err(RobotsError::Memory(error)) => Err(error),
            Err(RobotsError::Token) => unreachable!(),
        }
    }
}

// The word for a verdict on a target of the site.
fn word_for(verdict: Verdict) -> &'static str
    ensures { (allowed : Bool) → (verdict ≡ Verdict.Allow) ↔ (allowed ≡ true) → result.now ≡ verdict_word true allowed }
{
    match verdict {
        Verdict::Allow => "allow ",
        Verdict::Disallow => "disallow ",
    }
}

// The word before a target.
fn verdict_word<S: Spec>(site: &Site, target: RiStr<'_, S>) -> Result<&'static str, AllocError>
    ensures { IfOk result (λ word. word.now ≡ verdict_word
        (is_of_site site.now.scheme site.now.authority (split_of (text target.entry)))
        (is_allowed (rules_for (string_bytes site.now.robots.token)
        (record_texts site.now.robots.records.items)) (subject (split_of (text target.entry))))) }
{
    if let Some(subject) = site.subject(target.as_str()) {
        return Ok(word_for(site.robots.verdict(subject)));
    }
    let target = SplitView::of(target);
    if !site.has(&target) {
        return Ok("other ");
    }
    match subject_of_split(site.alloc, &target) {
        Ok(subject) => Ok(word_for(site.robots.verdict(subject.as_str()))),
        Err(error) => Err(error),
    }
}

// Puts the answer to a target.
fn put_verdict<S: Spec, O: Sink>(
    sink: &mut O,
    site: &Site,
    target: RiStr<'_, S>,
) -> Result<bool, AnswerError>
    ensures { let state = sink_state O.written O.faults O.room_left in
        PutsReply (state sink.old) (state sink.new) (verdict_word
        (is_of_site site.now.scheme site.now.authority (split_of (text target.entry)))
        (is_allowed (rules_for (string_bytes site.now.robots.token)
        (record_texts site.now.robots.records.items)) (subject (split_of (text target.entry))))
        ++ (text target.entry ++ line_feed ∷ [])) result }
{
    match verdict_word(site, target) {
        Ok(word) => say_good(true, put_line(sink, word, target.as_str())),
        Err(_) => Err(AnswerError::Memory),
    }
}

/// Writes the canonical text of a reference by the rules of a mode in place of what the buffer holds.
pub(crate) fn write_target<'a, S: Spec>(
    buffer: &mut String,
    mode: CanonMode,
    resolver: &FixedBaseResolver<'a, S>,
    reference: &SplitView<'a, S, Reference>,
) -> Result<(), AllocError>
    ensures text { OnOk result (string_bytes buffer.new
        ≡ canonical_in S.tests mode (base_text resolver.now) (split_text reference.now)) }
    ensures valid { OnOk result (iri_fault S.tests (string_bytes buffer.new) ≡ None) }
{
    buffer.clear();
    resolver.canonical_into_in(buffer, mode, reference)
}

// Puts the answer to a reference, whose canonical text comes into the buffer.
#[tactic(auto, using(crate::proofs::RobotsLemmas::same_site_by))]
fn put_answer<S: Spec, O: Sink>(
    sink: &mut O,
    resolver: &FixedBaseResolver<'_, S>,
    site: &Site,
    buffer: &mut String,
    reference: &[u8],
) -> Result<bool, AnswerError>
    requires { IsSiteOf site.now.scheme site.now.authority
        (split_of (normal_base S.tests site.now.mode (base_text resolver.now))) }
    ensures reply { let state = sink_state O.written O.faults O.room_left in
        PutsReply (state sink.old) (state sink.new)
        (answer_to S.tests site.now.mode (string_bytes site.now.robots.token) (base_text resolver.now)
        (record_texts site.now.robots.records.items) (asks reference.now)) result }
    ensures memory { result ≡ Err Memory → bytes_fault (reference_fault S.tests) reference.now ≡ None }
{
    match SplitView::<S, Reference>::try_from_bytes(reference) {
        Ok(reference) => match write_target(buffer, site.mode, resolver, &reference) {
            Ok(()) => put_verdict(sink, site, RiStr::<S>::from_valid(buffer)),
            Err(_) => Err(AnswerError::Memory),
        },
        Err(error) => say_good(false, put_bad(sink, error.kind().description())),
    }
}

/// Answers each line by the rules of a robots file for one crawler.
#[derive(Drop)]
pub struct Crawls {
    site: Site,
    // The canonical text of the last reference.
    target: String,
}

impl<S: Spec> Answers<S> for Crawls {
    type Start = Crawler;

    ghost use Rattle.std.specs.Prelude.{refl, string_bytes};
    ghost use Rattle.iri_robots.specs.Stored.{record_texts};
    ghost use Rattle.iri_cli.specs.inside.RobotsAt.{IsRobotsAt};
    ghost use Rattle.iri_cli.specs.robots.Rules.{robots_rules};

    ghost rules = { λ crawler. robots_rules S.tests crawler.setup.mode (string_bytes crawler.robots.token) };

    ghost begins = { λ crawler. record { line_limit = refl; input_limit = refl; refusal = refl } };

    ghost stands_at = { λ c base at. IsRobotsAt S.tests c.site.mode (string_bytes c.site.robots.token)
        base c.site.scheme c.site.authority (record_texts c.site.robots.records.items) at };

    fn open(
        crawler: Crawler,
        resolver: &FixedBaseResolver<'_, S>,
        _output: Vec<u8>,
    ) -> Result<Self, AllocError> {
        let Crawler { setup, robots } = crawler;
        let mut target = String::new(setup.alloc);
        Ok(Crawls {
            site: Site::new(setup, &mut target, resolver, robots)?,
            target,
        })
    }

    fn answer<O: Sink>(
        &mut self,
        resolver: &FixedBaseResolver<'_, S>,
        line: &[u8],
        sink: &mut O,
    ) -> Result<bool, AnswerError> {
        match line_of(line) {
            Said::Feeds(line) => match self.site.robots.feed_line(line) {
                Ok(()) => Ok(true),
                Err(_) => Err(AnswerError::Memory),
            },
            Said::Asks(reference) => {
                put_answer(sink, resolver, &self.site, &mut self.target, reference)
            }
            Said::Bad => say_good(false, put_bad_line(sink)),
        }
    }

    fn close<O: Sink>(&mut self, _sink: &mut O) -> Result<(), Failed> {
        Ok(())
    }
}

/// The lines of `robots`, for the crawler of a token.
pub(crate) fn robots_lines<S: Spec, I: Source, O: Sink>(
    setup: Setup,
    token: &str,
    buffers: CanonBuffers,
    source: &mut I,
    sink: &mut O,
) -> u8
    requires { is_token token.now ≡ true }
    ensures { let state = outside_state I.left I.faults O.written O.faults O.room_left in
        RunsLines (robots_rules S.tests setup.mode token.now)
        (state source.old sink.old) (state source.new sink.new) result }
{
    match Crawler::new(setup, token) {
        Ok(crawler) => run_lines::<S, Crawls, I, O>(crawler, buffers, source, sink),
        Err(_) => MEMORY,
    }
}
