//! The text of a value, or its first characters, encoded as it comes, in whatever pieces. A prefix counts characters
//! from the beginning of a value, of which one in percent-encoded octets is one (RFC 6570 section 2.4.1). Each character
//! that isn't allowed becomes the percent-encoded octets of its UTF-8; where reserved characters are allowed, so are
//! percent-encoded octets (section 3.2.1).
ghost use Rattle.std.specs.Prelude.{◌≡◌, ◌≤◌, ◌∷◌, [], ◌+◌, ◌-◌, ◌==◌, true, false, length, take, drop, cond, OnOk, None, MatchOption};
ghost use Rattle.std.specs.Bool.{OnTrue};
ghost use Rattle.std.specs.Str.{chars};
ghost use Rattle.iri_grammar.specs.Classes.{any_char};
ghost use Rattle.iri_percent.specs.Encoding.{encoded};
ghost use Rattle.iri_percent.specs.Units.{units};
ghost use Rattle.iri_text.specs.Shown.{Shows};
ghost use Rattle.iri_template.specs.Expansion.{limited, shown_text};
ghost use Rattle.iri_template.specs.inside.Held.{fewer, goes_on, is_begun, is_used_up, held_unit, unit_len, written_units, written_chars};
ghost use Rattle.iri_template.specs.inside.Reads.{IsHeld, Reads, kept_rest};
ghost use Rattle.iri_template.specs.inside.Pieces.{IsCut, IsPieceWhere, piece_chars};

use crate::byte_count::is_within;
use crate::held::Held;
use iri_grammar::class::Class;
use iri_grammar::cutting::cut_before;
use iri_grammar::over::past_run;
use iri_grammar::spec::Spec;
use iri_percent::PercentEncoded;
use iri_percent::character::triplets_char;
use iri_text::{Show, Stop, TextSink};
use std::marker::PhantomData;

// How far a value was read.
#[derive(Drop)]
pub(crate) struct Reading {
    // What is held back.
    pub(crate) held: Held,
    // How many characters may still be written, where not all may.
    pub(crate) left: Option<u16>,
}

// Encodes what is put, and writes it, or its first characters, to another sink.
#[derive(Drop)]
pub(crate) struct ValueSink<'s, S, W> {
    pub(crate) to: &'s mut W,
    pub(crate) state: Reading,
    // Whether reserved characters and percent-encoded octets stay.
    pub(crate) allow: bool,
    spec: PhantomData<S>,
    pub ghost held: { IsHeld state },
}

impl<'s, S, W> ValueSink<'s, S, W> {
    pub(crate) fn new(to: &'s mut W, allow: bool, prefix: Option<u16>) -> ValueSink<'s, S, W>
        ensures same { result.to.ghost_name ≡ to.entry.ghost_name }
        ensures now { result.to.now ≡ to.old }
        ensures allow { result.allow ≡ allow }
        ensures left { result.state.left ≡ prefix }
        ensures held { result.state.held ≡ [] }
    {
        let state = Reading {
            held: Held::new(),
            left: prefix,
        };
        ValueSink {
            to,
            state,
            allow,
            spec: PhantomData,
        }
    }
}

pub(crate) fn is_used_up(left: Option<u16>) -> bool
    ensures { result ≡ is_used_up left }
{
    matches!(left, Some(0))
}

// So many characters at the start, or all, and how many more there may be.
fn cut_chars(text: &str, most: u16) -> (&str, u16)
    ensures prefix { chars result.0.now ≡ take most (chars text.now) }
    ensures left { result.1 ≡ most - length (chars text.now) }
{
    let mut chars = text.chars();
    let mut left = most;
    'chars: while left > 0 {
        match chars.next() {
            Some(_) => left -= 1,
            None => return (text, left),
        }
    }
    (&text[..text.len() - chars.as_str().len()], 0)
}

// Writes a text in which reserved characters stay. Where all are characters of a reference in ASCII, it is put as it
// stands and isn't read again by characters (133 instructions a line of `expand`, 3 %, 2026-12-01).
pub(crate) fn put_reserved<S: Spec, W: TextSink>(sink: &mut W, text: &str) -> Result<(), Stop>
    ensures { Shows W.puts W.halts W.stops sink.old (encoded (any_char S.tests) text.now) sink.new result }
{
    if past_run(Class::Any, text).is_empty() {
        return sink.put(text);
    }
    PercentEncoded::<&str, S>::characters(text).show(sink)
}

#[tactic(auto, unfolding(iri_percent::specs::Encoding::encoded))]
fn put_all<S: Spec, W: TextSink>(sink: &mut W, allow: bool, text: &str) -> Result<(), Stop>
    ensures { Shows W.puts W.halts W.stops sink.old
        (written_chars S.tests allow None (chars text.now)) sink.new result }
{
    if allow {
        put_reserved::<S, W>(sink, text)
    } else {
        PercentEncoded::<&str, S>::unreserve(text).show(sink)
    }
}

// Writes a text each of whose characters is encoded for itself, as far as that may be written.
fn put_chars<S: Spec, W: TextSink>(
    sink: &mut W,
    left: &mut Option<u16>,
    allow: bool,
    text: &str,
) -> Result<(), Stop>
    ensures shows { Shows W.puts W.halts W.stops sink.old
        (written_chars S.tests allow left.old (chars text.now)) sink.new result }
    ensures left { left.new ≡ fewer left.old (length (chars text.now)) }
{
    match *left {
        None => put_all::<S, W>(sink, allow, text),
        Some(most) => {
            let (prefix, after) = cut_chars(text, most);
            *left = Some(after);
            put_all::<S, W>(sink, allow, prefix)
        }
    }
}

fn put_plain<S: Spec, W: TextSink>(
    sink: &mut W,
    left: &mut Option<u16>,
    c: char,
) -> Result<(), Stop>
    ensures shows { Shows W.puts W.halts W.stops sink.old
        (written_chars S.tests true left.old (c ∷ [])) sink.new result }
    ensures left { left.new ≡ fewer left.old 1 }
{
    let mut buf = [0u8; 4];
    put_chars::<S, W>(sink, left, true, c.encode_utf8(&mut buf))
}

// Whether nothing is held back.
#[tactic(auto, using(std::proofs::lemmas::List::nil_from_length))]
fn is_plain(state: &Reading) -> bool
    ensures { OnTrue result (state.now.held ≡ []) }
{
    state.held.len() == 0
}

// Writes the percent-encoded octets of one character, or a lone one, where a character may be written.
fn put_octets<W: TextSink>(sink: &mut W, left: &mut Option<u16>, octets: &str) -> Result<(), Stop>
    ensures shows { Shows W.puts W.halts W.stops sink.old (cond (is_used_up left.old) [] octets.now) sink.new result }
    ensures left { left.new ≡ fewer left.old 1 }
{
    if is_used_up(*left) {
        return Ok(());
    }
    *left = left.map(|n| n.saturating_sub(1));
    sink.put(octets)
}

// Writes the first unit of what is held back, where it may be written.
// Called in two places: in line, a byte of lone octets costs 130 instructions, else 133 (2026-12-01).
#[inline(always)]
fn put_unit<S: Spec, W: TextSink>(sink: &mut W, state: &mut Reading) -> Result<(), Stop>
    requires begun { is_begun state.old.held ≡ true }
    requires some { 3 ≤ length state.old.held }
    ensures shows { Shows W.puts W.halts W.stops sink.old
        (written_units S.tests state.old.left (held_unit state.old.held ∷ [])) sink.new result }
    ensures left { state.new.left ≡ fewer state.old.left 1 }
    ensures held { state.new.held ≡ drop (unit_len state.old.held) state.old.held }
    ensures begun { is_begun state.new.held ≡ true }
    ensures shorter { length state.new.held + 3 ≤ length state.old.held }
{
    let len = state.held.unit_len();
    let result = put_octets(sink, &mut state.left, state.held.start(len));
    state.held.release(len);
    result
}

// Writes all that is held back: what follows doesn't go on with it.
fn put_held<S: Spec, W: TextSink>(sink: &mut W, state: &mut Reading) -> Result<(), Stop>
    requires { IsHeld state.old }
    ensures shows { Shows W.puts W.halts W.stops sink.old
        (written_units S.tests state.old.left (units state.old.held)) sink.new result }
    ensures left { OnOk result (state.new.left ≡ fewer state.old.left (length (units state.old.held))) }
    ensures none { OnOk result (state.new.held ≡ []) }
    ensures held { IsHeld state.new }
{
    'units: while state.held.len() >= 3 {
        put_unit::<S, W>(sink, state)?;
    }
    if is_plain(state) {
        return Ok(());
    }
    let len = state.held.len();
    let result = put_chars::<S, W>(sink, &mut state.left, true, state.held.start(len));
    state.held.release(len);
    result
}

// Takes a character that goes on with what is held back, and writes the first unit of that once it has as many bytes as
// the longest spelling of a character: four octets of three.
#[tactic(auto, using(crate::proofs::HeldUnits::on_ascii, crate::proofs::HeldUnits::begun_more))]
fn take_char<S: Spec, W: TextSink>(sink: &mut W, state: &mut Reading, c: u8) -> Result<(), Stop>
    requires held { IsHeld state.old }
    requires goes_on { goes_on state.old.held c ≡ true }
    ensures reads { Reads (kept_rest S.tests) W.puts W.halts W.stops state.old sink.old
        (c ∷ []) state.new sink.new result }
    ensures held { IsHeld state.new }
{
    state.held.push(c);
    if state.held.len() < 12 {
        return Ok(());
    }
    put_unit::<S, W>(sink, state)
}

#[tactic(auto, using(crate::proofs::HeldUnits::on_ascii))]
fn put_char<S: Spec, W: TextSink>(sink: &mut W, state: &mut Reading, c: char) -> Result<(), Stop>
    requires { IsHeld state.old }
    ensures reads { Reads (kept_rest S.tests) W.puts W.halts W.stops state.old sink.old
        (c ∷ []) state.new sink.new result }
    ensures held { IsHeld state.new }
{
    if state.held.goes_on(c) {
        return take_char::<S, W>(sink, state, c as u8);
    }
    put_held::<S, W>(sink, state)?;
    if c == '%' {
        state.held.push(b'%');
        return Ok(());
    }
    put_plain::<S, W>(sink, &mut state.left, c)
}

// What is read at once: a run without `%`, the percent-encoded octets of a character, or a character.
#[derive(Clone, Copy)]
pub(crate) enum Piece<'t> {
    Run(&'t str),
    Octets(&'t str),
    Char(char),
}

// What is read first of a text, and what follows: a run or octets only where nothing is held back. None where the text is
// empty. In line, a byte of octets costs 71 instructions, else 76; read by characters it would cost 124 (2026-12-01).
#[inline(always)]
fn next_piece(text: &str, plain: bool) -> Option<(Piece<'_>, &str)>
    ensures { MatchOption result (length text.now ≡ 0) (λ p. IsCut plain text.now p.0 p.1.now) }
{
    if plain {
        if let Some(c) = triplets_char(text.as_bytes()) {
            let (octets, rest) = text.split_at(3 * c.len_utf8());
            return Some((Piece::Octets(octets), rest));
        }
        let (run, rest) = cut_before(text, b'%');
        if !run.is_empty() {
            return Some((Piece::Run(run), rest));
        }
    }
    let mut chars = text.chars();
    let c = chars.next()?;
    Some((Piece::Char(c), chars.as_str()))
}

fn put_piece<S: Spec, W: TextSink>(
    sink: &mut W,
    state: &mut Reading,
    piece: Piece<'_>,
) -> Result<(), Stop>
    requires held { IsHeld state.old }
    requires plain { IsPieceWhere (state.old.held ≡ []) piece }
    ensures reads { Reads (kept_rest S.tests) W.puts W.halts W.stops state.old sink.old
        (piece_chars piece.entry) state.new sink.new result }
    ensures held { IsHeld state.new }
{
    match piece {
        Piece::Run(run) => put_chars::<S, W>(sink, &mut state.left, true, run),
        Piece::Octets(octets) => put_octets(sink, &mut state.left, octets),
        Piece::Char(c) => put_char::<S, W>(sink, state, c),
    }
}

// Writes what a text settles in which reserved characters and percent-encoded octets stay. After the last character
// that may be written it isn't looked at.
fn put_kept<S: Spec, W: TextSink>(sink: &mut W, state: &mut Reading, text: &str) -> Result<(), Stop>
    requires { IsHeld state.old }
    ensures reads { Reads (kept_rest S.tests) W.puts W.halts W.stops state.old sink.old
        (chars text.now) state.new sink.new result }
    ensures held { IsHeld state.new }
{
    let mut rest = text;
    'pieces: while let Some((piece, following)) = next_piece(rest, is_plain(state)) {
        if is_used_up(state.left) {
            return Ok(());
        }
        put_piece::<S, W>(sink, state, piece)?;
        rest = following;
    }
    Ok(())
}

impl<'s, S: Spec, W: TextSink> TextSink for ValueSink<'s, S, W> {
    ghost use Rattle.iri_template.specs.inside.ValueText.{ValuePuts, ValueHalts, value_rules};

    ghost puts = { ValuePuts S.tests W.puts };

    ghost halts = { ValueHalts S.tests W.halts };

    ghost stops = { λ v. W.stops v.to.now };

    ghost rules = { value_rules S.tests W.rules };

    fn put(&mut self, piece: &str) -> Result<(), Stop> {
        if self.allow {
            put_kept::<S, W>(&mut *self.to, &mut self.state, piece)
        } else {
            put_chars::<S, W>(&mut *self.to, &mut self.state.left, false, piece)
        }
    }
}

// Shows a value, and writes what is held back at its end.
fn show_whole<T: Show, S: Spec, W: TextSink>(
    values: &mut ValueSink<S, W>,
    value: &T,
) -> Result<(), Stop>
    requires { values.old.state.held ≡ [] }
    ensures shows { Shows W.puts W.halts W.stops values.old.to.now
        (shown_text S.tests values.old.allow values.old.state.left (T.text value.now)) values.new.to.now result }
    ensures same { values.new.to.ghost_name ≡ values.old.to.ghost_name }
{
    value.show(values)?;
    if !values.allow {
        return Ok(());
    }
    put_held::<S, W>(&mut *values.to, &mut values.state)
}

// A value, or its first characters, encoded as it is shown.
#[derive(Drop)]
pub(crate) struct EncodedValue<'v, T, S> {
    value: &'v T,
    // Whether reserved characters and percent-encoded octets stay.
    allow: bool,
    prefix: Option<u16>,
    spec: PhantomData<S>,
}

impl<'v, T: Show, S: Spec> EncodedValue<'v, T, S> {
    pub(crate) fn new(value: &'v T, allow: bool, prefix: Option<u16>) -> EncodedValue<'v, T, S>
        ensures value { result.value.now ≡ value.now }
        ensures allow { result.allow ≡ allow }
        ensures prefix { result.prefix ≡ prefix }
    {
        EncodedValue {
            value,
            allow,
            prefix,
            spec: PhantomData,
        }
    }

    // Whether its text is empty. Percent-encoded octets don't stay.
    #[tactic(auto, using(crate::proofs::PrefixChars::none_of_none, crate::proofs::PrefixChars::value_decides))]
    pub(crate) fn is_empty(&self) -> bool
        requires { self.now.allow ≡ false }
        ensures { result ≡ (length (shown_text S.tests self.now.allow self.now.prefix (T.text self.now.value.now)) == 0) }
    {
        if is_used_up(self.prefix) {
            return true;
        }
        is_within(self.value, 0)
    }
}

impl<'v, T: Show, S: Spec> Show for EncodedValue<'v, T, S> {
    ghost text = { λ v. shown_text S.tests v.allow v.prefix (T.text v.value.now) };

    fn show<W: TextSink>(&self, sink: &mut W) -> Result<(), Stop> {
        let mut values = ValueSink::<S, W>::new(sink, self.allow, self.prefix);
        show_whole(&mut values, self.value)
    }
}
