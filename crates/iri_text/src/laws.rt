//! What holds of the lines of a text, of the limits, and of a sink over memory.
ghost use Rattle.std.specs.Prelude.{◌≡◌, ◌≢◌, ◌≤◌, ◌<◌, ◌+◌, ℕ, List, [], ◌∷◌, ◌++◌, length, Some, None};
ghost use Rattle.iri_text.specs.Lines.{NoLf, no_cr, lines};
ghost use Rattle.iri_text.specs.Limits.{limit_fault};
ghost use Rattle.iri_text.specs.Sink.{HasRoom};
ghost use Rattle.iri_text.specs.Memory.{memory_written, room_left_of};
ghost use Rattle.iri_text.specs.declared.streams.memory_sink.MemorySink.{MemorySink};
ghost use Rattle.iri_text.specs.declared.streams.reader.LineFault.TheVariants.{LineTooLong, InputTooLong};
ghost use Rattle.iri_text.specs.LineEnds.{carriage_return, line_feed};

/// What comes before the first LF, without one CR at its end, is the first line. The others are the lines of what follows.
pub fn line_before_lf()
    ensures { (raw rest : List ℕ) → NoLf raw → lines (raw ++ line_feed ∷ rest) ≡ no_cr raw ∷ lines rest }
{}

/// Bytes with no LF are one line, without one CR at their end.
pub fn last_line()
    ensures { (raw : List ℕ) → NoLf raw → raw ≢ [] → lines raw ≡ no_cr raw ∷ [] }
{}

/// One CR at the end goes, and no other byte.
pub fn line_without_cr()
    ensures cr { (bytes : List ℕ) → no_cr (bytes ++ carriage_return ∷ []) ≡ bytes }
    ensures other { (bytes : List ℕ) (b : ℕ) → b ≢ carriage_return → no_cr (bytes ++ b ∷ []) ≡ bytes ++ b ∷ [] }
{}

/// After `place` bytes a line passes its limit where there is no LF among as many bytes as it and one more, and they are
/// within the limit of the input.
pub fn line_past_its_limit()
    ensures { (line input place : ℕ) (prefix rest : List ℕ) → NoLf prefix → length prefix ≡ line + 1
        → place + length prefix ≤ input →
        limit_fault line input place 0 (prefix ++ rest) ≡ Some LineTooLong }
{}

/// After `place` bytes a byte passes the limit of the input where it comes after as many bytes as that, and the line before
/// it hasn't ended and is within its own limit.
pub fn input_past_its_limit()
    ensures { (line input place last : ℕ) (prefix rest : List ℕ) → NoLf prefix → length prefix ≤ line
        → place + length prefix ≡ input →
        limit_fault line input place 0 (prefix ++ last ∷ rest) ≡ Some InputTooLong }
{}

/// After `place` bytes a line that an LF ends passes no limit where it is within its own and its LF within that of the
/// input.
pub fn line_within_its_limits()
    ensures { (line input place : ℕ) (raw rest : List ℕ) → NoLf raw → length raw ≤ line → place + length raw < input →
        limit_fault line input place 0 (raw ++ line_feed ∷ rest) ≡ None }
{}

/// A sink over memory that is told no failing calls is known to have the room of its slice that isn't written yet.
pub fn memory_sink_with_room()
    ensures { (s : MemorySink) (count : ℕ) → s.fails.now ≡ []
        → length (memory_written s) + count ≤ length s.buf.now → HasRoom (room_left_of s) count }
{}
