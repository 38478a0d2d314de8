// The program's commands.
ghost use Rattle.std.specs.Prelude.{◌≡◌};
ghost use Rattle.iri_grammar.specs.Blanks.{space};
ghost use Rattle.iri_grammar.specs.Pieces.{pieces};
ghost use Rattle.iri_run_calls.specs.Runs.{RunAnswered, TakesMemory};

use std::alloc::Global;

/// What the program would do with words, one space between each two, and an input. Words are looked at before memory is taken.
#[unsafe(no_mangle)]
pub extern "C" fn irikit_run(
    alloc: Global,
    words: &[u8],
    input: &[u8],
    out: &mut [u8],
    out_len: &mut usize,
) -> u8
    ensures run { RunAnswered words.now input.now out.old out.new out_len.new result }
    // Allocation fails only at a command over lines, or at `gen`.
    ensures memory { result ≡ 6 → TakesMemory (pieces space words.now) }
{
    iri_run_calls::irikit_run(alloc, words, input, out, out_len)
}
