// Runs of the ASCII characters of a class, at the start of bytes.
ghost use Rattle.std.specs.Prelude.{◌≡◌, ◌≤◌, ◌+◌, map, drop, take, length};
ghost use Rattle.iri_grammar.specs.ClassTests.{ascii_test};
ghost use Rattle.iri_grammar.specs.Runs.{run_of};
ghost use Rattle.iri_grammar.specs.inside.Halves.{high_bit, low_bits, row_test, rows};
ghost use Rattle.iri_grammar.specs.inside.PlainAuthority.{is_small_name_char};

use crate::class::Class;
use crate::cutting;
use std::simd::prelude::*;

// For the classes in the order of their ranks, and then the characters of names in lower case, and for each low half of a byte: a
// bit for each high half with which it is an ASCII character of these.
static LOW_HALVES: [u8; 128] = [
    168, 248, 248, 248, 248, 248, 248, 248, 248, 248, 240, 80, 80, 84, 212, 112, 168, 252, 248,
    248, 252, 248, 252, 252, 252, 252, 244, 92, 84, 92, 212, 112, 168, 252, 248, 248, 252, 248,
    252, 252, 252, 252, 252, 92, 84, 92, 212, 112, 184, 252, 248, 248, 252, 248, 252, 252, 252,
    252, 252, 92, 84, 92, 212, 112, 184, 252, 248, 248, 252, 248, 252, 252, 252, 252, 252, 92, 84,
    92, 212, 116, 184, 252, 248, 248, 252, 248, 252, 252, 252, 252, 252, 92, 84, 92, 212, 124, 184,
    252, 248, 252, 252, 248, 252, 252, 252, 252, 252, 124, 84, 124, 212, 124, 136, 204, 200, 200,
    204, 200, 204, 204, 204, 204, 196, 76, 68, 76, 196, 96,
];

// The bit of each high half; past ASCII there is none.
static HIGH_HALVES: [u8; 16] = [1, 2, 4, 8, 16, 32, 64, 128, 0, 0, 0, 0, 0, 0, 0, 0];

// A row and those after it.
#[inline(always)]
fn rows(row: usize) -> &'static [u8]
    requires { row ≤ 7 }
    ensures rows { result.now ≡ rows row }
    ensures len { 16 ≤ length result.now }
{
    &LOW_HALVES[row * 16..]
}

// The high halves that go with the low half of each byte.
#[inline(always)]
fn by_low_half(row: usize, block: u8x16) -> u8x16
    requires { row ≤ 7 }
    ensures { result ≡ map (low_bits row) block }
{
    u8x16::from_slice(rows(row)).swizzle_dyn(block & u8x16::splat(15))
}

// The bit of the high half of each byte.
#[inline(always)]
fn by_high_half(block: u8x16) -> u8x16
    ensures { result ≡ map high_bit block }
{
    u8x16::from_array(HIGH_HALVES).swizzle_dyn(block >> u8x16::splat(4))
}

#[inline(always)]
fn block_at(bytes: &[u8], i: usize) -> u8x16
    requires { i + 16 ≤ length bytes.now }
    ensures { result ≡ take 16 (drop i bytes.now) }
{
    u8x16::from_slice(&bytes[i..])
}

// How many of the 16 bytes from a place on are of a row before the first that isn't.
#[inline(always)]
fn run_in_block(row: usize, bytes: &[u8], i: usize) -> usize
    requires row { row ≤ 7 }
    requires within { i + 16 ≤ length bytes.now }
    ensures { result ≡ run_of (row_test row) (take 16 (drop i bytes.now)) }
{
    let block = block_at(bytes, i);
    let others = (by_low_half(row, block) & by_high_half(block))
        .simd_eq(u8x16::splat(0))
        .to_bitmask();
    if others == 0 {
        16
    } else {
        others.trailing_zeros() as usize
    }
}

// How many bytes at the start are of a row. The last blocks may overlap.
#[inline(never)]
fn row_run_len(row: usize, bytes: &[u8]) -> usize
    requires row { row ≤ 7 }
    requires long { 16 ≤ length bytes.now }
    ensures { result ≡ run_of (row_test row) bytes.now }
{
    let last = bytes.len() - 16;
    let mut i = 0;
    'passed: while i < last {
        let run = run_in_block(row, bytes, i);
        if run < 16 {
            return i + run;
        }
        i += 16;
    }
    last + run_in_block(row, bytes, last)
}

// How many bytes at the start are ASCII characters of the class, one by one.
#[inline(always)]
fn short_run_len(class: Class, bytes: &[u8]) -> usize
    ensures { result ≡ run_of (ascii_test class) bytes.now }
{
    cutting::run_len(bytes, |b| class.has_byte(b))
}

// How many bytes at the start are ASCII characters of the class, by 16 bytes at a time: web's lines take 3 instructions a byte fewer than by `short_run_len` alone.
#[inline(always)]
pub(crate) fn run_len(class: Class, bytes: &[u8]) -> usize
    ensures { result ≡ run_of (ascii_test class) bytes.now }
{
    if bytes.len() < 16 {
        return short_run_len(class, bytes);
    }
    row_run_len(usize::from(class.rank() - b'0'), bytes)
}

// How many bytes at the start are ASCII characters of a name other than capital letters.
#[inline(always)]
pub(crate) fn small_name_len(bytes: &[u8]) -> usize
    requires { 16 ≤ length bytes.now }
    ensures len { result ≡ run_of is_small_name_char bytes.now }
    ensures within { result ≤ length bytes.now }
{
    row_run_len(7, bytes)
}
