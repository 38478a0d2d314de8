// Integers as text, in decimal.
ghost use Rattle.std.specs.Prelude.{◌≡◌, ◌≤◌, ◌<◌, ◌+◌, ◌/◌, ◌%◌, drop, decimal};
ghost use Rattle.std.specs.Fmt.{signed_decimal};
ghost use Rattle.iri_text.specs.Shown.{Shows};

use crate::{Show, Stop, TextSink};

// The most bytes of a number: a sign and the 39 digits of the greatest `u128`.
const MOST: usize = 40;

// A number without its last digit, and this. By 64 bits a digit costs 13 instructions, in place of 34 by 128.
#[inline(always)]
fn last_digit(number: u128) -> (u128, u8)
    ensures { (result.0 ≡ number / 10) × (result.1 ≡ number % 10) }
{
    if number > u64::MAX as u128 {
        return (number / 10, (number % 10) as u8);
    }
    let low = number as u64;
    ((low / 10) as u128, (low % 10) as u8)
}

// Writes a number at the end of a buffer, and says where it begins.
fn write_digits(buf: &mut [u8; MOST], number: u128) -> usize
    ensures within { (0 < result) × (result ≤ 40) }
    ensures digits { drop result buf.new ≡ decimal number }
{
    let mut rest = number;
    let mut at = MOST - 1;
    while rest >= 10 {
        let (tenth, digit) = last_digit(rest);
        buf[at] = b'0' + digit;
        at -= 1;
        rest = tenth;
    }
    buf[at] = b'0' + rest as u8;
    at
}

// Shows an unsigned number.
fn show_unsigned<W: TextSink>(number: u128, sink: &mut W) -> Result<(), Stop>
    ensures { Shows W.puts W.halts W.stops sink.old (decimal number) sink.new result }
{
    let mut buf = [0u8; MOST];
    let at = write_digits(&mut buf, number);
    sink.put(unsafe { str::from_utf8_unchecked(&buf[at..]) })
}

// Shows a signed number.
fn show_signed<W: TextSink>(number: i128, sink: &mut W) -> Result<(), Stop>
    ensures { Shows W.puts W.halts W.stops sink.old (signed_decimal number) sink.new result }
{
    if number >= 0 {
        return show_unsigned(number.unsigned_abs(), sink);
    }
    let mut buf = [0u8; MOST];
    let at = write_digits(&mut buf, number.unsigned_abs()) - 1;
    buf[at] = b'-';
    sink.put(unsafe { str::from_utf8_unchecked(&buf[at..]) })
}

impl Show for u8 {
    ghost text = { decimal };

    fn show<W: TextSink>(&self, sink: &mut W) -> Result<(), Stop> {
        show_unsigned(*self as u128, sink)
    }
}

impl Show for u16 {
    ghost text = { decimal };

    fn show<W: TextSink>(&self, sink: &mut W) -> Result<(), Stop> {
        show_unsigned(*self as u128, sink)
    }
}

impl Show for u32 {
    ghost text = { decimal };

    fn show<W: TextSink>(&self, sink: &mut W) -> Result<(), Stop> {
        show_unsigned(*self as u128, sink)
    }
}

impl Show for u64 {
    ghost text = { decimal };

    fn show<W: TextSink>(&self, sink: &mut W) -> Result<(), Stop> {
        show_unsigned(*self as u128, sink)
    }
}

impl Show for u128 {
    ghost text = { decimal };

    fn show<W: TextSink>(&self, sink: &mut W) -> Result<(), Stop> {
        show_unsigned(*self as u128, sink)
    }
}

impl Show for usize {
    ghost text = { decimal };

    fn show<W: TextSink>(&self, sink: &mut W) -> Result<(), Stop> {
        show_unsigned(*self as u128, sink)
    }
}

impl Show for i8 {
    ghost text = { signed_decimal };

    fn show<W: TextSink>(&self, sink: &mut W) -> Result<(), Stop> {
        show_signed(*self as i128, sink)
    }
}

impl Show for i16 {
    ghost text = { signed_decimal };

    fn show<W: TextSink>(&self, sink: &mut W) -> Result<(), Stop> {
        show_signed(*self as i128, sink)
    }
}

impl Show for i32 {
    ghost text = { signed_decimal };

    fn show<W: TextSink>(&self, sink: &mut W) -> Result<(), Stop> {
        show_signed(*self as i128, sink)
    }
}

impl Show for i64 {
    ghost text = { signed_decimal };

    fn show<W: TextSink>(&self, sink: &mut W) -> Result<(), Stop> {
        show_signed(*self as i128, sink)
    }
}

impl Show for i128 {
    ghost text = { signed_decimal };

    fn show<W: TextSink>(&self, sink: &mut W) -> Result<(), Stop> {
        show_signed(*self as i128, sink)
    }
}

impl Show for isize {
    ghost text = { signed_decimal };

    fn show<W: TextSink>(&self, sink: &mut W) -> Result<(), Stop> {
        show_signed(*self as i128, sink)
    }
}
