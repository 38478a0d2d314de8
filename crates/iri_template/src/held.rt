//! What is held back of a value that comes in pieces: percent-encoded octets, until there are as many as a character may
//! have, and the beginning of one more.
ghost use Rattle.std.specs.Prelude.{◌≡◌, ◌≤◌, ◌<◌, ◌++◌, ◌∷◌, [], length, take, drop, true};
ghost use Rattle.std.specs.Str.{chars};
ghost use Rattle.iri_template.specs.inside.Held.{goes_on, is_begun, unit_len};

use iri_percent::character::triplets_char;
use std::marker::Model;

// Percent-encoded octets and the beginning of one more, 12 bytes at most. They are seen as their text.
#[derive(Drop)]
pub(crate) struct Held {
    buf: [u8; 12],
    len: usize,
}

impl Model for Held {
    ghost use Rattle.std.specs.Prelude.{ℕ, List, ◌≤◌, take};
    ghost use Rattle.std.specs.Str.{IsAscii};

    ghost Value = { List ℕ };

    ghost view = { λ h. take h.len h.buf };

    ghost invariant = { λ h. (h.len ≤ 12) × IsAscii h.buf };
}

impl Held {
    pub(crate) fn new() -> Self
        ensures { result ≡ [] }
    {
        Held {
            buf: [0u8; 12],
            len: 0,
        }
    }

    pub(crate) fn len(&self) -> usize
        ensures len { result ≡ length self.now }
        ensures most { result ≤ 12 }
    {
        self.len
    }

    // Whether a character goes on with it.
    pub(crate) fn goes_on(&self, c: char) -> bool
        ensures { result ≡ goes_on self.now c }
    {
        if self.len % 3 == 0 {
            c == '%'
        } else {
            c.is_ascii_hexdigit()
        }
    }

    pub(crate) fn push(&mut self, c: u8)
        requires room { length self.old < 12 }
        requires ascii { c < 128 }
        ensures { self.new ≡ self.old ++ c ∷ [] }
    {
        self.buf[self.len] = c;
        self.len += 1;
    }

    // How many bytes its first unit has.
    pub(crate) fn unit_len(&self) -> usize
        requires begun { is_begun self.now ≡ true }
        requires some { 3 ≤ length self.now }
        ensures len { result ≡ unit_len self.now }
        ensures within { result ≤ length self.now }
    {
        match triplets_char(&self.buf[..self.len]) {
            Some(c) => 3 * c.len_utf8(),
            None => 3,
        }
    }

    // The text of its first so many bytes.
    pub(crate) fn start(&self, len: usize) -> &str
        requires { len ≤ length self.now }
        ensures text { result.now ≡ take len self.now }
        ensures chars { chars result.now ≡ result.now }
    {
        unsafe { str::from_utf8_unchecked(&self.buf[..len]) }
    }

    // Lets its first so many bytes go.
    #[tactic(auto, using(std::proofs::lemmas::List::drop_all))]
    pub(crate) fn release(&mut self, len: usize)
        requires { len ≤ length self.old }
        ensures { self.new ≡ drop len self.old }
    {
        if self.len == len {
            self.len = 0;
            return;
        }
        self.buf.copy_within(len..self.len, 0);
        self.len -= len;
    }
}
