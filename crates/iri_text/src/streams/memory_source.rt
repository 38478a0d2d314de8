// A source over memory that gives pieces and fails as it is told.
ghost use Rattle.std.specs.Prelude.{◌≡◌, ◌≤◌, ◌<◌, ℕ, length, All};
ghost use Rattle.iri_text.specs.Memory.{cut_of, capped};

use crate::{Failed, Source};
use std::marker::Model;

/// A source that gives the bytes of a slice in pieces, and fails as it is told.
///
/// ```
/// use iri::streams::{MemorySource, Source};
/// let mut source = MemorySource::new(b"abcde", &[2], &[2]);
/// let mut buffer = [0; 4];
/// assert!(rt; matches!(source.take(&mut buffer), Ok(2)));
/// assert!(rt; source.take(&mut buffer).is_err());
/// assert!(rt; matches!(source.take(&mut buffer), Ok(2)));
/// assert!(rt; matches!(source.take(&mut buffer), Ok(1)));
/// ```
#[derive(Debug, Drop)]
pub struct MemorySource<'a> {
    bytes: &'a [u8],
    cuts: &'a [usize],
    fails: &'a [u64],
    calls: u64,
    faults: u64,
}

impl<'a> Model for MemorySource<'a> {
    ghost use Rattle.std.specs.Prelude.{ℕ, ◌<◌, All};
    ghost use Rattle.iri_text.specs.Memory.{SourceState};

    ghost Value = { SourceState };

    ghost view = { λ s. record {
      left = s.bytes.now;
      cuts = s.cuts.now;
      fails = s.fails.now;
      calls = s.calls;
      faults = s.faults;
    } };

    ghost invariant = { λ s. All (λ (cut : ℕ). 0 < cut) s.cuts.now };
}

impl<'a> MemorySource<'a> {
    /// All of the bytes are left, and no call is numbered yet. A call gives at most as many bytes as its number in
    /// `cuts` says, the last one repeating. The calls whose numbers, from 1, are in `fails` fail. It has a condition:
    /// no cut is 0, which would be the end of the source.
    pub fn new(bytes: &'a [u8], cuts: &'a [usize], fails: &'a [u64]) -> MemorySource<'a>
        requires { All (λ cut. 0 < cut) cuts.now }
        ensures left { ⟦<MemorySource<'a> as Source>⟧.left result ≡ Some bytes.now }
        ensures faults { ⟦<MemorySource<'a> as Source>⟧.faults result ≡ 0 }
        ensures cuts { result.cuts ≡ cuts.now }
        ensures fails { result.fails ≡ fails.now }
        ensures calls { result.calls ≡ 0 }
    {
        MemorySource {
            bytes,
            cuts,
            fails,
            calls: 0,
            faults: 0,
        }
    }
}

// How many bytes a call gives.
fn count_of(len: usize, cuts: &[usize], number: u64) -> usize
    requires { All (λ cut. 0 < cut) cuts.now }
    ensures value { result ≡ capped (cut_of cuts.now number) len }
    ensures within { result ≤ len }
    ensures some { 0 < len → 0 < result }
{
    let at = (number.saturating_sub(1) as usize).min(cuts.len().saturating_sub(1));
    match cuts.get(at) {
        Some(cut) => len.min(*cut),
        None => len,
    }
}

impl<'a> Source for MemorySource<'a> {
    ghost use Rattle.std.specs.Prelude.{◌≡◌, ◌+◌, ◌-◌, ◌^◌, ◌↔◌, Some, min, length, Contains, IsErr, IfOk};
    ghost use Rattle.std.specs.Prelude.{OnOk, OnErr};
    ghost use Rattle.iri_text.specs.Source.{Takes};
    ghost use Rattle.iri_text.specs.Memory.{cut_of, capped, IsNextCall};

    ghost left = { λ s. Some s.left };

    ghost faults = { λ s. s.faults };

    ghost call = { IsNextCall };

    /// Gives the next bytes.
    ///
    /// # Errors
    ///
    /// Exactly where the number of the call is in `fails`. Each failure raises the count by one, up to its last value.
    fn take(&mut self, buf: &mut [u8]) -> Result<usize, Failed>
        ensures takes { Takes (Some self.old.left) (Some self.new.left) self.old.faults self.new.faults result buf.new }
        ensures call { IsNextCall self.old self.new }
        ensures calls { self.new.calls ≡ min (self.old.calls + 1) (2 ^ 64 - 1) }
        ensures exact { IsErr result ↔ Contains self.old.fails self.new.calls }
        ensures count { IfOk result (λ n. n
            ≡ capped (cut_of self.old.cuts self.new.calls) (min (length self.old.left) (length buf.old))) }
        ensures cuts { self.new.cuts ≡ self.old.cuts }
        ensures fails { self.new.fails ≡ self.old.fails }
        ensures same { OnOk result (self.new.faults ≡ self.old.faults) }
        ensures raised { OnErr result (self.new.faults ≡ min (self.old.faults + 1) (2 ^ 64 - 1)) }
    {
        self.calls = self.calls.saturating_add(1);
        if self.fails.contains(&self.calls) {
            self.faults = self.faults.saturating_add(1);
            return Err(Failed);
        }
        let n = count_of(self.bytes.len().min(buf.len()), self.cuts, self.calls);
        buf[..n].copy_from_slice(&self.bytes[..n]);
        self.bytes = &self.bytes[n..];
        Ok(n)
    }
}
