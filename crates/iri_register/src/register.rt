//! A base, and entries by canonical target (RFC 3986 sections 5.2, 6.2.2 and 6.2.3).
ghost use Rattle.std.specs.Prelude.{◌≡◌, ◌≢◌, [], length, map, option_map, string_bytes};
ghost use Rattle.std.specs.Prelude.{IfOk, None, OnErr, OnOk};
ghost use Rattle.std.specs.List.{IsDistinct};
ghost use Rattle.std.specs.Str.{bytes_eq};
ghost use Rattle.iri_normal.specs.NormalForm.{canonical_in};
ghost use Rattle.iri_normal.specs.Resolver.{base_text};
ghost use Rattle.iri_register.specs.Answers.{Adds, FindsPlace, Removes, TellsAdded, TellsLines};
ghost use Rattle.iri_register.specs.Entries.{entry_at};
ghost use Rattle.iri_register.specs.Refusals.{RefusedFor};
ghost use Rattle.iri_register.specs.Shared.{AddsJoined, FindsJoined};

use crate::added::Added;
use crate::entries::{self, Entries};
use crate::error::RegisterError;
use crate::key::{self, Key};
use iri_grammar::spec::Spec;
use iri_normal::mode::CanonMode;
use iri_normal::resolver::FixedBaseResolver;
use iri_owned::owned::RiAbsoluteString;
use iri_types::split::SplitView;
use std::alloc::Global;
use std::marker::Model;

/// A base, and each canonical target once, in first-seen order, with the numbers of its lines.
///
/// References are bytes. Each is resolved against the base and put into normal form (RFC 3986 sections 5.2 and 6.2.2;
/// by the register's mode also 6.2.3), and this canonical text is compared. Places count from 1.
///
/// ```
/// use iri::register::{Added, Register};
/// use iri::types::UriAbsoluteString;
/// let base = UriAbsoluteString::try_from_str(rt.alloc(), "http://a/")?;
/// let mut links = Register::new(rt.alloc(), base);
/// assert!(rt; matches!(links.add(b"x/../b", 2), Ok(Added::New(1))));
/// assert!(rt; matches!(links.add(b"/%62", 3), Ok(Added::Old(1))));
/// assert_eq!(rt; links.target_at(1), Some("http://a/b"));
/// assert_eq!(rt; links.lines_at(1).ok_or("an entry")?, [2, 3].as_slice());
/// ```
#[derive(Drop)]
#[derive_where(Debug)]
pub struct Register<S: Spec> {
    base: RiAbsoluteString<S>,
    #[derive_where(skip(Debug))]
    links: Links,
}

impl<S: Spec> Model for Register<S> {
    ghost use Rattle.iri_register.specs.Kept.{Kept};

    ghost Value = { Kept };

    ghost view = { λ r. record { base = r.base.text; mode = r.links.mode; entries = r.links.entries } };
}

// The entries of targets.
#[derive(Drop)]
struct Links {
    alloc: Global,
    mode: CanonMode,
    // The target of the last line, for the look-up.
    target: Key,
    entries: Entries,
}

// Writes the canonical target of a reference in place of what the buffer holds, which first gets room for so many bytes.
fn write_target<S: Spec>(
    buffer: &mut String,
    room: usize,
    mode: CanonMode,
    resolver: &FixedBaseResolver<'_, S>,
    reference: &[u8],
) -> Result<(), RegisterError>
    ensures causes { RefusedFor S.tests reference.now result }
    ensures text { OnOk result (string_bytes buffer.new
        ≡ canonical_in S.tests mode (base_text resolver.now) reference.now) }
{
    match SplitView::try_from_bytes(reference) {
        Ok(reference) => {
            buffer.clear();
            if buffer.reserve(room).is_err() {
                return Err(RegisterError::Memory);
            }
            match resolver.canonical_into_in(buffer, mode, &reference) {
                Ok(()) => Ok(()),
                Err(_) => Err(RegisterError::Memory),
            }
        }
        Err(error) => Err(RegisterError::Bad(error)),
    }
}

// The answer where there are no entries: none has the reference's target, and only a fault is told. It takes no memory.
fn none_there<S: Spec>(reference: &[u8]) -> Result<Option<usize>, RegisterError>
    ensures causes { RefusedFor S.tests reference.now result }
    ensures answer { IfOk result (λ k. k ≡ None) }
    ensures memory { result ≢ Err RegisterError.Memory }
{
    match SplitView::<S, _>::try_from_bytes(reference) {
        Ok(_) => Ok(None),
        Err(error) => Err(RegisterError::Bad(error)),
    }
}

impl Links {
    // Puts a line of a reference.
    fn add<S: Spec>(
        &mut self,
        resolver: &FixedBaseResolver<'_, S>,
        reference: &[u8],
        line: u64,
    ) -> Result<Added, RegisterError>
        ensures joined { IfOk result (AddsJoined S.tests self.old.mode (base_text resolver.now) self.new.entries reference.now) }
        ensures causes { RefusedFor S.tests reference.now result }
        ensures answer { TellsAdded S.tests self.old.mode (base_text resolver.now) self.old.entries reference.now result }
        ensures entries { Adds S.tests self.old.mode (base_text resolver.now) self.old.entries self.new.entries reference.now line result }
        ensures mode { self.new.mode ≡ self.old.mode }
        ensures unchanged { OnErr result (self.new.entries ≡ self.old.entries) }
    {
        match write_target(&mut self.target.text, 0, self.mode, resolver, reference) {
            Ok(()) => match entries::add(self.alloc, &mut self.entries, &mut self.target, line) {
                Ok(answer) => Ok(answer),
                Err(_) => Err(RegisterError::Memory),
            },
            Err(error) => Err(error),
        }
    }

    // Takes out the entry that has the reference's target.
    fn remove<S: Spec>(
        &mut self,
        resolver: &FixedBaseResolver<'_, S>,
        reference: &[u8],
    ) -> Result<Option<usize>, RegisterError>
        ensures causes { RefusedFor S.tests reference.now result }
        ensures answer { TellsLines S.tests self.old.mode (base_text resolver.now) self.old.entries reference.now result }
        ensures entries { Removes S.tests self.old.mode (base_text resolver.now) self.old.entries self.new.entries reference.now result }
        ensures mode { self.new.mode ≡ self.old.mode }
        ensures unchanged { OnErr result (self.new.entries ≡ self.old.entries) }
        ensures memory { self.old.entries ≡ [] → result ≢ Err RegisterError.Memory }
    {
        if entries::len(&self.entries) == 0 {
            return none_there::<S>(reference);
        }
        match write_target(&mut self.target.text, 0, self.mode, resolver, reference) {
            Ok(()) => Ok(entries::remove(self.alloc, &mut self.entries, &mut self.target)),
            Err(error) => Err(error),
        }
    }
}

impl<S: Spec> Register<S> {
    /// The register of a base, with no entries. Targets are hashed with the key 0: who picks the references can make
    /// look-ups slow. It takes no memory.
    pub fn new(alloc: Global, base: RiAbsoluteString<S>) -> Self
        ensures base { result.base ≡ base.text }
        ensures mode { result.mode ≡ CanonMode.Default }
        ensures entries { result.entries ≡ [] }
    {
        Register::new_in(alloc, CanonMode::Default, base)
    }

    /// The same by the rules of a mode: by scheme rules (RFC 3986 section 6.2.3) a link without its scheme's default
    /// port, or with `/` for an empty path, is the same link.
    ///
    /// ```
    /// use iri::normalize::CanonMode;
    /// use iri::register::{Added, Register};
    /// use iri::types::UriAbsoluteString;
    /// let base = UriAbsoluteString::try_from_str(rt.alloc(), "http://h")?;
    /// let mut links = Register::new_in(rt.alloc(), CanonMode::Scheme, base);
    /// assert!(rt; matches!(links.add(b"", 2)?, Added::New(1)));
    /// assert!(rt; matches!(links.add(b"http://h:80/", 3)?, Added::Old(1)));
    /// assert_eq!(rt; links.target_at(1), Some("http://h/"));
    /// ```
    pub fn new_in(alloc: Global, mode: CanonMode, base: RiAbsoluteString<S>) -> Self
        ensures base { result.base ≡ base.text }
        ensures mode { result.mode ≡ mode }
        ensures entries { result.entries ≡ [] }
    {
        Register::with_key_in(alloc, mode, base, 0)
    }

    /// The register of a base, with no entries. Targets are hashed with this key: who picks the references and doesn't
    /// know it can't make look-ups slow. Answers are the same with every key.
    pub fn with_key(alloc: Global, base: RiAbsoluteString<S>, key: u128) -> Self
        ensures base { result.base ≡ base.text }
        ensures mode { result.mode ≡ CanonMode.Default }
        ensures entries { result.entries ≡ [] }
    {
        Register::with_key_in(alloc, CanonMode::Default, base, key)
    }

    /// The same by the rules of a mode.
    ///
    /// ```
    /// use iri::normalize::CanonMode;
    /// use iri::register::Register;
    /// use iri::types::UriAbsoluteString;
    /// let base = UriAbsoluteString::try_from_str(rt.alloc(), "ftp://h/")?;
    /// let mut links = Register::with_key_in(rt.alloc(), CanonMode::Scheme, base, 7);
    /// assert!(rt; links.add(b"//h:21", 2).is_ok());
    /// assert_eq!(rt; links.find(b"/")?, Some(1));
    /// ```
    pub fn with_key_in(alloc: Global, mode: CanonMode, base: RiAbsoluteString<S>, key: u128) -> Self
        ensures base { result.base ≡ base.text }
        ensures mode { result.mode ≡ mode }
        ensures entries { result.entries ≡ [] }
    {
        Register {
            base,
            links: Links {
                alloc,
                mode,
                target: key::none(alloc),
                entries: entries::none(alloc, key),
            },
        }
    }

    /// The number of entries. It takes no memory.
    pub fn len(&self) -> usize
        ensures len { result ≡ length self.now.entries }
        ensures once { IsDistinct bytes_eq (map (λ e. e.target) self.now.entries) }
    {
        entries::len(&self.links.entries)
    }

    /// The place, from 1, of the entry that has the reference's canonical target; `None` exactly where no entry has it.
    /// It is the place of exactly the references whose targets the mode's steps join with this one's.
    ///
    /// # Errors
    ///
    /// - `Bad` exactly where the reference isn't UTF-8 or no reference: its first fault.
    /// - `Memory` where allocation fails, only where there are entries; the reference is valid then.
    ///
    /// ```
    /// use iri::register::Register;
    /// use iri::types::UriAbsoluteString;
    /// let base = UriAbsoluteString::try_from_str(rt.alloc(), "http://a/")?;
    /// let mut links = Register::new(rt.alloc(), base);
    /// assert!(rt; links.add(b"b", 2).is_ok());
    /// assert!(rt; matches!(links.find(b"HTTP://a/./b"), Ok(Some(1))));
    /// assert!(rt; matches!(links.find(b"c"), Ok(None)));
    /// ```
    pub fn find(&self, reference: &[u8]) -> Result<Option<usize>, RegisterError>
        ensures joined { IfOk result (FindsJoined S.tests self.now.mode self.now.base self.now.entries reference.now) }
        ensures causes { RefusedFor S.tests reference.now result }
        ensures answer { FindsPlace S.tests self.now.mode self.now.base self.now.entries reference.now result }
        ensures memory { self.now.entries ≡ [] → result ≢ Err RegisterError.Memory }
    {
        let page = FixedBaseResolver::new(self.base.as_slice());
        self.find_against(&page, reference)
    }

    /// The same for a reference against a resolver's base, whatever the register's is. A program that asks for many
    /// references prepares that once.
    ///
    /// # Errors
    ///
    /// Those of [`find`](Register::find).
    pub fn find_against(
        &self,
        resolver: &FixedBaseResolver<'_, S>,
        reference: &[u8],
    ) -> Result<Option<usize>, RegisterError>
        ensures joined { IfOk result (FindsJoined S.tests self.now.mode (base_text resolver.now) self.now.entries reference.now) }
        ensures causes { RefusedFor S.tests reference.now result }
        ensures answer { FindsPlace S.tests self.now.mode (base_text resolver.now) self.now.entries reference.now result }
        ensures memory { self.now.entries ≡ [] → result ≢ Err RegisterError.Memory }
    {
        if self.len() == 0 {
            return none_there::<S>(reference);
        }
        let links = &self.links;
        // The last line's target has had room for each that is there, so one found allocates once.
        let mut target = key::none(links.alloc);
        match write_target(
            &mut target.text,
            links.target.text.capacity(),
            links.mode,
            resolver,
            reference,
        ) {
            Ok(()) => Ok(entries::find(&links.entries, &mut target)),
            Err(error) => Err(error),
        }
    }

    /// Puts a line: at the end of the lines of the entry that has the reference's canonical target, or into a new entry
    /// at the end. All other entries stay. The place that is told is then that of exactly the references whose targets
    /// the mode's steps join with this one's.
    ///
    /// # Errors
    ///
    /// The register is unchanged then.
    ///
    /// - `Bad` exactly where the reference isn't UTF-8 or no reference: its first fault.
    /// - `Memory` where allocation fails; the reference is valid then.
    pub fn add(&mut self, reference: &[u8], line: u64) -> Result<Added, RegisterError>
        ensures joined { IfOk result (AddsJoined S.tests self.old.mode self.old.base self.new.entries reference.now) }
        ensures causes { RefusedFor S.tests reference.now result }
        ensures answer { TellsAdded S.tests self.old.mode self.old.base self.old.entries reference.now result }
        ensures entries { Adds S.tests self.old.mode self.old.base self.old.entries self.new.entries reference.now line result }
        ensures base { self.new.base ≡ self.old.base }
        ensures mode { self.new.mode ≡ self.old.mode }
        ensures unchanged { OnErr result (self.new ≡ self.old) }
    {
        let page = FixedBaseResolver::new(self.base.as_slice());
        self.links.add(&page, reference, line)
    }

    /// The same for a reference against a resolver's base, whatever the register's is. A program that adds many
    /// references prepares that once.
    ///
    /// # Errors
    ///
    /// Those of [`add`](Register::add).
    ///
    /// ```
    /// use iri::register::Register;
    /// use iri::resolve::FixedBaseResolver;
    /// use iri::types::{UriAbsoluteStr, UriAbsoluteString};
    /// let base = UriAbsoluteString::try_from_str(rt.alloc(), "http://a/")?;
    /// let mut links = Register::new(rt.alloc(), base);
    /// let page = FixedBaseResolver::new(UriAbsoluteStr::new("http://a/b/")?);
    /// for (number, link) in ["c", "./%63", "../b/c"].iter().enumerate() {
    ///     assert!(rt; links.add_against(&page, link.as_bytes(), number as u64).is_ok());
    /// }
    /// assert_eq!(rt; links.target_at(1), Some("http://a/b/c"));
    /// assert_eq!(rt; links.lines_at(1).ok_or("an entry")?, [0, 1, 2].as_slice());
    /// ```
    pub fn add_against(
        &mut self,
        resolver: &FixedBaseResolver<'_, S>,
        reference: &[u8],
        line: u64,
    ) -> Result<Added, RegisterError>
        ensures joined { IfOk result (AddsJoined S.tests self.old.mode (base_text resolver.now) self.new.entries reference.now) }
        ensures causes { RefusedFor S.tests reference.now result }
        ensures answer { TellsAdded S.tests self.old.mode (base_text resolver.now) self.old.entries reference.now result }
        ensures entries { Adds S.tests self.old.mode (base_text resolver.now) self.old.entries self.new.entries reference.now line result }
        ensures base { self.new.base ≡ self.old.base }
        ensures mode { self.new.mode ≡ self.old.mode }
        ensures unchanged { OnErr result (self.new ≡ self.old) }
    {
        self.links.add(resolver, reference, line)
    }

    /// Takes out the entry that has the reference's canonical target, and answers how many lines it had; `None` exactly
    /// where no entry has it. Later entries move up by one. The removal takes no memory but for the target's text; the
    /// text of the one that goes stays until the map is packed, where an `add` finds no free slot.
    ///
    /// # Errors
    ///
    /// The register is unchanged then.
    ///
    /// - `Bad` exactly where the reference isn't UTF-8 or no reference: its first fault.
    /// - `Memory` where allocation fails, only where there are entries; the reference is valid then.
    ///
    /// ```
    /// use iri::register::Register;
    /// use iri::types::UriAbsoluteString;
    /// let base = UriAbsoluteString::try_from_str(rt.alloc(), "http://a/")?;
    /// let mut links = Register::new(rt.alloc(), base);
    /// assert!(rt; links.add(b"b", 2).is_ok());
    /// assert!(rt; links.add(b"./b", 3).is_ok());
    /// assert!(rt; matches!(links.remove(b"/b"), Ok(Some(2))));
    /// assert_eq!(rt; links.len(), 0);
    /// ```
    pub fn remove(&mut self, reference: &[u8]) -> Result<Option<usize>, RegisterError>
        ensures causes { RefusedFor S.tests reference.now result }
        ensures answer { TellsLines S.tests self.old.mode self.old.base self.old.entries reference.now result }
        ensures entries { Removes S.tests self.old.mode self.old.base self.old.entries self.new.entries reference.now result }
        ensures base { self.new.base ≡ self.old.base }
        ensures mode { self.new.mode ≡ self.old.mode }
        ensures unchanged { OnErr result (self.new ≡ self.old) }
        ensures memory { self.old.entries ≡ [] → result ≢ Err RegisterError.Memory }
    {
        let page = FixedBaseResolver::new(self.base.as_slice());
        self.links.remove(&page, reference)
    }

    /// The same for a reference against a resolver's base, whatever the register's is. A program that removes many
    /// references prepares that once.
    ///
    /// # Errors
    ///
    /// Those of [`remove`](Register::remove).
    ///
    /// ```
    /// use iri::register::Register;
    /// use iri::resolve::FixedBaseResolver;
    /// use iri::types::{UriAbsoluteStr, UriAbsoluteString};
    /// let base = UriAbsoluteString::try_from_str(rt.alloc(), "http://a/")?;
    /// let mut links = Register::new(rt.alloc(), base);
    /// links.add(b"b", 2)?;
    /// let page = FixedBaseResolver::new(UriAbsoluteStr::new("http://a/c/d")?);
    /// assert_eq!(rt; links.remove_against(&page, b"../b")?, Some(1));
    /// assert_eq!(rt; links.len(), 0);
    /// ```
    pub fn remove_against(
        &mut self,
        resolver: &FixedBaseResolver<'_, S>,
        reference: &[u8],
    ) -> Result<Option<usize>, RegisterError>
        ensures causes { RefusedFor S.tests reference.now result }
        ensures answer { TellsLines S.tests self.old.mode (base_text resolver.now) self.old.entries reference.now result }
        ensures entries { Removes S.tests self.old.mode (base_text resolver.now) self.old.entries self.new.entries reference.now result }
        ensures base { self.new.base ≡ self.old.base }
        ensures mode { self.new.mode ≡ self.old.mode }
        ensures unchanged { OnErr result (self.new ≡ self.old) }
        ensures memory { self.old.entries ≡ [] → result ≢ Err RegisterError.Memory }
    {
        self.links.remove(resolver, reference)
    }

    /// The target of the entry at a place from 1; none exactly where the place is 0 or more than the number of entries.
    /// It takes no memory.
    pub fn target_at(&self, place: usize) -> Option<&str>
        ensures { option_map (λ t. t.now) result ≡ option_map (λ e. e.target) (entry_at self.now.entries place) }
    {
        entries::target_at(&self.links.entries, place)
    }

    /// The numbers of the lines of the entry at a place from 1, in order; none exactly where the place is 0 or more
    /// than the number of entries. It takes no memory.
    pub fn lines_at(&self, place: usize) -> Option<&[u64]>
        ensures { option_map (λ l. l.now) result ≡ option_map (λ e. e.lines) (entry_at self.now.entries place) }
    {
        entries::lines_at(&self.links.entries, place)
    }
}
