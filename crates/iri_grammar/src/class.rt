//! The classes of characters (RFC 3986 sections 2 and 3, RFC 3987 section 2.2).
ghost use Rattle.std.specs.Prelude.{◌≡◌, ◌≤◌, ◌<◌};
ghost use Rattle.iri_grammar.specs.Classes.{unreserved, reg_name_char, userinfo_char, pchar, path_char, query_char};
ghost use Rattle.iri_grammar.specs.Classes.{fragment_char, any_char};
ghost use Rattle.iri_grammar.specs.ClassTests.{class_test, ascii_test, past_ascii_test, rank_of};

use crate::spec::Spec;

/// A class of characters (RFC 3986 sections 2 and 3).
///
/// ```
/// use iri::class::Class;
/// assert!(rt; Class::Unreserved.has_byte(b'~'));
/// assert!(rt; !Class::Pchar.has_byte(b'/'));
/// assert!(rt; Class::Query.has_byte(b'/'));
/// ```
#[derive(Clone, Copy, Debug, PartialEq, Eq)]
pub enum Class {
    /// `unreserved`.
    Unreserved,
    /// The characters of a `reg-name`.
    RegName,
    /// The characters of a `userinfo`.
    Userinfo,
    /// `pchar`, the characters of a path's segment.
    Pchar,
    /// The characters of a path.
    Path,
    /// The characters of a `query`.
    Query,
    /// The characters of a `fragment`.
    Fragment,
    /// All of these and the other delimiters.
    Any,
}

// The ASCII parts of the classes grow in the order of their names: for each byte the digit of the
// first one that holds it, or 7.
// With it `canon` takes 18.3 instructions for a byte of links, without 22.2; of IRIs 31.6 and 36.3 (2026-12-01).
static RANKS: [u8; 256] = *b"\
    77777777777777777777777777777777\
    71761711111110040000000000217175\
    30000000000000000000000000067670\
    70000000000000000000000000077707\
    77777777777777777777777777777777\
    77777777777777777777777777777777\
    77777777777777777777777777777777\
    77777777777777777777777777777777";

impl Class {
    pub(crate) fn rank(self) -> u8
        ensures { result ≡ rank_of self }
    {
        match self {
            Class::Unreserved => b'0',
            Class::RegName => b'1',
            Class::Userinfo => b'2',
            Class::Pchar => b'3',
            Class::Path => b'4',
            Class::Query | Class::Fragment => b'5',
            Class::Any => b'6',
        }
    }

    /// Whether the byte is an ASCII character of the class.
    #[inline(always)]
    pub fn has_byte(self, b: u8) -> bool
        ensures { result ≡ ascii_test self b }
    {
        RANKS[usize::from(b)] <= self.rank()
    }

    #[inline(always)]
    fn has_past_ascii<S: Spec>(self, c: char) -> bool
        ensures { result ≡ past_ascii_test S.tests self c }
    {
        match self {
            Class::Query | Class::Any => {
                S::is_nonascii_char_unreserved(c) || S::is_nonascii_char_private(c)
            }
            _ => S::is_nonascii_char_unreserved(c),
        }
    }

    /// Whether the character is in the class.
    #[inline(always)]
    pub fn has<S: Spec>(self, c: char) -> bool
        ensures { result ≡ class_test S.tests self c }
    {
        let code = u32::from(c);
        if code < 128 {
            self.has_byte(code as u8)
        } else {
            self.has_past_ascii::<S>(c)
        }
    }
}

/// Whether the character is `unreserved` (RFC 3986 section 2.3).
pub fn is_unreserved<S: Spec>(c: char) -> bool
    ensures { result ≡ unreserved S.tests c }
{
    Class::Unreserved.has::<S>(c)
}

/// Whether the character may be in a `reg-name` (RFC 3986 section 3.2.2).
pub fn is_reg_name_char<S: Spec>(c: char) -> bool
    ensures { result ≡ reg_name_char S.tests c }
{
    Class::RegName.has::<S>(c)
}

/// Whether the character may be in a `userinfo` (RFC 3986 section 3.2.1).
pub fn is_userinfo_char<S: Spec>(c: char) -> bool
    ensures { result ≡ userinfo_char S.tests c }
{
    Class::Userinfo.has::<S>(c)
}

/// Whether the character may be in a path's segment (RFC 3986 section 3.3).
pub fn is_pchar<S: Spec>(c: char) -> bool
    ensures { result ≡ pchar S.tests c }
{
    Class::Pchar.has::<S>(c)
}

/// Whether the character may be in a path: `is_pchar`, or a slash (RFC 3986 section 3.3).
pub fn is_path_char<S: Spec>(c: char) -> bool
    ensures { result ≡ path_char S.tests c }
{
    Class::Path.has::<S>(c)
}

/// Whether the character may be in a `query` (RFC 3986 section 3.4, RFC 3987 section 2.2).
pub fn is_query_char<S: Spec>(c: char) -> bool
    ensures { result ≡ query_char S.tests c }
{
    Class::Query.has::<S>(c)
}

/// Whether the character may be in a `fragment` (RFC 3986 section 3.5).
pub fn is_fragment_char<S: Spec>(c: char) -> bool
    ensures { result ≡ fragment_char S.tests c }
{
    Class::Fragment.has::<S>(c)
}

/// Whether the character may be anywhere in a reference, outside percent-encoded octets.
pub fn is_any_char<S: Spec>(c: char) -> bool
    ensures { result ≡ any_char S.tests c }
{
    Class::Any.has::<S>(c)
}
