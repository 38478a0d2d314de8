// A path in two pieces, as it is merged (RFC 3986 section 5.2.3).
ghost use Rattle.std.specs.Prelude.{◌≡◌, ◌||◌, ◌++◌, false, true};
ghost use Rattle.iri_grammar.specs.Characters.{percent_sign, slash};
ghost use Rattle.iri_grammar.specs.Cut.{lacks};
ghost use Rattle.iri_grammar.specs.Parts.{is_empty};
ghost use Rattle.iri_grammar.specs.Pieces.{pieces};
ghost use Rattle.iri_normal.specs.Dots.{has_dot_segment};
ghost use Rattle.iri_normal.specs.Target.{ends_at_slash};
ghost use Rattle.iri_normal.specs.inside.Kept.{taken};
ghost use Rattle.iri_normal.specs.inside.Parents.{IsParent};

/// What the base gives of a path, and the reference's path after it. The first piece ends where a segment ends, or nothing follows it.
/// `plain` says that it has no dot segment, and `bare` that it has no percent-encoded octet; `false` says nothing. `parent` is how many
/// bytes the second piece's dot segments leave of it, where 1 is a slash alone; 0 says nothing.
///
/// ```
/// use iri::steps::MergedPath;
/// let path = MergedPath::of("/b/c/../g");
/// assert_eq!(rt; path.base, "");
/// assert_eq!(rt; path.reference, "/b/c/../g");
/// ```
#[derive(Clone, Copy, Debug)]
pub struct MergedPath<'a> {
    pub base: &'a str,
    pub reference: &'a str,
    pub plain: bool,
    pub bare: bool,
    pub parent: u32,
    pub ghost cut: { (is_empty reference.now || ends_at_slash base.now) ≡ true },
    pub ghost noted: { plain ≡ true → has_dot_segment base.now ≡ false },
    pub ghost bared: { bare ≡ true → lacks percent_sign base.now ≡ true },
    pub ghost above: { IsParent parent (taken (pieces slash reference.now) 0) base.now },
}

impl<'a> MergedPath<'a> {
    /// A path of its own.
    pub fn of(path: &'a str) -> Self
        ensures { result.base.now ++ result.reference.now ≡ path.now }
    {
        MergedPath {
            base: "",
            reference: path,
            plain: true,
            bare: true,
            parent: 0,
        }
    }
}
