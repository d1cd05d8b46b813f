ghost use Rattle.std.specs.Prelude.{◌≡◌, ℕ, ◌<◌, List, false};
ghost use Rattle.std.specs.Str.{bytes_eq};
ghost use Rattle.name_scopes.specs.Marks.{mark_of};

use algolw_tree::Spelling;

/// How many marks there are.
pub const MARKS: usize = 64;

/// One thing for each mark.
#[derive(Clone, Copy)]
pub struct EachMark<T> {
    /// The things, in order of the marks.
    pub each: [T; MARKS],
}

impl<T: Copy> EachMark<T> {
    /// These.
    pub fn of(each: [T; MARKS]) -> EachMark<T>
        ensures { result.each ≡ each }
    {
        EachMark { each }
    }
}

/// The mark of a name, made of its length and of the characters at its ends and in its middle.
pub fn mark_of(name: &[u8]) -> usize
    ensures value { result ≡ mark_of name.now }
    ensures within { result < 64 }
{
    let first = name.first().copied().unwrap_or(0);
    let middle = name.get(name.len() / 2).copied().unwrap_or(0);
    let last = name.last().copied().unwrap_or(0);
    let ends = 4 * usize::from(first) + usize::from(last);
    (ends + 10 * usize::from(middle) + 16 * (name.len() % 4)) % MARKS
}

/// Whether a name has this mark, as each name that is equal to it has.
pub fn is_marked(name: &Spelling, mark: usize) -> bool
    ensures { result ≡ false → (x : List ℕ) → mark_of x ≡ mark → bytes_eq name.now x ≡ false }
{
    mark_of(name.as_slice()) == mark
}
