// What opens behind the marks of a root and of a fence, which have delimiters. Any bytes may come.

#![tactic(auto)]

ghost use Rattle.std.specs.Prelude.{◌≡◌, ◌+◌, ◌≤◌, length};
ghost use Rattle.formula.specs.Heads.{good_delimiter, root_of, root_opening, fence_of, fence_opening};
ghost use Rattle.formula.specs.Slices.{delimiter_at};

use formula::{Base, Delimiter, GREATEST_FAMILY, Kind, Opening, Pair};

pub fn root_opening(s: &[u8]) -> Opening
    ensures { result ≡ root_opening s.now }
{
    // A test of the length, since a delimiter is read at a place.
    if s.len() < 4 {
        return Opening::NoItem;
    }
    root(delimiter_at(s, 0))
}

pub fn fence_opening(s: &[u8]) -> Opening
    ensures { result ≡ fence_opening s.now }
{
    if s.len() < 8 {
        return Opening::NoItem;
    }
    fence(delimiter_at(s, 0), delimiter_at(s, 4))
}

// The delimiter whose four bytes stand at a place of s.
fn delimiter_at(s: &[u8], at: usize) -> Delimiter
    requires { at + 4 ≤ length s.now }
    ensures { result ≡ delimiter_at s.now at }
{
    let small = Pair {
        family: s[at],
        code: s[at + 1],
    };
    let large = Pair {
        family: s[at + 2],
        code: s[at + 3],
    };
    Delimiter { small, large }
}

#[tactic(auto, unfolding(formula::specs::Heads::root_of))]
fn root(sign: Delimiter) -> Opening
    ensures { result ≡ root_of sign }
{
    if is_good_delimiter(sign) {
        Opening::Fields(Kind::Scripted(Base::Root(sign)))
    } else {
        Opening::NoItem
    }
}

#[tactic(auto, unfolding(formula::specs::Heads::fence_of))]
fn fence(left: Delimiter, right: Delimiter) -> Opening
    ensures { result ≡ fence_of left right }
{
    if is_good_delimiter(left) && is_good_delimiter(right) {
        Opening::Fields(Kind::Scripted(Base::Fence(left, right)))
    } else {
        Opening::NoItem
    }
}

// Both families are those of symbols, though one may never be searched.
fn is_good_delimiter(d: Delimiter) -> bool
    ensures { result ≡ good_delimiter d }
{
    (d.small.family <= GREATEST_FAMILY) & (d.large.family <= GREATEST_FAMILY)
}
