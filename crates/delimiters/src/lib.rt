// Variable delimiters: the search for a symbol that is tall enough, defined in specs/Delimiters.antt.

#![tactic(auto)]

ghost use Rattle.std.specs.Prelude.{◌≡◌};
ghost use Rattle.font.specs.Font.{font_in};
ghost use Rattle.boxes.specs.Values.{size_as, offset_as, signing_as};
ghost use Rattle.boxes.specs.Bounds.{item_words, Moderate, OffsetWithin, SigningWithin};
ghost use Rattle.delimiters.specs.Delimiters as definition;
ghost use Rattle.delimiters.specs.Delimiters.{chain, in_sizes, of_pair, sign_for, sign_size, sign_nodes, has_sign};
ghost use Rattle.delimiters.specs.Looking.{looked_at};
ghost use Rattle.delimiters.specs.Looking as looking;
ghost use Rattle.delimiters.specs.Values.{sign_as, chosen_as, search_as};

use boxes::{Glyph, Offset, Size, blank_size, char_size};
use font::{LONGEST_CHAIN, Metrics};
use font_index::Font;
use formula::{Delimiter, Pair};
use scaled::Sp;

// A symbol where it was found.
#[derive(Clone, Copy)]
pub struct Sign {
    pub size: u8,
    pub family: u8,
    pub code: u8,
    pub metrics: Metrics,
}

// What stands for the delimiters of an item, before its first field and behind it: a symbol, or a blank where none of a delimiter's
// symbols is present.
#[derive(Clone, Copy)]
pub struct Signs {
    pub before: Option<Sign>,
    pub behind: Option<Sign>,
}

// On which side an item has a sign.
#[derive(Clone, Copy)]
pub struct HasSigns {
    pub before: bool,
    pub behind: bool,
}

// How far a search has come: no symbol yet; none that suffices, and the tallest so far; one that suffices, which ends it.
#[derive(Clone, Copy)]
enum Search {
    Nothing,
    Short(Sign),
    Enough(Sign),
}

// The small symbol, then the large, each in sizes from the current one up to text.
pub fn sign_for(font: &Font, size: u8, d: Delimiter, needed: Sp) -> Option<Sign>
    ensures { chosen_as result ≡ sign_for (font_in font.now) size d needed.0 }
{
    let first = search_pair(font, size, d.small, needed, Search::Nothing);
    let second = search_pair(font, size, d.large, needed, first);
    match second {
        Search::Nothing => None,
        Search::Short(s) | Search::Enough(s) => Some(s),
    }
}

// Two zero bytes stand for no symbol.
const NO_SYMBOL: Pair = Pair { family: 0, code: 0 };

// The symbol of a pair, in its sizes.
#[tactic(auto, unfolding(crate::specs::Delimiters::of_pair, crate::specs::Looking::looked_at))]
fn search_pair(font: &Font, size: u8, pair: Pair, needed: Sp, far: Search) -> Search
    ensures { search_as result ≡ looked_at needed.0 (search_as far) (of_pair (font_in font.now) size pair) }
{
    if pair == NO_SYMBOL {
        return far;
    }
    search_sizes(font, size, pair.family, pair.code, needed, far)
}

// A symbol in sizes from this one up to text.
#[tactic(auto, using(crate::proofs::ChainLaws::size_ways, crate::proofs::LookingLaws::looked_both))]
fn search_sizes(font: &Font, size: u8, family: u8, code: u8, needed: Sp, far: Search) -> Search
    ensures { search_as result ≡ looked_at needed.0 (search_as far) (in_sizes (font_in font.now) family code size) }
{
    let mut seen = far;
    for at in (0..=size).rev() {
        seen = follow(font, at, family, code, needed, seen, LONGEST_CHAIN);
    }
    seen
}

// The chain is followed symbol by symbol, until one suffices or no step is left. Document 01 names this recursion for a chain.
#[tactic(auto, using(crate::proofs::ChainLaws::chain_ways, crate::proofs::LookingLaws::looked_enough), unfolding(crate::specs::Looking::looked_at))]
fn follow(
    font: &Font,
    size: u8,
    family: u8,
    code: u8,
    needed: Sp,
    far: Search,
    steps: usize,
) -> Search
    ensures { search_as result ≡ looked_at needed.0 (search_as far) (chain (font_in font.now) size family steps code) }
{
    if let Search::Enough(_) = far {
        return far;
    }
    let Some(metrics) = font.symbol(size, family, code) else {
        return far;
    };
    let sign = Sign {
        size,
        family,
        code,
        metrics,
    };
    let seen = look(needed, far, sign);
    let Some(next) = metrics.successor else {
        return seen;
    };
    if steps == 0 {
        return seen;
    }
    follow(font, size, family, next, needed, seen, steps - 1)
}

// One symbol more.
#[tactic(auto, unfolding(crate::specs::Looking::look))]
fn look(needed: Sp, far: Search, s: Sign) -> Search
    ensures { search_as result ≡ looking.look needed.0 (search_as far) (sign_as s) }
{
    match far {
        Search::Nothing => judged(needed, s, s),
        Search::Short(t) => judged(needed, s, taller(t, s)),
        Search::Enough(e) => Search::Enough(e),
    }
}

// The symbol s suffices if it is at least as tall as needed; t is the tallest so far.
#[tactic(auto, unfolding(crate::specs::Looking::judged))]
fn judged(needed: Sp, s: Sign, t: Sign) -> Search
    ensures { search_as result ≡ looking.judged needed.0 (sign_as s) (sign_as t) }
{
    if extent(s) < needed {
        Search::Short(t)
    } else {
        Search::Enough(s)
    }
}

// Of two the taller, the first of equals.
#[tactic(auto, unfolding(crate::specs::Delimiters::taller))]
fn taller(a: Sign, b: Sign) -> Sign
    ensures { sign_as result ≡ definition.taller (sign_as a) (sign_as b) }
{
    if extent(a) < extent(b) { b } else { a }
}

// Height plus depth.
#[tactic(auto, unfolding(crate::specs::Delimiters::extent))]
fn extent(s: Sign) -> Sp
    ensures { result.0 ≡ definition.extent (sign_as s) }
{
    let m = s.metrics;
    Sp::from(m.height).plus(Sp::from(m.depth))
}

// The box of a sign has its italic correction in its width.
pub fn sign_size(chosen: Option<Sign>) -> Size
    ensures { (size_as result ≡ sign_size (chosen_as chosen)) × Moderate result }
{
    match chosen {
        Some(s) => char_size(s.metrics),
        None => blank_size(),
    }
}

// The node of a sign at a place, with the size in which it was found.
pub fn sign_at(place: Offset, chosen: Option<Sign>) -> Option<Glyph>
    requires { OffsetWithin item_words place }
    ensures { (signing_as result ≡ sign_nodes (offset_as place) (chosen_as chosen)) × SigningWithin item_words result }
{
    chosen.map(|s| Glyph {
        place,
        size: s.size,
        family: s.family,
        code: s.code,
    })
}

// Whether the search finds anything, however tall it has to be. Every symbol is as tall as nothing, so it ends at the first one present.
pub fn has_sign(font: &Font, size: u8, d: Delimiter) -> bool
    ensures { result ≡ has_sign (font_in font.now) size d }
{
    sign_for(font, size, d, Sp(0)).is_some()
}
