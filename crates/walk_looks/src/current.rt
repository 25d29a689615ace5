// The style current at an item, and the list of a choice that is taken by it.

ghost use Rattle.std.specs.Prelude.{◌≡◌};
ghost use Rattle.formula.specs.declared.Opening.TheVariants.{Choice};
ghost use Rattle.formula.specs.Heads.{opening_of};
ghost use Rattle.formula.specs.Places as tree;
ghost use Rattle.setting.specs.Setting as definition;
ghost use Rattle.walk_looks.specs.Seen.{TakenSpan};

use boxes::styles::{Level, Style, style_of};
use formula::FieldHead;
use formula_fields::{field_head, list_place};

// Some items of a list: the first byte of the first, and the place behind the last.
#[derive(Clone, Copy)]
pub struct Span {
    pub first: usize,
    pub end: usize,
}

// The style that a number sets. One that is no style's does not occur in what reads.
pub fn restyled(style: Style, number: u8) -> Style
    ensures { result ≡ definition.restyled style number }
{
    style_of(number).unwrap_or(style)
}

// How many lists of a choice stand before the one taken: they are for D, T, S, SS.
fn lists_before(style: Style) -> usize
    ensures { result ≡ definition.taken style 0 1 2 3 }
{
    match style.level {
        Level::Display => 0,
        Level::Text => 1,
        Level::Script => 2,
        Level::Scriptscript => 3,
    }
}

// The items of the list that is taken of the choice at the head of s.
pub fn taken_span(style: Style, s: &[u8]) -> Span
    requires { tree.Readable s.now × (opening_of s.now ≡ Choice) }
    ensures { TakenSpan style s.now result }
{
    let at = list_place(s, lists_before(style));
    let head = field_head(&s[at..]);
    let FieldHead::Sublist(opening, n) = head else {
        return Span { first: at, end: at }; // not in a list that reads
    };
    let first = at + opening;
    Span {
        first,
        end: first + n,
    }
}
