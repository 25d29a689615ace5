// What the rules see of a field and say of an item: sizes and places. Styles and font parameters have modules of their own.
// Each file here is defined in the file of specs/ that has its name, this one in specs/Boxes.antt.

#![tactic(auto)]

pub mod parameters;
pub mod styles;

ghost use Rattle.std.specs.Prelude.{◌≡◌};
ghost use Rattle.scaled.specs.Signed.{Within};
ghost use Rattle.font.specs.Values.{metrics_as};
ghost use Rattle.boxes.specs.Boxes as boxes;
ghost use Rattle.boxes.specs.Values.{size_as, shape_as, script_as, offset_as, rule_as, signing_as, own_as};
ghost use Rattle.boxes.specs.Bounds.{words, item_words, Moderate, ModerateShape, ModerateScript, OffsetWithin, RuleWithin, SigningWithin, OwnWithin};

use font::Metrics;
use scaled::Sp;

// A field's size is moderate, which contracts say and this type can't: a nucleus and an item are larger, and `size_of`, `given` and
// `atom_nucleus` answer for shapes of any size.
#[derive(Clone, Copy)]
pub struct Size {
    pub width: Sp,
    pub height: Sp,
    pub depth: Sp,
}

// A field: empty, a symbol that the font has, or a list that has been set.
#[derive(Clone, Copy)]
pub enum Shape {
    Nothing,
    Char(Metrics),
    Box(Size),
}

// Across to the right and up, from the item's reference point.
#[derive(Clone, Copy)]
pub struct Offset {
    pub across: Sp,
    pub up: Sp,
}

// How far a superscript or numerator is shifted up, and a subscript or denominator down.
#[derive(Clone, Copy)]
pub struct Shifts {
    pub up: Sp,
    pub down: Sp,
}

// A line or a bar; `corner` is its lower left one.
#[derive(Clone, Copy)]
pub struct Rule {
    pub corner: Offset,
    pub width: Sp,
    pub thickness: Sp,
}

// The symbol of a delimiter at its place, with the size in which it was found.
#[derive(Clone, Copy)]
pub struct Glyph {
    pub place: Offset,
    pub size: u8,
    pub family: u8,
    pub code: u8,
}

// Own nodes that stand together: a sign, and behind it a rule.
#[derive(Clone, Copy)]
pub struct Owned {
    pub sign: Option<Glyph>,
    pub ruling: Option<Rule>,
}

// An item's own nodes: before its first field, and behind it.
#[derive(Clone, Copy)]
pub struct Own {
    pub before: Owned,
    pub behind: Owned,
}

// An item: its size, where its three fields stand, and its own nodes.
#[derive(Clone, Copy)]
pub struct Arranged {
    pub size: Size,
    pub first: Offset,
    pub second: Offset,
    pub third: Offset,
    pub own: Own,
}

pub fn size_of(x: Shape) -> Size
    ensures { (size_as result ≡ boxes.size_of (shape_as x)) × (ModerateShape x → Moderate result) }
{
    match x {
        Shape::Nothing => zero_size(),
        Shape::Char(m) => char_size(m),
        Shape::Box(z) => z,
    }
}

// A superscript or a subscript, if there is one.
pub fn given(x: Shape) -> Option<Size>
    ensures { (script_as result ≡ boxes.given (shape_as x)) × (ModerateShape x → ModerateScript result) }
{
    match x {
        Shape::Nothing => None,
        Shape::Char(m) => Some(char_size(m)),
        Shape::Box(z) => Some(z),
    }
}

// A symbol with its italic correction in its width.
pub fn char_size(m: Metrics) -> Size
    ensures { (size_as result ≡ boxes.char_size (metrics_as m)) × Moderate result }
{
    Size {
        width: Sp::from(m.width).plus(Sp::from(m.italic)),
        height: Sp::from(m.height),
        depth: Sp::from(m.depth),
    }
}

// This and the other values without an argument have the definitions' names, so that there is no `Default`.
pub fn zero_size() -> Size
    ensures { (size_as result ≡ boxes.zero_size) × Moderate result }
{
    Size {
        width: Sp(0),
        height: Sp(0),
        depth: Sp(0),
    }
}

// The width of an absent delimiter.
pub const NULL_DELIMITER_WIDTH: i64 = 78_643;

// An absent delimiter is blank, with a width alone.
pub fn blank_size() -> Size
    ensures { (size_as result ≡ boxes.blank_size) × Moderate result }
{
    Size {
        width: Sp(NULL_DELIMITER_WIDTH),
        height: Sp(0),
        depth: Sp(0),
    }
}

pub fn origin() -> Offset
    ensures { (offset_as result ≡ boxes.origin) × OffsetWithin 0 result }
{
    Offset {
        across: Sp(0),
        up: Sp(0),
    }
}

const NONE_OWNED: Owned = Owned {
    sign: None,
    ruling: None,
};

pub fn no_own() -> Own
    ensures { (own_as result ≡ boxes.no_own) × OwnWithin item_words result }
{
    Own {
        before: NONE_OWNED,
        behind: NONE_OWNED,
    }
}

pub fn ruled_behind(rule: Rule) -> Own
    requires { RuleWithin item_words rule }
    ensures { (own_as result ≡ boxes.ruled_behind (rule_as rule)) × OwnWithin item_words result }
{
    Own {
        before: NONE_OWNED,
        behind: Owned {
            sign: None,
            ruling: Some(rule),
        },
    }
}

// A delimiter's symbol, if there is one, and a rule.
pub fn signed_before(sign: Option<Glyph>, rule: Rule) -> Own
    requires { SigningWithin item_words sign × RuleWithin item_words rule }
    ensures { (own_as result ≡ boxes.signed_before (signing_as sign) (rule_as rule)) × OwnWithin item_words result }
{
    Own {
        before: Owned {
            sign,
            ruling: Some(rule),
        },
        behind: NONE_OWNED,
    }
}

// A delimiter's symbol on either side, if there is one.
pub fn signed_around(left: Option<Glyph>, right: Option<Glyph>) -> Own
    requires { SigningWithin item_words left × SigningWithin item_words right }
    ensures { (own_as result ≡ boxes.signed_around (signing_as left) (signing_as right)) × OwnWithin item_words result }
{
    Own {
        before: Owned {
            sign: left,
            ruling: None,
        },
        behind: Owned {
            sign: right,
            ruling: None,
        },
    }
}

// How far a box of width w is moved right to stand in the middle of the width all.
pub fn centred(all: Sp, w: Sp) -> Sp
    requires { Within (words 6) all.0 × Within (words 6) w.0 }
    ensures { (result.0 ≡ boxes.centred all.0 w.0) × Within (words 7) result.0 }
{
    all.minus(w).half()
}
