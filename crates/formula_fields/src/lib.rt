// What a field says at its kind byte, with nothing within a list looked at, and where fields end and stand. Any bytes may come.

#![tactic(auto)]

ghost use Rattle.std.specs.Prelude.{◌≡◌, ◌∷◌, ◌+◌, ◌*◌, ◌^◌, ◌<◌, ◌≤◌, length};
ghost use Rattle.formula.specs.declared.Opening.TheVariants.{Fields, Choice};
ghost use Rattle.formula.specs.Tree.{greatest_short};
ghost use Rattle.formula.specs.Heads.{opening_of, symbol_head, field_head, is_empty, is_list};
ghost use Rattle.formula.specs.Places.{head_bytes, field_end, end, list_place};

use formula::{
    CHOICE_OPENING_BYTES, EMPTY_KIND, FieldHead, GREATEST_FAMILY, GREATEST_SHORT, Kind, LIST_KIND,
    LONG_LIST_KIND, SYMBOL_KIND,
};
use formula_kinds::{has_third, opening_bytes};

// What the field says whose kind byte is the first of s; s goes to the end of the list that holds the item.
pub fn field_head(s: &[u8]) -> FieldHead
    ensures { result ≡ field_head s.now }
{
    let [kind, rest @ ..] = s else {
        return FieldHead::NoField;
    };
    match *kind {
        EMPTY_KIND => FieldHead::Empty,
        SYMBOL_KIND => symbol_head(rest),
        other => list_head(other, rest),
    }
}

// Whether the field whose kind byte is the first of s says that it is empty.
pub fn is_empty(s: &[u8]) -> bool
    ensures { result ≡ is_empty (field_head s.now) }
{
    match s {
        [kind, ..] => *kind == EMPTY_KIND,
        [] => false,
    }
}

// Whether the field whose kind byte is the first of s says that it is a list.
pub fn is_list(s: &[u8]) -> bool
    ensures { result ≡ is_list (field_head s.now) }
{
    match s {
        [kind, ..] => *kind == LIST_KIND || *kind == LONG_LIST_KIND,
        [] => false,
    }
}

// How many bytes a field has, by its head.
pub fn field_bytes(head: FieldHead) -> usize
    requires { head_bytes head < 2 ^ 64 }
    ensures { result ≡ head_bytes head }
{
    match head {
        FieldHead::NoField => 0,
        FieldHead::Empty => 1,
        FieldHead::Symbol(_, _) => 3,
        FieldHead::Sublist(opening, n) => opening + n,
        FieldHead::CutSublist => 0,
    }
}

// Where the field ends whose kind byte stands at a place of s.
pub fn field_end(s: &[u8], at: usize) -> usize
    requires { at ≤ length s.now }
    ensures { (result ≡ field_end s.now at) × (result ≤ length s.now) }
{
    at + field_bytes(field_head(&s[at..]))
}

// Where the item ends that opens with the first byte of s and has fields.
pub fn fields_end(s: &[u8], kind: Kind) -> usize
    requires { opening_of s.now ≡ Fields kind }
    ensures { result ≡ end s.now kind }
{
    let second = field_end(s, opening_bytes(kind));
    let third = field_end(s, second);
    if has_third(kind) {
        field_end(s, third)
    } else {
        third
    }
}

// Where the list of a choice stands that has n before it; with all four before it, where the choice ends.
pub fn list_place(s: &[u8], n: usize) -> usize
    requires { opening_of s.now ≡ Choice }
    ensures { result ≡ list_place s.now n }
{
    let mut at = CHOICE_OPENING_BYTES;
    for _ in 0..n {
        at = field_end(s, at);
    }
    at
}

fn symbol_head(s: &[u8]) -> FieldHead
    ensures { result ≡ symbol_head s.now }
{
    let [family, code, ..] = s else {
        return FieldHead::NoField;
    };
    if *family > GREATEST_FAMILY {
        FieldHead::NoField
    } else {
        FieldHead::Symbol(*family, *code)
    }
}

// What a field says that is neither empty nor a symbol; s stands behind its kind byte.
fn list_head(kind: u8, s: &[u8]) -> FieldHead
    requires { 1 < kind }
    ensures { result ≡ field_head (kind ∷ s.now) }
{
    if kind > LONG_LIST_KIND {
        return FieldHead::NoField;
    }
    let bytes = length_bytes(kind);
    if s.len() < bytes {
        return FieldHead::CutSublist;
    }
    let n = if kind == LONG_LIST_KIND {
        let n = words::word(s, 0) as usize;
        if n <= GREATEST_SHORT {
            return FieldHead::CutSublist;
        }
        n
    } else {
        short(s[0], s[1])
    };
    if n > s.len() - bytes {
        return FieldHead::CutSublist;
    }
    FieldHead::Sublist(1 + bytes, n)
}

fn length_bytes(kind: u8) -> usize
    ensures { (kind ≡ 3 → result ≡ 4) × ((kind ≡ 3 → ⊥) → result ≡ 2) }
{
    if kind == LONG_LIST_KIND { 4 } else { 2 }
}

// The number that two bytes make, the least significant first.
fn short(a: u8, b: u8) -> usize
    ensures { (result ≡ a + 256 * b) × (result ≤ greatest_short) }
{
    u16::from_le_bytes([a, b]) as usize
}
