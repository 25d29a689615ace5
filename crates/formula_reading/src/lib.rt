// The reading of a formula: the first fault in reading order, or none. Nothing is copied and nothing written.

#![tactic(auto)]

ghost use Rattle.std.specs.Prelude.{◌≡◌, ◌≤◌, length};
ghost use Rattle.formula.specs.declared.Opening.TheVariants.{Fields, Choice};
ghost use Rattle.formula.specs.Format.{long_format};
ghost use Rattle.formula.specs.Heads.{opening_of};
ghost use Rattle.formula.specs.Reading.{◌then_at◌, held_in, field_at, noad_at, choice_at, item_by, read, read_formula};
ghost use Rattle.formula.specs.Values.{told};
ghost use Rattle.formula_reading.specs.Values.{part_read_of};

use formula::{
    CHOICE_LISTS, CHOICE_OPENING_BYTES, DEPTH_LIMIT, FORMULA_LIMIT, Fault, FaultAt, FieldHead,
    KERN_BYTES, Kind, Opening, RESTYLE_BYTES,
};
use formula_fields::{field_head, is_list};
use formula_kinds::{has_third, holds_list, opening_bytes};
use formula_openings::opening;

// An item that can't be read is a fault at its own first byte.
const UNREADABLE: FaultAt = FaultAt {
    fault: Fault::Unreadable,
    place: 0,
};

// The formula itself is the first level.
pub fn read_formula(s: &[u8]) -> Result<(), FaultAt>
    ensures { result ≡ told (read_formula s.now) }
{
    if s.len() > FORMULA_LIMIT {
        return Err(UNREADABLE);
    }
    read_list(s, DEPTH_LIMIT - 1)
}

// Reads a list whole; `levels` is how many levels may still be entered below it.
#[cycle(reading)]
pub fn read_list(s: &[u8], levels: usize) -> Result<(), FaultAt>
    ensures { result ≡ told (read levels s.now) }
{
    let mut at: usize = 0;
    // No count: only the reading of an item says where the next one stands.
    while at < s.len() {
        match read_item(&s[at..], levels) {
            Ok(size) => at += size,
            Err(e) => return Err(FaultAt {
                fault: e.fault,
                place: at + e.place,
            }),
        }
    }
    Ok(())
}

// Reads the item whose first byte is the first of s, which goes to the end of its list; gives how many bytes it has.
#[cycle(reading)]
fn read_item(s: &[u8], levels: usize) -> Result<usize, FaultAt>
    ensures { result ≡ part_read_of (item_by long_format read levels s.now) }
{
    match opening(s) {
        Opening::NoItem => Err(UNREADABLE),
        Opening::Fields(kind) => read_noad(s, kind, levels),
        Opening::Kern(_) => Ok(KERN_BYTES),
        Opening::Restyle(_) => Ok(RESTYLE_BYTES),
        Opening::Choice => read_choice(s, levels),
    }
}

// Reads the fields of an item of a kind, in order.
#[cycle(reading)]
fn read_noad(s: &[u8], kind: Kind, levels: usize) -> Result<usize, FaultAt>
    requires { opening_of s.now ≡ Fields kind }
    ensures { result ≡ part_read_of (noad_at long_format read levels s.now kind) }
{
    let second = read_held(s, opening_bytes(kind), holds_list(kind), levels)?;
    let third = read_field(s, second, levels)?;
    if has_third(kind) {
        read_field(s, third, levels)
    } else {
        Ok(third)
    }
}

// Reads the lists of a choice, one behind the other.
#[cycle(reading)]
fn read_choice(s: &[u8], levels: usize) -> Result<usize, FaultAt>
    requires { opening_of s.now ≡ Choice }
    ensures { result ≡ part_read_of (choice_at long_format read levels s.now) }
{
    let mut at = CHOICE_OPENING_BYTES;
    for _ in 0..CHOICE_LISTS {
        at = read_held(s, at, true, levels)?;
    }
    Ok(at)
}

// Reads a field, which must be a list if `listed`; that it is one is judged before its depth.
#[cycle(reading)]
fn read_held(s: &[u8], at: usize, listed: bool, levels: usize) -> Result<usize, FaultAt>
    requires { at ≤ length s.now }
    ensures { result ≡ part_read_of (field_at long_format read levels s.now at then_at held_in listed) }
{
    if listed && !is_list(&s[at..]) {
        return Err(UNREADABLE);
    }
    read_field(s, at, levels)
}

// Reads the field whose kind byte stands at `at` of its item; gives the place behind it.
#[cycle(reading)]
fn read_field(s: &[u8], at: usize, levels: usize) -> Result<usize, FaultAt>
    requires { at ≤ length s.now }
    ensures { result ≡ part_read_of (field_at long_format read levels s.now at) }
{
    match field_head(&s[at..]) {
        FieldHead::NoField => Err(UNREADABLE),
        FieldHead::Empty => Ok(at + 1),
        FieldHead::Symbol(_, _) => Ok(at + 3),
        FieldHead::Sublist(opening, n) => {
            if levels == 0 {
                return Err(FaultAt {
                    fault: Fault::TooDeep,
                    place: at,
                });
            }
            let start = at + opening;
            let end = start + n;
            match read_list(&s[start..end], levels - 1) {
                Ok(()) => Ok(end),
                Err(e) => Err(FaultAt {
                    fault: e.fault,
                    place: start + e.place,
                }),
            }
        }
        FieldHead::CutSublist => {
            if levels == 0 {
                return Err(FaultAt {
                    fault: Fault::TooDeep,
                    place: at,
                });
            }
            Err(UNREADABLE)
        }
    }
}
