// What a kind of item and a class say by themselves, with no byte looked at.

#![tactic(auto)]

ghost use Rattle.std.specs.Prelude.{◌≡◌};
ghost use Rattle.formula.specs.Tree.{base_bytes, opening_bytes, holds_list};
ghost use Rattle.formula.specs.Heads.{is_op};
ghost use Rattle.formula.specs.Places.{has_third};

use formula::{Base, Class, Kind};

// How many bytes an item has before its fields.
pub fn opening_bytes(kind: Kind) -> usize
    ensures { result ≡ opening_bytes kind }
{
    match kind {
        Kind::Scripted(base) => base_bytes(base),
        Kind::Fraction(_) => 3,
    }
}

fn base_bytes(base: Base) -> usize
    ensures { result ≡ base_bytes base }
{
    match base {
        Base::Atom(_, _) => 4,
        Base::Over | Base::Under => 2,
        Base::Root(_) => 6,
        Base::Fence(_, _) => 10,
    }
}

// Whether the first field of an item must be a list.
pub fn holds_list(kind: Kind) -> bool
    ensures { result ≡ holds_list kind }
{
    matches!(kind, Kind::Scripted(Base::Fence(_, _)))
}

// A fraction has two fields, a base with scripts three.
pub fn has_third(kind: Kind) -> bool
    ensures { result ≡ has_third kind }
{
    matches!(kind, Kind::Scripted(_))
}

pub fn is_op(class: Class) -> bool
    ensures { result ≡ is_op class }
{
    class == Class::Op
}
