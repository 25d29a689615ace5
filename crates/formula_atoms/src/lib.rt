// What opens behind the mark of an atom: its class and its limits. Any bytes may come.

#![tactic(auto)]

ghost use Rattle.std.specs.Prelude.{◌≡◌};
ghost use Rattle.std.proofs.Math.ListN.{get_elem?};
ghost use Rattle.formula.specs.Heads.{classes, limit_kinds, atom_of, atom_opening};

use formula::{Base, Class, Kind, Limits, Opening};

pub fn atom_opening(s: &[u8]) -> Opening
    ensures { result ≡ atom_opening s.now }
{
    match s {
        [class, limits, ..] => atom(*class, *limits),
        _ => Opening::NoItem,
    }
}

// Limits are 0 unless the class is Op.
fn atom(class: u8, limits: u8) -> Opening
    ensures { result ≡ atom_of (get_elem? classes class) (get_elem? limit_kinds limits) }
{
    let Ok(class) = Class::try_from(class) else {
        return Opening::NoItem;
    };
    let Ok(limits) = Limits::try_from(limits) else {
        return Opening::NoItem;
    };
    if class == Class::Op || limits == Limits::DisplayOnly {
        Opening::Fields(Kind::Scripted(Base::Atom(class, limits)))
    } else {
        Opening::NoItem
    }
}
