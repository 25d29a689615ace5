// What opens an item: its kind, its kern, its style, or that it is a choice. Any bytes may come.

#![tactic(auto)]

ghost use Rattle.std.specs.Prelude.{◌≡◌};
ghost use Rattle.formula.specs.Marks.{mark_of};
ghost use Rattle.formula.specs.Heads.{opens, opening_of};

use formula::{Base, Kind, Mark, Opening};
use formula_atoms::atom_opening;
use formula_delimiters::{fence_opening, root_opening};
use formula_numbers::{fraction_opening, kern_opening, style_opening};

// What opens with the first byte of s.
pub fn opening(s: &[u8]) -> Opening
    ensures { result ≡ opening_of s.now }
{
    let [a, b, rest @ ..] = s else {
        return Opening::NoItem;
    };
    opened(mark(*a, *b), rest)
}

// What opens behind a mark.
#[tactic(auto, unfolding(formula::specs::Heads::opens))]
fn opened(mark: Mark, s: &[u8]) -> Opening
    ensures { result ≡ opens mark s.now }
{
    match mark {
        Mark::AT => atom_opening(s),
        Mark::OV => Opening::Fields(Kind::Scripted(Base::Over)),
        Mark::UN => Opening::Fields(Kind::Scripted(Base::Under)),
        Mark::FR => fraction_opening(s),
        Mark::KN => kern_opening(s),
        Mark::ST => style_opening(s),
        Mark::C4 => Opening::Choice,
        Mark::RD => root_opening(s),
        Mark::FE => fence_opening(s),
        Mark::Unknown => Opening::NoItem,
    }
}

#[tactic(auto, unfolding(formula::specs::Marks::mark_of, formula::specs::Marks::mark_in))]
fn mark(a: u8, b: u8) -> Mark
    ensures { result ≡ mark_of a b }
{
    match (a, b) {
        (b'A', b'T') => Mark::AT,
        (b'O', b'V') => Mark::OV,
        (b'U', b'N') => Mark::UN,
        (b'F', b'R') => Mark::FR,
        (b'K', b'N') => Mark::KN,
        (b'S', b'T') => Mark::ST,
        (b'C', b'4') => Mark::C4,
        (b'R', b'D') => Mark::RD,
        (b'F', b'E') => Mark::FE,
        _ => Mark::Unknown,
    }
}
