// The space between two atoms (rule 20), defined in specs/Spacing.antt.

#![tactic(auto)]

pub mod classes;

ghost use Rattle.std.specs.Prelude.{◌≡◌, ◌<◌, ◌^◌};
ghost use Rattle.scaled.specs.Signed.{Within};
ghost use Rattle.formula.specs.Heads.{class_number};
ghost use Rattle.spacing.specs.Spacing as spacing;
ghost use Rattle.spacing.specs.Spacing.{chart, space_before};
ghost use Rattle.boxes.specs.Values.{parameters_in};
ghost use Rattle.spacing.specs.Values.{neighbour_as, Digits};

use boxes::parameters::{Dimension, Parameters, parameter};
use boxes::styles::{Style, is_large};
use formula::Class;
use scaled::{Mu, Sp};

// A row for each left class, a column for each right one. The two digits of an entry are the math units in the styles D
// to T' and in the script styles.
const CHART: [[u8; 8]; 8] = [
    [0, 33, 40, 50, 0, 0, 0, 30], // Ord
    [33, 33, 0, 50, 0, 0, 0, 30], // Op
    [40, 40, 0, 0, 40, 0, 0, 40], // Bin
    [50, 50, 0, 0, 50, 0, 0, 50], // Rel
    [0, 0, 0, 0, 0, 0, 0, 0], // Open
    [0, 33, 40, 50, 0, 0, 0, 30], // Close
    [30, 30, 0, 30, 30, 30, 30, 30], // Punct
    [30, 33, 40, 50, 30, 0, 30, 30], // Inner
];

// The space before an atom of class right, none before the first.
#[tactic(auto, unfolding(crate::specs::Spacing::space_before))]
pub fn space_before(p: &Parameters, style: Style, left: Option<Class>, right: Class) -> Sp
    ensures { (result.0 ≡ space_before (parameters_in p.now) style (neighbour_as left) right) × Within (2 ^ 32) result.0 }
{
    match left {
        None => Sp(0),
        Some(class) => {
            let quad = parameter(p, style, Dimension::Quad);
            Mu(units(is_large(style), class, right) as i64).at(quad)
        }
    }
}

fn units(large: bool, left: Class, right: Class) -> u8
    ensures { (result ≡ spacing.units large (chart left right)) × (result < 10) }
{
    let both = entry(left, right);
    if large { both / 10 } else { both % 10 }
}

fn entry(left: Class, right: Class) -> u8
    ensures { Digits result (chart left right) }
{
    CHART[column(left)][column(right)]
}

fn column(class: Class) -> usize
    ensures { (result ≡ class_number class) × (result < 8) }
{
    usize::from(u8::from(class))
}
