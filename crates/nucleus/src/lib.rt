// The nucleus of a base, defined in specs/Nucleus.antt, and the code of an operator's (rule 13).

#![tactic(auto)]

ghost use Rattle.std.specs.Prelude.{◌≡◌};
ghost use Rattle.scaled.specs.Signed.{Within};
ghost use Rattle.font.specs.Values.{metrics_as};
ghost use Rattle.nucleus.specs.Nucleus.{operator_shift, operator_width, operator_size, operator_nucleus};
ghost use Rattle.boxes.specs.Values.{size_as};
ghost use Rattle.nucleus.specs.Values.{nucleus_as};
ghost use Rattle.boxes.specs.Bounds.{words, SizeWithin};
ghost use Rattle.nucleus.specs.Bounds.{ModerateNucleus};

use boxes::{Offset, Own, Size, no_own};
use font::Metrics;
use scaled::Sp;

// A nucleus as the limits and the scripts see it. That it is moderate stands in contracts and not in the type, since `atom_nucleus` makes one
// of a shape of any size.
#[derive(Clone, Copy)]
pub struct Nucleus {
    pub size: Size,
    // Where its field stands.
    pub first: Offset,
    // The italic correction that a superscript of a pair, or the limits, still have to heed.
    pub delta: Sp,
    // Whether the drops of rule 18a are 0.
    pub plain: bool,
    // Its line, its sign and its rule, or its two signs.
    pub own: Own,
}

// Rule 13: an operator's symbol stands centred on the axis.
pub fn operator_nucleus(axis: Sp, m: Metrics, beside: bool) -> Nucleus
    requires { Within (words 1) axis.0 }
    ensures { (nucleus_as result ≡ operator_nucleus axis.0 (metrics_as m) beside) × ModerateNucleus result }
{
    let down = operator_shift(axis, m);
    Nucleus {
        size: operator_size(m, beside, down),
        first: Offset {
            across: Sp(0),
            up: down.negated(),
        },
        delta: Sp::from(m.italic),
        plain: false,
        own: no_own(),
    }
}

// How far it is shifted down.
fn operator_shift(axis: Sp, m: Metrics) -> Sp
    requires { Within (words 1) axis.0 }
    ensures { (result.0 ≡ operator_shift axis.0 (metrics_as m)) × Within (words 2) result.0 }
{
    Sp::from(m.height)
        .minus(Sp::from(m.depth))
        .half()
        .minus(axis)
}

fn operator_size(m: Metrics, beside: bool, down: Sp) -> Size
    requires { Within (words 2) down.0 }
    ensures { (size_as result ≡ operator_size (metrics_as m) beside down.0) × SizeWithin 2 3 result }
{
    Size {
        width: operator_width(m, beside),
        height: Sp(0).max(Sp::from(m.height).minus(down)),
        depth: Sp(0).max(Sp::from(m.depth).plus(down)),
    }
}

// The italic correction is left out where a subscript stands beside the operator.
fn operator_width(m: Metrics, beside: bool) -> Sp
    ensures { (result.0 ≡ operator_width (metrics_as m) beside) × Within (words 2) result.0 }
{
    if beside {
        Sp::from(m.width)
    } else {
        Sp::from(m.width).plus(Sp::from(m.italic))
    }
}
