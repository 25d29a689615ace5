// The nucleus of an atom, and of a line over a base or under it (rules 9, 10, 13 and 17).

#![tactic(auto)]

ghost use Rattle.std.specs.Prelude.{◌≡◌};
ghost use Rattle.scaled.specs.Signed.{Within};
ghost use Rattle.font.specs.Values.{metrics_as};
ghost use Rattle.nucleus.specs.Nucleus.{box_nucleus, symbol_nucleus, atom_nucleus};
ghost use Rattle.nucleus.specs.Nucleus as rule;
ghost use Rattle.boxes.specs.Values.{size_as, shape_as};
ghost use Rattle.nucleus.specs.Values.{nucleus_as};
ghost use Rattle.boxes.specs.Bounds.{words, Moderate, ModerateShape, SizeWithin};
ghost use Rattle.nucleus.specs.Bounds.{ModerateNucleus};

use boxes::{Offset, Rule, Shape, Size, char_size, no_own, origin, ruled_behind, zero_size};
use font::Metrics;
use nucleus::{Nucleus, operator_nucleus};
use scaled::Sp;

// An atom's nucleus; the tests are whether it is an Op, has limits set, and has a subscript.
pub fn atom_nucleus(axis: Sp, operator: bool, limits: bool, subscript: bool, x: Shape) -> Nucleus
    requires { Within (words 1) axis.0 }
    ensures { (nucleus_as result ≡ atom_nucleus axis.0 operator limits subscript (shape_as x)) × (ModerateShape x → ModerateNucleus result) }
{
    match x {
        Shape::Nothing => box_nucleus(zero_size()),
        Shape::Char(m) => {
            if operator {
                operator_nucleus(axis, m, subscript && !limits)
            } else {
                symbol_nucleus(m, subscript)
            }
        }
        Shape::Box(z) => box_nucleus(z),
    }
}

fn box_nucleus(size: Size) -> Nucleus
    ensures { (nucleus_as result ≡ box_nucleus (size_as size)) × (Moderate size → ModerateNucleus result) }
{
    Nucleus {
        size,
        first: origin(),
        delta: Sp(0),
        plain: false,
        own: no_own(),
    }
}

// Rule 17: the italic correction is space behind a symbol unless a subscript follows.
fn symbol_nucleus(m: Metrics, subscript: bool) -> Nucleus
    ensures { (nucleus_as result ≡ symbol_nucleus (metrics_as m) subscript) × ModerateNucleus result }
{
    if subscript {
        Nucleus {
            size: Size {
                width: Sp::from(m.width),
                height: Sp::from(m.height),
                depth: Sp::from(m.depth),
            },
            first: origin(),
            delta: Sp::from(m.italic),
            plain: true,
            own: no_own(),
        }
    } else {
        Nucleus {
            size: char_size(m),
            first: origin(),
            delta: Sp(0),
            plain: true,
            own: no_own(),
        }
    }
}

// Rules 9 and 10 stay two functions, as the definitions are: one for both would ask at each line which it is.
// Rule 9: 3θ between the nucleus and the line, θ beyond the line.
pub fn overline(theta: Sp, x: Size) -> Nucleus
    requires { Within (words 1) theta.0 × Moderate x }
    ensures { (nucleus_as result ≡ rule.overline theta.0 (size_as x)) × ModerateNucleus result }
{
    let size = Size {
        height: x.height.plus(theta.times(5)),
        ..x
    };
    lined(size, theta, x.height.plus(theta.times(3)))
}

// Rule 10: the same below, where the line's lower edge is θ below its top.
pub fn underline(theta: Sp, x: Size) -> Nucleus
    requires { Within (words 1) theta.0 × Moderate x }
    ensures { (nucleus_as result ≡ rule.underline theta.0 (size_as x)) × ModerateNucleus result }
{
    let size = Size {
        depth: x.depth.plus(theta.times(5)),
        ..x
    };
    lined(
        size,
        theta,
        x.depth.plus(theta.times(3)).negated().minus(theta),
    )
}

// A line of thickness theta as wide as the nucleus, whose lower edge is up from the baseline.
fn lined(size: Size, theta: Sp, up: Sp) -> Nucleus
    requires { SizeWithin 2 7 size × Within (words 1) theta.0 × Within (words 7) up.0 }
    ensures { (nucleus_as result ≡ rule.lined (size_as size) theta.0 up.0) × ModerateNucleus result }
{
    let rule = Rule {
        corner: Offset { across: Sp(0), up },
        width: size.width,
        thickness: theta,
    };
    Nucleus {
        size,
        first: origin(),
        delta: Sp(0),
        plain: false,
        own: ruled_behind(rule),
    }
}
