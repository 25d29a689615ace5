// Fences (rule 19): the list x, the delimiters y on its left and z on its right; defined in specs/Fences.antt.

#![tactic(auto)]

ghost use Rattle.std.specs.Prelude.{◌≡◌, ◌/◌, pos};
ghost use Rattle.std.specs.Int.Signed.{quot_z};
ghost use Rattle.scaled.specs.Made.{Multiple};
ghost use Rattle.scaled.specs.Signed.{Within};
ghost use Rattle.boxes.specs.Styles.{font_size};
ghost use Rattle.boxes.specs.Parameters.{axis_height};
ghost use Rattle.boxes.specs.Values.{parameters_in, size_as};
ghost use Rattle.boxes.specs.Bounds.{words, Moderate};
ghost use Rattle.fences.specs.Fences.{from_axis, extent_for, fence_extent};
ghost use Rattle.fences.specs.Fences as rule;
ghost use Rattle.fences.specs.Values.{fence_as};
ghost use Rattle.fences.specs.Bounds.{ModerateFence};

use boxes::parameters::{Dimension, Parameters, parameter};
use boxes::styles::Style;
use boxes::{Offset, Size};
use scaled::Sp;

// In thousandths, the part of 2δ that a delimiter has to reach.
const DELIMITER_FACTOR: i64 = 901;

// By how much a delimiter may fall short of 2δ.
const DELIMITER_SHORTFALL: i64 = 327_680;

// A fence, and where its left delimiter, its list and its right delimiter stand.
#[derive(Clone, Copy)]
pub struct Fence {
    pub size: Size,
    pub left: Offset,
    pub inside: Offset,
    pub right: Offset,
}

// The height plus depth that each delimiter around a list has to have.
pub fn fence_extent(p: &Parameters, style: Style, x: Size) -> Sp
    requires { Moderate x }
    ensures { (result.0 ≡ fence_extent (parameters_in p.now) style (size_as x)) × Within (words 4) result.0 }
{
    extent_for(from_axis(axis_height(p, style), x))
}

#[tactic(auto, unfolding(crate::specs::Fences::fence_of))]
pub fn fence_of(p: &Parameters, style: Style, y: Size, x: Size, z: Size) -> Fence
    requires { Moderate y × Moderate x × Moderate z }
    ensures { (fence_as result ≡ rule.fence_of (parameters_in p.now) style (size_as y) (size_as x) (size_as z)) × ModerateFence result }
{
    let axis = axis_height(p, style);
    fenced(raised(axis, y), raised(axis, z), y, x, z)
}

fn axis_height(p: &Parameters, style: Style) -> Sp
    ensures { (result.0 ≡ axis_height (parameters_in p.now) (font_size style)) × Within (words 1) result.0 }
{
    parameter(p, style, Dimension::AxisHeight)
}

// δ: how far a list extends away from the axis.
fn from_axis(axis: Sp, x: Size) -> Sp
    requires { Within (words 1) axis.0 × Moderate x }
    ensures { (result.0 ≡ from_axis axis.0 (size_as x)) × Within (words 2) result.0 }
{
    x.height.minus(axis).max(x.depth.plus(axis))
}

// By the factor or by the shortfall, whichever asks for more.
fn extent_for(delta: Sp) -> Sp
    requires { Within (words 2) delta.0 }
    ensures { (result.0 ≡ extent_for delta.0) × Within (words 4) result.0 }
{
    by_factor(quotient(delta)).max(delta.plus(delta).minus(Sp(DELIMITER_SHORTFALL)))
}

// δ/500, rounded toward zero.
fn quotient(delta: Sp) -> Sp
    requires { Within (words 2) delta.0 }
    ensures { (result.0 ≡ quot_z delta.0 (pos 500)) × Within (words 2 / 500) result.0 }
{
    Sp(delta.0 / 500)
}

// δ/500 by the factor, which is more than the byte that `Sp::times` takes.
fn by_factor(part: Sp) -> Sp
    requires { Within (words 1) part.0 }
    ensures { Multiple 901 part.0 result.0 }
{
    Sp(part.0 * DELIMITER_FACTOR)
}

// How far a delimiter, a blank too, is raised so that its middle is on the axis.
fn raised(axis: Sp, y: Size) -> Sp
    requires { Within (words 1) axis.0 × Moderate y }
    ensures { (result.0 ≡ rule.raised axis.0 (size_as y)) × Within (words 2) result.0 }
{
    axis.minus(y.height.minus(y.depth).half())
}

// The delimiters are raised by u and v; the three stand side by side.
fn fenced(u: Sp, v: Sp, y: Size, x: Size, z: Size) -> Fence
    requires { Within (words 2) u.0 × Within (words 2) v.0 × Moderate y × Moderate x × Moderate z }
    ensures { (fence_as result ≡ rule.fenced u.0 v.0 (size_as y) (size_as x) (size_as z)) × ModerateFence result }
{
    let behind = y.width.plus(x.width);
    Fence {
        size: Size {
            width: behind.plus(z.width),
            height: y.height.plus(u).max(x.height).max(z.height.plus(v)),
            depth: y.depth.minus(u).max(x.depth).max(z.depth.minus(v)),
        },
        left: Offset {
            across: Sp(0),
            up: u,
        },
        inside: Offset {
            across: y.width,
            up: Sp(0),
        },
        right: Offset {
            across: behind,
            up: v,
        },
    }
}
