// The parts of a fraction (rules 15 to 15e): numerator x, denominator z, bar thickness θ.

#![tactic(auto)]

pub mod why;

ghost use Rattle.std.specs.Prelude.{◌≡◌};
ghost use Rattle.scaled.specs.Signed.{Within};
ghost use Rattle.fractions.specs.Fractions.{bar_thickness, numerator_up, denominator_down, fraction_shifts, shifts_without_bar, least_from_bar, shifts_with_bar, final_shifts, across_of};
ghost use Rattle.fractions.specs.Fractions as rule;
ghost use Rattle.boxes.specs.Styles.{font_size};
ghost use Rattle.boxes.specs.Values.{parameters_in, size_as, shifts_as, own_as, arranged_as};
ghost use Rattle.boxes.specs.Bounds.{words, item_words, Moderate, ShiftsWithin, OwnWithin, Bounded};

use boxes::parameters::{Dimension, Parameters, parameter};
use boxes::styles::{Style, is_display};
use boxes::{Arranged, NULL_DELIMITER_WIDTH, Offset, Own, Shifts, Size, centred, origin};
use formula::Bar;
use fractions::{bar_of, cleared, enclosed, has_bar, least_clearance, rules_clear};
use scaled::Sp;

#[tactic(auto, unfolding(fractions::specs::Fractions::fraction))]
pub fn fraction(p: &Parameters, style: Style, bar: Bar, x: Size, z: Size) -> Arranged
    requires { Moderate x × Moderate z }
    ensures { (arranged_as result ≡ rule.fraction (parameters_in p.now) style bar (size_as x) (size_as z)) × Bounded result }
{
    let theta = bar_thickness(p, style, bar);
    let t = final_shifts(p, style, theta, x, z);
    let w = x.width.max(z.width);
    stacked(
        x,
        z,
        w,
        t,
        bar_of(parameter(p, style, Dimension::AxisHeight), theta, w),
    )
}

// 15: with thickness 0 there is no bar.
pub fn bar_thickness(p: &Parameters, style: Style, bar: Bar) -> Sp
    ensures { (result.0 ≡ bar_thickness (parameters_in p.now) (font_size style) bar) × Within (words 1) result.0 }
{
    match bar {
        Bar::Default => parameter(p, style, Dimension::RuleThickness),
        Bar::Without => Sp(0),
    }
}

fn final_shifts(p: &Parameters, style: Style, theta: Sp, x: Size, z: Size) -> Shifts
    requires { Within (words 1) theta.0 × Moderate x × Moderate z }
    ensures { (shifts_as result ≡ final_shifts (parameters_in p.now) style theta.0 (size_as x) (size_as z)) × ShiftsWithin 12 result }
{
    let t = fraction_shifts(p, style, theta);
    if has_bar(theta) {
        let axis = parameter(p, style, Dimension::AxisHeight);
        shifts_with_bar(axis, theta, least_from_bar(style, theta), x, z, t)
    } else {
        shifts_without_bar(p, style, x, z, t)
    }
}

// 15b: the shifts at first.
#[tactic(auto, unfolding(fractions::specs::Fractions::fraction_shifts))]
fn fraction_shifts(p: &Parameters, style: Style, theta: Sp) -> Shifts
    ensures { (shifts_as result ≡ fraction_shifts (parameters_in p.now) style theta.0) × ShiftsWithin 1 result }
{
    Shifts {
        up: numerator_up(p, style, theta),
        down: denominator_down(p, style),
    }
}

#[tactic(auto, unfolding(scaled::specs::Length::pick))]
fn numerator_up(p: &Parameters, style: Style, theta: Sp) -> Sp
    ensures { (result.0 ≡ numerator_up (parameters_in p.now) style theta.0) × Within (words 1) result.0 }
{
    if is_display(style) {
        parameter(p, style, Dimension::Num1)
    } else if has_bar(theta) {
        parameter(p, style, Dimension::Num2)
    } else {
        parameter(p, style, Dimension::Num3)
    }
}

#[tactic(auto, unfolding(scaled::specs::Length::pick))]
fn denominator_down(p: &Parameters, style: Style) -> Sp
    ensures { (result.0 ≡ denominator_down (parameters_in p.now) style) × Within (words 1) result.0 }
{
    if is_display(style) {
        parameter(p, style, Dimension::Denom1)
    } else {
        parameter(p, style, Dimension::Denom2)
    }
}

// 15c: without a bar, both gain half of what the clearance lacks.
#[tactic(auto, unfolding(fractions::specs::Fractions::shifts_without_bar))]
fn shifts_without_bar(p: &Parameters, style: Style, x: Size, z: Size, t: Shifts) -> Shifts
    requires { Moderate x × Moderate z × ShiftsWithin 1 t }
    ensures { (shifts_as result ≡ shifts_without_bar (parameters_in p.now) style (size_as x) (size_as z) (shifts_as t)) × ShiftsWithin 12 result }
{
    parted(least_clearance(p, style), clearance(x, z, t), t)
}

// 15c: the free height between numerator and denominator.
fn clearance(x: Size, z: Size, t: Shifts) -> Sp
    requires { Moderate x × Moderate z × ShiftsWithin 1 t }
    ensures { (result.0 ≡ rule.clearance (size_as x) (size_as z) (shifts_as t)) × Within (words 4) result.0 }
{
    t.up.minus(x.depth).minus(z.height.minus(t.down))
}

// 15c.
#[tactic(auto, unfolding(fractions::specs::Fractions::parted))]
fn parted(phi: Sp, psi: Sp, t: Shifts) -> Shifts
    requires { Within (words 7) phi.0 × Within (words 4) psi.0 × ShiftsWithin 1 t }
    ensures { (shifts_as result ≡ rule.parted phi.0 psi.0 (shifts_as t)) × ShiftsWithin 12 result }
{
    if psi < phi {
        let more = phi.minus(psi).half();
        Shifts {
            up: t.up.plus(more),
            down: t.down.plus(more),
        }
    } else {
        t
    }
}

// 15d: with a bar, each shift grows until its side is clear of the bar by φ.
#[tactic(auto, unfolding(fractions::specs::Fractions::shifts_with_bar))]
fn shifts_with_bar(axis: Sp, theta: Sp, phi: Sp, x: Size, z: Size, t: Shifts) -> Shifts
    requires { Within (words 1) axis.0 × Within (words 1) theta.0 × Within (words 7) phi.0 × Moderate x × Moderate z × ShiftsWithin 1 t }
    ensures { (shifts_as result ≡ shifts_with_bar axis.0 theta.0 phi.0 (size_as x) (size_as z) (shifts_as t)) × ShiftsWithin 12 result }
{
    let half = theta.half();
    Shifts {
        up: cleared(phi, t.up.minus(x.depth), axis.plus(half), t.up),
        down: cleared(phi, axis.minus(half), z.height.minus(t.down), t.down),
    }
}

// 15d: three rules in display styles, one in others.
fn least_from_bar(style: Style, theta: Sp) -> Sp
    requires { Within (words 1) theta.0 }
    ensures { (result.0 ≡ least_from_bar style theta.0) × Within (words 7) result.0 }
{
    rules_clear(style, theta, 3, 1)
}

// Where a part stands in the middle of the width w, behind the blank.
fn across_of(w: Sp, z: Size) -> Sp
    requires { Within (words 2) w.0 × Moderate z }
    ensures { (result.0 ≡ across_of w.0 (size_as z)) × Within (words 8) result.0 }
{
    Sp(NULL_DELIMITER_WIDTH).plus(centred(w, z.width))
}

// Both parts in the middle of the width w.
fn stacked(x: Size, z: Size, w: Sp, t: Shifts, bar: Own) -> Arranged
    requires { Moderate x × Moderate z × Within (words 2) w.0 × ShiftsWithin 12 t × OwnWithin item_words bar }
    ensures { (arranged_as result ≡ rule.stacked (size_as x) (size_as z) w.0 (shifts_as t) (own_as bar)) × Bounded result }
{
    Arranged {
        size: Size {
            width: enclosed(w),
            height: x.height.plus(t.up),
            depth: z.depth.plus(t.down),
        },
        first: Offset {
            across: across_of(w, x),
            up: t.up,
        },
        second: Offset {
            across: across_of(w, z),
            up: t.down.negated(),
        },
        third: origin(),
        own: bar,
    }
}
