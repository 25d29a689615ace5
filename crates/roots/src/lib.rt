// Roots (rule 11): the nucleus x, the sign y; defined in specs/Roots.antt.

#![tactic(auto)]

ghost use Rattle.std.specs.Prelude.{◌≡◌};
ghost use Rattle.scaled.specs.Signed.{Within};
ghost use Rattle.boxes.specs.Values.{parameters_in, size_as};
ghost use Rattle.boxes.specs.Bounds.{words, Moderate};
ghost use Rattle.roots.specs.Roots.{least_clearance, sign_extent};
ghost use Rattle.roots.specs.Roots as rule;
ghost use Rattle.roots.specs.Values.{radical_as};
ghost use Rattle.roots.specs.Bounds.{ModerateRadical};

use boxes::parameters::{Dimension, Parameters, parameter};
use boxes::styles::{Style, is_display};
use boxes::{Offset, Rule, Size};
use scaled::Sp;

// A root, and where its sign, its rule and its nucleus stand.
#[derive(Clone, Copy)]
pub struct Radical {
    pub size: Size,
    pub sign: Offset,
    pub rule: Rule,
    pub nucleus: Offset,
}

// The height plus depth that the sign over a nucleus has to have.
pub fn sign_extent(p: &Parameters, style: Style, x: Size) -> Sp
    requires { Moderate x }
    ensures { (result.0 ≡ sign_extent (parameters_in p.now) style (size_as x)) × Within (words 5) result.0 }
{
    x.height
        .plus(x.depth)
        .plus(least_clearance(p, style))
        .plus(parameter(p, style, Dimension::RuleThickness))
}

#[tactic(auto, unfolding(crate::specs::Roots::root))]
pub fn root(p: &Parameters, style: Style, x: Size, y: Size) -> Radical
    requires { Moderate x × Moderate y }
    ensures { (radical_as result ≡ rule.root (parameters_in p.now) style (size_as x) (size_as y)) × ModerateRadical result }
{
    rooted(clearance(least_clearance(p, style), x, y), x, y)
}

// ψ at first.
#[tactic(auto, unfolding(scaled::specs::Length::pick))]
fn least_clearance(p: &Parameters, style: Style) -> Sp
    ensures { (result.0 ≡ least_clearance (parameters_in p.now) style) × Within (words 2) result.0 }
{
    let theta = parameter(p, style, Dimension::RuleThickness);
    if is_display(style) {
        theta.plus(parameter(p, style, Dimension::XHeight).quarter())
    } else {
        theta.plus(theta.quarter())
    }
}

// ψ grows by half of the excess where the sign is deeper than the nucleus with ψ above it.
#[tactic(auto, unfolding(scaled::specs::Length::pick))]
fn clearance(psi: Sp, x: Size, y: Size) -> Sp
    requires { Within (words 2) psi.0 × Moderate x × Moderate y }
    ensures { (result.0 ≡ rule.clearance psi.0 (size_as x) (size_as y)) × Within (words 3) result.0 }
{
    let excess = y.depth.minus(x.height.plus(x.depth).plus(psi));
    if excess > Sp(0) {
        psi.plus(excess.half())
    } else {
        psi
    }
}

// The rule is as thick as the sign is high, and the sign is raised to its lower edge.
fn rooted(psi: Sp, x: Size, y: Size) -> Radical
    requires { Within (words 3) psi.0 × Moderate x × Moderate y }
    ensures { (radical_as result ≡ rule.rooted psi.0 (size_as x) (size_as y)) × ModerateRadical result }
{
    let up = x.height.plus(psi);
    Radical {
        size: Size {
            width: y.width.plus(x.width),
            height: up.plus(y.height).plus(y.height),
            depth: x.depth.max(y.depth.minus(up)),
        },
        sign: Offset { across: Sp(0), up },
        rule: Rule {
            corner: Offset {
                across: y.width,
                up,
            },
            width: x.width,
            thickness: y.height,
        },
        nucleus: Offset {
            across: y.width,
            up: Sp(0),
        },
    }
}
