// The shifts of scripts (rules 18b to 18e). Each stage of a shift has a name; u, v and ψ are the rule's letters.

#![tactic(auto)]

ghost use Rattle.std.specs.Prelude.{◌≡◌};
ghost use Rattle.scaled.specs.Signed.{Within};
ghost use Rattle.scripts.specs.Scripts.{quarter_xheight, four_fifths_xheight, subscript_candidates, least_up, superscript_candidates, pair_candidates, four_rules, gap_down, ψ_of, pair_shifts};
ghost use Rattle.scripts.specs.Scripts as rule;
ghost use Rattle.scripts.specs.Values.{candidates_as};
ghost use Rattle.scripts.specs.Bounds.{CandidatesWithin};
ghost use Rattle.boxes.specs.Styles.{font_size};
ghost use Rattle.boxes.specs.Values.{parameters_in, size_as, shifts_as};
ghost use Rattle.nucleus.specs.Values.{nucleus_as};
ghost use Rattle.boxes.specs.Bounds.{words, Moderate, ShiftsWithin};
ghost use Rattle.nucleus.specs.Bounds.{ModerateNucleus};

use boxes::parameters::{Dimension, Parameters, parameter};
use boxes::styles::{Style, is_display};
use boxes::{Shifts, Size};
use nucleus::Nucleus;
use scaled::Sp;
use scripts::{Candidates, drops, greatest, lifted};

// 18b: a subscript y alone.
#[tactic(auto, unfolding(scripts::specs::Scripts::subscript_candidates))]
pub fn subscript_candidates(p: &Parameters, style: Style, n: Nucleus, y: Size) -> Candidates
    requires { ModerateNucleus n × Moderate y }
    ensures { (candidates_as result ≡ subscript_candidates (parameters_in p.now) style (nucleus_as n) (size_as y)) × CandidatesWithin 8 result }
{
    Candidates {
        dropped: drops(p, style, n).down,
        least: parameter(p, style, Dimension::Sub1),
        free: Some(y.height.minus(four_fifths_x_height(p, style))),
    }
}

// 18c: a superscript x.
#[tactic(auto, unfolding(scripts::specs::Scripts::superscript_candidates))]
pub fn superscript_candidates(p: &Parameters, style: Style, n: Nucleus, x: Size) -> Candidates
    requires { ModerateNucleus n × Moderate x }
    ensures { (candidates_as result ≡ superscript_candidates (parameters_in p.now) style (nucleus_as n) (size_as x)) × CandidatesWithin 8 result }
{
    Candidates {
        dropped: drops(p, style, n).up,
        least: least_up(p, style),
        free: Some(x.depth.plus(quarter_x_height(p, style))),
    }
}

// 18c: σ15 in cramped styles, σ13 in D, else σ14.
#[tactic(auto, unfolding(scripts::specs::Scripts::least_up, scaled::specs::Length::pick))]
fn least_up(p: &Parameters, style: Style) -> Sp
    ensures { (result.0 ≡ least_up (parameters_in p.now) style) × Within (words 1) result.0 }
{
    if style.cramped {
        parameter(p, style, Dimension::Sup3)
    } else if is_display(style) {
        parameter(p, style, Dimension::Sup1)
    } else {
        parameter(p, style, Dimension::Sup2)
    }
}

// 18d: the subscript of a pair, at first.
#[tactic(auto, unfolding(scripts::specs::Scripts::pair_candidates))]
pub fn pair_candidates(p: &Parameters, style: Style, n: Nucleus) -> Candidates
    requires { ModerateNucleus n }
    ensures { (candidates_as result ≡ pair_candidates (parameters_in p.now) style (nucleus_as n)) × CandidatesWithin 8 result }
{
    Candidates {
        dropped: drops(p, style, n).down,
        least: parameter(p, style, Dimension::Sub2),
        free: None,
    }
}

// 18c to 18e: superscript x and subscript y.
#[tactic(auto, unfolding(scripts::specs::Scripts::pair_shifts))]
pub fn pair_shifts(p: &Parameters, style: Style, n: Nucleus, x: Size, y: Size) -> Shifts
    requires { ModerateNucleus n × Moderate x × Moderate y }
    ensures { (shifts_as result ≡ pair_shifts (parameters_in p.now) style (nucleus_as n) (size_as x) (size_as y)) × ShiftsWithin 24 result }
{
    let first = Shifts {
        up: greatest(superscript_candidates(p, style, n, x)),
        down: greatest(pair_candidates(p, style, n)),
    };
    spread(p, style, x, y, first)
}

// 18e: where the gap is too small, the subscript goes down until it is four rules, and then both go up by ψ.
#[tactic(auto, unfolding(scripts::specs::Scripts::spread))]
fn spread(p: &Parameters, style: Style, x: Size, y: Size, t: Shifts) -> Shifts
    requires { Moderate x × Moderate y × ShiftsWithin 8 t }
    ensures { (shifts_as result ≡ rule.spread (parameters_in p.now) (font_size style) (size_as x) (size_as y) (shifts_as t)) × ShiftsWithin 24 result }
{
    let least = four_rules(p, style);
    if gap(x, y, t) < least {
        let psi = psi_of(p, style, x, t.up);
        let apart = Shifts {
            down: gap_down(p, style, x, y, t.up),
            ..t
        };
        lifted(psi, apart)
    } else {
        t
    }
}

// 18e: the free height between the superscript's bottom and the subscript's top.
pub fn gap(x: Size, y: Size, t: Shifts) -> Sp
    requires { Moderate x × Moderate y × ShiftsWithin 8 t }
    ensures { result.0 ≡ rule.gap (size_as x) (size_as y) t.up.0 t.down.0 }
{
    t.up.minus(x.depth).minus(y.height.minus(t.down))
}

// 18e: the v with which the gap is four rules.
#[tactic(auto, unfolding(scripts::specs::Scripts::gap_down))]
pub fn gap_down(p: &Parameters, style: Style, x: Size, y: Size, u: Sp) -> Sp
    requires { Moderate x × Moderate y × Within (words 8) u.0 }
    ensures { (result.0 ≡ gap_down (parameters_in p.now) (font_size style) (size_as x) (size_as y) u.0) × Within (words 14) result.0 }
{
    four_rules(p, style).minus(u.minus(x.depth)).plus(y.height)
}

// 18e: how far the superscript's bottom lies below four fifths of the x-height.
fn psi_of(p: &Parameters, style: Style, x: Size, u: Sp) -> Sp
    requires { Moderate x × Within (words 8) u.0 }
    ensures { (result.0 ≡ ψ_of (parameters_in p.now) (font_size style) (size_as x) u.0) × Within (words 10) result.0 }
{
    four_fifths_x_height(p, style).minus(u.minus(x.depth))
}

fn quarter_x_height(p: &Parameters, style: Style) -> Sp
    ensures { (result.0 ≡ quarter_xheight (parameters_in p.now) (font_size style)) × Within (words 1) result.0 }
{
    parameter(p, style, Dimension::XHeight).quarter()
}

fn four_fifths_x_height(p: &Parameters, style: Style) -> Sp
    ensures { (result.0 ≡ four_fifths_xheight (parameters_in p.now) (font_size style)) × Within (words 1) result.0 }
{
    parameter(p, style, Dimension::XHeight).times(4).fifth()
}

pub fn four_rules(p: &Parameters, style: Style) -> Sp
    ensures { (result.0 ≡ four_rules (parameters_in p.now) (font_size style)) × Within (words 4) result.0 }
{
    parameter(p, style, Dimension::RuleThickness).times(4)
}
