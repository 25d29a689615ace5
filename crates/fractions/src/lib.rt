// Fractions (rules 15 to 15e): the definitions, in specs/, and rules that stand by themselves: the clearances of 15c and 15d, the bar, and the
// blanks beside it. The bar has the thickness θ.

#![tactic(auto)]

ghost use Rattle.std.specs.Prelude.{◌≡◌, ◌≤◌, pos, ◌*ℤ◌};
ghost use Rattle.scaled.specs.Signed.{Within};
ghost use Rattle.scaled.specs.Length.{pick};
ghost use Rattle.boxes.specs.Styles.{is_display};
ghost use Rattle.fractions.specs.Fractions.{has_bar, least_clearance, bar_of};
ghost use Rattle.fractions.specs.Fractions as rule;
ghost use Rattle.boxes.specs.Values.{parameters_in, own_as};
ghost use Rattle.boxes.specs.Bounds.{words, item_words, OwnWithin};

use boxes::parameters::{Parameters, rule_thickness};
use boxes::styles::{Style, is_display};
use boxes::{NULL_DELIMITER_WIDTH, Offset, Own, Rule, no_own, ruled_behind};
use scaled::Sp;

pub fn has_bar(theta: Sp) -> bool
    ensures { result ≡ has_bar theta.0 }
{
    theta > Sp(0)
}

// 15c: seven rules in display styles, three in others.
pub fn least_clearance(p: &Parameters, style: Style) -> Sp
    ensures { (result.0 ≡ least_clearance (parameters_in p.now) style) × Within (words 7) result.0 }
{
    rules_clear(style, rule_thickness(p, style), 7, 3)
}

// 15d: a shift of a box, where the free height between box and bar reaches from lower to upper.
#[tactic(auto, unfolding(crate::specs::Fractions::cleared, scaled::specs::Length::pick))]
pub fn cleared(phi: Sp, upper: Sp, lower: Sp, shift: Sp) -> Sp
    requires { Within (words 7) phi.0 × Within (words 2) upper.0 × Within (words 2) lower.0 × Within (words 1) shift.0 }
    ensures { (result.0 ≡ rule.cleared phi.0 upper.0 lower.0 shift.0) × Within (words 12) result.0 }
{
    let free = upper.minus(lower);
    if free < phi {
        shift.plus(phi.minus(free))
    } else {
        shift
    }
}

// 15c and 15d: so many rules in display styles, and so many in others.
#[tactic(auto, unfolding(scaled::specs::Length::pick))]
pub fn rules_clear(style: Style, theta: Sp, display: u8, other: u8) -> Sp
    requires { Within (words 1) theta.0 × (display ≤ 7) × (other ≤ 7) }
    ensures { (result.0 ≡ theta.0 *ℤ pick (is_display style.level) (pos display) (pos other)) × Within (words 7) result.0 }
{
    if is_display(style) {
        theta.times(display)
    } else {
        theta.times(other)
    }
}

// The bar's top is half of its thickness above the axis.
pub fn bar_of(axis: Sp, theta: Sp, w: Sp) -> Own
    requires { Within (words 1) axis.0 × Within (words 1) theta.0 × Within (words 2) w.0 }
    ensures { (own_as result ≡ bar_of axis.0 theta.0 w.0) × OwnWithin item_words result }
{
    if has_bar(theta) {
        let rule = Rule {
            corner: Offset {
                across: Sp(NULL_DELIMITER_WIDTH),
                up: axis.plus(theta.half()).minus(theta),
            },
            width: w,
            thickness: theta,
        };
        ruled_behind(rule)
    } else {
        no_own()
    }
}

// 15e: a width w and the blanks beside it.
pub fn enclosed(w: Sp) -> Sp
    requires { Within (words 2) w.0 }
    ensures { (result.0 ≡ rule.enclosed w.0) × Within (words 3) result.0 }
{
    Sp(NULL_DELIMITER_WIDTH)
        .plus(w)
        .plus(Sp(NULL_DELIMITER_WIDTH))
}
