// What decided the shifts of a fraction. Each shift is made again by the functions that set it.
ghost use Rattle.std.specs.Prelude.{◌≡◌};
ghost use Rattle.boxes.specs.Values.{parameters_in, size_as};
ghost use Rattle.boxes.specs.Bounds.{Moderate};
ghost use Rattle.reasons.specs.declared.Reason.TheVariants.{Sigma, Clearance};
ghost use Rattle.reasons.specs.Reasons as reasons;
ghost use Rattle.reasons.specs.Values.{shift_reason_as, reasons_as};
ghost use Rattle.fractions.specs.Reasons as rule;

use crate::{bar_thickness, final_shifts, fraction_shifts};
use boxes::Size;
use boxes::parameters::Parameters;
use boxes::styles::Style;
use formula::Bar;
use reasons::{Reason, Reasons, ShiftReason, corrected};
use scaled::Sp;

#[tactic(auto, unfolding(fractions::specs::Reasons::fraction_reasons))]
pub fn fraction_reasons(p: &Parameters, style: Style, bar: Bar, x: Size, z: Size) -> Reasons
    requires { Moderate x × Moderate z }
    ensures { reasons_as result ≡ rule.fraction_reasons (parameters_in p.now) style bar (size_as x) (size_as z) }
{
    let theta = bar_thickness(p, style, bar);
    let first = fraction_shifts(p, style, theta);
    let last = final_shifts(p, style, theta, x, z);
    Reasons {
        up: cleared(first.up, last.up),
        down: cleared(first.down, last.down),
    }
}

// A shift that σ gave at first, and the clearance at last.
fn cleared(first: Sp, last: Sp) -> ShiftReason
    ensures { shift_reason_as result ≡ reasons.corrected Clearance last.0 (reasons.shift_by Sigma first.0) }
{
    let before = ShiftReason {
        by: Reason::Sigma,
        shift: first,
    };
    corrected(Reason::Clearance, last, before)
}
