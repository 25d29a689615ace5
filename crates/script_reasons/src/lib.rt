// What decided the shifts of scripts (request 7), defined in specs/Reasons.antt. Each shift is made again by the functions that set it.

#![tactic(auto)]

ghost use Rattle.std.specs.Prelude.{◌≡◌};
ghost use Rattle.scaled.specs.Signed.{Within};
ghost use Rattle.reasons.specs.Values.{shift_reason_as, reasons_as, item_reasons_as};
ghost use Rattle.scripts.specs.Scripts.{greatest as greatestOf};
ghost use Rattle.script_reasons.specs.Reasons as rule;
ghost use Rattle.scripts.specs.Values.{candidates_as};
ghost use Rattle.scripts.specs.Bounds.{CandidatesWithin};
ghost use Rattle.boxes.specs.Styles.{font_size};
ghost use Rattle.boxes.specs.Values.{parameters_in, size_as, script_as, shifts_as};
ghost use Rattle.nucleus.specs.Values.{nucleus_as};
ghost use Rattle.boxes.specs.Bounds.{words, Moderate, ModerateScript, ShiftsWithin};
ghost use Rattle.nucleus.specs.Bounds.{ModerateNucleus};

use boxes::parameters::Parameters;
use boxes::styles::Style;
use boxes::{Shifts, Size};
use nucleus::Nucleus;
use reasons::{Reason, Reasons, ShiftReason, corrected, unshifted};
use scaled::Sp;
use script_shifts::{
    four_rules, gap, gap_down, pair_candidates, pair_shifts, subscript_candidates,
    superscript_candidates,
};
use scripts::{Candidates, greatest};

#[tactic(auto, unfolding(crate::specs::Reasons::script_reasons))]
pub fn script_reasons(
    p: &Parameters,
    style: Style,
    n: Nucleus,
    superscript: Option<Size>,
    subscript: Option<Size>,
) -> Option<Reasons>
    requires { ModerateNucleus n × ModerateScript superscript × ModerateScript subscript }
    ensures { item_reasons_as result ≡ rule.script_reasons (parameters_in p.now) style (nucleus_as n) (script_as superscript) (script_as subscript) }
{
    match (superscript, subscript) {
        (None, None) => None,
        (Some(x), None) => Some(Reasons {
            up: chosen(superscript_candidates(p, style, n, x)),
            down: unshifted(),
        }),
        (None, Some(y)) => Some(Reasons {
            up: unshifted(),
            down: chosen(subscript_candidates(p, style, n, y)),
        }),
        (Some(x), Some(y)) => Some(pair_reasons(p, style, n, x, y)),
    }
}

// Of the candidates the first that is the greatest.
fn chosen(c: Candidates) -> ShiftReason
    ensures { (shift_reason_as result ≡ rule.chosen (candidates_as c)) × (CandidatesWithin 8 c → Within (words 8) result.shift.0) }
{
    let shift = greatest(c);
    ShiftReason {
        by: first_greatest(c, shift),
        shift,
    }
}

// A candidate is passed over where it is less than the greatest.
#[tactic(auto, unfolding(crate::specs::Reasons::first_greatest))]
fn first_greatest(c: Candidates, most: Sp) -> Reason
    requires { most.0 ≡ greatestOf (candidates_as c) }
    ensures { result ≡ rule.first_greatest (candidates_as c) }
{
    if c.dropped >= most {
        Reason::Drop
    } else if c.least >= most {
        Reason::Sigma
    } else {
        Reason::XHeight
    }
}

// 18e: v after the gap has been seen to, and before ψ is looked at.
#[tactic(auto, unfolding(crate::specs::Reasons::widened))]
fn widened(p: &Parameters, style: Style, x: Size, y: Size, t: Shifts) -> Sp
    requires { Moderate x × Moderate y × ShiftsWithin 8 t }
    ensures { result.0 ≡ rule.widened (parameters_in p.now) (font_size style) (size_as x) (size_as y) (shifts_as t) }
{
    if gap(x, y, t) < four_rules(p, style) {
        gap_down(p, style, x, y, t.up)
    } else {
        t.down
    }
}

// The gap moves the subscript alone, ψ both.
#[tactic(auto, unfolding(crate::specs::Reasons::pair_reasons))]
fn pair_reasons(p: &Parameters, style: Style, n: Nucleus, x: Size, y: Size) -> Reasons
    requires { ModerateNucleus n × Moderate x × Moderate y }
    ensures { reasons_as result ≡ rule.pair_reasons (parameters_in p.now) style (nucleus_as n) (size_as x) (size_as y) }
{
    let up = chosen(superscript_candidates(p, style, n, x));
    let down = chosen(pair_candidates(p, style, n));
    let first = Shifts {
        up: up.shift,
        down: down.shift,
    };
    let apart = widened(p, style, x, y, first);
    let t = pair_shifts(p, style, n, x, y);
    Reasons {
        up: corrected(Reason::Psi, t.up, up),
        down: corrected(Reason::Psi, t.down, corrected(Reason::Gap, apart, down)),
    }
}
