// Superscripts and subscripts (rules 18a to 18f): the definitions, in specs/, and three rules that stand by themselves: the drops of 18a, the
// greatest of the candidates for a shift, and the lift of 18e by ψ.

#![tactic(auto)]

ghost use Rattle.std.specs.Prelude.{◌≡◌};
ghost use Rattle.scaled.specs.Signed.{Within};
ghost use Rattle.scripts.specs.Scripts as rule;
ghost use Rattle.scripts.specs.Values.{candidates_as};
ghost use Rattle.scripts.specs.Bounds.{CandidatesWithin};
ghost use Rattle.boxes.specs.Values.{parameters_in, shifts_as};
ghost use Rattle.nucleus.specs.Values.{nucleus_as};
ghost use Rattle.boxes.specs.Bounds.{words, ShiftsWithin};
ghost use Rattle.nucleus.specs.Bounds.{ModerateNucleus};

use boxes::Shifts;
use boxes::parameters::{Dimension, Parameters, parameter};
use boxes::styles::{Style, superscript_style};
use nucleus::Nucleus;
use scaled::Sp;

// 18a: the shifts that a nucleus which is no plain symbol asks for, at the size of the superscript's style.
#[tactic(auto, unfolding(crate::specs::Scripts::drops))]
pub fn drops(p: &Parameters, style: Style, n: Nucleus) -> Shifts
    requires { ModerateNucleus n }
    ensures { (shifts_as result ≡ rule.drops (parameters_in p.now) style (nucleus_as n)) × ShiftsWithin 8 result }
{
    if n.plain {
        return Shifts {
            up: Sp(0),
            down: Sp(0),
        };
    }
    let style = superscript_style(style);
    Shifts {
        up: n.size.height.minus(parameter(p, style, Dimension::SupDrop)),
        down: n.size.depth.plus(parameter(p, style, Dimension::SubDrop)),
    }
}

// The candidates for a shift: 18b to 18d say which there are, and take the greatest.
#[derive(Clone, Copy)]
pub struct Candidates {
    // What the nucleus asks for by its drop.
    pub dropped: Sp,
    // The font's least shift.
    pub least: Sp,
    // What keeps the script's other edge free, where a rule asks for that.
    pub free: Option<Sp>,
}

#[tactic(auto, unfolding(crate::specs::Scripts::greatest))]
pub fn greatest(c: Candidates) -> Sp
    ensures { (result.0 ≡ rule.greatest (candidates_as c)) × (CandidatesWithin 8 c → Within (words 8) result.0) }
{
    let shift = c.dropped.max(c.least);
    match c.free {
        None => shift,
        Some(edge) => shift.max(edge),
    }
}

// 18e: both go up by ψ, if it is positive.
#[tactic(auto, unfolding(crate::specs::Scripts::lifted))]
pub fn lifted(psi: Sp, t: Shifts) -> Shifts
    requires { Within (words 10) psi.0 × ShiftsWithin 14 t }
    ensures { (shifts_as result ≡ rule.lifted psi.0 (shifts_as t)) × ShiftsWithin 24 result }
{
    if psi > Sp(0) {
        Shifts {
            up: t.up.plus(psi),
            down: t.down.minus(psi),
        }
    } else {
        t
    }
}
