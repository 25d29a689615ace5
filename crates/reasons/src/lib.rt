// What decided a shift: the quantity's name and the shift itself.

#![tactic(auto)]

ghost use Rattle.std.specs.Prelude.{◌≡◌};
ghost use Rattle.reasons.specs.Reasons as rule;
ghost use Rattle.reasons.specs.Values.{shift_reason_as};

use scaled::Sp;

// None stands here and not in an Option, since the definitions of reasons and of their stages take it as one of the quantities.
#[derive(Clone, Copy)]
pub enum Reason {
    None,
    Drop,
    Sigma,
    XHeight,
    Gap,
    Psi,
    Clearance,
}

// A shift with its reason.
#[derive(Clone, Copy)]
pub struct ShiftReason {
    pub by: Reason,
    pub shift: Sp,
}

// Of the shift up and the shift down.
#[derive(Clone, Copy)]
pub struct Reasons {
    pub up: ShiftReason,
    pub down: ShiftReason,
}

// A shift that is not there. It has the definition's name, so that there is no `Default`.
pub fn unshifted() -> ShiftReason
    ensures { shift_reason_as result ≡ rule.unshifted }
{
    ShiftReason {
        by: Reason::None,
        shift: Sp(0),
    }
}

// A stage that comes to this shift is named exactly if it changed the one before it.
#[tactic(auto, unfolding(crate::specs::Reasons::corrected))]
pub fn corrected(name: Reason, shift: Sp, before: ShiftReason) -> ShiftReason
    ensures { shift_reason_as result ≡ rule.corrected name shift.0 (shift_reason_as before) }
{
    if shift != before.shift {
        ShiftReason { by: name, shift }
    } else {
        before
    }
}
