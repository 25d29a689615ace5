// What decided the shifts of an item, from what `arrange` sees of it.
ghost use Rattle.std.specs.Prelude.{◌≡◌};
ghost use Rattle.arrange.specs.Reasons.{reasons};
ghost use Rattle.boxes.specs.Values.{parameters_in, shape_as};
ghost use Rattle.boxes.specs.Bounds.{ModerateShape};
ghost use Rattle.delimiters.specs.Values.{signs_as};
ghost use Rattle.reasons.specs.Values.{item_reasons_as};

use crate::{nucleus_of, sets_limits};
use boxes::parameters::Parameters;
use boxes::styles::Style;
use boxes::{Shape, given, size_of};
use delimiters::Signs;
use formula::Kind;
use fraction_places::why::fraction_reasons;
use reasons::Reasons;
use script_reasons::script_reasons;

// Of limits, and of an item without scripts, there is nothing to say.
#[tactic(auto, unfolding(crate::specs::Reasons::reasons))]
pub fn why_item(
    p: &Parameters,
    style: Style,
    kind: Kind,
    signs: Signs,
    x: Shape,
    y: Shape,
    z: Shape,
) -> Option<Reasons>
    requires { ModerateShape x × ModerateShape y × ModerateShape z }
    ensures { item_reasons_as result ≡ reasons (parameters_in p.now) style kind (signs_as signs) (shape_as x) (shape_as y) (shape_as z) }
{
    match kind {
        Kind::Scripted(base) => {
            if sets_limits(style, base) {
                return None;
            }
            let subscript = given(z);
            let n = nucleus_of(p, style, base, signs, subscript.is_some(), x);
            script_reasons(p, style, n, given(y), subscript)
        }
        Kind::Fraction(bar) => Some(fraction_reasons(p, style, bar, size_of(x), size_of(y))),
    }
}
