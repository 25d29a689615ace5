// The nucleus that a root is, and a fence. An item is defined in specs/Arrange.antt, from the shapes of its fields.

#![tactic(auto)]

ghost use Rattle.std.specs.Prelude.{◌≡◌};
ghost use Rattle.arrange_rules.specs.Arrange.{root_nucleus, fence_nucleus};
ghost use Rattle.delimiters.specs.Values.{signs_as};
ghost use Rattle.roots.specs.Values.{radical_as};
ghost use Rattle.fences.specs.Values.{fence_as};
ghost use Rattle.nucleus.specs.Values.{nucleus_as};
ghost use Rattle.roots.specs.Bounds.{ModerateRadical};
ghost use Rattle.fences.specs.Bounds.{ModerateFence};
ghost use Rattle.nucleus.specs.Bounds.{ModerateNucleus};

use boxes::{signed_around, signed_before};
use delimiters::{Signs, sign_at};
use fences::Fence;
use nucleus::Nucleus;
use roots::Radical;
use scaled::Sp;

// Rule 11: a root's sign, if there is one, and its rule stand before its field.
pub fn root_nucleus(radical: Radical, signs: Signs) -> Nucleus
    requires { ModerateRadical radical }
    ensures { (nucleus_as result ≡ root_nucleus (radical_as radical) (signs_as signs)) × ModerateNucleus result }
{
    Nucleus {
        size: radical.size,
        first: radical.nucleus,
        delta: Sp(0),
        plain: false,
        own: signed_before(sign_at(radical.sign, signs.before), radical.rule),
    }
}

// Rule 19: a fence's delimiters, if there are any, stand on either side of its list.
pub fn fence_nucleus(fence: Fence, signs: Signs) -> Nucleus
    requires { ModerateFence fence }
    ensures { (nucleus_as result ≡ fence_nucleus (fence_as fence) (signs_as signs)) × ModerateNucleus result }
{
    Nucleus {
        size: fence.size,
        first: fence.inside,
        delta: Sp(0),
        plain: false,
        own: signed_around(
            sign_at(fence.left, signs.before),
            sign_at(fence.right, signs.behind),
        ),
    }
}
