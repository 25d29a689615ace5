// Where scripts stand beside a nucleus (rule 18f), and the item that they make.

#![tactic(auto)]

ghost use Rattle.std.specs.Prelude.{◌≡◌};
ghost use Rattle.scaled.specs.Signed.{Within};
ghost use Rattle.scripts.specs.Scripts.{subscript_down, superscript_up, pair_shifts, without_scripts, with_superscript, with_subscript, with_pair, pair_width, pair_reach};
ghost use Rattle.scripts.specs.Scripts as rule;
ghost use Rattle.boxes.specs.Values.{parameters_in, size_as, script_as, offset_as, arranged_as};
ghost use Rattle.nucleus.specs.Values.{nucleus_as};
ghost use Rattle.boxes.specs.Bounds.{words, item_words, Moderate, ModerateScript, OffsetWithin, Bounded};
ghost use Rattle.nucleus.specs.Bounds.{ModerateNucleus};

use boxes::parameters::Parameters;
use boxes::styles::Style;
use boxes::{Arranged, Offset, Size, origin};
use nucleus::Nucleus;
use scaled::Sp;
use script_shifts::{pair_shifts, subscript_candidates, superscript_candidates};
use scripts::greatest;

// The blank behind each script.
const SCRIPT_SPACE: i64 = 32768;

#[tactic(auto, unfolding(scripts::specs::Scripts::scripted))]
pub fn scripted(
    p: &Parameters,
    style: Style,
    n: Nucleus,
    superscript: Option<Size>,
    subscript: Option<Size>,
) -> Arranged
    requires { ModerateNucleus n × ModerateScript superscript × ModerateScript subscript }
    ensures { (arranged_as result ≡ rule.scripted (parameters_in p.now) style (nucleus_as n) (script_as superscript) (script_as subscript)) × Bounded result }
{
    match (superscript, subscript) {
        (None, None) => without_scripts(n),
        (Some(x), None) => with_superscript(p, style, n, x),
        (None, Some(y)) => with_subscript(p, style, n, y),
        (Some(x), Some(y)) => with_pair(p, style, n, x, y),
    }
}

#[tactic(auto, unfolding(scripts::specs::Scripts::reach))]
fn without_scripts(n: Nucleus) -> Arranged
    requires { ModerateNucleus n }
    ensures { (arranged_as result ≡ without_scripts (nucleus_as n)) × Bounded result }
{
    assembled(n, origin(), origin(), Sp(0), Sp(0), Sp(0))
}

fn with_superscript(p: &Parameters, style: Style, n: Nucleus, x: Size) -> Arranged
    requires { ModerateNucleus n × Moderate x }
    ensures { (arranged_as result ≡ with_superscript (nucleus_as n) (size_as x) (superscript_up (parameters_in p.now) style (nucleus_as n) (size_as x))) × Bounded result }
{
    let up = greatest(superscript_candidates(p, style, n, x));
    let place = Offset {
        across: n.size.width,
        up,
    };
    alone(n, x, place, origin(), up)
}

fn with_subscript(p: &Parameters, style: Style, n: Nucleus, y: Size) -> Arranged
    requires { ModerateNucleus n × Moderate y }
    ensures { (arranged_as result ≡ with_subscript (nucleus_as n) (size_as y) (subscript_down (parameters_in p.now) style (nucleus_as n) (size_as y))) × Bounded result }
{
    let up = greatest(subscript_candidates(p, style, n, y)).negated();
    let place = Offset {
        across: n.size.width,
        up,
    };
    alone(n, y, origin(), place, up)
}

// One script z, its baseline up from the nucleus's: down where that is negative.
#[tactic(auto, unfolding(scripts::specs::Scripts::reach))]
fn alone(n: Nucleus, z: Size, second: Offset, third: Offset, up: Sp) -> Arranged
    requires { ModerateNucleus n × Moderate z × OffsetWithin item_words second × OffsetWithin item_words third × Within (words 8) up.0 }
    ensures { (arranged_as result ≡ rule.alone (nucleus_as n) (size_as z) (offset_as second) (offset_as third) up.0) × Bounded result }
{
    let w = z.width.plus(Sp(SCRIPT_SPACE));
    let top = z.height.plus(up).max(Sp(0));
    let bottom = z.depth.minus(up).max(Sp(0));
    assembled(n, second, third, w, top, bottom)
}

// 18f: the superscript of a pair stands δ further right.
fn with_pair(p: &Parameters, style: Style, n: Nucleus, x: Size, y: Size) -> Arranged
    requires { ModerateNucleus n × Moderate x × Moderate y }
    ensures { (arranged_as result ≡ with_pair (nucleus_as n) (size_as x) (size_as y) (pair_shifts (parameters_in p.now) style (nucleus_as n) (size_as x) (size_as y))) × Bounded result }
{
    let t = pair_shifts(p, style, n, x, y);
    assembled(
        n,
        Offset {
            across: n.size.width.plus(n.delta),
            up: t.up,
        },
        Offset {
            across: n.size.width,
            up: t.down.negated(),
        },
        pair_width(n, x, y),
        pair_reach(x.height, t.up, y.height, t.down),
        pair_reach(y.depth, t.down, x.depth, t.up),
    )
}

fn pair_width(n: Nucleus, x: Size, y: Size) -> Sp
    requires { ModerateNucleus n × Moderate x × Moderate y }
    ensures { (result.0 ≡ pair_width (nucleus_as n) (size_as x) (size_as y)) × Within (words 4) result.0 }
{
    x.width
        .plus(Sp(SCRIPT_SPACE))
        .plus(n.delta)
        .max(y.width.plus(Sp(SCRIPT_SPACE)))
}

// How far a pair reaches to the side that one script is shifted toward, and the other away from.
#[tactic(auto, unfolding(scripts::specs::Scripts::reach))]
fn pair_reach(near: Sp, toward: Sp, far: Sp, away: Sp) -> Sp
    requires { Within (words 1) near.0 × Within (words 24) toward.0 × Within (words 1) far.0 × Within (words 24) away.0 }
    ensures { (result.0 ≡ pair_reach near.0 toward.0 far.0 away.0) × Within (words item_words) result.0 }
{
    near.plus(toward).max(far.minus(away).max(Sp(0)))
}

// The item: scripts start where the nucleus ends, and reach up to top and down to bottom.
fn assembled(n: Nucleus, second: Offset, third: Offset, w: Sp, top: Sp, bottom: Sp) -> Arranged
    requires { ModerateNucleus n × OffsetWithin item_words second × OffsetWithin item_words third × Within (words 4) w.0 × Within (words item_words) top.0 × Within (words item_words) bottom.0 }
    ensures { (arranged_as result ≡ rule.assembled (nucleus_as n) (offset_as second) (offset_as third) w.0 top.0 bottom.0) × Bounded result }
{
    Arranged {
        size: Size {
            width: n.size.width.plus(w),
            height: n.size.height.max(top),
            depth: n.size.depth.max(bottom),
        },
        first: n.first,
        second,
        third,
        own: n.own,
    }
}
