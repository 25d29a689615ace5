// Scripts set as limits above and below an operator (rules 13 and 13a), defined in specs/Limits.antt.

#![tactic(auto)]

ghost use Rattle.std.specs.Prelude.{◌≡◌};
ghost use Rattle.scaled.specs.Signed.{Within};
ghost use Rattle.limits.specs.Limits.{limits_in, has_limits, width_of};
ghost use Rattle.limits.specs.Limits as rule;
ghost use Rattle.boxes.specs.Styles.{font_size};
ghost use Rattle.boxes.specs.Values.{parameters_in, script_as, arranged_as};
ghost use Rattle.nucleus.specs.Values.{nucleus_as};
ghost use Rattle.limits.specs.Values.{distances_as, side_as};
ghost use Rattle.boxes.specs.Bounds.{words, ModerateScript, Bounded};
ghost use Rattle.nucleus.specs.Bounds.{ModerateNucleus};
ghost use Rattle.limits.specs.Bounds.{RoomWithin, DistancesWithin, SideWithin};

use boxes::parameters::{Dimension, Parameters, parameter};
use boxes::styles::{Style, is_display};
use boxes::{Arranged, Offset, Size, centred};
use formula::{Class, Limits};
use formula_kinds::is_op;
use nucleus::Nucleus;
use scaled::Sp;

pub fn has_limits(style: Style, class: Class, limits: Limits) -> bool
    ensures { result ≡ has_limits style.level class limits }
{
    is_op(class) && limits_in(style, limits)
}

fn limits_in(style: Style, limits: Limits) -> bool
    ensures { result ≡ limits_in style.level limits }
{
    match limits {
        Limits::DisplayOnly => is_display(style),
        Limits::Always => true,
        Limits::Never => false,
    }
}

// Rule 13a: below an operator all is as above, upside down; the scripts are moved half of δ to the right and to the left.
#[tactic(auto, unfolding(crate::specs::Limits::limited))]
pub fn limited(
    p: &Parameters,
    style: Style,
    n: Nucleus,
    superscript: Option<Size>,
    subscript: Option<Size>,
) -> Arranged
    requires { ModerateNucleus n × ModerateScript superscript × ModerateScript subscript }
    ensures { (arranged_as result ≡ rule.limited (parameters_in p.now) (font_size style) (nucleus_as n) (script_as superscript) (script_as subscript)) × Bounded result }
{
    let w = widest(n.size.width, superscript, subscript);
    let right = n.delta.half();
    let blank = parameter(p, style, Dimension::BigOpSpacing5);
    let above = Room {
        gap: parameter(p, style, Dimension::BigOpSpacing1),
        distance: parameter(p, style, Dimension::BigOpSpacing3),
        blank,
    };
    let over = one_side(above, n.size.height, w, right, superscript);
    let below = Room {
        gap: parameter(p, style, Dimension::BigOpSpacing2),
        distance: parameter(p, style, Dimension::BigOpSpacing4),
        blank,
    };
    let under = one_side(below, n.size.depth, w, right.negated(), turned(subscript));
    stacked(n, w, over, under)
}

// All three boxes stand in the middle of the width.
fn stacked(n: Nucleus, width: Sp, over: Side, under: Side) -> Arranged
    requires { ModerateNucleus n × Within (words 6) width.0 × SideWithin 12 over × SideWithin 12 under }
    ensures { (arranged_as result ≡ rule.stacked (nucleus_as n) width.0 (side_as over) (side_as under)) × Bounded result }
{
    Arranged {
        size: Size {
            width,
            height: over.reach,
            depth: under.reach,
        },
        first: Offset {
            across: centred(width, n.size.width).plus(n.first.across),
            up: n.first.up,
        },
        second: Offset {
            across: over.across,
            up: over.shift,
        },
        third: Offset {
            across: under.across,
            up: under.shift.negated(),
        },
        own: n.own,
    }
}

fn widest(w: Sp, superscript: Option<Size>, subscript: Option<Size>) -> Sp
    ensures { (result.0 ≡ rule.widest w.0 (script_as superscript) (script_as subscript)) × (Within (words 6) w.0 × ModerateScript superscript × ModerateScript subscript → Within (words 6) result.0) }
{
    w.max(width_of(superscript)).max(width_of(subscript))
}

// An empty script is 0 wide.
fn width_of(script: Option<Size>) -> Sp
    ensures { (result.0 ≡ width_of (script_as script)) × (ModerateScript script → Within (words 2) result.0) }
{
    match script {
        None => Sp(0),
        Some(z) => z.width,
    }
}

// A script upside down: below an operator all is as above, upside down.
fn turned(script: Option<Size>) -> Option<Size>
    ensures { (script_as result ≡ rule.turned (script_as script)) × (ModerateScript script → ModerateScript result) }
{
    match script {
        None => None,
        Some(z) => Some(Size {
            width: z.width,
            height: z.depth,
            depth: z.height,
        }),
    }
}

// What the font asks of a limit: the least gap before it, the least distance of its baseline, and the blank beyond it.
#[derive(Clone, Copy)]
struct Room {
    gap: Sp,
    distance: Sp,
    blank: Sp,
}

// What one side of an operator adds: how far it reaches, and where its script stands, to the right and away from the baseline.
#[derive(Clone, Copy)]
struct Side {
    reach: Sp,
    across: Sp,
    shift: Sp,
}

// The side above, whose nucleus reaches to edge. An empty script adds no height.
fn one_side(room: Room, edge: Sp, w: Sp, right: Sp, script: Option<Size>) -> Side
    requires { RoomWithin 1 room × Within (words 7) edge.0 × Within (words 6) w.0 × Within (words 2) right.0 × ModerateScript script }
    ensures { (side_as result ≡ rule.side room.gap.0 room.distance.0 room.blank.0 edge.0 w.0 right.0 (script_as script)) × SideWithin 12 result }
{
    match script {
        None => Side {
            reach: edge,
            across: Sp(0),
            shift: Sp(0),
        },
        Some(z) => {
            let l = limit(room, edge, z.depth, z.height);
            Side {
                reach: l.reach,
                across: centred(w, z.width).plus(right),
                shift: l.shift,
            }
        }
    }
}

// How far a limit's baseline lies from the operator's, and how far it and the blank beyond it reach.
#[derive(Clone, Copy)]
struct Distances {
    shift: Sp,
    reach: Sp,
}

// Rule 13a: near and far are the script's sides toward the nucleus and away from it.
fn limit(room: Room, edge: Sp, near: Sp, far: Sp) -> Distances
    requires { RoomWithin 1 room × Within (words 7) edge.0 × Within (words 1) near.0 × Within (words 1) far.0 }
    ensures { (distances_as result ≡ rule.limit room.gap.0 room.distance.0 room.blank.0 edge.0 near.0 far.0) × DistancesWithin 12 result }
{
    let kern = room.gap.max(room.distance.minus(near));
    let shift = edge.plus(kern).plus(near);
    Distances {
        shift,
        reach: shift.plus(far).plus(room.blank),
    }
}
