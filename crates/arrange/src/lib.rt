// An item, from the shapes of its fields: its size, where its fields stand, and its own nodes.

#![tactic(auto)]

pub mod why;

ghost use Rattle.std.specs.Prelude.{◌≡◌};
ghost use Rattle.arrange.specs.Arrange.{first_style, second_style, third_style, first_manner};
ghost use Rattle.arrange_rules.specs.Arrange.{sets_limits, nucleus_of, base_counts};
ghost use Rattle.arrange_rules.specs.Arrange as rule;
ghost use Rattle.boxes.specs.Values.{parameters_in, shape_as, arranged_as};
ghost use Rattle.delimiters.specs.Values.{signs_as};
ghost use Rattle.nucleus.specs.Values.{nucleus_as};
ghost use Rattle.arrange.specs.Values.{CountsAre, OwnCountsAre};
ghost use Rattle.boxes.specs.Bounds.{ModerateShape, Bounded};
ghost use Rattle.nucleus.specs.Bounds.{ModerateNucleus};

use arrange_rules::{fence_nucleus, root_nucleus};
use boxes::parameters::{Dimension, Parameters, parameter, rule_thickness};
use boxes::styles::{
    Style, cramped_style, denominator_style, is_display, numerator_style, subscript_style,
    superscript_style,
};
use boxes::{Arranged, Shape, given, size_of};
use delimiters::{HasSigns, Signs, sign_size};
use fences::fence_of;
use formula::{Base, Class, Kind};
use formula_kinds::is_op;
use fraction_places::{bar_thickness, fraction};
use fractions::has_bar;
use limits::{has_limits, limited};
use nucleus::Nucleus;
use nucleus_kinds::{atom_nucleus, overline, underline};
use roots::root;
use script_places::scripted;

// The style of the first field of an item in a style.
pub fn first_style(kind: Kind, style: Style) -> Style
    ensures { result ≡ first_style kind style }
{
    match kind {
        Kind::Scripted(Base::Over | Base::Root(_)) => cramped_style(style),
        Kind::Scripted(_) => style,
        Kind::Fraction(_) => numerator_style(style),
    }
}

pub fn second_style(kind: Kind, style: Style) -> Style
    ensures { result ≡ second_style kind style }
{
    match kind {
        Kind::Scripted(_) => superscript_style(style),
        Kind::Fraction(_) => denominator_style(style),
    }
}

pub fn third_style(style: Style) -> Style
    ensures { result ≡ third_style style }
{
    subscript_style(style)
}

// How a field is set: as it is, with a symbol that gives way to its successor, or with a list between a fence's delimiters.
#[derive(Clone, Copy, PartialEq, Eq)]
pub enum Manner {
    Plain,
    Enlarged,
    Fenced,
}

// The manner of the first field; the others are set plainly. Rule 13: in display styles the symbol of an Op gives way to its successor.
pub fn first_manner(kind: Kind, style: Style) -> Manner
    ensures { result ≡ first_manner kind style }
{
    match kind {
        Kind::Scripted(Base::Atom(Class::Op, _)) if is_display(style) => Manner::Enlarged,
        Kind::Scripted(Base::Fence(_, _)) => Manner::Fenced,
        _ => Manner::Plain,
    }
}

// The signs are those that were found for a root or a fence.
#[tactic(auto, unfolding(arrange_rules::specs::Arrange::arrange))]
pub fn arrange(
    p: &Parameters,
    style: Style,
    kind: Kind,
    signs: Signs,
    x: Shape,
    y: Shape,
    z: Shape,
) -> Arranged
    requires { ModerateShape x × ModerateShape y × ModerateShape z }
    ensures { (arranged_as result ≡ rule.arrange (parameters_in p.now) style kind (signs_as signs) (shape_as x) (shape_as y) (shape_as z)) × Bounded result }
{
    match kind {
        Kind::Scripted(base) => {
            let superscript = given(y);
            let subscript = given(z);
            let n = nucleus_of(p, style, base, signs, subscript.is_some(), x);
            if sets_limits(style, base) {
                limited(p, style, n, superscript, subscript)
            } else {
                scripted(p, style, n, superscript, subscript)
            }
        }
        Kind::Fraction(bar) => fraction(p, style, bar, size_of(x), size_of(y)),
    }
}

// Whether the scripts are set as limits.
fn sets_limits(style: Style, base: Base) -> bool
    ensures { result ≡ sets_limits style base }
{
    match base {
        Base::Atom(class, limits) => has_limits(style, class, limits),
        _ => false,
    }
}

// What the scripts are set to; the test is whether there is a subscript.
#[tactic(auto, unfolding(arrange_rules::specs::Arrange::nucleus_of))]
fn nucleus_of(
    p: &Parameters,
    style: Style,
    base: Base,
    signs: Signs,
    subscript: bool,
    x: Shape,
) -> Nucleus
    requires { ModerateShape x }
    ensures { (nucleus_as result ≡ nucleus_of (parameters_in p.now) style base (signs_as signs) subscript (shape_as x)) × ModerateNucleus result }
{
    match base {
        Base::Atom(class, limits) => {
            let axis = parameter(p, style, Dimension::AxisHeight);
            let as_limits = has_limits(style, class, limits);
            atom_nucleus(axis, is_op(class), as_limits, subscript, x)
        }
        Base::Over => overline(rule_thickness(p, style), size_of(x)),
        Base::Under => underline(rule_thickness(p, style), size_of(x)),
        Base::Root(_) => {
            root_nucleus(root(p, style, size_of(x), sign_size(signs.before)), signs)
        }
        Base::Fence(_, _) => {
            let left = sign_size(signs.before);
            let right = sign_size(signs.behind);
            fence_nucleus(fence_of(p, style, left, size_of(x), right), signs)
        }
    }
}

// How many own nodes an item has before its first field, and behind it. Its fields do not change that.
#[derive(Clone, Copy)]
pub struct OwnCounts {
    pub before: usize,
    pub behind: usize,
}

// The tests are on which side a sign was found for the item. A fraction has a bar where it has a thickness.
#[tactic(auto, unfolding(arrange_rules::specs::Arrange::own_counts))]
pub fn own_counts(p: &Parameters, style: Style, kind: Kind, found: HasSigns) -> OwnCounts
    ensures { OwnCountsAre (parameters_in p.now) style kind found result }
{
    match kind {
        Kind::Scripted(base) => base_counts(base, found),
        Kind::Fraction(bar) => OwnCounts {
            before: 0,
            behind: usize::from(has_bar(bar_thickness(p, style, bar))),
        },
    }
}

// A line always; of a root a sign where one was found, and a rule always; of a fence a sign on each side where one was found.
fn base_counts(base: Base, found: HasSigns) -> OwnCounts
    ensures { CountsAre (base_counts base found) result }
{
    match base {
        Base::Atom(_, _) => OwnCounts {
            before: 0,
            behind: 0,
        },
        Base::Over | Base::Under => OwnCounts {
            before: 0,
            behind: 1,
        },
        Base::Root(_) => OwnCounts {
            before: usize::from(found.before) + 1,
            behind: 0,
        },
        Base::Fence(_, _) => OwnCounts {
            before: usize::from(found.before),
            behind: usize::from(found.behind),
        },
    }
}
