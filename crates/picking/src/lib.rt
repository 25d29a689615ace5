// The item that starts at a place of a formula. It is looked for from list to list: the place lies in one item of a list, and is that
// item's first byte, or lies in a list that the item holds. Nothing is set on the way; the style is followed past the items before it.

#![tactic(auto)]

ghost use Rattle.std.specs.Prelude.{◌≡◌, ◌≤◌, ◌<◌, length};
ghost use Rattle.formula.specs.declared.Opening.TheVariants.{Fields};
ghost use Rattle.formula.specs.Heads.{opening_of};
ghost use Rattle.formula.specs.Places as tree;
ghost use Rattle.setting.specs.Picked.{pick_in};
ghost use Rattle.formula.specs.Format.{formula_limit};
ghost use Rattle.picking.specs.Picking.{HeldSpan, entered_of, behind_of, ShortStep, pick_head, StepDone, PickDone};

pub mod why;

use arrange::{first_style, second_style, third_style};
use boxes::styles::Style;
use formula::{FieldHead, Kind, Opening};
use formula_fields::{field_bytes, field_head};
use formula_kinds::{has_third, opening_bytes};
use formula_openings::opening;
use walk_looks::current::{Span, taken_span};
use walk_looks::places::look_at;

// An item with fields that is set in a style, and the end of the list that holds it.
#[derive(Clone, Copy)]
struct Spot {
    style: Style,
    end: usize,
}

// Where the look leads from a list, or from an item at its head.
#[derive(Clone, Copy)]
enum Step {
    // The place is the first byte of an item in this style.
    Here(Style),
    // It lies in a list that starts in this style, from its first item to its end, or behind that.
    Into(Style, usize, usize),
}

// The item that starts at a place of the list s, which starts in a style.
fn pick(style: Style, place: usize, s: &[u8]) -> Option<Spot>
    requires { tree.Readable s.now × (length s.now ≤ formula_limit) }
    ensures { PickDone style place s.now result }
{
    let mut first: usize = 0;
    let mut end = s.len();
    let mut current = style;
    // No count: each step goes a list deeper.
    loop {
        match step_in(current, place - first, &s[first..end]) {
            None => return None,
            Some(Step::Here(style)) => return Some(Spot { style, end }),
            Some(Step::Into(inner, from, to)) => {
                current = inner;
                end = first + to;
                first += from;
            }
        }
    }
}

// From a list: to the item in which the place lies.
fn step_in(style: Style, place: usize, s: &[u8]) -> Option<Step>
    requires { tree.Readable s.now × (length s.now ≤ formula_limit) }
    ensures { StepDone (pick_in style place (tree.tree_of s.now)) place s.now result }
{
    let mut at: usize = 0;
    let mut current = style;
    // Each step is as long as the item that it passes.
    while at < s.len() {
        let sight = look_at(current, &s[at..]);
        let next = at + sight.bytes;
        if place < next {
            return behind(at, step_at(current, place - at, &s[at..]));
        }
        current = sight.style;
        at = next;
    }
    None
}

// A step from an item, as one from the list in which so many bytes stand before the item.
fn behind(before: usize, step: Option<Step>) -> Option<Step>
    requires { ShortStep before step }
    ensures { result ≡ behind_of before step }
{
    match step {
        Some(Step::Into(style, first, end)) => Some(Step::Into(
            style,
            before + first,
            before + end,
        )),
        _ => step,
    }
}

// From the item at the head of s, in which the place lies.
fn step_at(style: Style, place: usize, s: &[u8]) -> Option<Step>
    requires { tree.Readable s.now × (length s.now ≤ formula_limit) × (0 < length s.now) × (place < tree.item_size s.now (opening_of s.now)) }
    ensures { StepDone (pick_head style place s.now) place s.now result }
{
    match opening(s) {
        Opening::NoItem => None, // not in a list that reads
        Opening::Fields(kind) => step_from(style, kind, place, s),
        Opening::Kern(_) => None,
        Opening::Restyle(_) => None,
        Opening::Choice => entered(style, taken_span(style, s), place),
    }
}

// From an item with fields.
fn step_from(style: Style, kind: Kind, place: usize, s: &[u8]) -> Option<Step>
    requires { tree.Readable s.now × (length s.now ≤ formula_limit) × (opening_of s.now ≡ Fields kind) × (place < tree.end s.now kind) }
    ensures { StepDone (pick_head style place s.now) place s.now result }
{
    if place == 0 {
        return Some(Step::Here(style));
    }
    let x = held(s, opening_bytes(kind));
    if place < x.end {
        return entered(first_style(kind, style), x, place);
    }
    let y = held(s, x.end);
    if place < y.end {
        return entered(second_style(kind, style), y, place);
    }
    if has_third(kind) {
        return entered(third_style(style), held(s, y.end), place);
    }
    None
}

// The items of the field whose kind byte stands at a place of s, up to the field's end; one that is no list has none.
fn held(s: &[u8], at: usize) -> Span
    requires { tree.GoodFieldAt s.now at × (at ≤ length s.now) × (length s.now ≤ formula_limit) }
    ensures { HeldSpan s.now at result }
{
    let head = field_head(&s[at..]);
    let end = at + field_bytes(head);
    let FieldHead::Sublist(opening, _) = head else {
        return Span { first: end, end };
    };
    Span {
        first: at + opening,
        end,
    }
}

// Into the items of a span, if the place is not before them.
fn entered(style: Style, span: Span, place: usize) -> Option<Step>
    ensures { result ≡ entered_of style span place }
{
    if place < span.first {
        return None;
    }
    Some(Step::Into(style, span.first, span.end))
}
