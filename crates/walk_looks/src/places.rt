// What follows an item. Styles and choices are looked through, since what a choice stands for goes by the style current there.

ghost use Rattle.std.specs.Prelude.{◌≡◌, ◌≤◌, ◌<◌, length, None};
ghost use Rattle.formula.specs.Places as tree;
ghost use Rattle.formula.specs.Format.{formula_limit};
ghost use Rattle.spacing.specs.Values.{neighbour_as};
ghost use Rattle.setting.specs.Setting.{next_class, style_after};
ghost use Rattle.walk_looks.specs.Seen.{ChangesAlike};
ghost use Rattle.walk_looks.specs.Seen.{ItemSeen, ItemsSeen, SetsAlike};

use crate::current::{restyled, taken_span};
use boxes::styles::Style;
use formula::{CHOICE_LISTS, Class, KERN_BYTES, Kind, Opening, RESTYLE_BYTES};
use formula_fields::{fields_end, list_place};
use formula_openings::opening;
use spacing::classes::class_of;

// What a look at items finds: how many bytes they have, the class of the first atom among them, and the style behind them.
#[derive(Clone, Copy)]
pub struct Sight {
    pub bytes: usize,
    pub class: Option<Class>,
    pub style: Style,
}

// The class of the next atom, where it matters: what follows an item changes a Bin alone (rule 6). `beyond` is the class that
// follows the list.
#[tactic(auto, unfolding(spacing::specs::Classes::changed_class))]
pub fn right_of(kind: Kind, style: Style, beyond: Option<Class>, s: &[u8]) -> Option<Class>
    requires { tree.Readable s.now × (length s.now ≤ formula_limit) }
    ensures { ChangesAlike kind (neighbour_as result) (next_class style (neighbour_as beyond) (tree.tree_of s.now)) }
{
    if class_of(kind) == Class::Bin {
        next_class(style, beyond, s)
    } else {
        None
    }
}

// The class beyond a choice whose taken list is `inside`, where it matters: an atom in that list asks for it.
pub fn beyond_choice(style: Style, beyond: Option<Class>, inside: &[u8], s: &[u8]) -> Option<Class>
    requires { tree.Readable inside.now × (length inside.now ≤ formula_limit) × tree.Readable s.now × (length s.now ≤ formula_limit) }
    ensures { SetsAlike style (tree.tree_of inside.now) (neighbour_as result) (next_class (style_after style (tree.tree_of inside.now)) (neighbour_as beyond) (tree.tree_of s.now)) }
{
    let sight = look_over(style, inside);
    match sight.class {
        None => beyond,
        Some(_) => next_class(sight.style, beyond, s),
    }
}

// The class of the next atom; what is none is passed over.
fn next_class(style: Style, beyond: Option<Class>, s: &[u8]) -> Option<Class>
    requires { tree.Readable s.now × (length s.now ≤ formula_limit) }
    ensures { neighbour_as result ≡ next_class style (neighbour_as beyond) (tree.tree_of s.now) }
{
    let mut at: usize = 0;
    let mut current = style;
    // Each step is as long as the item that it passes.
    while at < s.len() {
        let sight = look_at(current, &s[at..]);
        if let Some(class) = sight.class {
            return Some(class);
        }
        current = sight.style;
        at += sight.bytes;
    }
    beyond
}

// Looks over all items of a list.
#[cycle(looking)]
fn look_over(style: Style, s: &[u8]) -> Sight
    requires { tree.Readable s.now × (length s.now ≤ formula_limit) }
    ensures { ItemsSeen style s.now result }
{
    let mut at: usize = 0;
    let mut first = None;
    let mut current = style;
    // Each step is as long as the item that it passes.
    while at < s.len() {
        let sight = look_at(current, &s[at..]);
        first = first.or(sight.class);
        current = sight.style;
        at += sight.bytes;
    }
    Sight {
        bytes: at,
        class: first,
        style: current,
    }
}

// Looks at the item at the head of s; of a choice, at its taken list.
#[cycle(looking)]
pub fn look_at(style: Style, s: &[u8]) -> Sight
    requires { tree.Readable s.now × (length s.now ≤ formula_limit) × (0 < length s.now) }
    ensures { ItemSeen style s.now result }
{
    match opening(s) {
        Opening::NoItem => passed(0, style), // not in a list that reads
        Opening::Fields(kind) => Sight {
            bytes: fields_end(s, kind),
            class: Some(class_of(kind)),
            style,
        },
        Opening::Kern(_) => passed(KERN_BYTES, style),
        Opening::Restyle(number) => passed(RESTYLE_BYTES, restyled(style, number)),
        Opening::Choice => {
            let taken = taken_span(style, s);
            let inside = look_over(style, &s[taken.first..taken.end]);
            Sight {
                bytes: list_place(s, CHOICE_LISTS),
                ..inside
            }
        }
    }
}

// An item that is no atom.
fn passed(bytes: usize, style: Style) -> Sight
    ensures { result ≡ record { bytes = bytes; class = None; style = style } }
{
    Sight {
        bytes,
        class: None,
        style,
    }
}
