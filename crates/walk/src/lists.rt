// The cycle: a list's setter calls the item's, that the field's, for each field, and that the list's. The list's setter goes from
// choice to choice, and sets the items between them in a loop of their own; a choice is set as its taken list, behind the same
// line, by the list's setter.
// The nodes of an item stand in the order of document 01: its own before the first field, that field, its own behind it, and
// the other two fields. Each field is set into the front of the rest of the buffer; once all three are there the item is
// arranged, its own nodes are put, and its fields' moved.

ghost use Rattle.std.specs.Prelude.{◌<◌, length};
ghost use Rattle.font.specs.Font.{font_in};
ghost use Rattle.formula.specs.declared.Opening.TheVariants.{Fields, Choice};
ghost use Rattle.formula.specs.Places as tree;
ghost use Rattle.spacing.specs.Values.{neighbour_as};
ghost use Rattle.setting.specs.Setting.{no_sides};
ghost use Rattle.walk_fields.specs.Lists.{ListGiven, ItemsGiven, FieldGiven, ListDone, ItemsDone, HeadDone};
ghost use Rattle.walk_fields.specs.Fields.{ListGoes, ListField};
ghost use Rattle.walk.specs.Walked.{SecondGiven, ThirdGiven, SecondDone, ThirdDone};
ghost use Rattle.walk.specs.Walked.{OpenedGiven, StretchDone, Onward, ItemDone, StepDone};

use arrange::{
    Manner, OwnCounts, first_manner, first_style, own_counts, second_style, third_style,
};
use boxes::styles::Style;
use font_index::Font;
use formula::{CHOICE_LISTS, Class, FieldHead, KERN_BYTES, Kind, Opening, RESTYLE_BYTES};
use formula_fields::{field_bytes, field_head, is_empty, list_place};
use formula_kinds::{has_third, opening_bytes};
use formula_openings::opening;
use nodes::room;
use walk_fields::fields::{FieldBox, Missing, before_second, empty_field, symbol_field};
use walk_fields::growing::{kerned, list_field, start, styled};
use walk_fields::lines::Line;
use walk_fields::sides::sides_of;
use walk_items::finished;
use walk_looks::current::{restyled, taken_span};
use walk_looks::places::{beyond_choice, right_of};
use walk_symbols::signs::{has_signs, signs_in};

// The first items of a list: how many bytes they have, and the line with them.
#[derive(Clone, Copy)]
struct Stretch {
    bytes: usize,
    line: Line,
}

// Sets a list at its own reference point, into the front of buf.
pub fn set_list(font: &Font, style: Style, s: &[u8], buf: &mut [u8]) -> Result<Line, Missing>
    requires { ListGiven s.now }
    ensures { ListDone (font_in font.now) no_sides style (tree.tree_of s.now) (length s.now) buf.old result buf.new }
{
    set_items(font, None, s, start(None, style), buf)
}

// Sets items behind what stands so far of a line; buf starts behind the nodes of that, and `beyond` is the class that follows.
#[cycle(setting)]
fn set_items(
    font: &Font,
    beyond: Option<Class>,
    s: &[u8],
    line: Line,
    buf: &mut [u8],
) -> Result<Line, Missing>
    requires { ItemsGiven s.now line }
    ensures { ItemsDone (font_in font.now) (neighbour_as beyond) (tree.tree_of s.now) (length s.now) line buf.old result buf.new }
{
    let first = set_stretch(font, beyond, s, line, buf)?;
    let mut at = first.bytes;
    let mut l = first.line;
    // Each step is as long as what it sets. The arms say what a closure in a cycle of calls would have to say in clauses.
    while at < s.len() {
        let j = room(l.run.count - line.run.count, buf.len());
        match set_onward(font, beyond, &s[at..], l, &mut buf[j..]) {
            Ok(step) => {
                at += step.bytes;
                l = step.line;
            }
            Err(m) => return Err(m.behind(at)),
        }
    }
    Ok(l)
}

// Sets the choice at the head of s, and the items behind it up to the next choice.
#[cycle(setting)]
fn set_onward(
    font: &Font,
    beyond: Option<Class>,
    s: &[u8],
    line: Line,
    buf: &mut [u8],
) -> Result<Stretch, Missing>
    requires { OpenedGiven s.now Choice line }
    ensures { StretchDone (font_in font.now) (neighbour_as beyond) s.now line buf.old result buf.new × Onward result }
{
    let taken = set_choice(font, beyond, s, line, buf)?;
    let end = taken.bytes;
    let next = taken.line;
    let j = room(next.run.count - line.run.count, buf.len());
    match set_stretch(font, beyond, &s[end..], next, &mut buf[j..]) {
        Ok(rest) => Ok(Stretch {
            bytes: end + rest.bytes,
            line: rest.line,
        }),
        Err(m) => Err(m.behind(end)),
    }
}

// Sets items up to the first choice.
#[cycle(setting)]
fn set_stretch(
    font: &Font,
    beyond: Option<Class>,
    s: &[u8],
    line: Line,
    buf: &mut [u8],
) -> Result<Stretch, Missing>
    requires { ItemsGiven s.now line }
    ensures { StretchDone (font_in font.now) (neighbour_as beyond) s.now line buf.old result buf.new }
{
    let mut at: usize = 0;
    let mut l = line;
    // Each step is as long as what it sets.
    while at < s.len() {
        let j = room(l.run.count - line.run.count, buf.len());
        match set_item(font, beyond, &s[at..], l, &mut buf[j..]) {
            Ok(Some(item)) => {
                at += item.bytes;
                l = item.line;
            }
            Ok(None) => return Ok(Stretch { bytes: at, line: l }),
            Err(m) => return Err(m.behind(at)),
        }
    }
    Ok(Stretch { bytes: at, line: l })
}

// Sets the item at the head of s behind what stands so far. A choice is none of these, and is left alone.
#[cycle(setting)]
fn set_item(
    font: &Font,
    beyond: Option<Class>,
    s: &[u8],
    line: Line,
    buf: &mut [u8],
) -> Result<Option<Stretch>, Missing>
    requires { ItemsGiven s.now line × (0 < length s.now) }
    ensures { StepDone (font_in font.now) (neighbour_as beyond) s.now line buf.old result buf.new }
{
    match opening(s) {
        Opening::NoItem => Err(Missing { place: 0 }), // not in a list that reads
        Opening::Fields(kind) => Ok(Some(set_noad(font, kind, beyond, s, line, buf)?)),
        Opening::Kern(n) => Ok(Some(Stretch {
            bytes: KERN_BYTES,
            line: kerned(line, n),
        })),
        Opening::Restyle(number) => Ok(Some(Stretch {
            bytes: RESTYLE_BYTES,
            line: styled(line, restyled(line.style, number)),
        })),
        Opening::Choice => Ok(None),
    }
}

// Sets the list that a choice's style takes behind the same line.
#[cycle(setting)]
fn set_choice(
    font: &Font,
    beyond: Option<Class>,
    s: &[u8],
    line: Line,
    buf: &mut [u8],
) -> Result<Stretch, Missing>
    requires { OpenedGiven s.now Choice line }
    ensures { ItemDone (font_in font.now) (neighbour_as beyond) s.now line buf.old result buf.new }
{
    let taken = taken_span(line.style, s);
    let inside = &s[taken.first..taken.end];
    let end = list_place(s, CHOICE_LISTS);
    let right = beyond_choice(line.style, beyond, inside, &s[end..]);
    match set_items(font, right, inside, line, buf) {
        Ok(next) => Ok(Stretch {
            bytes: end,
            line: next,
        }),
        Err(m) => Err(m.behind(taken.first)),
    }
}

// Sets the first field of an item, and then the others behind it.
#[cycle(setting)]
fn set_noad(
    font: &Font,
    kind: Kind,
    beyond: Option<Class>,
    s: &[u8],
    line: Line,
    buf: &mut [u8],
) -> Result<Stretch, Missing>
    requires { OpenedGiven s.now (Fields kind) line }
    ensures { ItemDone (font_in font.now) (neighbour_as beyond) s.now line buf.old result buf.new }
{
    let style = line.style;
    let signed = has_signs(font, style, kind);
    let own = own_counts(font.parameters(), style, kind, signed);
    let i = room(own.before, buf.len());
    let first = first_style(kind, style);
    let manner = first_manner(kind, style);
    let at = opening_bytes(kind);
    let a = set_field(font, first, manner, s, at, &mut buf[i..])?;
    set_second(font, kind, beyond, s, line, own, a, buf)
}

// Sets the second field behind the first, a, and the room for the item's own nodes.
#[cycle(setting)]
fn set_second(
    font: &Font,
    kind: Kind,
    beyond: Option<Class>,
    s: &[u8],
    line: Line,
    own: OwnCounts,
    a: FieldBox,
    buf: &mut [u8],
) -> Result<Stretch, Missing>
    requires { SecondGiven font.now s.now kind line own a buf.old }
    ensures { SecondDone (font_in font.now) (neighbour_as beyond) s.now kind line own a buf.old result buf.new }
{
    let j = room(before_second(own, a.run.count), buf.len());
    let style = second_style(kind, line.style);
    let b = set_field(font, style, Manner::Plain, s, a.end, &mut buf[j..])?;
    set_third(font, kind, beyond, s, line, own, a, b, buf)
}

// Sets the third field, if there is one, behind the second, b, and then the item.
#[cycle(setting)]
fn set_third(
    font: &Font,
    kind: Kind,
    beyond: Option<Class>,
    s: &[u8],
    line: Line,
    own: OwnCounts,
    a: FieldBox,
    b: FieldBox,
    buf: &mut [u8],
) -> Result<Stretch, Missing>
    requires { ThirdGiven font.now s.now kind line own a b buf.old }
    ensures { ThirdDone (font_in font.now) (neighbour_as beyond) s.now kind line own a b buf.old result buf.new }
{
    let style = line.style;
    let n = before_second(own, a.run.count) + b.run.count;
    let k = room(n, buf.len());
    let z = if has_third(kind) {
        set_field(
            font,
            third_style(style),
            Manner::Plain,
            s,
            b.end,
            &mut buf[k..],
        )?
    } else {
        empty_field(b.end)
    };
    let right = right_of(kind, style, beyond, &s[z.end..]);
    let signs = signs_in(font, style, kind, a.shape);
    Ok(Stretch {
        bytes: z.end,
        line: finished(font.parameters(), kind, signs, right, line, a, b, z, buf),
    })
}

// Sets the field whose kind byte stands at `at` of its item alone, at its own reference point, into the front of buf. Most are
// empty.
#[cycle(setting)]
pub fn set_field(
    font: &Font,
    style: Style,
    manner: Manner,
    s: &[u8],
    at: usize,
    buf: &mut [u8],
) -> Result<FieldBox, Missing>
    requires { FieldGiven s.now at }
    ensures { HeadDone (font_in font.now) style manner s.now at buf.old result buf.new }
{
    if is_empty(&s[at..]) {
        return Ok(empty_field(at + 1));
    }
    set_given(font, style, manner, s, at, buf)
}

// Sets a field whatever it is.
#[cycle(setting)]
fn set_given(
    font: &Font,
    style: Style,
    manner: Manner,
    s: &[u8],
    at: usize,
    buf: &mut [u8],
) -> Result<FieldBox, Missing>
    requires { FieldGiven s.now at }
    ensures { HeadDone (font_in font.now) style manner s.now at buf.old result buf.new }
{
    let head = field_head(&s[at..]);
    let end = at + field_bytes(head);
    match head {
        FieldHead::NoField => Ok(empty_field(end)),
        FieldHead::Empty => Ok(empty_field(end)),
        FieldHead::Symbol(family, code) => {
            symbol_field(font, style, manner, family, code, at, end, buf)
        }
        FieldHead::Sublist(opening, _) => {
            let first = at + opening;
            let sides = sides_of(manner);
            let line = start(sides.left, style);
            let set = set_items(font, sides.right, &s[first..end], line, buf);
            list_field(font.parameters(), style, sides.right, first, end, set)
        }
        FieldHead::CutSublist => Ok(empty_field(end)),
    }
}
