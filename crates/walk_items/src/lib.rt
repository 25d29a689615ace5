// An item whose fields have been set, arranged and put at its place in the list. Nothing here calls a setter.

#![tactic(auto)]

ghost use Rattle.formula.specs.Format.{formula_limit};
ghost use Rattle.arrange.specs.Arrange as definition;
ghost use Rattle.boxes.specs.Values.{parameters_in, shape_as, offset_as, signing_as, ruling_as, owned_as, arranged_as};
ghost use Rattle.spacing.specs.Values.{neighbour_as};
ghost use Rattle.delimiters.specs.Values.{signs_as};
ghost use Rattle.boxes.specs.Bounds.{ModerateShape};
ghost use Rattle.walk_fields.specs.Bounds.{LineWithin};
ghost use Rattle.walk_items.specs.Items.{PlacingIs, MoveGiven, FieldMoved, OwnGiven, SigningGiven, RulingGiven, OwnPut, PutGiven, ItemPut, FinishGiven, Finished};

use arrange::arrange;
use boxes::parameters::Parameters;
use boxes::{Arranged, Glyph, Offset, Owned, Rule, Shape};
use delimiters::Signs;
use formula::{Class, Kind};
use nodes::run::Run;
use nodes::{move_nodes, put_glyph, put_rule, room};
use scaled::Sp;
use spacing::classes::{changed_class, class_of};
use spacing::space_before;
use walk_fields::fields::FieldBox;
use walk_fields::growing::extended;
use walk_fields::lines::Line;

// Where an item goes: its class after its change, x in the list, and how it is arranged.
#[derive(Clone, Copy)]
struct Placing {
    class: Class,
    x: Sp,
    arranged: Arranged,
}

// The item's class is changed between its neighbours, and space goes before it.
fn placing_of(
    p: &Parameters,
    kind: Kind,
    signs: Signs,
    right: Option<Class>,
    line: Line,
    x: Shape,
    y: Shape,
    z: Shape,
) -> Placing
    requires { LineWithin formula_limit line × ModerateShape x × ModerateShape y × ModerateShape z }
    ensures { PlacingIs (parameters_in p.now) line.style kind (neighbour_as right) (neighbour_as line.left) line.size.width.0 (definition.arrange (parameters_in p.now) line.style kind (signs_as signs) (shape_as x) (shape_as y) (shape_as z)) result }
{
    let class = changed_class(line.left, class_of(kind), right);
    let space = space_before(p, line.style, line.left, class);
    Placing {
        class,
        x: line.size.width.plus(space),
        arranged: arrange(p, line.style, kind, signs, x, y, z),
    }
}

// Moves a field's nodes, which stand behind those of `before`, to their place in the list.
fn move_field(before: Run, field: Run, x: Sp, offset: Offset, buf: &mut [u8]) -> Run
    requires { MoveGiven before field x.0 offset }
    ensures { FieldMoved before field x.0 (offset_as offset) result buf.old buf.new }
{
    let dx = x.plus(offset.across);
    let dy = offset.up;
    move_nodes(buf, before.count, field.count, dx, dy);
    before.joined(field.moved(dx, dy))
}

// Puts an item's own nodes that stand together behind those of `before`.
fn put_own(before: Run, own: Owned, x: Sp, buf: &mut [u8]) -> Run
    requires { OwnGiven before own x.0 }
    ensures { OwnPut before (owned_as own) x.0 result buf.old buf.new }
{
    let signed = put_sign(before, own.sign, x, buf);
    put_ruling(signed, own.ruling, x, buf)
}

fn put_sign(before: Run, sign: Option<Glyph>, x: Sp, buf: &mut [u8]) -> Run
    requires { SigningGiven before sign x.0 }
    ensures { OwnPut before (signing_as sign) x.0 result buf.old buf.new }
{
    match sign {
        None => before,
        Some(g) => {
            let dx = x.plus(g.place.across);
            let dy = g.place.up;
            let j = room(before.count, buf.len());
            put_glyph(&mut buf[j..], dx, dy, g.size, g.family, g.code);
            before.joined(Run::point(dx, dy))
        }
    }
}

fn put_ruling(before: Run, ruling: Option<Rule>, x: Sp, buf: &mut [u8]) -> Run
    requires { RulingGiven before ruling x.0 }
    ensures { OwnPut before (ruling_as ruling) x.0 result buf.old buf.new }
{
    match ruling {
        None => before,
        Some(r) => {
            let dx = x.plus(r.corner.across);
            let dy = r.corner.up;
            put_rule(buf, before.count, dx, dy, r.width, r.thickness);
            before.joined(Run::point(dx, dy))
        }
    }
}

// The fields' nodes stand in buf one behind another, with room for the item's own nodes among them: those are put, and these
// moved to their places.
fn put_item(x: Sp, arranged: Arranged, a: Run, b: Run, c: Run, buf: &mut [u8]) -> Run
    requires { PutGiven x.0 arranged a b c }
    ensures { ItemPut x.0 (arranged_as arranged) a b c result buf.old buf.new }
{
    let ahead = put_own(Run::empty(), arranged.own.before, x, buf);
    let first = move_field(ahead, a, x, arranged.first, buf);
    let owned = put_own(first, arranged.own.behind, x, buf);
    let second = move_field(owned, b, x, arranged.second, buf);
    move_field(second, c, x, arranged.third, buf)
}

// The line with an item behind it, whose three fields stand in buf as `put_item` has them.
pub fn finished(
    p: &Parameters,
    kind: Kind,
    signs: Signs,
    right: Option<Class>,
    line: Line,
    a: FieldBox,
    b: FieldBox,
    c: FieldBox,
    buf: &mut [u8],
) -> Line
    requires { FinishGiven line a b c }
    ensures { Finished (parameters_in p.now) line.style kind (signs_as signs) (neighbour_as right) line a b c result buf.old buf.new }
{
    let placing = placing_of(p, kind, signs, right, line, a.shape, b.shape, c.shape);
    let run = put_item(placing.x, placing.arranged, a.run, b.run, c.run, buf);
    extended(line, placing.class, placing.x, placing.arranged.size, run)
}
