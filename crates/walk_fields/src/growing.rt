// How a line grows, from nothing to a whole list.

ghost use Rattle.scaled.specs.Signed.{Within};
ghost use Rattle.formula.specs.Format.{formula_limit};
ghost use Rattle.boxes.specs.Values.{parameters_in};
ghost use Rattle.boxes.specs.Bounds.{words};
ghost use Rattle.spacing.specs.Values.{neighbour_as};
ghost use Rattle.walk_fields.specs.Bounds.{LineWithin};
ghost use Rattle.walk_fields.specs.Lines.{StartLine, KernedLine, ClosedLine, StyledLine, ItemGoes, ExtendedLine, SizesGo, SizesBeside};
ghost use Rattle.walk_fields.specs.Fields.{ListGoes, ListField, LineField, ClosedField};

use crate::fields::{FieldBox, Missing};
use crate::lines::{Line, list_fits};
use boxes::parameters::Parameters;
use boxes::styles::Style;
use boxes::{Shape, Size, zero_size};
use formula::Class;
use nodes::run::Run;
use scaled::Sp;
use spacing::space_before;

// Behind a neighbour that is not in the list.
pub fn start(left: Option<Class>, style: Style) -> Line
    ensures { StartLine (neighbour_as left) style result }
{
    Line {
        left,
        style,
        size: zero_size(),
        run: Run::empty(),
    }
}

// The line with a kern behind it.
pub fn kerned(line: Line, n: Sp) -> Line
    requires { LineWithin formula_limit line × Within (words 1) n.0 }
    ensures { KernedLine line n.0 result }
{
    let size = Size {
        width: line.size.width.plus(n),
        ..line.size
    };
    Line { size, ..line }
}

// The line of a whole list, with the space before an atom that the list sees on its right, in the style in which it starts.
fn closed(p: &Parameters, style: Style, right: Option<Class>, line: Line) -> Line
    requires { LineWithin formula_limit line }
    ensures { ClosedLine (parameters_in p.now) style (neighbour_as right) line result }
{
    match right {
        None => line,
        Some(class) => kerned(line, space_before(p, style, line.left, class)),
    }
}

// The line with another style from there on.
pub fn styled(line: Line, style: Style) -> Line
    ensures { StyledLine line style result }
{
    Line { style, ..line }
}

// A box of a list with another that stands at x.
fn beside(a: Size, x: Sp, b: Size) -> Size
    requires { SizesGo x.0 b }
    ensures { SizesBeside a x.0 b result }
{
    Size {
        width: x.plus(b.width),
        height: a.height.max(b.height),
        depth: a.depth.max(b.depth),
    }
}

// The line with an item of this class and size behind it, at x.
pub fn extended(line: Line, class: Class, x: Sp, size: Size, run: Run) -> Line
    requires { ItemGoes line x.0 size run }
    ensures { ExtendedLine line class x.0 size run result }
{
    Line {
        left: Some(class),
        style: line.style,
        size: beside(line.size, x, size),
        run: line.run.joined(run),
    }
}

// A list as a field: its items go from `first` to `end` of its item.
pub fn list_field(
    p: &Parameters,
    style: Style,
    right: Option<Class>,
    first: usize,
    end: usize,
    set: Result<Line, Missing>,
) -> Result<FieldBox, Missing>
    requires { ListGoes first set }
    ensures { ListField (parameters_in p.now) style (neighbour_as right) first end set result }
{
    match set {
        Ok(line) => Ok(closed_field(p, style, right, end, line)),
        Err(m) => Err(m.behind(first)),
    }
}

// A whole list as a field that ends at a place of its item, with the space before an atom that it sees on its right.
fn closed_field(
    p: &Parameters,
    style: Style,
    right: Option<Class>,
    end: usize,
    line: Line,
) -> FieldBox
    requires { LineWithin formula_limit line }
    ensures { ClosedField (parameters_in p.now) style (neighbour_as right) end line result }
{
    line_field(end, closed(p, style, right, line))
}

// One that does not fit has no shape that matters.
fn line_field(end: usize, line: Line) -> FieldBox
    ensures { LineField end line result }
{
    if list_fits(line) {
        FieldBox {
            end,
            shape: Shape::Box(line.size),
            run: line.run,
        }
    } else {
        FieldBox {
            end,
            shape: Shape::Nothing,
            run: Run::too_large(),
        }
    }
}
