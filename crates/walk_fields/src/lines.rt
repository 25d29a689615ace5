// What stands so far of a list.

ghost use Rattle.std.specs.Prelude.{◌≡◌, ◌&&◌, not};
ghost use Rattle.boxes.specs.Values.{size_as};
ghost use Rattle.nodes.specs.Hull.{hull_fits};
ghost use Rattle.nodes.specs.Values.{hull_of, is_large};
ghost use Rattle.setting.specs.Fitting.{size_fits};

use boxes::Size;
use boxes::styles::Style;
use formula::Class;
use nodes::run::{Run, within};

// The class of the last atom, the style, and the box so far.
#[derive(Clone, Copy)]
pub struct Line {
    pub left: Option<Class>,
    pub style: Style,
    pub size: Size,
    pub run: Run,
}

// Whether the list keeps within the greatest length, and so do all in it.
pub fn list_fits(line: Line) -> bool
    ensures { result ≡ ((not (is_large line.run) && hull_fits (hull_of line.run)) && size_fits (size_as line.size)) }
{
    line.run.fits() && size_fits(line.size)
}

fn size_fits(size: Size) -> bool
    ensures { result ≡ size_fits (size_as size) }
{
    within(size.width) && within(size.height) && within(size.depth)
}
