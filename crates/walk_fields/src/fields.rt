// A field that has been set alone, at its own reference point.

ghost use Rattle.std.specs.Prelude.{◌≡◌, ◌+◌, ◌<◌, ◌^◌};
ghost use Rattle.font.specs.Font.{font_in};
ghost use Rattle.formula.specs.Tree.{symbol};
ghost use Rattle.walk_fields.specs.Fields.{EmptyField, FieldDone};

use crate::sides::is_enlarged;
use arrange::{Manner, OwnCounts};
use boxes::Shape;
use boxes::styles::{Style, font_size};
use font_index::Font;
use nodes::put_glyph;
use nodes::run::Run;
use scaled::Sp;
use walk_symbols::symbols::symbol_in;

// Where it ends in its item, its shape, and its nodes.
#[derive(Clone, Copy)]
pub struct FieldBox {
    pub end: usize,
    pub shape: Shape,
    pub run: Run,
}

// The place of the first symbol that the font lacks: in a field's item, in an item, or in a list.
#[derive(Clone, Copy)]
pub struct Missing {
    pub place: usize,
}

impl Missing {
    // Counted from so many bytes before.
    pub fn behind(self, before: usize) -> Missing
        requires { before + self.place < 2 ^ 64 }
        ensures { result.place ≡ before + self.place }
    {
        Missing {
            place: before + self.place,
        }
    }
}

pub fn empty_field(end: usize) -> FieldBox
    ensures { EmptyField end result }
{
    FieldBox {
        end,
        shape: Shape::Nothing,
        run: Run::empty(),
    }
}

// A symbol's glyph stands at the reference point. The field goes from `at` to `end` of its item; a symbol that is missing
// is so at the field's kind byte.
pub fn symbol_field(
    font: &Font,
    style: Style,
    manner: Manner,
    family: u8,
    code: u8,
    at: usize,
    end: usize,
    buf: &mut [u8],
) -> Result<FieldBox, Missing>
    requires { at < end }
    ensures { FieldDone (font_in font.now) style manner (symbol family code) at end buf.old result buf.new }
{
    let size = font_size(style) as u8;
    match symbol_in(font, size, is_enlarged(manner), family, code) {
        Some(symbol) => {
            put_glyph(buf, Sp(0), Sp(0), size, family, symbol.code);
            Ok(FieldBox {
                end,
                shape: Shape::Char(symbol.metrics),
                run: Run::point(Sp(0), Sp(0)),
            })
        }
        None => Err(Missing { place: at }),
    }
}

// How many nodes stand before an item's second field: those of its first field, and its own before and behind that.
pub fn before_second(own: OwnCounts, first: usize) -> usize
    requires { own.before + first + own.behind < 2 ^ 64 }
    ensures { result ≡ own.before + first + own.behind }
{
    own.before + first + own.behind
}
