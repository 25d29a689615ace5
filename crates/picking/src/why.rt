// What decided the shifts of an item that was picked: its fields are set without room for any node, for their shapes.

ghost use Rattle.std.specs.Prelude.{◌≡◌};
ghost use Rattle.font.specs.Font.{font_in};
ghost use Rattle.formula.specs.declared.Opening.TheVariants.{Fields};
ghost use Rattle.formula.specs.Heads.{opening_of};
ghost use Rattle.formula.specs.Places as tree;
ghost use Rattle.arrange.specs.declared.Manner.TheVariants.{Plain};
ghost use Rattle.arrange.specs.Arrange.{third_style};
ghost use Rattle.walk_fields.specs.Lists.{ListGiven, FieldGiven};
ghost use Rattle.picking.specs.Picking.{ThirdGiven, ShapeDone, HeadReasonsAre, ItemReasonsAre, PlaceReasonsAre};

use crate::{held, pick};
use arrange::why::why_item;
use arrange::{Manner, first_manner, first_style, second_style, third_style};
use boxes::Shape;
use boxes::styles::Style;
use font_index::Font;
use formula::{Kind, Opening};
use formula_kinds::{has_third, opening_bytes};
use formula_openings::opening;
use reasons::Reasons;
use walk::lists::set_field;
use walk_symbols::signs::signs_in;

// Of the item that starts at a place of the list s, which starts in a style.
pub fn why_at(font: &Font, style: Style, place: usize, s: &[u8]) -> Option<Reasons>
    requires { ListGiven s.now }
    ensures { PlaceReasonsAre (font_in font.now) style place (tree.tree_of s.now) result }
{
    let spot = pick(style, place, s)?;
    why_head(font, spot.style, &s[place..spot.end])
}

// Of the item at the head of s, in a style.
fn why_head(font: &Font, style: Style, s: &[u8]) -> Option<Reasons>
    requires { ListGiven s.now }
    ensures { ItemReasonsAre (font_in font.now) style s.now result }
{
    let Opening::Fields(kind) = opening(s) else {
        return None;
    };
    why_fields(font, style, kind, s)
}

fn why_fields(font: &Font, style: Style, kind: Kind, s: &[u8]) -> Option<Reasons>
    requires { ListGiven s.now × (opening_of s.now ≡ Fields kind) }
    ensures { HeadReasonsAre (font_in font.now) style kind s.now result }
{
    let first = opening_bytes(kind);
    let manner = first_manner(kind, style);
    let x = shape_of(font, first_style(kind, style), manner, s, first);
    let second = held(s, first).end;
    let y = shape_of(font, second_style(kind, style), Manner::Plain, s, second);
    let third = held(s, second).end;
    let z = third_shape(font, style, kind, s, third);
    let signs = signs_in(font, style, kind, x);
    why_item(font.parameters(), style, kind, signs, x, y, z)
}

// A fraction has no third field.
fn third_shape(font: &Font, style: Style, kind: Kind, s: &[u8], at: usize) -> Shape
    requires { ThirdGiven kind s.now at }
    ensures { ShapeDone (font_in font.now) (third_style style) Plain at (tree.third_in s.now (tree.has_third kind) at) result }
{
    if has_third(kind) {
        return shape_of(font, third_style(style), Manner::Plain, s, at);
    }
    Shape::Nothing
}

// Of the field whose kind byte stands at a place of its item.
fn shape_of(font: &Font, style: Style, manner: Manner, s: &[u8], at: usize) -> Shape
    requires { FieldGiven s.now at }
    ensures { ShapeDone (font_in font.now) style manner at (tree.field_in s.now at) result }
{
    match set_field(font, style, manner, s, at, &mut [0u8; 1]) {
        Ok(part) => part.shape,
        Err(_) => Shape::Nothing,
    }
}
