// The sign of a root and the delimiters of a fence: whether there are any, and which.

ghost use Rattle.std.specs.Prelude.{◌≡◌};
ghost use Rattle.font.specs.Font.{font_in};
ghost use Rattle.boxes.specs.Boxes.{size_of};
ghost use Rattle.boxes.specs.Styles.{font_size};
ghost use Rattle.boxes.specs.Values.{shape_as};
ghost use Rattle.boxes.specs.Bounds.{ModerateShape};
ghost use Rattle.delimiters.specs.Values.{chosen_as, signs_as};
ghost use Rattle.delimiters.specs.Delimiters.{sign_for};
ghost use Rattle.roots.specs.Roots.{sign_extent};
ghost use Rattle.fences.specs.Fences.{fence_extent};
ghost use Rattle.setting.specs.Setting as definition;

use boxes::styles::{Style, font_size};
use boxes::{Shape, size_of};
use delimiters::{HasSigns, Sign, Signs, has_sign, sign_for};
use fences::fence_extent;
use font_index::Font;
use formula::{Base, Delimiter, Kind};
use roots::sign_extent;

const UNSIGNED: HasSigns = HasSigns {
    before: false,
    behind: false,
};

const NO_SIGNS: Signs = Signs {
    before: None,
    behind: None,
};

// On which side an item has a sign, whatever its fields hold.
#[tactic(auto, unfolding(setting::specs::Setting::has_signs))]
pub fn has_signs(font: &Font, style: Style, kind: Kind) -> HasSigns
    ensures { result ≡ definition.has_signs (font_in font.now) style kind }
{
    let size = font_size(style) as u8;
    match kind {
        Kind::Scripted(Base::Root(d)) => HasSigns {
            before: has_sign(font, size, d),
            behind: false,
        },
        Kind::Scripted(Base::Fence(left, right)) => HasSigns {
            before: has_sign(font, size, left),
            behind: has_sign(font, size, right),
        },
        _ => UNSIGNED,
    }
}

// Its signs, by the shape of its first field.
#[tactic(auto, unfolding(setting::specs::Setting::signs_in))]
pub fn signs_in(font: &Font, style: Style, kind: Kind, inside: Shape) -> Signs
    requires { ModerateShape inside }
    ensures { signs_as result ≡ definition.signs_in (font_in font.now) style kind (shape_as inside) }
{
    match kind {
        Kind::Scripted(Base::Root(d)) => Signs {
            before: root_sign(font, style, d, inside),
            behind: None,
        },
        Kind::Scripted(Base::Fence(left, right)) => fence_signs(font, style, left, right, inside),
        _ => NO_SIGNS,
    }
}

// Rule 11: the sign reaches over the nucleus.
fn root_sign(font: &Font, style: Style, d: Delimiter, nucleus: Shape) -> Option<Sign>
    requires { ModerateShape nucleus }
    ensures { chosen_as result ≡ sign_for (font_in font.now) (font_size style) d (sign_extent (font_in font.now).parameter style (size_of (shape_as nucleus))) }
{
    let needed = sign_extent(font.parameters(), style, size_of(nucleus));
    sign_for(font, font_size(style) as u8, d, needed)
}

// Rule 19: both delimiters grow with the list.
fn fence_signs(font: &Font, style: Style, left: Delimiter, right: Delimiter, list: Shape) -> Signs
    requires { ModerateShape list }
    ensures { signs_as result ≡ definition.signs_for (font_in font.now) style left right (fence_extent (font_in font.now).parameter style (size_of (shape_as list))) }
{
    let needed = fence_extent(font.parameters(), style, size_of(list));
    let size = font_size(style) as u8;
    Signs {
        before: sign_for(font, size, left, needed),
        behind: sign_for(font, size, right, needed),
    }
}
