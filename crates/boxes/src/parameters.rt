// The font parameters: three rows of thirty-five words, read by the size of a style and by name. σ1 has number 0, ξ1 number 22.
ghost use Rattle.std.specs.Prelude.{◌≡◌};
ghost use Rattle.scaled.specs.Made.{FromWord};
ghost use Rattle.scaled.specs.Signed.{Within};
ghost use Rattle.boxes.specs.Styles.{font_size};
ghost use Rattle.boxes.specs.Parameters.{rule_thickness};
ghost use Rattle.boxes.specs.Values.{parameters_in, number_of};
ghost use Rattle.boxes.specs.Bounds.{words};

use crate::styles::{Style, font_size};
use scaled::Sp;

pub type Parameters = [[u32; 35]; 3];

// All parameters, by the names of Appendix G's table and of the fonts' own, each with its number in a row.
#[derive(Clone, Copy, PartialEq, Eq)]
pub enum Dimension {
    Slant = 0, // σ1
    Space = 1, // σ2
    Stretch = 2, // σ3
    Shrink = 3, // σ4
    XHeight = 4, // σ5
    Quad = 5, // σ6
    ExtraSpace = 6, // σ7
    Num1 = 7, // σ8
    Num2 = 8, // σ9
    Num3 = 9, // σ10
    Denom1 = 10, // σ11
    Denom2 = 11, // σ12
    Sup1 = 12, // σ13
    Sup2 = 13, // σ14
    Sup3 = 14, // σ15
    Sub1 = 15, // σ16
    Sub2 = 16, // σ17
    SupDrop = 17, // σ18
    SubDrop = 18, // σ19
    Delim1 = 19, // σ20
    Delim2 = 20, // σ21
    AxisHeight = 21, // σ22
    ExtensionSlant = 22, // ξ1
    ExtensionSpace = 23, // ξ2
    ExtensionStretch = 24, // ξ3
    ExtensionShrink = 25, // ξ4
    ExtensionXHeight = 26, // ξ5
    ExtensionQuad = 27, // ξ6
    ExtensionExtraSpace = 28, // ξ7
    RuleThickness = 29, // ξ8
    BigOpSpacing1 = 30, // ξ9
    BigOpSpacing2 = 31, // ξ10
    BigOpSpacing3 = 32, // ξ11
    BigOpSpacing4 = 33, // ξ12
    BigOpSpacing5 = 34, // ξ13
}

// A parameter at the size of a style.
#[tactic(auto, unfolding(font::specs::Values::parameters_in))]
pub fn parameter(p: &Parameters, style: Style, which: Dimension) -> Sp
    ensures { FromWord (parameters_in p.now (font_size style) (number_of which)) result.0 }
{
    Sp::from(p[font_size(style)][which as usize])
}

// ξ8.
pub fn rule_thickness(p: &Parameters, style: Style) -> Sp
    ensures { (result.0 ≡ rule_thickness (parameters_in p.now) (font_size style)) × Within (words 1) result.0 }
{
    parameter(p, style, Dimension::RuleThickness)
}
