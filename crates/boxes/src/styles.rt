// The eight styles: their numbers, the styles that follow from one, and what depends on a style alone.
ghost use Rattle.std.specs.Prelude.{◌≡◌, ◌<◌};
ghost use Rattle.boxes.specs.Styles.{style_of, font_size, is_display, is_large, script_level, fraction_level, superscript_style, subscript_style, numerator_style, denominator_style, cramped_style};
ghost use Rattle.boxes.specs.Values.{numbered_as};

#[derive(Clone, Copy, PartialEq, Eq)]
pub enum Level {
    Display,
    Text,
    Script,
    Scriptscript,
}

// One of the eight styles. Cramped is what document 01 writes with a prime.
#[derive(Clone, Copy, PartialEq, Eq)]
pub struct Style {
    pub level: Level,
    pub cramped: bool,
}

// The style of a number, if it has one: each level is there twice, and cramped the second time.
pub fn style_of(number: u8) -> Option<Style>
    ensures { numbered_as result ≡ style_of number }
{
    let level = match number / 2 {
        0 => Level::Display,
        1 => Level::Text,
        2 => Level::Script,
        3 => Level::Scriptscript,
        _ => return None,
    };
    Some(Style {
        level,
        cramped: number % 2 == 1,
    })
}

// The size in which symbols and parameters are taken.
pub fn font_size(style: Style) -> usize
    ensures { (result ≡ font_size style) × (result < 3) }
{
    match style.level {
        Level::Display | Level::Text => 0,
        Level::Script => 1,
        Level::Scriptscript => 2,
    }
}

pub fn is_display(style: Style) -> bool
    ensures { result ≡ is_display style.level }
{
    style.level == Level::Display
}

// D, D', T, T'.
pub fn is_large(style: Style) -> bool
    ensures { result ≡ is_large style.level }
{
    matches!(style.level, Level::Display | Level::Text)
}

pub fn superscript_style(style: Style) -> Style
    ensures { result ≡ superscript_style style }
{
    Style {
        level: script_level(style.level),
        ..style
    }
}

pub fn subscript_style(style: Style) -> Style
    ensures { result ≡ subscript_style style }
{
    cramped_style(superscript_style(style))
}

// Rule 15a.
pub fn numerator_style(style: Style) -> Style
    ensures { result ≡ numerator_style style }
{
    Style {
        level: fraction_level(style.level),
        ..style
    }
}

pub fn denominator_style(style: Style) -> Style
    ensures { result ≡ denominator_style style }
{
    cramped_style(numerator_style(style))
}

// Rule 9.
pub fn cramped_style(style: Style) -> Style
    ensures { result ≡ cramped_style style }
{
    Style {
        cramped: true,
        ..style
    }
}

fn script_level(level: Level) -> Level
    ensures { result ≡ script_level level }
{
    match level {
        Level::Display | Level::Text => Level::Script,
        Level::Script | Level::Scriptscript => Level::Scriptscript,
    }
}

fn fraction_level(level: Level) -> Level
    ensures { result ≡ fraction_level level }
{
    match level {
        Level::Display => Level::Text,
        Level::Text => Level::Script,
        Level::Script | Level::Scriptscript => Level::Scriptscript,
    }
}
