// The symbol that is set for a family and a code.

ghost use Rattle.std.specs.Prelude.{◌≡◌};
ghost use Rattle.font.specs.Font.{font_in};
ghost use Rattle.setting.specs.Setting as definition;
ghost use Rattle.walk_symbols.specs.Values.{symbol_search_as};

use font::Metrics;
use font_index::Font;

// A symbol with its code, which may be a successor's.
#[derive(Clone, Copy)]
pub struct Symbol {
    pub code: u8,
    pub metrics: Metrics,
}

// A symbol gives way to its successor, if it has one, where it is enlarged.
#[tactic(auto, unfolding(setting::specs::Setting::symbol_in, setting::specs::Setting::enlarged, setting::specs::Setting::successor, setting::specs::Setting::found))]
pub fn symbol_in(font: &Font, size: u8, enlarge: bool, family: u8, code: u8) -> Option<Symbol>
    ensures { symbol_search_as result ≡ definition.symbol_in (font_in font.now) size enlarge family code }
{
    let symbol = found(font, size, family, code)?;
    match symbol.metrics.successor {
        Some(next) if enlarge => found(font, size, family, next),
        _ => Some(symbol),
    }
}

#[tactic(auto, unfolding(setting::specs::Setting::found))]
fn found(font: &Font, size: u8, family: u8, code: u8) -> Option<Symbol>
    ensures { symbol_search_as result ≡ definition.found code ((font_in font.now).symbol size family code) }
{
    let metrics = font.symbol(size, family, code)?;
    Some(Symbol { code, metrics })
}
