// What opens behind the marks of a fraction, a kern and a style, each of which has one number. Any bytes may come.

#![tactic(auto)]

ghost use Rattle.std.specs.Prelude.{◌≡◌};
ghost use Rattle.formula.specs.Heads.{fraction_opening, kern_within, kern_opening, style_opening};

use formula::{Bar, GREATEST_KERN, GREATEST_STYLE, Kind, Opening};
use scaled::Sp;

const LEAST_KERN: i64 = -GREATEST_KERN;

pub fn fraction_opening(s: &[u8]) -> Opening
    ensures { result ≡ fraction_opening s.now }
{
    let [bar, ..] = s else {
        return Opening::NoItem;
    };
    match Bar::try_from(*bar) {
        Ok(bar) => Opening::Fields(Kind::Fraction(bar)),
        Err(_) => Opening::NoItem,
    }
}

pub fn kern_opening(s: &[u8]) -> Opening
    ensures { result ≡ kern_opening s.now }
{
    // A test of the length, since `word` reads at a place.
    if s.len() < 4 {
        Opening::NoItem
    } else {
        kern(words::signed(words::word(s, 0)))
    }
}

fn kern(n: Sp) -> Opening
    ensures { result ≡ kern_within n.0 }
{
    if n.less(Sp(LEAST_KERN)) || Sp(GREATEST_KERN).less(n) {
        Opening::NoItem
    } else {
        Opening::Kern(n)
    }
}

pub fn style_opening(s: &[u8]) -> Opening
    ensures { result ≡ style_opening s.now }
{
    let [style, ..] = s else {
        return Opening::NoItem;
    };
    if *style > GREATEST_STYLE {
        Opening::NoItem
    } else {
        Opening::Restyle(*style)
    }
}
