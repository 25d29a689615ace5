// The tests before anything of a formula is read. What they find is defined in specs/Tested.antt.

#![tactic(auto)]

ghost use Rattle.answers.specs.Lent.{lends};
ghost use Rattle.layout_test.specs.Tested.{Tested};

use boxes::styles::{Style, style_of};
use font_index::INDEX_WORDS;
use layout_answers::Refusal;

// The tests of the style, our table, the client's and the lent words, in this order. What passes them is the style.
pub fn tested(
    style: u8,
    table: &[u8],
    client: &[u8],
    words: usize,
    client_words: usize,
) -> Result<Style, Refusal>
    ensures { Tested style table.now client.now (lends words client_words) result }
{
    let Some(style) = style_of(style) else {
        return Err(Refusal::NoStyle);
    };
    if !font_test::is_good(table) {
        return Err(Refusal::BadTable);
    }
    if !font_test::is_good_client(table, client) {
        return Err(Refusal::BadClient);
    }
    if words < INDEX_WORDS || client_words < INDEX_WORDS {
        return Err(Refusal::FewWords);
    }
    Ok(style)
}
