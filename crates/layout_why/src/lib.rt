// Why a shift is what it is: what decided the shifts of an item that is picked by its place.

#![tactic(auto)]

ghost use Rattle.std.specs.Prelude.{◌≡◌};
ghost use Rattle.answers.specs.Lent.{lent_of, index_after, client_index_after};
ghost use Rattle.answers.specs.Why.{why_of};
ghost use Rattle.layout_answers.specs.Values.{why_answer_as};

use font_index::Font;
use layout_answers::why::{WhyAnswer, WhyRefusal};
use layout_find::find;
use picking::why::why_at;

pub fn why<'a>(
    style: u8,
    table: &'a [u8],
    client: &'a [u8],
    formula: &[u8],
    place: usize,
    index: &mut [u64],
    client_index: &mut [u64],
) -> WhyAnswer
    ensures result_value { why_answer_as result ≡ why_of style table.now client.now (lent_of index.old client_index.old) formula.now place }
    ensures index_after { index.new ≡ index_after style table.now client.now index.old client_index.old }
    ensures client_index_after { client_index.new ≡ client_index_after style table.now client.now index.old client_index.old }
{
    let found = find(style, table, client, formula, index, client_index)?;
    let font = Font::new(table, client, index, client_index);
    why_at(&font, found.style, place, formula).ok_or(WhyRefusal::Unpicked)
}
