// What is found of a formula before any node of it is written. It is defined in specs/Found.antt, and what becomes of the words lent for the
// two indexes in specs/Lent.antt of crate answers.
// The indexes are built where nothing is refused before the reading. The parameters are taken out of our table where a walk is to come.

#![tactic(auto)]

ghost use Rattle.std.specs.Prelude.{◌≡◌};
ghost use Rattle.answers.specs.Lent.{lent_of, index_after, client_index_after};
ghost use Rattle.walk_fields.specs.Lists.{ListGiven};
ghost use Rattle.layout_find.specs.Found.{FoundOf, Examined};

use boxes::styles::Style;
use font_index::Font;
use formula_reading::read_formula;
use layout_answers::{Accepted, Refusal};
use layout_test::tested;
use walk::lists::set_list;
use walk_fields::lines::list_fits;

// A formula that is accepted, by a walk that writes no node.
#[derive(Clone, Copy)]
pub struct Found {
    pub style: Style,
    pub accepted: Accepted,
}

// All tests but the one of room: those before the reading, behind which both indexes are built, the reading, and a walk that writes no node.
pub fn find<'a>(
    style: u8,
    table: &'a [u8],
    client: &'a [u8],
    formula: &[u8],
    index: &mut [u64],
    client_index: &mut [u64],
) -> Result<Found, Refusal>
    ensures found_of { FoundOf style table.now client.now (lent_of index.old client_index.old) formula.now index.new client_index.new result }
    ensures index_after { index.new ≡ index_after style table.now client.now index.old client_index.old }
    ensures client_index_after { client_index.new ≡ client_index_after style table.now client.now index.old client_index.old }
{
    let style = tested(style, table, client, index.len(), client_index.len())?;
    font_build::build(table, client, index, client_index);
    read_formula(formula)?;
    let font = Font::new(table, client, index, client_index);
    examine(&font, style, formula)
}

// The tests of a formula that reads: the walk without room for any node.
fn examine(font: &Font, style: Style, formula: &[u8]) -> Result<Found, Refusal>
    requires { ListGiven formula.now }
    ensures { Examined style font.now formula.now result }
{
    let line = set_list(font, style, formula, &mut [0u8; 1])?;
    if !list_fits(line) {
        return Err(Refusal::TooLarge);
    }
    let accepted = Accepted {
        size: line.size,
        count: line.run.count,
    };
    Ok(Found { style, accepted })
}
