// Measuring and setting a formula, with the symbols of a client's table over ours. What they answer is defined in specs/Answers.antt of
// crate answers, and what becomes of the words lent for the two indexes in specs/Lent.antt there.

#![tactic(auto)]

ghost use Rattle.std.specs.Prelude.{◌≡◌, length};
ghost use Rattle.answers.specs.Lent.{lent_of, index_after, client_index_after};
ghost use Rattle.answers.specs.Answers.{measured, setting, buffer_after};
ghost use Rattle.layout_answers.specs.Values.{answered_as};

use font_index::Font;
use layout_answers::{Answer, Refusal};
use layout_find::find;
use nodes::BYTES_IN_NODE;
use walk::lists::set_list;

// The answer of measuring.
pub fn measure<'a>(
    style: u8,
    table: &'a [u8],
    client: &'a [u8],
    formula: &[u8],
    index: &mut [u64],
    client_index: &mut [u64],
) -> Answer
    ensures result_value { answered_as result ≡ measured style table.now client.now (lent_of index.old client_index.old) formula.now }
    ensures index_after { index.new ≡ index_after style table.now client.now index.old client_index.old }
    ensures client_index_after { client_index.new ≡ client_index_after style table.now client.now index.old client_index.old }
{
    Ok(find(style, table, client, formula, index, client_index)?.accepted)
}

// The answer of setting. Nodes are written only where nothing is left to refuse.
pub fn set<'a>(
    style: u8,
    table: &'a [u8],
    client: &'a [u8],
    formula: &[u8],
    nodes: &mut [u8],
    index: &mut [u64],
    client_index: &mut [u64],
) -> Answer
    ensures result_value { answered_as result ≡ setting style table.now client.now (lent_of index.old client_index.old) formula.now (length nodes.old) }
    ensures nodes_after { nodes.new ≡ buffer_after style table.now client.now (lent_of index.old client_index.old) formula.now nodes.old }
    ensures index_after { index.new ≡ index_after style table.now client.now index.old client_index.old }
    ensures client_index_after { client_index.new ≡ client_index_after style table.now client.now index.old client_index.old }
{
    let found = find(style, table, client, formula, index, client_index)?;
    if nodes.len() / BYTES_IN_NODE < found.accepted.count {
        return Err(Refusal::NoRoom);
    }
    let end = BYTES_IN_NODE * found.accepted.count;
    let font = Font::new(table, client, index, client_index);
    // No symbol is missing, as the walk that wrote no node found.
    let _ = set_list(&font, found.style, formula, &mut nodes[..end]);
    Ok(found.accepted)
}
