// The thin program: reads font.tab and, where there is one, client.tab in the working folder, and a style byte and a formula from
// standard input, and writes what setting gives. What it answers is defined in specs/Thin.antt.

#![tactic(auto)]

ghost use Rattle.std.specs.Prelude.{◌≡◌, length};
ghost use Rattle.answers.specs.Lent.{lent_of, index_after, client_index_after};
ghost use Rattle.layout_answers.specs.Values.{answered_as};
ghost use Rattle.setter.specs.Thin.{thin_setting, thin_buffer};

use files::{CLIENT_SPACE, TABLE_SPACE, read_full, read_table};
use font_index::INDEX_WORDS;
use layout_answers::{Answer, Refusal};
use std::io::Result;

// The longest formula that the program takes. The library takes longer ones.
const LONGEST: usize = 4_096;

// One byte more than a style and the longest formula, so that a longer one is seen.
const INPUT_SPACE: usize = 4_098;

// Room for a node for each byte of the longest formula, which is more than it can have.
const NODE_SPACE: usize = 73_728;

fn main(rt: HostRuntime) -> Result<()> {
    let mut input = [0u8; INPUT_SPACE];
    let got = read_full(&mut rt.stdin(), &mut input);
    let mut table = [0u8; TABLE_SPACE];
    let ours = read_table(&rt, b"font.tab", &mut table);
    let mut client = [0u8; CLIENT_SPACE];
    let theirs = read_table(&rt, b"client.tab", &mut client);
    show(&rt, &table[..ours], &client[..theirs], &input[..got])
}

// Without a style there is no style that is known.
fn show<'a>(out: &impl Print, table: &'a [u8], client: &'a [u8], input: &[u8]) -> Result<()> {
    let Some((style, formula)) = input.split_first() else {
        return listing::write_answer(out, Err(Refusal::NoStyle), input);
    };
    let mut nodes = [0u8; NODE_SPACE];
    let mut index = [0u64; INDEX_WORDS];
    let mut client_index = [0u64; INDEX_WORDS];
    let answer = answer_to(
        *style,
        table,
        client,
        formula,
        &mut nodes,
        &mut index,
        &mut client_index,
    );
    listing::write_answer(out, answer, &nodes)
}

// The answer of setting, where a formula over the program's limit is unreadable at its first byte. What is tested before a formula is read
// is what refuses the empty one.
fn answer_to<'a>(
    style: u8,
    table: &'a [u8],
    client: &'a [u8],
    formula: &[u8],
    nodes: &mut [u8],
    index: &mut [u64],
    client_index: &mut [u64],
) -> Answer
    ensures result_value { answered_as result ≡ thin_setting style table.now client.now (lent_of index.old client_index.old) formula.now (length nodes.old) }
    ensures nodes_after { nodes.new ≡ thin_buffer style table.now client.now (lent_of index.old client_index.old) formula.now nodes.old }
    ensures index_after { index.new ≡ index_after style table.now client.now index.old client_index.old }
    ensures client_index_after { client_index.new ≡ client_index_after style table.now client.now index.old client_index.old }
{
    if formula.len() <= LONGEST {
        return layout::set(style, table, client, formula, nodes, index, client_index);
    }
    layout::measure(style, table, client, &[], index, client_index)?;
    Err(Refusal::Unreadable(0))
}
