// A thin program that says why a shift is what it is: reads font.tab and, where there is one, client.tab in the working folder, and from
// standard input a style byte, a place of four bytes and a formula, and writes what decided each shift of the item at that place.

#![tactic(auto)]

use files::{CLIENT_SPACE, TABLE_SPACE, read_full, read_table};
use font_index::INDEX_WORDS;
use formula::FORMULA_LIMIT;
use layout_answers::Refusal;
use layout_answers::why::WhyRefusal;
use layout_why::why;
use std::io::Result;

const PLACE_BYTES: usize = 4;

// One byte more than a style, a place and the longest formula, so that a longer one is seen.
const INPUT_SPACE: usize = 1 + PLACE_BYTES + FORMULA_LIMIT + 1;

fn main(rt: HostRuntime) -> Result<()> {
    let mut input = [0u8; INPUT_SPACE];
    let got = read_full(&mut rt.stdin(), &mut input);
    let mut table = [0u8; TABLE_SPACE];
    let ours = read_table(&rt, b"font.tab", &mut table);
    let mut client = [0u8; CLIENT_SPACE];
    let theirs = read_table(&rt, b"client.tab", &mut client);
    show(&rt, &table[..ours], &client[..theirs], &input[..got])
}

// Without a style there is no style that is known; without a whole place there is no formula either.
fn show<'a>(out: &impl Print, table: &'a [u8], client: &'a [u8], input: &[u8]) -> Result<()> {
    let Some((style, rest)) = input.split_first() else {
        return listing::write_reasons(out, Err(WhyRefusal::Refused(Refusal::NoStyle)));
    };
    let (place, formula) = match rest.split_first_chunk::<PLACE_BYTES>() {
        Some((bytes, formula)) => (u32::from_le_bytes(*bytes) as usize, formula),
        None => (0, &rest[..0]),
    };
    let mut index = [0u64; INDEX_WORDS];
    let mut client_index = [0u64; INDEX_WORDS];
    let answer = why(
        *style,
        table,
        client,
        formula,
        place,
        &mut index,
        &mut client_index,
    );
    listing::write_reasons(out, answer)
}
