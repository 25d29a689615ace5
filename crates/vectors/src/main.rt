// Runs test cases through the library and writes what the thin programs would write for each, with the library's own limit on a
// formula's length. In each file of cases but pages.bin and typed.bin, which are described in pages.rt and typed.rt:
//     'T' or 'C'    a four-byte length and a table of ours or of a client's, which holds from there on; both are empty at first
//     'F' or 'L'    a style, a length of two bytes or of four, and a formula to be set
//     'W'           as 'F', and a four-byte place, of an item whose shifts are asked for

#![tactic(auto)]

mod pages;
mod typed;

ghost use Rattle.std.specs.Prelude.{◌≤◌, length};

use files::read_full;
use font_index::INDEX_WORDS;
use layout_why::why;
use std::fs;
use std::io::{Read, Result};
use std::rt::Files;

// A case that is longer is cut.
const TABLE_SPACE: usize = 50_000;

const CLIENT_SPACE: usize = 12_000;

const FORMULA_SPACE: usize = 131_100;

const NODE_SPACE: usize = 131_072;

const MOST_CASES: usize = 100_000;

fn main(rt: HostRuntime) -> Result<()> {
    run_file(&rt, "cases.bin")?;
    run_file(&rt, "reasons.bin")?;
    pages::run_file(&rt)?;
    typed::run_file(&rt)
}

fn run_file(rt: &(impl Files + Print + Eprint), name: &str) -> Result<()> {
    let mut file = match fs::open(rt, name) {
        Ok(file) => file,
        Err(e) => return eprintln!(rt; "{name}: {e}"),
    };
    let mut table = [0u8; TABLE_SPACE];
    let mut client = [0u8; CLIENT_SPACE];
    let mut formula = [0u8; FORMULA_SPACE];
    run(rt, &mut file, &mut table, &mut client, &mut formula)
}

// Goes from case to case; the buffers hold the tables and the formula.
fn run(
    out: &impl Print,
    file: &mut impl Read,
    table: &mut [u8],
    client: &mut [u8],
    formula: &mut [u8],
) -> Result<()> {
    let mut ours: usize = 0;
    let mut theirs: usize = 0;
    for _ in 0..MOST_CASES {
        let letter = read_byte(file);
        if letter == b'T' {
            ours = read_long(file, table);
        } else if letter == b'C' {
            theirs = read_long(file, client);
        } else if !run_case(
            out,
            file,
            letter,
            &table[..ours],
            &client[..theirs],
            formula,
        )? {
            return Ok(());
        }
    }
    Ok(())
}

// Runs the case that a letter opens, and says whether it opens one.
fn run_case<'a>(
    out: &impl Print,
    file: &mut impl Read,
    letter: u8,
    table: &'a [u8],
    client: &'a [u8],
    formula: &mut [u8],
) -> Result<bool> {
    if !is_case(letter) {
        return Ok(false);
    }
    let style = read_byte(file);
    let size = read_formula(file, letter, formula);
    if letter == b'W' {
        let place = read_word(file) as usize;
        show_reasons(out, style, table, client, &formula[..size], place)?;
    } else {
        show(out, style, table, client, &formula[..size])?;
    }
    Ok(true)
}

fn is_case(letter: u8) -> bool {
    (letter == b'F') | (letter == b'L') | (letter == b'W')
}

// The next byte, or 0 where there is none.
fn read_byte(file: &mut impl Read) -> u8 {
    let mut byte = [0u8; 1];
    read_full(file, &mut byte);
    byte[0]
}

fn read_formula(file: &mut impl Read, letter: u8, buffer: &mut [u8]) -> usize
    ensures { result ≤ length buffer.new }
{
    if letter == b'L' {
        return read_long(file, buffer);
    }
    read_short(file, buffer)
}

// Reads bytes behind a length of two bytes, or of four, to the front of a buffer.
fn read_short(file: &mut impl Read, buffer: &mut [u8]) -> usize
    ensures { result ≤ length buffer.new }
{
    let a = read_byte(file);
    let b = read_byte(file);
    read_front(file, words::of_bytes(a, b, 0, 0), buffer)
}

fn read_long(file: &mut impl Read, buffer: &mut [u8]) -> usize
    ensures { result ≤ length buffer.new }
{
    let size = read_word(file);
    read_front(file, size, buffer)
}

fn read_word(file: &mut impl Read) -> u32 {
    let a = read_byte(file);
    let b = read_byte(file);
    let c = read_byte(file);
    let d = read_byte(file);
    words::of_bytes(a, b, c, d)
}

fn read_front(file: &mut impl Read, size: u32, buffer: &mut [u8]) -> usize
    ensures { result ≤ length buffer.new }
{
    let end = size as usize;
    if end < buffer.len() {
        return read_full(file, &mut buffer[..end]);
    }
    read_full(file, buffer)
}

fn show<'a>(
    out: &impl Print,
    style: u8,
    table: &'a [u8],
    client: &'a [u8],
    formula: &[u8],
) -> Result<()> {
    let mut nodes = [0u8; NODE_SPACE];
    let mut index = [0u64; INDEX_WORDS];
    let mut client_index = [0u64; INDEX_WORDS];
    let answer = layout::set(
        style,
        table,
        client,
        formula,
        &mut nodes,
        &mut index,
        &mut client_index,
    );
    listing::write_answer(out, answer, &nodes)
}

fn show_reasons<'a>(
    out: &impl Print,
    style: u8,
    table: &'a [u8],
    client: &'a [u8],
    formula: &[u8],
    place: usize,
) -> Result<()> {
    let mut index = [0u64; INDEX_WORDS];
    let mut client_index = [0u64; INDEX_WORDS];
    listing::write_reasons(
        out,
        why(
            style,
            table,
            client,
            formula,
            place,
            &mut index,
            &mut client_index,
        ),
    )
}
