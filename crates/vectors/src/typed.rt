// Runs typed text and formulas through the library and writes what becomes of each, a line of hex or the refusal.
// typed.bin: 'Q', a four-byte length and a name table, which holds from there on; 'E' for a text to be read or 'U' for a formula to be
// written as text, a four-byte length, the bytes, and a four-byte room.

use crate::pages::write_report;
use crate::{MOST_CASES, read_byte, read_long, read_word};
use eqn_calls::report_of;
use std::fs;
use std::io::{Read, Result};
use std::rt::Files;

// A case that is longer is cut.
const NAME_SPACE: usize = 16_384;

const CASE_SPACE: usize = 16_384;

const RESULT_SPACE: usize = 16_384;

pub fn run_file(rt: &(impl Files + Print + Eprint)) -> Result<()> {
    let mut file = match fs::open(rt, "typed.bin") {
        Ok(file) => file,
        Err(e) => return eprintln!(rt; "typed.bin: {e}"),
    };
    let mut names = [0u8; NAME_SPACE];
    let mut bytes = [0u8; CASE_SPACE];
    let mut result = [0u8; RESULT_SPACE];
    run(rt, &mut file, &mut names, &mut bytes, &mut result)
}

// Goes from case to case; the buffers hold the name table, what is converted, and the result.
fn run(
    out: &impl Print,
    file: &mut impl Read,
    names: &mut [u8],
    bytes: &mut [u8],
    res: &mut [u8],
) -> Result<()> {
    let mut named: usize = 0;
    for _ in 0..MOST_CASES {
        let letter = read_byte(file);
        if letter == b'Q' {
            named = read_long(file, names);
        } else {
            if !is_typed(letter) {
                return Ok(());
            }
            let size = read_long(file, bytes);
            let room = read_word(file) as usize;
            show(out, letter, &names[..named], &bytes[..size], room, res)?;
        }
    }
    Ok(())
}

fn is_typed(letter: u8) -> bool {
    (letter == b'E') | (letter == b'U')
}

// The buffer has room for every result: more is as good as all of it.
fn show<'a>(
    out: &impl Print,
    letter: u8,
    names: &'a [u8],
    bytes: &'a [u8],
    lent: usize,
    res: &mut [u8],
) -> Result<()> {
    let room = lent.min(res.len());
    let answer = if letter == b'E' {
        eqn_calls::read(names, bytes, &mut res[..room])
    } else {
        eqn_calls::write(names, bytes, &mut res[..room])
    };
    write_report(out, report_of(answer), res)
}
