// Runs nodes and bodies of pages through the library and writes what becomes of each, a line of hex or the refusal.
// pages.bin: 'N' for nodes to be written or 'D' for a body to be read, a four-byte length, the bytes, and a four-byte room.

ghost use Rattle.std.specs.Prelude.{◌<◌};

use crate::{MOST_CASES, read_byte, read_long, read_word};
use dvi_calls::report_of;
use results::Report;
use std::fs;
use std::io::{Read, Result};
use std::rt::Files;
use texts::write_refusal;

// A case that is longer is cut.
const CASE_SPACE: usize = 16_384;

const RESULT_SPACE: usize = 16_384;

pub fn run_file(rt: &(impl Files + Print + Eprint)) -> Result<()> {
    let mut file = match fs::open(rt, "pages.bin") {
        Ok(file) => file,
        Err(e) => return eprintln!(rt; "pages.bin: {e}"),
    };
    let mut bytes = [0u8; CASE_SPACE];
    let mut result = [0u8; RESULT_SPACE];
    run(rt, &mut file, &mut bytes, &mut result)
}

// Goes from case to case; the buffers hold what is converted, and the result.
fn run(out: &impl Print, file: &mut impl Read, bytes: &mut [u8], res: &mut [u8]) -> Result<()> {
    for _ in 0..MOST_CASES {
        let letter = read_byte(file);
        if !is_page(letter) {
            return Ok(());
        }
        let size = read_long(file, bytes);
        let room = read_word(file) as usize;
        show(out, letter, &bytes[..size], room, res)?;
    }
    Ok(())
}

fn is_page(letter: u8) -> bool {
    (letter == b'N') | (letter == b'D')
}

// A case with more room than the buffer has is passed over.
fn show(out: &impl Print, letter: u8, bytes: &[u8], room: usize, res: &mut [u8]) -> Result<()> {
    if res.len() < room {
        return Ok(());
    }
    let answer = if letter == b'N' {
        dvi_calls::write(bytes, &mut res[..room])
    } else {
        dvi_calls::read(bytes, &mut res[..room])
    };
    write_report(out, report_of(answer), res)
}

// The bytes that were written, or the refusal.
pub fn write_report(out: &impl Print, report: Report, res: &[u8]) -> Result<()> {
    if report.number == 0 {
        return write_front(out, res, report.bytes);
    }
    write_refusal(out, report.number, report.place)
}

fn write_front(out: &impl Print, res: &[u8], size: usize) -> Result<()> {
    if size <= res.len() {
        write_bytes(out, &res[..size])?;
    }
    Ok(())
}

fn write_bytes(out: &impl Print, bytes: &[u8]) -> Result<()> {
    out.write_all(b"bytes ")?;
    if bytes.is_empty() {
        out.write_all(b"-")?;
    }
    write_pairs(out, bytes)?;
    out.write_all(b"\n")
}

fn write_pairs(out: &impl Print, bytes: &[u8]) -> Result<()> {
    for byte in bytes {
        write_byte(out, *byte)?;
    }
    Ok(())
}

fn write_byte(out: &impl Print, byte: u8) -> Result<()> {
    out.write_all(&[digit(byte / 16), digit(byte % 16)])
}

fn digit(n: u8) -> u8
    requires { n < 16 }
{
    if n < 10 { b'0' + n } else { b'a' + (n - 10) }
}
