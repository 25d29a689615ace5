// Text that a program writes, made piece by piece in a lent buffer: numbers in decimals, and the line of a refusal, which is defined in
// specs/Refusals.antt. `write_refusal`, `write_too_long` and `print` hand a line to what prints.

#![tactic(auto)]

ghost use Rattle.std.specs.Prelude.{◌≡◌, ◌++◌, ◌+◌, ◌≤◌, length};
ghost use Rattle.texts.specs.Decimals.{decimal_of, text_of};
ghost use Rattle.texts.specs.Refusals.{refusal_text, too_long_text};
ghost use Rattle.texts.specs.Written.{Written, Put, PutNear, number_text};

use scaled::Sp;
use std::io::Result;

// Room for the longest line.
pub const LINE_SPACE: usize = 128;

// A number by its sign and how far it lies from zero.
#[derive(Clone, Copy, PartialEq, Eq)]
pub struct Number {
    pub minus: bool,
    pub size: u64,
}

// Prints the line of a refusal. After an error, some of its bytes may have been written.
pub fn write_refusal(out: &impl Print, number: u8, place: usize) -> Result<()> {
    let mut line = [0u8; LINE_SPACE];
    let end = refusal_text(number, place, &mut line);
    print(out, &line, end)
}

// Prints the line of what a program cannot hold, which takes so many bytes. After an error, some of its bytes may have been written.
pub fn write_too_long(out: &impl Print, taken: usize) -> Result<()> {
    let mut line = [0u8; LINE_SPACE];
    let end = too_long_text(taken, &mut line);
    print(out, &line, end)
}

// Prints the front of a buffer. After an error, some of its bytes may have been written.
pub fn print(out: &impl Print, line: &[u8], end: usize) -> Result<()> {
    if end <= line.len() {
        out.write_all(&line[..end])?;
    }
    Ok(())
}

// Writes the line of a refusal at the front of the buffer, and gives its length.
pub fn refusal_text(number: u8, place: usize, out: &mut [u8]) -> usize
    requires { 128 ≤ length out.old }
    ensures { Written (refusal_text number place) out.old out.new result }
{
    let a = put_number(b"refused ", of_count(number as u64), out, 0);
    let b = put_number(b" at ", of_count(place as u64), out, a);
    put_bytes(b"\n", out, b)
}

// Writes the line of what a program cannot hold at the front of the buffer, and gives its length.
pub fn too_long_text(taken: usize, out: &mut [u8]) -> usize
    requires { 128 ≤ length out.old }
    ensures { Written (too_long_text taken) out.old out.new result }
{
    let a = put_number(b"too long: ", of_count(taken as u64), out, 0);
    put_bytes(b" bytes are taken\n", out, a)
}

pub fn of_length(length: Sp) -> Number
    ensures { number_text result ≡ text_of length.0 }
{
    Number {
        minus: length.0 < 0,
        size: length.0.unsigned_abs(),
    }
}

pub fn of_count(n: u64) -> Number
    ensures { number_text result ≡ decimal_of n }
{
    Number {
        minus: false,
        size: n,
    }
}

// Writes a mark and a number at `at`, and gives the place behind them.
pub fn put_number(mark: &[u8], n: Number, out: &mut [u8], at: usize) -> usize
    requires { at + length mark.now + 21 ≤ length out.old }
    ensures { PutNear (length mark.now + 21) (mark.now ++ number_text n) out.old out.new at result }
{
    let next = put_bytes(mark, out, at);
    if n.minus {
        let behind = put_bytes(b"-", out, next);
        return put_decimal(n.size, out, behind);
    }
    put_decimal(n.size, out, next)
}

fn put_decimal(n: u64, out: &mut [u8], at: usize) -> usize
    requires { at + 20 ≤ length out.old }
    ensures { PutNear 20 (decimal_of n) out.old out.new at result }
{
    let mut digits = [0u8; 20];
    let k = io::decimal(n, &mut digits);
    put_bytes(&digits[..k], out, at)
}

// Writes a text at `at`, and gives the place behind it.
pub fn put_bytes(text: &[u8], out: &mut [u8], at: usize) -> usize
    requires { at + length text.now ≤ length out.old }
    ensures { Put text.now out.old out.new at result }
{
    let end = at + text.len();
    out[at..end].copy_from_slice(text);
    end
}
