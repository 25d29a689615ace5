// The tables of a program's working folder, read from their files, and reading an input to the front of a buffer.

#![tactic(auto)]

ghost use Rattle.io.specs.Counts.{IsPrefixLen};

use std::fs;
use std::io::{Error, ErrorKind, Read, Result};
use std::rt::Files;

// One byte more than the longest table, ours and a client's, so that a longer one is seen.
pub const TABLE_SPACE: usize = 47_531;

pub const CLIENT_SPACE: usize = 11_777;

// The longest name table that the programs take, and one byte more, so that a longer one is seen.
pub const LONGEST_NAMES: usize = 131_072;

pub const NAME_SPACE: usize = LONGEST_NAMES + 1;

// Reads a table to the front of a buffer. One that is not there has no bytes: ours is then no good table, and a client's has no symbols.
// One that cannot be read has a single byte, so that neither is good.
pub fn read_table(rt: &impl Files, name: &[u8], buffer: &mut [u8]) -> usize
    ensures { IsPrefixLen result buffer.new }
{
    match open_read(rt, name) {
        Err(e) if e.kind() == ErrorKind::NotFound => 0,
        file => read_opened(file, buffer),
    }
}

// Reads a table that has to be there: where it is not, or cannot be read, it has a single byte, so that it is no good table.
pub fn read_needed(rt: &impl Files, name: &[u8], buffer: &mut [u8]) -> usize
    ensures { IsPrefixLen result buffer.new }
{
    read_opened(open_read(rt, name), buffer)
}

// Reads until the buffer is full, the input ends or a read fails, and gives how many bytes it put at the buffer's front.
pub fn read_full(input: &mut impl Read, buffer: &mut [u8]) -> usize
    ensures { IsPrefixLen result buffer.new }
{
    // No `for`: a read gives as many bytes as it likes.
    let mut done = 0;
    while done < buffer.len() {
        let got = read_some(input, &mut buffer[done..]);
        if got == 0 {
            return done;
        }
        done += got;
    }
    done
}

// Opens a file of the working folder. A name that is no text is none of a file.
fn open_read<R: Files>(rt: &R, name: &[u8]) -> Result<R::File> {
    match str::from_utf8(name) {
        Ok(path) => fs::open(rt, path),
        Err(_) => Err(Error::from(ErrorKind::InvalidInput)),
    }
}

// A file that could not be opened, or be read, has a single byte.
fn read_opened(file: Result<impl Read + Drop>, buffer: &mut [u8]) -> usize
    ensures { IsPrefixLen result buffer.new }
{
    let Ok(mut file) = file else {
        return single(buffer);
    };
    let size = read_full(&mut file, buffer);
    if read_fails(&mut file) {
        return single(buffer);
    }
    size
}

// Whether a read that stopped was stopped by a failure, as that of a folder is: the next one then fails too.
fn read_fails(file: &mut impl Read) -> bool {
    let mut byte = [0u8; 1];
    file.read(&mut byte).is_err()
}

// One read; one that fails gives no bytes.
fn read_some(input: &mut impl Read, buffer: &mut [u8]) -> usize
    ensures { IsPrefixLen result buffer.new }
{
    match input.read(buffer) {
        Ok(got) => got,
        Err(_) => 0,
    }
}

// The length of a table of one byte, where the buffer has room for it.
fn single(buffer: &[u8]) -> usize
    ensures { IsPrefixLen result buffer.now }
{
    buffer.len().min(1)
}
