// The rules for the records of the font table. Every record is read once and whole: tests are joined, and none is skipped.

#![tactic(auto)]

ghost use Rattle.std.specs.Prelude.{◌≡◌, ◌&&◌, ◌||◌, ◌+◌, ◌*◌, ◌<◌, ◌≤◌, leb, eqb, length, take, drop};
ghost use Rattle.font.specs.Records.{word_bytes, mark_bytes, parameter_bytes, header_bytes, character_bytes, parameter_records, client_records, words, marked, every, good_word, good_parameters, good_character};
ghost use Rattle.font_records.specs.Rules.{sound_characters};
ghost use Rattle.font.specs.Keys.{key_of, key_in, key_range, Bytes};

use font::{Key, count, format, record_at};

// The greatest word of a record.
const GREATEST_WORD: u32 = 8_388_607;

// The three PA records, one for each size.
pub fn are_parameters(table: &[u8]) -> bool
    requires { header_bytes ≤ length table.now }
    ensures { result ≡ every good_parameters (parameter_records table.now) }
{
    let mut good = true;
    for r in table[..format::HEADER_BYTES].chunks_exact(format::PARAMETER_BYTES) {
        good = good & is_parameters(r);
    }
    good
}

// A PA record: mark and 35 words.
fn is_parameters(r: &[u8]) -> bool
    requires { parameter_bytes ≤ length r.now }
    ensures { result ≡ good_parameters r.now }
{
    is_marked(r, b'P', b'A') & are_small(r, format::FIRST_PARAMETER, format::PARAMETER_COUNT)
}

// CH records, good and rising strictly; `least` is the least key that the next one may have.
pub fn are_characters(s: &[u8]) -> bool
    ensures { result ≡ sound_characters (client_records s.now) }
{
    let mut good = true;
    let mut least = 0;
    for i in 0..count(s) {
        let r = record_at(s, i);
        let key = Key::of(r).number();
        good = good & (is_character(r) & (least <= key));
        least = key + 1;
    }
    good
}

// A CH record: mark, size, family, code, successor flag and code, and four words.
fn is_character(r: &[u8]) -> bool
    requires { character_bytes ≤ length r.now }
    ensures { result ≡ good_character r.now }
{
    is_marked(r, b'C', b'H')
        & (r[format::SIZE] <= format::GREATEST_SIZE)
        & (r[format::FAMILY] <= format::GREATEST_FAMILY)
        & is_successor(r[format::FLAG], r[format::SUCCESSOR])
        & are_small(r, format::WIDTH, format::METRIC_COUNT)
}

// A flag of 0 or 1, and a successor code of 0 without it.
fn is_successor(flag: u8, code: u8) -> bool
    ensures { result ≡ (leb flag 1 && (eqb flag 1 || eqb code 0)) }
{
    (flag <= 1) & ((flag == 1) | (code == 0))
}

// Whether none of n words from a place on is too great.
fn are_small(s: &[u8], at: usize, n: usize) -> bool
    requires { at + word_bytes * n ≤ length s.now }
    ensures { result ≡ every good_word (words n (drop at s.now)) }
{
    let mut small = true;
    for k in 0..n {
        let w = words::word(s, at + format::WORD_BYTES * k);
        small = small & (w <= GREATEST_WORD);
    }
    small
}

// A record opens with the mark of the two letters a and b.
fn is_marked(r: &[u8], a: u8, b: u8) -> bool
    requires { mark_bytes ≤ length r.now }
    ensures { result ≡ marked a b r.now }
{
    (r[0] == a) & (r[1] == b)
}
