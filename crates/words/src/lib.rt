// Four-byte words, the least significant byte first, and the lengths that they stand for. Both are defined in specs/Words.antt.

#![tactic(auto)]

ghost use Rattle.std.specs.Prelude.{◌≡◌, ◌++◌, ◌+◌, ◌*◌, ◌%◌, ◌≤◌, length, drop};
ghost use Rattle.std.proofs.lemmas.List.Edits.{sets};
ghost use Rattle.words.specs.Words.{little_endian, word_range, signed_word, word_of, four_bytes};

use scaled::Sp;

// The word that starts at a place.
pub fn word(s: &[u8], at: usize) -> u32
    requires { at + 4 ≤ length s.now }
    ensures { result ≡ little_endian 4 (drop at s.now) }
{
    u32::from_le_bytes([s[at], s[at + 1], s[at + 2], s[at + 3]])
}

// The word that four bytes make.
pub fn of_bytes(a: u8, b: u8, c: u8, d: u8) -> u32
    ensures { result ≡ a + 256 * (b + 256 * (c + 256 * d)) }
{
    u32::from_le_bytes([a, b, c, d])
}

// The length whose two's complement is w.
pub fn signed(w: u32) -> Sp
    ensures { result.0 ≡ signed_word w }
{
    Sp(i64::from(w.cast_signed()))
}

// The two's complement of a length, of which four bytes are kept.
pub fn word_of(z: Sp) -> u32
    ensures { result ≡ word_of z.0 }
{
    (z.0 & 0xffff_ffff) as u32
}

// The sum of two words, modulo 2^32.
pub fn sum(p: u32, q: u32) -> u32
    ensures { result ≡ (p + q) % word_range }
{
    p.wrapping_add(q)
}

// Writes a word at a place.
pub fn store(b: &mut [u8], at: usize, w: u32)
    requires { at + 4 ≤ length b.old }
    ensures { b.new ≡ sets b.old at (four_bytes w) }
{
    b[at..at + 4].copy_from_slice(&w.to_le_bytes());
}

// Writes two words, one behind the other.
pub fn store_pair(b: &mut [u8], at: usize, p: u32, q: u32)
    requires { at + 8 ≤ length b.old }
    ensures { b.new ≡ sets b.old at (four_bytes p ++ four_bytes q) }
{
    store(b, at, p);
    store(b, at + 4, q);
}
