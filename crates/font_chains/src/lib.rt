// Chains of successors, of sixteen steps at most (font/specs/Chains.antt), each step to a symbol of the client's or else of ours.

#![tactic(auto)]

ghost use Rattle.std.specs.Prelude.{◌≡◌, ◌≤◌, length};
ghost use Rattle.font.specs.Records.{character_bytes, most_characters, client_records, every};
ghost use Rattle.font.specs.Font.{font_with};
ghost use Rattle.font.specs.Chains.{goes_on};
ghost use Rattle.font.specs.Table.{seen_ends, SoundRecords};
ghost use Rattle.font_chains.specs.Followed.{Followed, AllFollowed};

use font::{Key, LONGEST_CHAIN, Tables, count, format, record_at};
use font_search::record_near;

// Whether none of the records s starts a chain of more than sixteen steps.
pub fn all_end(tables: Tables<'_>, s: &[u8]) -> bool
    requires { SoundRecords s.now × AllFollowed tables.ours.now tables.client.now (client_records s.now) }
    ensures { result ≡ every (seen_ends (font_with tables.entry.ours.now tables.entry.client.now)) (client_records s.now) }
{
    let mut good = true;
    for i in 0..count(s) {
        good = good & ends(&tables, record_at(s, i), i);
    }
    good
}

// The chain of the symbol of r, the i-th record. Without the flag it has no step. With no client's table the record is its own
// symbol's, and its successor comes next. The records of its family should start where most do that have all their codes in a row.
fn ends(tables: &Tables<'_>, r: &[u8], i: usize) -> bool
    requires { (character_bytes ≤ length r.now) × (i ≤ most_characters) × Followed tables.now.ours.now tables.now.client.now r.now }
    ensures { result ≡ seen_ends (font_with tables.now.ours.now tables.now.client.now) r.now }
{
    if r[format::FLAG] != 1 {
        return true;
    }
    let key = Key::of(r);
    let first = i.saturating_sub(usize::from(key.code));
    if tables.client.is_empty() {
        return !goes_on(tables, &key, r[format::SUCCESSOR], first, LONGEST_CHAIN);
    }
    !goes_on(tables, &key, key.code, first, LONGEST_CHAIN + 1)
}

// Whether the symbol of a code is present, in the size and family of `like`, and so many steps can be taken from it. `first` is where
// its family should start in ours. A recursion, as document 01 names it for a chain; the tables and `like` are lent from step to step and
// the code is a byte by itself, so that the compiler makes a loop of it.
fn goes_on(tables: &Tables<'_>, like: &Key, code: u8, first: usize, steps: usize) -> bool
    requires { first ≤ most_characters }
    ensures { result ≡ goes_on (font_with tables.now.ours.now tables.now.client.now) like.now.size like.now.family steps ((font_with tables.now.ours.now tables.now.client.now).symbol like.now.size like.now.family code) }
{
    let key = Key { code, ..*like };
    let Some(r) = record_near(*tables, first + usize::from(code), key) else {
        return false;
    };
    if steps == 0 {
        return true;
    }
    if r[format::FLAG] != 1 {
        return false;
    }
    goes_on(tables, like, r[format::SUCCESSOR], first, steps - 1)
}
