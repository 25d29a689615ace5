// Builds the index of each table (font_index/specs/Index.antt). What the steps leave is in specs/Building.antt.

#![tactic(auto)]

ghost use Rattle.std.specs.Prelude.{◌≡◌, [], ◌++◌, ◌≤◌, ◌<◌, length, drop};
ghost use Rattle.font.specs.Records.{most_characters, greatest_size, greatest_family, character_records, client_records};
ghost use Rattle.font.specs.Table.{SoundTables, SoundRecords};
ghost use Rattle.font_index.specs.Index.{bit_words, index_words, index_of, group_word};
ghost use Rattle.font_build.specs.Building.{marked_with, Marked, group_count, running, Summed};

use font::{Key, count, our_records, record_at};
use font_index::{BIT_WORDS, CODES_IN_WORD, GROUP_COUNT, GROUP_WORDS, INDEX_WORDS, group_at};

// Writes each table's index at the front of the words lent for it.
pub fn build(table: &[u8], client: &[u8], index: &mut [u64], client_index: &mut [u64])
    requires { SoundTables table.now client.now × (index_words ≤ length index.old) × (index_words ≤ length client_index.old) }
    ensures index_after { index.new ≡ index_of (character_records table.now) ++ drop index_words index.old }
    ensures client_index_after { client_index.new ≡ index_of (client_records client.now) ++ drop index_words client_index.old }
{
    build_index(our_records(table), index);
    build_index(client, client_index);
}

// Writes the index of CH records at the front of the words, whatever these hold.
fn build_index(s: &[u8], index: &mut [u64])
    requires { SoundRecords s.now × (index_words ≤ length index.old) }
    ensures { index.new ≡ index_of (client_records s.now) ++ drop index_words index.old }
{
    clear(index);
    mark_all(s, index);
    sum(index);
}

// No record is marked.
fn clear(index: &mut [u64])
    requires { index_words ≤ length index.old }
    ensures { Marked index.new [] × (drop index_words index.new ≡ drop index_words index.old) }
{
    index[..INDEX_WORDS].fill(0);
}

// All records are marked, the last one first.
fn mark_all(s: &[u8], index: &mut [u64])
    requires { SoundRecords s.now × Marked index.old [] }
    ensures { Marked index.new (client_records s.now) × (drop index_words index.new ≡ drop index_words index.old) }
{
    for i in (0..count(s)).rev() {
        mark(index, Key::of(record_at(s, i)));
    }
}

// The bit of a symbol is set, and its record counted where the start will stand.
fn mark(index: &mut [u64], key: Key)
    requires { (index_words ≤ length index.old) × (key.size ≤ greatest_size) × (key.family ≤ greatest_family) × (group_word index.old key.size key.family bit_words < most_characters) }
    ensures { index.new ≡ marked_with index.old key.size key.family key.code }
{
    let group = group_at(key.size, key.family);
    let word = group + (key.code / CODES_IN_WORD) as usize;
    let count = group + BIT_WORDS;
    index[word] = index[word] | (1u64 << (key.code % CODES_IN_WORD) as u32);
    index[count] = index[count] + 1;
}

// Each count becomes the sum of those before it: the start.
fn sum(index: &mut [u64])
    requires { (index_words ≤ length index.old) × (running index.old group_count ≤ most_characters) }
    ensures { Summed index.old index.new group_count }
{
    let mut before = 0;
    for group in 0..GROUP_COUNT {
        let at = GROUP_WORDS * group + BIT_WORDS;
        let count = index[at];
        index[at] = before;
        before += count;
    }
}
