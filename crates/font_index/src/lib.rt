// The font that our table and a client's hold, asked by size, family and code. A symbol is found by the index of its table's CH records
// (specs/Index.antt).

#![tactic(auto)]

ghost use Rattle.std.specs.Prelude.{◌≡◌, ◌+◌, ◌*◌, ◌≤◌, ◌<◌, length};
ghost use Rattle.font.specs.Records.{most_characters, greatest_size, greatest_family, client_records};
ghost use Rattle.font.specs.Font.{font_in, record_in, record_of, place_in, place_of, past};
ghost use Rattle.font.specs.Table.{SoundRecords};
ghost use Rattle.font.specs.Values.{HandsBack, found_as, parameters_in};
ghost use Rattle.font_index.specs.Index.{family_count, codes_in_word, bit_words, group_words, index_words, Indexes, Indexed, group_word, ones_below, present_by, number_by};

use font::{Key, Metrics, format, metrics_of, our_records, record_at};
use std::marker::Model;

// For each size and family words of bits, one for each code, and a start.
const FAMILY_COUNT: usize = 16;

pub const GROUP_COUNT: usize = format::SIZE_COUNT * FAMILY_COUNT;

pub const CODES_IN_WORD: u8 = 64;

pub const BIT_WORDS: usize = 4;

pub const GROUP_WORDS: usize = BIT_WORDS + 1;

// How many words an index takes.
pub const INDEX_WORDS: usize = GROUP_WORDS * GROUP_COUNT;

// A font: our table, a client's whose symbols come before ours, the index of each, and our parameters.
#[derive(Drop)]
pub struct Font<'a> {
    table: &'a [u8],
    client: &'a [u8],
    index: &'a [u64],
    client_index: &'a [u64],
    parameters: [[u32; format::PARAMETER_COUNT]; format::SIZE_COUNT],
}

// What a contract sees of a font is its two tables.
impl<'a> Model for Font<'a> {
    ghost use Rattle.font.specs.Font.{Tables};
    ghost use Rattle.font_index.specs.Index.{Held};

    ghost Value = { Tables };

    ghost view = { λ f. record { ours = f.table.now; client = f.client.now } };

    ghost invariant = { λ f. Held f.table.now f.client.now f.index.now f.client_index.now f.parameters };
}

impl<'a> Font<'a> {
    // The font of tables that have been indexed.
    pub fn new(
        table: &'a [u8],
        client: &'a [u8],
        index: &'a [u64],
        client_index: &'a [u64],
    ) -> Font<'a>
        requires { Indexed table.now client.now index.now client_index.now }
        ensures { result ≡ record { ours = table.now; client = client.now } }
    {
        Font {
            table,
            client,
            index,
            client_index,
            parameters: font::parameters(table),
        }
    }

    // The symbol of a size, family and code.
    pub fn symbol(&self, size: u8, family: u8, code: u8) -> Option<Metrics>
        ensures { found_as result ≡ (font_in self.now).symbol size family code }
    {
        let key = Key { size, family, code };
        let r = record_of(self.table, self.client, self.index, self.client_index, key)?;
        Some(metrics_of(r))
    }

    pub fn parameters(&self) -> &[[u32; format::PARAMETER_COUNT]; format::SIZE_COUNT]
        ensures { parameters_in result.now ≡ (font_in self.now).parameter }
    {
        &self.parameters
    }
}

// The record of a symbol by the indexes, as a part of the client's table or else of ours.
fn record_of<'a>(
    table: &'a [u8],
    client: &'a [u8],
    index: &[u64],
    client_index: &[u64],
    key: Key,
) -> Option<&'a [u8]>
    requires { Indexed table.now client.now index.now client_index.now }
    ensures { HandsBack result (record_of table.now client.now key.size key.family key.code) (place_of table.now client.now table.entry.ref_ptr client.entry.ref_ptr key.size key.family key.code) }
{
    match record_by(client, client_index, key) {
        Some(own) => Some(own),
        None => record_by(our_records(table), index, key),
    }
}

// Of CH records the one of a symbol, by their index, as a part of them.
fn record_by<'a>(s: &'a [u8], index: &[u64], key: Key) -> Option<&'a [u8]>
    requires { SoundRecords s.now × Indexes index.now (client_records s.now) }
    ensures { HandsBack result (record_in key.size key.family key.code (client_records s.now)) (past (place_in key.size key.family key.code (client_records s.now)) s.entry.ref_ptr) }
{
    if !is_present(index, key) {
        return None;
    }
    Some(record_at(s, number_of(index, key)))
}

// Whether the bit of a symbol is set.
fn is_present(index: &[u64], key: Key) -> bool
    requires { index_words ≤ length index.now }
    ensures { result ≡ present_by index.now key.size key.family key.code }
{
    if format::GREATEST_SIZE < key.size {
        return false;
    }
    if format::GREATEST_FAMILY < key.family {
        return false;
    }
    let word = group_at(key.size, key.family) + usize::from(key.code / CODES_IN_WORD);
    (index[word] >> u32::from(key.code % CODES_IN_WORD)) & 1 == 1
}

// How many records stand before that of a symbol: the start, and the ones below its bit, over the words before it and in its own.
fn number_of(index: &[u64], key: Key) -> usize
    requires { (index_words ≤ length index.now) × (key.size ≤ greatest_size) × (key.family ≤ greatest_family) × (group_word index.now key.size key.family bit_words ≤ most_characters) }
    ensures { result ≡ number_by index.now key.size key.family key.code }
{
    let group = group_at(key.size, key.family);
    let last = usize::from(key.code / CODES_IN_WORD);
    let mut number = index[group + BIT_WORDS];
    for word in 0..last {
        number += u64::from(index[group + word].count_ones());
    }
    (number + ones_below(index[group + last], u32::from(key.code % CODES_IN_WORD))) as usize
}

// The ones of a word below a bit.
fn ones_below(w: u64, bit: u32) -> u64
    requires { bit < codes_in_word }
    ensures { (result ≡ ones_below w bit) × (result ≤ codes_in_word) }
{
    let below = (1u64 << bit) - 1;
    u64::from((w & below).count_ones())
}

// Where the five words of a size and family start.
pub fn group_at(size: u8, family: u8) -> usize
    requires { (size ≤ greatest_size) × (family ≤ greatest_family) }
    ensures { result ≡ group_words * (family_count * size + family) }
{
    GROUP_WORDS * (FAMILY_COUNT * usize::from(size) + usize::from(family))
}
