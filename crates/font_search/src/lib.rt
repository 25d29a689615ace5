// The record of a symbol, by its size, family and code, found by halving: in a client's table and ours, and among CH records alone.

#![tactic(auto)]

ghost use Rattle.std.specs.Prelude.{◌≡◌};
ghost use Rattle.font.specs.Records.{client_records};
ghost use Rattle.font.specs.Font.{record_in, record_of, place_in, place_of, past};
ghost use Rattle.font.specs.Table.{SoundRecords};
ghost use Rattle.font.specs.Values.{HandsBack};

use font::{Key, Tables, count, our_records, record_at};

// Steps of a search, each of which halves the records.
const MOST_STEPS: usize = 12;

// The client's record of a symbol, or else ours, of which that of a number is tried first.
pub fn record_near<'a>(tables: Tables<'a>, number: usize, key: Key) -> Option<&'a [u8]>
    ensures { HandsBack result (record_of tables.entry.ours.now tables.entry.client.now key.size key.family key.code) (place_of tables.entry.ours.now tables.entry.client.now tables.entry.ours.ref_ptr tables.entry.client.ref_ptr key.size key.family key.code) }
{
    match record_in(tables.client, key) {
        Some(own) => Some(own),
        None => record_tried(our_records(tables.ours), number, key),
    }
}

// Of CH records that rise, the one of a symbol, as a part of them. The record of a number is tried first: where that is the symbol's,
// nothing is halved.
fn record_tried(s: &[u8], number: usize, key: Key) -> Option<&[u8]>
    requires { SoundRecords s.now }
    ensures { HandsBack result (record_in key.size key.family key.code (client_records s.now)) (past (place_in key.size key.family key.code (client_records s.now)) s.entry.ref_ptr) }
{
    if number < count(s) {
        let r = record_at(s, number);
        let other = Key::of(r).number();
        if other == key.number() {
            return Some(r);
        }
    }
    record_in(s, key)
}

// The same with no record tried first. Each step halves the range `from` to `to` in which the symbol's record can be. `steps` only counts: that it never falls below 0 is proved, so that twelve are enough.
fn record_in(s: &[u8], key: Key) -> Option<&[u8]>
    requires { SoundRecords s.now }
    ensures { HandsBack result (record_in key.size key.family key.code (client_records s.now)) (past (place_in key.size key.family key.code (client_records s.now)) s.entry.ref_ptr) }
{
    let mut from = 0;
    let mut to = count(s);
    let mut steps = MOST_STEPS;
    let wanted = key.number();
    // No `for` and no search of the library: that twelve steps are enough is proved of this count.
    while from < to {
        steps -= 1;
        let middle = (from + to) / 2;
        let r = record_at(s, middle);
        let other = Key::of(r).number();
        if other == wanted {
            return Some(r);
        }
        if other < wanted {
            from = middle + 1;
        } else {
            to = middle;
        }
    }
    None
}
