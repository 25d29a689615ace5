// The name table (request 10), defined in specs/: its test, and its names found by their length and bytes, one record after the other.

#![tactic(auto)]

ghost use Rattle.std.specs.Prelude.{◌≡◌, not, ◌&&◌, List, ℕ, ◌<◌, length, leb, eqb};
ghost use Rattle.formula.specs.Heads.{greatest_family, greatest_class};
ghost use Rattle.eqn_names.specs.Names.{Name, table_of, front_name, named, first_for, first_place, is_keyword, is_there, has_class};
ghost use Rattle.eqn_names.specs.Names.{Records, asked_as};
ghost use Rattle.eqn_names.specs.Names.{names as ofNames};
ghost use Rattle.eqn_names.specs.Firsts.{From, Listed, places, mix, hash_of, kept};
ghost use denote.Ref.{Bor};
ghost use Rattle.eqn_names.specs.Search.{Search};
ghost use Rattle.eqn_names.specs.Values.{Stepped, RecordRead, front_as, found_as, NameFound, table_told, UnknownFound};

use eqn_tokens::bytes::{are_same, are_word_bytes};
use eqn_tokens::tokens::{TokenKind, token_at, word_kind};
use formula::{GREATEST_CLASS, GREATEST_FAMILY};

const LONGEST_NAME: usize = 32;

// So many hashes there are.
pub const PLACES: usize = 4096;

// What a name stands for.
#[derive(Clone, Copy, PartialEq, Eq)]
pub struct Symbol {
    pub family: u8,
    pub code: u8,
    pub class: u8,
}

// A record: how many bytes its name has, and its symbol.
#[derive(Clone, Copy)]
struct Record {
    bytes: usize,
    symbol: Symbol,
}

// The place of a record that is malformed, names a keyword or repeats a name.
#[derive(Clone, Copy, PartialEq, Eq)]
pub struct BadRecord {
    pub place: usize,
}

// The bytes of a name in the table, by the places where they start and end.
#[derive(Clone, Copy, PartialEq, Eq)]
pub struct Range {
    pub start: usize,
    pub end: usize,
}

// A table, and for each hash the place from which a name of that hash is looked for.
// `Listed` is no invariant of it, since `find`, `first_unknown` and `put_row`, which docs/PROOFS.md names, take any names and places.
#[derive(Clone, Copy)]
pub struct NameIndex<'a> {
    pub names: &'a [u8],
    pub firsts: &'a [usize; PLACES],
}

impl<'a> NameIndex<'a> {
    // The symbol that a word has in a table.
    pub fn find(&self, word: &[u8]) -> Option<Symbol>
        ensures { (ns : List Name) → Listed self.now.names.now self.now.firsts.now ns → found_as word.now result ≡ named ns word.now }
    {
        let h = hash(word);
        find_from(self.names, self.firsts[h], word)
    }

    // The place of the first word of a text that has no name in a table.
    pub fn first_unknown(&self, text: &[u8]) -> Option<usize>
        ensures { (ns : List Name) → Listed self.now.names.now self.now.firsts.now ns → UnknownFound ns text.now result }
    {
        let mut at: usize = 0;
        // No count: a token ends where the look for the next one starts.
        while at < text.len() {
            let token = token_at(text, at);
            if token.kind == TokenKind::Word && self.find(&text[token.start..token.end]).is_none() {
                return Some(token.start);
            }
            at = token.end;
        }
        None
    }
}

// The record at the front of some bytes.
fn front_record(s: &[u8]) -> Option<Record>
    ensures { front_as s.now result ≡ front_name s.now }
{
    let record = next_record(s)?;
    if (record.bytes == 0) | (record.bytes > LONGEST_NAME) {
        return None;
    }
    let end = record.bytes + 1;
    if is_symbol(record.symbol) & are_word_bytes(&s[1..end]) {
        return Some(record);
    }
    None
}

fn is_symbol(symbol: Symbol) -> bool
    ensures { result ≡ (leb symbol.family greatest_family && leb symbol.class greatest_class) }
{
    (symbol.family <= GREATEST_FAMILY) & (symbol.class <= GREATEST_CLASS)
}

// The record at the front of some bytes that are records, by its length alone.
fn next_record(s: &[u8]) -> Option<Record>
    ensures stepped { Stepped s.now result }
    ensures read { RecordRead s.now result }
{
    if s.len() < 5 {
        return None;
    }
    let bytes = s[0] as usize;
    if s.len() < bytes + 4 {
        return None;
    }
    let end = bytes + 1;
    let symbol = Symbol {
        family: s[end],
        code: s[end + 1],
        class: s[end + 2],
    };
    Some(Record { bytes, symbol })
}

// The symbol that a word has in a table, where no record before a place has that name.
fn find_from(names: &[u8], from: usize, word: &[u8]) -> Option<Symbol>
    ensures { (ns : List Name) → From names.now ns word.now from → found_as word.now result ≡ named ns word.now }
{
    let found = first_record(names, from, |name, _| are_same(name, word))?;
    Some(found.1)
}

// The first record from a place on that a test of its name and symbol picks: where its name stands, and the symbol.
fn first_record<F: Fn(&[u8], Symbol) -> bool>(
    names: &[u8],
    from: usize,
    picks: F,
) -> Option<(Range, Symbol)>
    requires { F.IsAlwaysCallable picks }
    ensures { Search (λ w symbol b. (x : Bor (List ℕ)) × (x.now ≡ w) × F.post picks x symbol b) names.now from result }
{
    let mut at = from;
    // No count: a record says how far the next one is.
    while at < names.len() {
        let record = next_record(&names[at..])?;
        let start = at + 1;
        let end = start + record.bytes;
        if picks(&names[start..end], record.symbol) {
            return Some((Range { start, end }, record.symbol));
        }
        at = end + 3;
    }
    None
}

// A number below PLACES, from the bytes of a name.
fn hash(name: &[u8]) -> usize
    ensures { (result ≡ hash_of name.now) × (result < places) }
{
    let mut h: usize = 0;
    for b in name {
        h = mixed(h, *b);
    }
    h
}

fn mixed(h: usize, b: u8) -> usize
    requires { h < places }
    ensures { result ≡ mix h b }
{
    (h * 31 + b as usize) % PLACES
}

// The first name of a symbol in a table, of a class or of any.
pub fn first_for(names: &[u8], family: u8, code: u8, class: Option<u8>) -> Option<Range>
    ensures { (ns : List Name) → Records names.now ns → NameFound names.now (first_for family code (asked_as class) ns) (first_place family code (asked_as class) 0 ns) result }
{
    let found = first_record(names, 0, |_, symbol| fits(symbol, family, code, class))?;
    Some(found.0)
}

// Whether a symbol is the one asked for.
fn fits(symbol: Symbol, family: u8, code: u8, class: Option<u8>) -> bool
    ensures { result ≡ (eqb symbol.family family && eqb symbol.code code && has_class (asked_as class) symbol.class) }
{
    (symbol.family == family) & (symbol.code == code) & class.is_none_or(|k| symbol.class == k)
}

// Tests a table: every record is well formed, no keyword, and new.
pub fn check(names: &[u8]) -> Result<(), BadRecord>
    ensures { result ≡ table_told (table_of names.now) }
{
    let mut firsts = [0usize; PLACES];
    index(names, &mut firsts)
}

// Tests a table, and keeps for each hash the place of its first record; for a hash without one, the table's end.
pub fn index(names: &[u8], firsts: &mut [usize; PLACES]) -> Result<(), BadRecord>
    requires { length firsts.old ≡ places }
    ensures value { result ≡ table_told (table_of names.now) }
    ensures listed { (ns : List Name) → table_of names.now ≡ ofNames ns → Listed names.now firsts.new ns }
{
    firsts.fill(names.len());
    let mut at: usize = 0;
    // No count: a record says how far the next one is.
    while at < names.len() {
        let record = front_record(&names[at..]).ok_or(BadRecord { place: at })?;
        let start = at + 1;
        let end = start + record.bytes;
        let h = hash(&names[start..end]);
        if !is_new(&names[..at], firsts[h], &names[start..end]) {
            return Err(BadRecord { place: at });
        }
        keep(firsts, h, at);
        at = end + 3;
    }
    Ok(())
}

// Keeps a place for a hash, unless an earlier one is kept.
fn keep(firsts: &mut [usize; PLACES], h: usize, at: usize)
    requires { h < places }
    ensures { firsts.new ≡ kept firsts.old h at }
{
    if at < firsts[h] {
        firsts[h] = at;
    }
}

// Whether a name is no keyword, and not among those of the records before it; from a place on, where it is in none before that.
fn is_new(before: &[u8], from: usize, name: &[u8]) -> bool
    ensures { (ns : List Name) → From before.now ns name.now from → result ≡ (not (is_keyword name.now) && not (is_there (named ns name.now))) }
{
    word_kind(name) == TokenKind::Word && find_from(before, from, name).is_none()
}
