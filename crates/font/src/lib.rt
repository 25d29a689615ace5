// The font table: the types of what it says, its parameters, and what a record says of its symbol. What a good table is, and the font that
// it holds, is defined in specs/Table.antt and specs/Font.antt; what these functions answer, in specs/Values.antt.

#![tactic(auto)]

pub mod format;

ghost use Rattle.std.specs.Prelude.{◌≡◌, ◌*◌, ◌<◌, ◌≤◌, length, drop};
ghost use Rattle.font.specs.Records.{size_count, header_bytes, character_bytes};
ghost use Rattle.font.specs.Font.{metrics_of, successor_of, past};
ghost use Rattle.font.specs.Keys.{key_of, key_range, Bytes};
ghost use Rattle.font.specs.Table.{SoundTables};
ghost use Rattle.font.specs.RecordsLaws.{count, numbered};
ghost use Rattle.font.specs.Values.{KeyOf, metrics_as, successor_as, HoldsRow, HoldsParameters};

// What a table says of a symbol. Its successor, if it has one, is the next larger symbol of the same family.
#[derive(Clone, Copy)]
pub struct Metrics {
    pub width: u32,
    pub height: u32,
    pub depth: u32,
    pub italic: u32,
    pub successor: Option<u8>,
}

// What a symbol is known by. The CH records of a table rise by it.
#[derive(Clone, Copy, PartialEq, Eq, PartialOrd, Ord)]
pub struct Key {
    pub size: u8,
    pub family: u8,
    pub code: u8,
}

impl Key {
    // The key of the symbol of a record.
    pub fn of(r: &[u8]) -> Key
        requires { character_bytes ≤ length r.now }
        ensures { KeyOf result r.now }
    {
        Key {
            size: r[format::SIZE],
            family: r[format::FAMILY],
            code: r[format::CODE],
        }
    }

    // The number by which keys are ordered, for loops over records: they compare one word, where the derived order tests part by part.
    pub fn number(self) -> u32
        ensures { (result ≡ key_of self.size self.family self.code) × Bytes self.family self.code × (result < key_range) }
    {
        (u32::from(self.size) * 256 + u32::from(self.family)) * 256 + u32::from(self.code)
    }
}

// Of CH records one after the other the one of a number.
pub fn record_at(s: &[u8], number: usize) -> &[u8]
    requires { number < count s.now }
    ensures result_value { result.now ≡ numbered s.now number }
    ensures ref_ptr_value { result.ref_ptr ≡ past (character_bytes * number) s.entry.ref_ptr }
{
    let at = format::CHARACTER_BYTES * number;
    &s[at..at + format::CHARACTER_BYTES]
}

// The CH records of our table, behind the PA records.
pub fn our_records(table: &[u8]) -> &[u8]
    requires { header_bytes ≤ length table.now }
    ensures result_value { result.now ≡ drop header_bytes table.now }
    ensures ref_ptr_value { result.ref_ptr ≡ past header_bytes table.entry.ref_ptr }
{
    &table[format::HEADER_BYTES..]
}

// How many CH records there are.
pub fn count(s: &[u8]) -> usize
    ensures { result ≡ count s.now }
{
    s.len() / format::CHARACTER_BYTES
}

// Our table and a client's, whose symbols come before ours, as a lookup takes them.
#[derive(Clone, Copy)]
pub struct Tables<'a> {
    pub ours: &'a [u8],
    pub client: &'a [u8],
    ghost sound: { SoundTables ours.now client.now },
}

// Steps of a chain, each to a symbol's successor.
pub const LONGEST_CHAIN: usize = 16;

// The parameters of the three sizes.
pub fn parameters(table: &[u8]) -> [[u32; format::PARAMETER_COUNT]; format::SIZE_COUNT]
    requires { header_bytes ≤ length table.now }
    ensures { HoldsParameters result table.now }
{
    let text = row(table, 0);
    let script = row(table, 1);
    let scriptscript = row(table, 2);
    [text, script, scriptscript]
}

// The parameters of one size.
fn row(table: &[u8], size: usize) -> [u32; format::PARAMETER_COUNT]
    requires { (header_bytes ≤ length table.now) × (size < size_count) }
    ensures { HoldsRow result table.now size }
{
    let start = format::PARAMETER_BYTES * size + format::FIRST_PARAMETER;
    let mut words = [0u32; format::PARAMETER_COUNT];
    for (number, word) in words.iter_mut().enumerate() {
        *word = words::word(table, start + format::WORD_BYTES * number);
    }
    words
}

// The metrics in a record.
pub fn metrics_of(r: &[u8]) -> Metrics
    requires { character_bytes ≤ length r.now }
    ensures { metrics_as result ≡ metrics_of r.now }
{
    Metrics {
        width: words::word(r, format::WIDTH),
        height: words::word(r, format::HEIGHT),
        depth: words::word(r, format::DEPTH),
        italic: words::word(r, format::ITALIC),
        successor: successor_of(r),
    }
}

// The successor of a record's symbol, if its flag is set.
fn successor_of(r: &[u8]) -> Option<u8>
    requires { character_bytes ≤ length r.now }
    ensures { successor_as result ≡ successor_of r.now }
{
    if r[format::FLAG] == 1 {
        Some(r[format::SUCCESSOR])
    } else {
        None
    }
}
