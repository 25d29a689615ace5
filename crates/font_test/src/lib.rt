// Whether a font table breaks no rule, and a client's table under it (font/specs/Table.antt).

#![tactic(auto)]

ghost use Rattle.std.specs.Prelude.{◌≡◌, true};
ghost use Rattle.font.specs.Table.{good_table, good_client};

use font::{Tables, count, format, our_records};

// The most CH records of a table, and of a client's.
const MOST_CHARACTERS: usize = 2_048;

const MOST_CLIENT_CHARACTERS: usize = 512;

// Whether the table breaks no rule.
pub fn is_good(table: &[u8]) -> bool
    ensures { result ≡ good_table table.now }
{
    if table.len() < format::HEADER_BYTES {
        return false;
    }
    let records = our_records(table);
    let n = count(records);
    if records.len() != format::CHARACTER_BYTES * n {
        return false;
    }
    if MOST_CHARACTERS < n {
        return false;
    }
    if !font_records::are_parameters(table) {
        return false;
    }
    if !font_records::are_characters(records) {
        return false;
    }
    let tables = Tables {
        ours: table,
        client: &[],
    };
    font_chains::all_end(tables, records)
}

// Whether a client's table breaks no rule, alone and with ours. An empty one changes nothing.
pub fn is_good_client<'a>(table: &'a [u8], client: &'a [u8]) -> bool
    requires { good_table table.now ≡ true }
    ensures { result ≡ good_client table.now client.now }
{
    if client.is_empty() {
        return true;
    }
    let n = count(client);
    if client.len() != format::CHARACTER_BYTES * n {
        return false;
    }
    if MOST_CLIENT_CHARACTERS < n {
        return false;
    }
    if !font_records::are_characters(client) {
        return false;
    }
    let tables = Tables {
        ours: table,
        client,
    };
    font_chains::all_end(tables, client) && font_chains::all_end(tables, our_records(table))
}
