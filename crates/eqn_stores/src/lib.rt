// Bytes of a formula written into a buffer; those that have no room are passed over, so that an empty buffer serves to learn how long a
// formula is.

#![tactic(auto)]

ghost use Rattle.std.specs.Prelude.{◌≡◌, ◌+◌, ◌≤◌, length, take, drop};
ghost use Rattle.std.proofs.lemmas.List.Edits.{sets};
ghost use Rattle.formula.specs.Format.{formula_limit};
ghost use Rattle.eqn_stores.specs.Values.{Ends, ListClosed};

use formula::{FORMULA_LIMIT, GREATEST_SHORT, LIST_KIND, LONG_LIST_KIND, SHORT_OPENING_BYTES};

// A place up to which a formula has been written, if it is not too long.
pub fn up_to(end: usize) -> Option<usize>
    ensures { Ends end result }
{
    if end > FORMULA_LIMIT {
        return None;
    }
    Some(end)
}

// Writes bytes at a place.
pub fn put_bytes(out: &mut [u8], at: usize, bytes: &[u8]) -> Option<usize>
    requires { at ≤ formula_limit + 8 }
    ensures ends { Ends (at + length bytes.now) result }
    ensures out_after { out.new ≡ sets out.old at bytes.now }
{
    for (i, b) in bytes.iter().enumerate() {
        if at + i < out.len() {
            out[at + i] = *b;
        }
    }
    up_to(at + bytes.len())
}

// Writes the opening of a list whose items stand three bytes behind `at`, up to `end`; those of a long list are moved.
pub fn close_list(out: &mut [u8], at: usize, end: usize) -> Option<usize>
    requires { (at + 3 ≤ end) × (end ≤ formula_limit) }
    ensures { ListClosed out.old at end out.new result }
{
    let start = at + SHORT_OPENING_BYTES;
    let n = end - start;
    let low = (n % 256) as u8;
    let high = (n / 256 % 256) as u8;
    if n <= GREATEST_SHORT {
        put_bytes(out, at, &[LIST_KIND, low, high]);
        return Some(end);
    }
    move_behind(out, start, n);
    put_bytes(out, at, &[LONG_LIST_KIND, low, high, (n / 65_536) as u8, 0]);
    up_to(end + 2)
}

// Moves some bytes two places on, as far as there is room.
fn move_behind(out: &mut [u8], start: usize, n: usize)
    requires { start + n ≤ formula_limit }
    ensures { out.new ≡ sets out.old (start + 2) (take n (drop start out.old)) }
{
    if start + 2 < out.len() {
        let moved = n.min(out.len() - (start + 2));
        out.copy_within(start..start + moved, start + 2);
    }
}
