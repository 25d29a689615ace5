// Nodes in a buffer of bytes. What a node is, and its bytes, is defined in specs/Nodes.antt.

#![tactic(auto)]

pub mod run;

ghost use Rattle.std.specs.Prelude.{◌≡◌, ◌++◌, ◌+◌, ◌≤◌, length, take, drop};
ghost use Rattle.nodes.specs.Nodes.{glyph, rule, bytes_in_node};
ghost use Rattle.nodes.specs.Buffer.{written, put, node_of, added_at, moved_head, moved_front, room_for, behind_nodes};

use scaled::Sp;

pub const BYTES_IN_NODE: usize = 18;

// Writes a glyph's node at the front, if there is room.
#[tactic(auto, using(crate::proofs::Stores::glyph_bytes))]
pub fn put_glyph(buf: &mut [u8], x: Sp, y: Sp, size: u8, family: u8, code: u8)
    ensures { buf.new ≡ put (glyph x.0 y.0 size family code) buf.old }
{
    let symbol = words::of_bytes(size, family, code, 0);
    put_node(buf, b'G', b'L', x, y, symbol, 0);
}

// Writes a rule's node behind the first `before` nodes, if there is room.
pub fn put_rule(buf: &mut [u8], before: usize, x: Sp, y: Sp, width: Sp, thickness: Sp)
    ensures { buf.new ≡ behind_nodes before (put (rule x.0 y.0 width.0 thickness.0)) buf.old }
{
    let width = Sp(0).max(width);
    let at = room(before, buf.len());
    put_node(
        &mut buf[at..],
        b'R',
        b'U',
        x,
        y,
        words::word_of(width),
        words::word_of(thickness),
    );
}

// Writes a node by its mark, its place and its last two words.
#[tactic(auto, using(crate::proofs::Stores::node_stores, crate::specs::BufferLaws::written_full))]
fn put_node(buf: &mut [u8], m: u8, n: u8, x: Sp, y: Sp, p: u32, q: u32)
    ensures { buf.new ≡ written (node_of m n x.0 y.0 p q) buf.old }
{
    if buf.len() < BYTES_IN_NODE {
        return;
    }
    buf[0] = m;
    buf[1] = n;
    words::store_pair(buf, 2, words::word_of(x), words::word_of(y));
    words::store_pair(buf, 10, p, q);
}

// Where the node number `count` starts in a buffer of len bytes: len if it has no room up to there.
pub fn room(count: usize, len: usize) -> usize
    ensures { result ≡ room_for count len }
{
    count.saturating_mul(BYTES_IN_NODE).min(len)
}

// Moves `count` nodes, which stand behind the first `before`, right by dx and up by dy, if they are all there.
#[tactic(auto, using(crate::proofs::Moves::none_moved, crate::specs::Lent::behind_lent))]
pub fn move_nodes(buf: &mut [u8], before: usize, count: usize, dx: Sp, dy: Sp)
    ensures { buf.new ≡ behind_nodes before (moved_front dx.0 dy.0 count) buf.old }
{
    if count == 0 {
        return;
    }
    let at = room(before, buf.len());
    move_front(&mut buf[at..], count, dx, dy);
}

// Moves the first `count` nodes right by dx and up by dy, if they are all there.
#[tactic(auto, using(crate::proofs::Moves::moving, crate::specs::BufferLaws::moved_room, crate::specs::BufferLaws::moved_full))]
fn move_front(buf: &mut [u8], count: usize, dx: Sp, dy: Sp)
    ensures { buf.new ≡ moved_front dx.0 dy.0 count buf.old }
{
    if buf.len() / BYTES_IN_NODE < count {
        return;
    }
    let right = words::word_of(dx);
    let up = words::word_of(dy);
    if (right == 0) & (up == 0) {
        return;
    }
    for i in 0..count {
        move_node(buf, BYTES_IN_NODE * i, right, up);
    }
}

// Adds two words to the x and the y of the node at `at`.
#[tactic(auto, using(crate::proofs::Moves::head_behind))]
fn move_node(buf: &mut [u8], at: usize, right: u32, up: u32)
    requires { at + bytes_in_node ≤ length buf.old }
    ensures { buf.new ≡ take at buf.old ++ moved_head right up (drop at buf.old) }
{
    add(buf, at + 2, right);
    add(buf, at + 6, up);
}

// Adds d to the word at `at`, modulo 2^32.
#[tactic(auto, using(words::specs::WordLaws::four_rest), unfolding(crate::specs::Buffer::added_at))]
fn add(buf: &mut [u8], at: usize, d: u32)
    requires { at + 4 ≤ length buf.old }
    ensures { buf.new ≡ added_at at d buf.old }
{
    let word = words::word(buf, at);
    words::store(buf, at, words::sum(word, d));
}
