// The text that shows an answer: a line with the sizes and the count and a line for each node, or one line for a refusal.
// It is defined in specs/Texts.antt. A line is written into a lent buffer; `write_answer` prints what these functions give.

#![tactic(auto)]

ghost use Rattle.std.specs.Prelude.{◌≡◌, ◌++◌, ◌+◌, ◌≤◌, length};
ghost use Rattle.boxes.specs.Values.{size_as};
ghost use Rattle.reasons.specs.Values.{shift_reason_as};
ghost use Rattle.nodes.specs.Stored.{number_at, glyph_in, rule_in, node_in};
ghost use Rattle.layout_answers.specs.Values.{answered_as};
ghost use Rattle.texts.specs.Decimals.{decimal_of, text_of};
ghost use Rattle.listing.specs.Texts.{sizes_text, answer_text, node_text, place_text, reason_mark, is_there, shift_text};
ghost use Rattle.texts.specs.Written.{Written, PutNear, number_text};

use boxes::Size;
use layout_answers::Answer;
use layout_answers::why::WhyAnswer;
use nodes::BYTES_IN_NODE;
use reasons::{Reason, ShiftReason};
use std::io::Result;
use texts::{
    LINE_SPACE, Number, of_count, of_length, print, put_bytes, put_number, refusal_text,
    write_refusal,
};

// Prints an answer; the nodes of an acceptance are at the front of the buffer. An error ends it: what was printed before stays.
pub fn write_answer(out: &impl Print, answer: Answer, nodes: &[u8]) -> Result<()> {
    let mut line = [0u8; LINE_SPACE];
    let end = answer_text(answer, &mut line);
    print(out, &line, end)?;
    match answer {
        Ok(accepted) => write_nodes(out, nodes, accepted.count),
        Err(_) => Ok(()),
    }
}

// Prints what decided an item's shifts, a line for each that there is, or the refusal. An error ends it: what was printed before stays.
pub fn write_reasons(out: &impl Print, answer: WhyAnswer) -> Result<()> {
    match answer {
        Ok(reasons) => {
            write_shift(out, b"up ", reasons.up)?;
            write_shift(out, b"down ", reasons.down)
        }
        Err(refusal) => write_refusal(out, refusal.number(), refusal.place()),
    }
}

fn write_shift(out: &impl Print, mark: &[u8], moved: ShiftReason) -> Result<()>
    requires { length mark.now ≤ 6 }
{
    let mut line = [0u8; LINE_SPACE];
    let end = shift_text(mark, moved, &mut line);
    print(out, &line, end)
}

// The first `count` nodes, as far as the buffer has them.
fn write_nodes(out: &impl Print, nodes: &[u8], count: usize) -> Result<()> {
    for node in nodes.chunks_exact(BYTES_IN_NODE).take(count) {
        write_node(out, node)?;
    }
    Ok(())
}

fn write_node(out: &impl Print, node: &[u8]) -> Result<()>
    requires { 18 ≤ length node.now }
{
    let mut line = [0u8; LINE_SPACE];
    let end = node_text(node, &mut line);
    print(out, &line, end)
}

// Writes the first line of an answer at the front of the buffer, and gives its length.
pub fn answer_text(answer: Answer, out: &mut [u8]) -> usize
    requires { 128 ≤ length out.old }
    ensures { Written (answer_text (answered_as answer)) out.old out.new result }
{
    match answer {
        Ok(accepted) => sizes_text(accepted.size, accepted.count, out),
        Err(refusal) => refusal_text(refusal.number(), refusal.place(), out),
    }
}

fn sizes_text(size: Size, count: usize, out: &mut [u8]) -> usize
    requires { 128 ≤ length out.old }
    ensures { Written (sizes_text (size_as size) count) out.old out.new result }
{
    let a = put_number(b"w ", of_length(size.width), out, 0);
    let b = put_number(b" h ", of_length(size.height), out, a);
    let c = put_number(b" d ", of_length(size.depth), out, b);
    let d = put_number(b" n ", of_count(count as u64), out, c);
    put_bytes(b"\n", out, d)
}

// Writes the line of a shift at the front of the buffer, and gives its length: 0 where there is no shift.
pub fn shift_text(mark: &[u8], moved: ShiftReason, out: &mut [u8]) -> usize
    requires { (length mark.now ≤ 6) × (128 ≤ length out.old) }
    ensures { Written (shift_text mark.now (shift_reason_as moved)) out.old out.new result }
{
    if !is_there(moved.by) {
        return 0;
    }
    let a = put_bytes(mark, out, 0);
    let b = put_bytes(reason_mark(moved.by), out, a);
    let c = put_number(b"", of_length(moved.shift), out, b);
    put_bytes(b"\n", out, c)
}

fn is_there(by: Reason) -> bool
    ensures { result ≡ is_there by }
{
    !matches!(by, Reason::None)
}

// The name of what decided a shift, and a space.
fn reason_mark(by: Reason) -> &'static [u8]
    ensures { result.now ≡ reason_mark by }
{
    match by {
        Reason::None => b"",
        Reason::Drop => b"drop ",
        Reason::Sigma => b"sigma ",
        Reason::XHeight => b"xheight ",
        Reason::Gap => b"gap ",
        Reason::Psi => b"psi ",
        Reason::Clearance => b"clearance ",
    }
}

// Writes the line of the node at the front of some bytes at the front of the buffer, and gives its length.
pub fn node_text(node: &[u8], out: &mut [u8]) -> usize
    requires { (18 ≤ length node.now) × (128 ≤ length out.old) }
    ensures { Written (node_text (node_in node.now)) out.old out.new result }
{
    if node[0] == b'G' {
        return glyph_text(node, out);
    }
    rule_text(node, out)
}

fn glyph_text(node: &[u8], out: &mut [u8]) -> usize
    requires { (18 ≤ length node.now) × (128 ≤ length out.old) }
    ensures { Written (node_text (glyph_in node.now)) out.old out.new result }
{
    let a = put_place(b"glyph ", node, out);
    let b = put_number(b" ", of_byte(node[10]), out, a);
    let c = put_number(b" ", of_byte(node[11]), out, b);
    let d = put_number(b" ", of_byte(node[12]), out, c);
    put_bytes(b"\n", out, d)
}

fn rule_text(node: &[u8], out: &mut [u8]) -> usize
    requires { (18 ≤ length node.now) × (128 ≤ length out.old) }
    ensures { Written (node_text (rule_in node.now)) out.old out.new result }
{
    let a = put_place(b"rule ", node, out);
    let b = put_number(b" ", number_at(node, 10), out, a);
    let c = put_number(b" ", number_at(node, 14), out, b);
    put_bytes(b"\n", out, c)
}

// Writes what every node's line opens with: its mark, its x and its y.
fn put_place(mark: &[u8], node: &[u8], out: &mut [u8]) -> usize
    requires { (length mark.now ≤ 6) × (18 ≤ length node.now) × (128 ≤ length out.old) }
    ensures { PutNear 49 (place_text mark.now node.now) out.old out.new 0 result }
{
    let a = put_number(mark, number_at(node, 2), out, 0);
    put_number(b" ", number_at(node, 6), out, a)
}

// The signed word at `at`.
fn number_at(node: &[u8], at: usize) -> Number
    requires { at + 4 ≤ length node.now }
    ensures { number_text result ≡ text_of (number_at at node.now) }
{
    of_length(words::signed(words::word(node, at)))
}

fn of_byte(byte: u8) -> Number
    ensures { number_text result ≡ decimal_of byte }
{
    of_count(byte as u64)
}
