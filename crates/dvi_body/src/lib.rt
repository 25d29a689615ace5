// A node as the commands of a page's body.

#![tactic(auto)]

ghost use Rattle.std.specs.Prelude.{◌≡◌, true, ◌+◌, ◌≤◌, length, get_or};
ghost use Rattle.std.proofs.lemmas.List.Edits.{sets};
ghost use Rattle.scaled.specs.Made.{reach};
ghost use Rattle.scaled.specs.Signed.{Within};
ghost use Rattle.nodes.specs.Nodes.{glyph, rule};
ghost use Rattle.dvi.specs.declared.forms.Form.TheVariants.{Body};
ghost use Rattle.dvi.specs.Commands.{first_font, push_opcode, big_endian, commands_bytes, turned_word};
ghost use Rattle.dvi.specs.Body.{bytes_in_glyph, bytes_in_rule, place_commands, body_bytes};
ghost use Rattle.dvi.specs.Profile.{greatest_size, greatest_family, writable};
ghost use Rattle.dvi.specs.Forms.{bytes_in, body_number, body_glyph, body_rule, front_in};
ghost use Rattle.dvi_nodes.specs.Values.{node_as, front_as, Stands};

use dvi_nodes::{Glyph, Node, Rule, found};
use scaled::Sp;

const SET1: u8 = 128;

const SET_RULE: u8 = 132;

const PUSH: u8 = 141;

const POP: u8 = 142;

const RIGHT4: u8 = 146;

const DOWN4: u8 = 160;

const FNT_NUM_0: u8 = 171;

// How many fonts a size has.
const FAMILIES: u8 = 16;

const BYTES_IN_GLYPH: usize = 15;

const BYTES_IN_RULE: usize = 21;

// How many bytes a node has.
pub fn size(node: Node) -> usize
    ensures { result ≡ length (bytes_in Body (node_as node)) }
{
    match node {
        Node::Glyph(_) => BYTES_IN_GLYPH,
        Node::Rule(_) => BYTES_IN_RULE,
    }
}

// The node at the front of some bytes: a rule opens with push, a glyph with its font.
pub fn front(s: &[u8]) -> Option<Node>
    ensures { front_as result ≡ front_in Body s.now }
{
    if s.len() < BYTES_IN_GLYPH {
        return None;
    }
    if s[0] == PUSH {
        return rule_front(s);
    }
    glyph_front(s)
}

fn rule_front(s: &[u8]) -> Option<Node>
    requires { get_or s.now 0 0 ≡ push_opcode }
    ensures { front_as result ≡ front_in Body s.now }
{
    if s.len() < BYTES_IN_RULE {
        return None;
    }
    let rule = Rule {
        x: number(s, 2),
        y: number(s, 7).negated(),
        width: number(s, 16),
        thickness: number(s, 12),
    };
    found(is_rule(s), Node::Rule(rule))
}

fn glyph_front(s: &[u8]) -> Option<Node>
    requires bytes_in_glyph_in_bounds { bytes_in_glyph ≤ length s.now }
    requires fact { get_or s.now 0 0 ≡ push_opcode → ⊥ }
    ensures { front_as result ≡ front_in Body s.now }
{
    if s[0] < FNT_NUM_0 {
        return None;
    }
    let font = s[0] - FNT_NUM_0;
    let glyph = Glyph {
        x: number(s, 3),
        y: number(s, 8).negated(),
        size: font / FAMILIES,
        family: font % FAMILIES,
        code: s[13],
    };
    found(is_glyph(s), Node::Glyph(glyph))
}

// The commands of a rule.
fn is_rule(s: &[u8]) -> bool
    requires { bytes_in_rule ≤ length s.now }
    ensures { Stands Body (body_rule s.now) s.now result }
{
    (s[0] == PUSH) & (s[1] == RIGHT4) & (s[6] == DOWN4) & (s[11] == SET_RULE) & (s[20] == POP)
}

// The commands of a glyph, behind its font.
fn is_glyph(s: &[u8]) -> bool
    requires { (bytes_in_glyph ≤ length s.now) × (first_font ≤ get_or s.now 0 0) }
    ensures { Stands Body (body_glyph s.now) s.now result }
{
    (s[1] == PUSH) & (s[2] == RIGHT4) & (s[7] == DOWN4) & (s[12] == SET1) & (s[14] == POP)
}

// Writes a node at the front of the buffer.
pub fn put(node: Node, out: &mut [u8])
    requires { (writable (node_as node) ≡ true) × (length (bytes_in Body (node_as node)) ≤ length out.old) }
    ensures { out.new ≡ sets out.old 0 (bytes_in Body (node_as node)) }
{
    match node {
        Node::Glyph(g) => put_glyph(g, out),
        Node::Rule(r) => put_rule(r, out),
    }
}

fn put_glyph(g: Glyph, out: &mut [u8])
    requires { (bytes_in_glyph ≤ length out.old) × (g.size ≤ greatest_size) × (g.family ≤ greatest_family) × Within reach g.y.0 }
    ensures { out.new ≡ sets out.old 0 (body_bytes (glyph g.x.0 g.y.0 g.size g.family g.code)) }
{
    out[0] = FNT_NUM_0 + FAMILIES * g.size + g.family;
    put_place(g.x, g.y, out, 1);
    out[12] = SET1;
    out[13] = g.code;
    out[14] = POP;
}

fn put_rule(r: Rule, out: &mut [u8])
    requires { (bytes_in_rule ≤ length out.old) × Within reach r.y.0 }
    ensures { out.new ≡ sets out.old 0 (body_bytes (rule r.x.0 r.y.0 r.width.0 r.thickness.0)) }
{
    put_place(r.x, r.y, out, 0);
    out[11] = SET_RULE;
    put_number(r.thickness, out, 12);
    put_number(r.width, out, 16);
    out[20] = POP;
}

// Writes what every node opens with: it is left again by a pop.
fn put_place(x: Sp, y: Sp, out: &mut [u8], at: usize)
    requires { (at + 11 ≤ length out.old) × Within reach y.0 }
    ensures { out.new ≡ sets out.old at (commands_bytes (place_commands x.0 y.0)) }
{
    let down = y.negated();
    out[at] = PUSH;
    out[at + 1] = RIGHT4;
    put_number(x, out, at + 2);
    out[at + 6] = DOWN4;
    put_number(down, out, at + 7);
}

// The number at a place.
fn number(s: &[u8], at: usize) -> Sp
    requires { at + 4 ≤ length s.now }
    ensures { (result.0 ≡ body_number at s.now) × Within reach result.0 }
{
    words::signed(turned(words::word(s, at)))
}

// Writes a number at a place.
fn put_number(z: Sp, out: &mut [u8], at: usize)
    requires { at + 4 ≤ length out.old }
    ensures { out.new ≡ sets out.old at (big_endian z.0) }
{
    words::store(out, at, turned(words::word_of(z)));
}

// A word with its bytes in the opposite order.
fn turned(w: u32) -> u32
    ensures { result ≡ turned_word w }
{
    w.swap_bytes()
}
