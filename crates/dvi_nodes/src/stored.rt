// A node's bytes as document 01 has them.
ghost use Rattle.std.specs.Prelude.{◌≡◌, ◌+◌, ◌≤◌, length};
ghost use Rattle.std.proofs.lemmas.List.Edits.{sets};
ghost use Rattle.nodes.specs.Nodes.{bytes_in_node};
ghost use Rattle.nodes.specs.Stored.{number_at, glyph_in, rule_in};
ghost use Rattle.dvi.specs.declared.forms.Form.TheVariants.{Stored};
ghost use Rattle.dvi.specs.Forms.{bytes_in, front_in};
ghost use Rattle.dvi_nodes.specs.Values.{node_as, front_as, Stands};

use crate::{Glyph, Node, Rule, found};
use nodes::BYTES_IN_NODE;
use scaled::Sp;

// The node at the front of some bytes.
pub fn front(s: &[u8]) -> Option<Node>
    ensures { front_as result ≡ front_in Stored s.now }
{
    if s.len() < BYTES_IN_NODE {
        return None;
    }
    let x = number(s, 2);
    let y = number(s, 6);
    if s[0] == b'G' {
        let glyph = Glyph {
            x,
            y,
            size: s[10],
            family: s[11],
            code: s[12],
        };
        return found(is_glyph(s), Node::Glyph(glyph));
    }
    let rule = Rule {
        x,
        y,
        width: number(s, 10),
        thickness: number(s, 14),
    };
    found(is_rule(s), Node::Rule(rule))
}

// A glyph's mark, and five zeros at the end.
fn is_glyph(s: &[u8]) -> bool
    requires { bytes_in_node ≤ length s.now }
    ensures { Stands Stored (glyph_in s.now) s.now result }
{
    (s[0] == b'G') & (s[1] == b'L') & (s[13] == 0) & (words::word(s, 14) == 0)
}

// A rule's mark.
fn is_rule(s: &[u8]) -> bool
    requires { bytes_in_node ≤ length s.now }
    ensures { Stands Stored (rule_in s.now) s.now result }
{
    (s[0] == b'R') & (s[1] == b'U')
}

// The number at a place.
fn number(s: &[u8], at: usize) -> Sp
    requires { at + 4 ≤ length s.now }
    ensures { result.0 ≡ number_at at s.now }
{
    words::signed(words::word(s, at))
}

// Writes a node at the front of the buffer.
pub fn put(node: Node, out: &mut [u8])
    requires { bytes_in_node ≤ length out.old }
    ensures { out.new ≡ sets out.old 0 (bytes_in Stored (node_as node)) }
{
    match node {
        Node::Glyph(g) => nodes::put_glyph(out, g.x, g.y, g.size, g.family, g.code),
        Node::Rule(r) => nodes::put_rule(out, 0, r.x, r.y, r.width, r.thickness),
    }
}
