// A node in numbers, and whether it can be written.

#![tactic(auto)]

ghost use Rattle.std.specs.Prelude.{◌≡◌};
ghost use Rattle.dvi.specs.Profile.{is_extent, writable};
ghost use Rattle.dvi.specs.Forms.{node_if};
ghost use Rattle.dvi_nodes.specs.Values.{node_as, front_as};

pub mod stored;

use nodes::run::within;
use scaled::Sp;

// The greatest numbers of a node on a page. A font's table has the same, of which this crate knows nothing.
const GREATEST_SIZE: u8 = 2;

const GREATEST_FAMILY: u8 = 15;

#[derive(Clone, Copy, PartialEq, Eq)]
pub struct Glyph {
    pub x: Sp,
    pub y: Sp,
    pub size: u8,
    pub family: u8,
    pub code: u8,
}

#[derive(Clone, Copy, PartialEq, Eq)]
pub struct Rule {
    pub x: Sp,
    pub y: Sp,
    pub width: Sp,
    pub thickness: Sp,
}

#[derive(Clone, Copy, PartialEq, Eq)]
pub enum Node {
    Glyph(Glyph),
    Rule(Rule),
}

// A node, if its bytes stand there and it can be written.
pub fn found(stands: bool, node: Node) -> Option<Node>
    ensures { front_as result ≡ node_if stands (node_as node) }
{
    if stands & is_writable(node) {
        Some(node)
    } else {
        None
    }
}

fn is_writable(node: Node) -> bool
    ensures { result ≡ writable (node_as node) }
{
    match node {
        Node::Glyph(g) => {
            within(g.x) & within(g.y) & (g.size <= GREATEST_SIZE) & (g.family <= GREATEST_FAMILY)
        }
        Node::Rule(r) => { within(r.x) & within(r.y) & is_extent(r.width) & is_extent(r.thickness) }
    }
}

// Whether a width or a thickness is within the greatest length and not negative.
fn is_extent(z: Sp) -> bool
    ensures { result ≡ is_extent z.0 }
{
    within(z) & !z.less(Sp(0))
}
