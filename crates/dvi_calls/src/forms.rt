// The two forms of nodes as bytes. A conversion from one to the other is written once, for both ways.
ghost use Rattle.std.specs.Prelude.{◌≡◌, true, ◌≤◌, length};
ghost use Rattle.std.proofs.lemmas.List.Edits.{sets};
ghost use Rattle.dvi.specs.declared.forms.Form.{Form};
ghost use Rattle.dvi.specs.declared.forms.Form.TheVariants.{Stored, Body};
ghost use Rattle.dvi.specs.Profile.{writable};
ghost use Rattle.dvi.specs.Forms.{bytes_in, front_in};
ghost use Rattle.dvi_nodes.specs.Values.{node_as, front_as};

use dvi_nodes::{Node, stored};
use nodes::BYTES_IN_NODE;

pub trait NodeForm {
    // The form, as the definitions name it.
    ghost form: { Form };

    // The node at the front of some bytes.
    fn front(s: &[u8]) -> Option<Node>
        ensures { front_as result ≡ front_in form s.now };

    // How many bytes a node has.
    fn size(node: Node) -> usize
        ensures { result ≡ length (bytes_in form (node_as node)) };

    // Writes a node at the front of the buffer.
    fn put(node: Node, out: &mut [u8])
        requires { (writable (node_as node) ≡ true) × (length (bytes_in form (node_as node)) ≤ length out.old) }
        ensures { out.new ≡ sets out.old 0 (bytes_in form (node_as node)) };
}

pub struct StoredNodes;

impl NodeForm for StoredNodes {
    ghost form = { Stored };

    fn front(s: &[u8]) -> Option<Node> {
        stored::front(s)
    }

    fn size(_node: Node) -> usize {
        BYTES_IN_NODE
    }

    fn put(node: Node, out: &mut [u8]) {
        stored::put(node, out)
    }
}

pub struct BodyNodes;

impl NodeForm for BodyNodes {
    ghost form = { Body };

    fn front(s: &[u8]) -> Option<Node> {
        dvi_body::front(s)
    }

    fn size(node: Node) -> usize {
        dvi_body::size(node)
    }

    fn put(node: Node, out: &mut [u8]) {
        dvi_body::put(node, out)
    }
}
