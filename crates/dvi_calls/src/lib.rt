// Nodes as the body of a page of DVI, and back (request 14). What the two calls answer is defined in specs/Answers.antt of crate
// dvi.
// Both convert nodes from one form to the other. First every node is read and the size of the result counted; only where nothing
// is left to refuse is anything written.

#![tactic(auto)]

mod forms;

ghost use Rattle.std.specs.Prelude.{◌≡◌, length};
ghost use Rattle.dvi.specs.declared.forms.Form.TheVariants.{Stored, Body};
ghost use Rattle.dvi.specs.Forms.{other_form};
ghost use Rattle.results.specs.Values.{report_as};
ghost use Rattle.dvi.specs.Answers.{refusal_number, answering, buffer_after};
ghost use Rattle.dvi_calls.specs.Values.{number_as, answered_as, MeasureDone, HasRoom};

use forms::{BodyNodes, NodeForm, StoredNodes};
use results::Report;

// Why nothing was written.
#[derive(Clone, Copy, PartialEq, Eq)]
pub enum Refusal {
    BadNodes,
    OutsideProfile,
    NoRoom,
}

impl Refusal {
    pub fn number(self) -> u8
        ensures { result ≡ number_as self }
    {
        match self {
            Refusal::BadNodes => 16,
            Refusal::OutsideProfile => 17,
            Refusal::NoRoom => 18,
        }
    }
}

// An answer in numbers; an acceptance has the size of what was written.
pub fn report_of(answer: Result<usize, Refusal>) -> Report
    ensures { report_as result ≡ answered_as answer }
{
    match answer {
        Ok(size) => results::accepted(size),
        Err(refusal) => results::refusal(refusal.number(), 0),
    }
}

// Writes nodes as a page's body.
pub fn write(nodes: &[u8], body: &mut [u8]) -> Result<usize, Refusal>
    ensures result_value { answered_as result ≡ answering Stored nodes.now (length body.old) }
    ensures body_after { body.new ≡ buffer_after Stored nodes.now body.old }
{
    convert::<StoredNodes, BodyNodes>(nodes, body, Refusal::BadNodes)
}

// Reads the nodes back from a page's body.
pub fn read(body: &[u8], nodes: &mut [u8]) -> Result<usize, Refusal>
    ensures result_value { answered_as result ≡ answering Body body.now (length nodes.old) }
    ensures nodes_after { nodes.new ≡ buffer_after Body body.now nodes.old }
{
    convert::<BodyNodes, StoredNodes>(body, nodes, Refusal::OutsideProfile)
}

// Converts nodes from one form to the other.
fn convert<From: NodeForm, To: NodeForm>(
    s: &[u8],
    out: &mut [u8],
    unreadable: Refusal,
) -> Result<usize, Refusal>
    requires forms { To.form ≡ other_form From.form }
    requires number { number_as unreadable ≡ refusal_number From.form }
    ensures result_value { answered_as result ≡ answering From.form s.now (length out.old) }
    ensures out_after { out.new ≡ buffer_after From.form s.now out.old }
{
    let size = measure::<From, To>(s).ok_or(unreadable)?;
    if out.len() < size {
        return Err(Refusal::NoRoom);
    }
    transcribe::<From, To>(s, out);
    Ok(size)
}

// The size of the nodes in the other form, if the bytes are nodes.
fn measure<From: NodeForm, To: NodeForm>(s: &[u8]) -> Option<usize>
    requires { To.form ≡ other_form From.form }
    ensures { MeasureDone From.form s.now result }
{
    let mut rest = s;
    let mut size: usize = 0;
    // No count: a node says how far the next one is.
    while !rest.is_empty() {
        let node = From::front(rest)?;
        rest = &rest[From::size(node)..];
        size += To::size(node);
    }
    Some(size)
}

// Writes the nodes in the other form.
fn transcribe<From: NodeForm, To: NodeForm>(s: &[u8], out: &mut [u8])
    requires forms { To.form ≡ other_form From.form }
    requires room { HasRoom From.form s.now out.old }
    ensures { out.new ≡ buffer_after From.form s.now out.old }
{
    let mut rest = s;
    let mut end: usize = 0;
    // No count: a node says how far the next one is.
    while !rest.is_empty() {
        let Some(node) = From::front(rest) else {
            return;
        };
        To::put(node, &mut out[end..]);
        rest = &rest[From::size(node)..];
        end += To::size(node);
    }
}
