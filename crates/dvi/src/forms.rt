// Nodes are stored as document 01 has them, or stand in the body of a page. Definitions and clauses name the form by this; the code has a
// type for each, in crate dvi_calls.
#[derive(Clone, Copy)]
pub enum Form {
    Stored,
    Body,
}
