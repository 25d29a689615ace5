// The walk over a formula that sets it: a list's setter calls the item's, that the field's, and that the list's. The box of
// a list, what stops the walk and what is too large are defined in crate setting; the steps that call no setter are in the crates
// walk_looks, walk_symbols, walk_fields and walk_items.
// A list is set at its own reference point, into the front of the buffer that it is lent, and its nodes are moved once the
// item that holds it knows where it stands. A node that has no room is not written, so that an empty buffer measures.

#![tactic(auto)]

pub mod lists;
