// The text of a formula (request 10), written from the formula's bytes, which read. Bytes that have no room in the buffer are passed over, so
// that an empty buffer serves to learn how long a text is.

#![tactic(auto)]

mod forms;
mod tokens;
pub mod writing;
