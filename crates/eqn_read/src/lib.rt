// The formula that a text means (request 10), written from the text, which is cut into the slices of its parts. A text that is none of the
// grammar does no harm, and what is then written is not said.

#![tactic(auto)]

pub mod making;
