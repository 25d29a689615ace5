// What follows from the definitions for every input, without code: demands 1 to 3, and what each change request promises.
// proofs/Promises.antt is the page that leads to each. Nothing stands on this crate.

#![tactic(auto)]
