// How a formula is written, defined in specs/Spelling.antt, and that there is one way to write it. The crate has no code.

#![tactic(auto)]
