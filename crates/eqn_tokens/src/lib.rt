// The bytes and the tokens of typed text (request 10): defined in specs/, and found by the code, one token after the other.

#![tactic(auto)]

pub mod bytes;
pub mod tokens;
