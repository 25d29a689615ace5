// A field that has been set alone, and what stands so far of a list: how both come to be, step by step. Nothing here calls a
// setter, so that another walk can take the same steps.

#![tactic(auto)]

pub mod fields;
pub mod growing;
pub mod lines;
pub mod sides;
