// Nodes as the body of a page of DVI (request 14): definitions and laws, in specs/. The code of it stands in the crates dvi_*.

#![tactic(auto)]

pub mod forms;
