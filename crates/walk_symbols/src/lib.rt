// What the walk asks the font for: the symbol of a family and a code, and the signs of an item.

#![tactic(auto)]

pub mod signs;
pub mod symbols;
