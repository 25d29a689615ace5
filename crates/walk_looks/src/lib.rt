// What is seen of a list's bytes before they are set: the style current at an item, the list that a choice takes, and the class of
// the atom that follows. Nothing here sets an item.

#![tactic(auto)]

pub mod current;
pub mod places;
