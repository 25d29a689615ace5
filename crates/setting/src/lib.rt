// How a formula is set, without code: the box of a list is defined in specs/Setting.antt, what is missing in specs/Missing.antt,
// and what is too large in specs/Fitting.antt. Beside them stands the theorem of list fields (demand 3): a list field stands in
// the whole as it stands alone; and that a formula without style changes and choices is set as before (proofs/Plain.antt).

#![tactic(auto)]
