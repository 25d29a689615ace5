// What typed text means (request 10), without code: the formula of a derivation, the text that a formula is written as, and the answers
// of the reader and the writer; with the laws that the calls need. What follows for any bytes is in `eqn_promises`.

#![tactic(auto)]
