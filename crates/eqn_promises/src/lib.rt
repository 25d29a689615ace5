// What is proved about reading and writing typed text (request 10): the theorems are listed in specs/Promises.antt. The crate has no code,
// and nothing stands on it.

#![tactic(auto)]
