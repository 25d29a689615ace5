// The grammar of typed text (request 10) as definitions, and the laws of it. The crate has no code: `eqn_check` tests a text against it.

#![tactic(auto)]
