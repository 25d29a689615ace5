// Laws that several crates use and that are about none of their own things: truth values, options, lists, and the claims of functions that
// call each other. The crate has no code.

#![tactic(auto)]
