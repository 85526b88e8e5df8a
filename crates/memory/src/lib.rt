// This crate has no code. specs/ defines what a bench remembers and what its calls make of that; proofs/ proves it for
// one call.
#![tactic(auto)]
