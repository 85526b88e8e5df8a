// This crate has no code. specs/ states that benches stay apart, and what holds for runs of the desk's calls; proofs/
// proves it.
#![tactic(auto)]
