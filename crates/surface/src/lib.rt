// No code. specs/ has the calls of the C surface that touch the store, and what is claimed of them, mixed in any order;
// proofs/ shows it.
#![tactic(auto)]
