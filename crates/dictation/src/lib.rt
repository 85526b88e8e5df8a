// No code. specs/ has the law of cutting; proofs/ shows it.
#![tactic(auto)]
