// This crate has no code: specs/ has the examples that document 01 marks with a star.
#![tactic(auto)]
