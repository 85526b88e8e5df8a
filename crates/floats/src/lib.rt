// Laws of floats, whatever the crate: proofs/. No code.
#![tactic(auto)]
