// Calls on one share that are made of the calls of `frame`: the sister of call 2, which finds its own lag
// (request 04), and a frame in two halves (request 08), each by its bench's way.
#![tactic(auto)]

mod first;
mod own;
mod second;
mod ways;

pub use first::first_half;
pub use own::call2_own;
pub use second::second_half;
