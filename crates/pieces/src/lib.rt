// Dictation in pieces on one share (request 12): up to 479 samples wait after a frame's part. A piece
// completes as many frames as it can, and pauses for the logarithms of each. A refused call changes nothing.
#![tactic(auto)]

mod begin;
mod finish;
mod frames;
mod waiting;

pub use begin::{piece, piece_fits};
pub use finish::{last_tests, resume};
pub use waiting::join;
