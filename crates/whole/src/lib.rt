// A frame, or a piece, in one call, with our own logarithms. All refusals are tested before anything changes.
#![tactic(auto)]

mod heard;
mod one_frame;
mod one_piece;
mod refusals;
mod spoken;

pub use heard::{Three, three_of};
pub use one_frame::frame;
pub use one_piece::take;
