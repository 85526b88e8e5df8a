// The static library for Rust and C: thin functions named `tuppence_…`, a module for each crate below.
// Stays: the functions take and give numbers and slices, whose lengths they test: the C interface.
#![tactic(auto)]

pub mod of_bands;
pub mod of_desk;
pub mod of_feed;
pub mod of_fft;
pub mod of_finder;
pub mod of_lag;
pub mod of_logs;
pub mod of_model;
pub mod of_network;
pub mod of_numbers;
pub mod of_pcm;
pub mod of_pitch;
pub mod of_recorder;
pub mod of_recording;
pub mod of_sheet;
pub mod of_transforms;
pub mod of_wav;
pub mod of_whole;
pub mod of_writer;
