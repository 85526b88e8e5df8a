// What is around the audio of a recording: the head of a WAV file, and the two seals.
#![tactic(auto)]

pub mod bytes;
pub mod chunks;
pub mod head;
pub mod seal;
