//! The replay of scripts: from their bytes to the bytes of their answers.
#![tactic(auto)]

mod answer;
mod error_sink;
mod fault;
mod feed;
pub mod given;
pub mod laws;
mod replayer;
mod replays;
pub mod script_laws;
mod source;

pub use fault::Fault;
pub use feed::answer_line;
pub use replayer::Replayer;
pub use replays::{replay, replay_from};
pub use source::{InputPieces, ReadError, Source};
