//! JSON, read into values and written of them, on the kit's `json`.
#![tactic(auto)]

mod laws;
mod misfit;
mod number;
mod place;
mod read;
mod write;

pub use laws::{no_two_keys_are_written_alike, what_is_read_is_written_again};
pub use read::from_json;
pub use write::{Lacking, to_json, to_json_with};
