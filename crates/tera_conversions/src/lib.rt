//! From the types of Rust to values and keys: what functions of templates give.
#![tactic(auto)]

mod collections;
mod function_result;
mod maps;
mod references;
mod to_key;
mod to_value;

pub use function_result::FunctionResult;
pub use maps::{maps_hold_each_entry, maps_keep_the_order_of_entries};
pub use to_key::ToKey;
pub use to_value::ToValue;
