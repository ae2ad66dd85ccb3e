//! Filters of templates: functions of a value and of named arguments, over the values of `tera`.
//!
//! What a filter answers is stated by `specs/Filters.antt`, by cases. An answer is that value, or
//! that refusal, or want of memory in its place.
#![tactic(auto)]

mod arguments;
mod arrays;
mod defaults;
mod filter;
pub mod laws;
mod numbers;
mod ordered;
mod parts;
mod refused;
mod taken;
mod texts;

pub use arrays::{first, get, last, length, nth, reverse, slice};
pub use defaults::default;
pub use filter::Filter;
pub use numbers::{abs, int};
pub use ordered::{sort, unique};
pub use parts::{replace, truncate};
pub use texts::{join, lower, trim, upper};
