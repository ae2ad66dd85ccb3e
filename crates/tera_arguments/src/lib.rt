//! From values to the types of Rust: what filters and functions of templates take.
#![tactic(auto)]

mod from_value;
mod integers;
mod kwargs;
mod parts;
mod private;
mod string_input;

pub use from_value::ArgFromValue;
pub use kwargs::{Kwargs, KwargsIter, KwargsOf};
pub use parts::Parts;
pub use string_input::{Autoescape, StringInput};
