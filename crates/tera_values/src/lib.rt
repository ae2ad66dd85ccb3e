//! The values that templates compute with: what makes them, compares them and prints them.
#![tactic(auto)]

mod compare;
mod contains;
mod convert;
mod copy;
mod decided;
mod equal;
mod fields;
mod from;
mod hash_state;
mod integers;
mod key;
mod key_text;
mod kind;
mod lookup;
mod map;
mod map_difference;
mod new_key;
pub mod number;
mod path;
mod print;
mod ranks;
mod read;
mod refused;
mod slice;
mod stage;
mod value;
mod well_made;

pub use convert::{ConversionRefused, what_is_told_is_the_refusal};
pub use hash_state::{HashState, KeyHasher};
pub use integers::IntType;
pub use key::Key;
pub use kind::{ValueKind, kinds_equal_where_the_same};
pub use map::{Map, OwnPairs, Pairs};
pub use tera_scalars::{BinaryOp, NoResult, Number};
pub use value::Value;
pub use well_made::{is_well_made, key_is_well_made, map_is_well_made};
