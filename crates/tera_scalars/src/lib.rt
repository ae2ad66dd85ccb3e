//! Texts, bytes and numbers by themselves: how they are put and compared, how a text is cut and
//! turned round, and exact arithmetic with the errors of what it refuses. Nothing here knows a
//! value.
#![tactic(auto)]

mod element;
mod index;
mod lossy;
mod number;
mod operation;
mod positions;
mod refused;
mod text;
mod whole;

pub use element::place_in_path;
pub use index::{character, place};
pub use lossy::put_lossy;
pub use number::{Number, numbers_compare_by_value};
pub use operation::{BinaryOp, NoResult, negation};
pub use positions::Stride;
pub use refused::{
    negated_no_number, negation_outside_i128, no_result, not_a_number, operand_outside_i128,
};
pub use text::{reversed_text, sliced_text};
pub use whole::{Whole, put_integer};
