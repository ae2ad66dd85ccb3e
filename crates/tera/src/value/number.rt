//! Arithmetic on values. It stands in `tera_values`, and that on bare numbers in `tera_scalars`.
pub use tera_scalars::{BinaryOp, NoResult, Number, negation, numbers_compare_by_value};
pub use tera_values::number::{
    NotComputed, add, calculate, compute, floor_div, mul, negate, pow, rem, sub,
};
