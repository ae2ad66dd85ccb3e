//! The errors of arithmetic, by what they say.
ghost use Rattle.std.specs.Prelude.{pos};
ghost use Rattle.tera_report.specs.Errors.{Raises};
ghost use Rattle.tera_report.specs.Refusal.{stated, not_a_number, not_exact};
ghost use Rattle.tera_report.specs.Refusal.{operand_outside_i128, exponent_outside_u32};
ghost use Rattle.tera_report.specs.Refusal.{negated_no_number, negation_outside_i128};
ghost use Rattle.tera_scalars.specs.Operation.{operator_of, no_result};
ghost use Rattle.tera_scalars.specs.Whole.{whole_value};

use crate::Whole;
use crate::operation::{BinaryOp, NoResult};
use itoa::Buffer;
use std::alloc::Global;
use tera_report::Error;

/// ``Only numbers can be used in arithmetic. This is a `KIND` ``, of an operand of that kind.
/// `Out of memory` where the text finds none.
pub fn not_a_number(alloc: Global, kind: &str) -> Error
    ensures { Raises (stated (not_a_number kind.now)) result }
{
    let before = "Only numbers can be used in arithmetic. This is a `";
    Error::message_of(alloc, &[before, kind, "`"])
}

/// ``Operand `NUMBER` is out of range for integer arithmetic (must fit in i128)``. `Out of memory`
/// where the text finds none.
pub fn operand_outside_i128(alloc: Global, operand: u128) -> Error
    ensures { Raises (stated (operand_outside_i128 (pos operand))) result }
{
    let mut digits = Buffer::new();
    let after = "` is out of range for integer arithmetic (must fit in i128)";
    Error::message_of(alloc, &["Operand `", digits.format(operand), after])
}

/// Two numbers that have no result, and why: `Cannot divide by 0`, `Exponent NUMBER is out of range
/// for integer ** (must fit in u32)`, or `Unable to perform LEFT OPERATOR RIGHT`. `Out of memory`
/// where the text finds none.
pub fn no_result(alloc: Global, op: BinaryOp, left: i128, right: i128, why: NoResult) -> Error
    ensures { Raises (stated (no_result (operator_of op) left right why)) result }
{
    match why {
        NoResult::DividedByZero => Error::message(alloc, "Cannot divide by 0"),
        NoResult::ExponentOutsideU32 => exponent_outside_u32(alloc, right),
        NoResult::NotExact => not_exact(alloc, op, left, right),
    }
}

/// ``Only numbers can be negated. This is a `KIND` ``, of a value of that kind. `Out of memory`
/// where the text finds none.
pub fn negated_no_number(alloc: Global, kind: &str) -> Error
    ensures { Raises (stated (negated_no_number kind.now)) result }
{
    let before = "Only numbers can be negated. This is a `";
    Error::message_of(alloc, &[before, kind, "`"])
}

/// `Cannot negate NUMBER: result would overflow i128`, of a number that no `i128` holds, or the
/// negation of which none holds. `Out of memory` where the text finds none.
pub fn negation_outside_i128(alloc: Global, operand: Whole) -> Error
    ensures { Raises (stated (negation_outside_i128 (whole_value operand))) result }
{
    let mut digits = Buffer::new();
    let operand = match operand {
        Whole::Signed(z) => digits.format(z),
        Whole::Unsigned(n) => digits.format(n),
    };
    let after = ": result would overflow i128";
    Error::message_of(alloc, &["Cannot negate ", operand, after])
}

// The error of an exponent that is no count of factors.
fn exponent_outside_u32(alloc: Global, exponent: i128) -> Error
    ensures { Raises (stated (exponent_outside_u32 exponent)) result }
{
    let mut digits = Buffer::new();
    let after = " is out of range for integer ** (must fit in u32)";
    Error::message_of(alloc, &["Exponent ", digits.format(exponent), after])
}

// The error of a result that no `i128` holds.
fn not_exact(alloc: Global, op: BinaryOp, left: i128, right: i128) -> Error
    ensures { Raises (stated (not_exact left (operator_of op) right)) result }
{
    let mut first = Buffer::new();
    let mut second = Buffer::new();
    let left = first.format(left);
    let right = second.format(right);
    Error::message_of(
        alloc,
        &["Unable to perform ", left, " ", op.symbol(), " ", right],
    )
}
