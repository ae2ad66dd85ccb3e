//! The numbers of values: what reads them, and arithmetic on them.
ghost use Rattle.std.specs.Prelude.{◌≡◌, pos, Ok, Err, None, IfOk, IfErr, IsOk, is_some};
ghost use Rattle.std.specs.Option.{option_map};
ghost use Rattle.std.specs.Result.{result_map_both};
ghost use Rattle.tera_meaning.specs.Arithmetic.{operand, calculated, negated, as_i128};
ghost use Rattle.tera_meaning.specs.Conversion.{IntegerType, number_of};
ghost use Rattle.tera_meaning.specs.Read.{number_in};
ghost use Rattle.tera_scalars.specs.Number.{number_value};
ghost use Rattle.tera_scalars.specs.Operation.{operator_of};
ghost use Rattle.tera_report.specs.Errors.{Raises, Refuses};
ghost use Rattle.tera_report.specs.Refusal.{plus, minus, times, remainder, floor_division, power};
ghost use Rattle.tera_report.specs.Refusal.{stated};
ghost use Rattle.tera_values.specs.Computed.{TellsCall, refusal_told};

use crate::Value;
use std::alloc::Global;
use tera_report::{Error, TeraResult};
use tera_scalars::{
    BinaryOp, NoResult, Number, Whole, negated_no_number, negation, negation_outside_i128,
    no_result, not_a_number, operand_outside_i128,
};

impl Value {
    /// Whether it is a number. Mirrors `Value::is_number`. Takes no memory.
    pub fn is_number(&self) -> bool
        ensures { result ≡ is_some (number_in self.now) }
    {
        self.whole().is_some()
    }

    /// The number that it is, whatever its kind, where an `i128` holds it. Mirrors
    /// `Value::as_i128`. Takes no memory.
    pub fn as_i128(&self) -> Option<i128>
        ensures { result ≡ number_of IntegerType.i128 self.now }
    {
        match self.whole()? {
            Whole::Signed(z) => Some(z),
            Whole::Unsigned(n) => i128::try_from(n).ok(),
        }
    }

    /// The number that it is, whatever its kind, where a `u128` holds it. Mirrors
    /// `Value::as_u128`. Takes no memory.
    pub fn as_u128(&self) -> Option<u128>
        ensures { option_map (λ n. pos n) result ≡ number_of IntegerType.u128 self.now }
    {
        match self.whole()? {
            Whole::Signed(z) => u128::try_from(z).ok(),
            Whole::Unsigned(n) => Some(n),
        }
    }

    /// The number that it is, whatever its kind, where an `i64` holds it. Mirrors
    /// `Value::as_i64`. Takes no memory.
    pub fn as_i64(&self) -> Option<i64>
        ensures { result ≡ number_of IntegerType.i64 self.now }
    {
        i64::try_from(self.as_i128()?).ok()
    }

    /// The number that it is, whatever its kind, where a `u64` holds it. Mirrors
    /// `Value::as_u64`. Takes no memory.
    pub fn as_u64(&self) -> Option<u64>
        ensures { option_map (λ n. pos n) result ≡ number_of IntegerType.u64 self.now }
    {
        u64::try_from(self.as_i128()?).ok()
    }

    /// The number that it is, where arithmetic can compute with it. Mirrors `Value::as_number`.
    /// Takes no memory.
    pub fn as_number(&self) -> Option<Number>
        ensures { option_map number_value result ≡ number_of IntegerType.i128 self.now }
    {
        Some(Number::Integer(self.as_i128()?))
    }
}

/// A number of 128 bits with a sign. Mirrors `From<Number>` of `tera::Value`. Takes no memory.
impl From<Number> for Value {
    ghost from_gives = { λ n v. v ≡ as_i128 (number_value n) };

    fn from(number: Number) -> Value {
        Value::from(i128::from(number))
    }
}

/// The sum of two numbers. Mirrors `add` of `tera::value::number`, which is private there.
///
/// Refuses as [`calculate`] does.
pub fn add(alloc: Global, left: &Value, right: &Value) -> TeraResult<Value>
    ensures ok { IfOk result (λ v. calculated plus left.now right.now ≡ Ok v) }
    ensures err { IfErr result (Refuses (calculated plus left.now right.now)) }
    ensures succeeds { IsOk (calculated plus left.now right.now) → IsOk result }
{
    calculate(alloc, BinaryOp::Add, left, right)
}

/// The difference of two numbers. Mirrors `sub` of `tera::value::number`, which is private there.
///
/// Refuses as [`calculate`] does.
pub fn sub(alloc: Global, left: &Value, right: &Value) -> TeraResult<Value>
    ensures ok { IfOk result (λ v. calculated minus left.now right.now ≡ Ok v) }
    ensures err { IfErr result (Refuses (calculated minus left.now right.now)) }
    ensures succeeds { IsOk (calculated minus left.now right.now) → IsOk result }
{
    calculate(alloc, BinaryOp::Sub, left, right)
}

/// The product of two numbers. Mirrors `mul` of `tera::value::number`, which is private there.
///
/// Refuses as [`calculate`] does.
pub fn mul(alloc: Global, left: &Value, right: &Value) -> TeraResult<Value>
    ensures ok { IfOk result (λ v. calculated times left.now right.now ≡ Ok v) }
    ensures err { IfErr result (Refuses (calculated times left.now right.now)) }
    ensures succeeds { IsOk (calculated times left.now right.now) → IsOk result }
{
    calculate(alloc, BinaryOp::Mul, left, right)
}

/// The remainder of a Euclidean division, which is never below 0. Mirrors `rem` of
/// `tera::value::number`, which is private there.
///
/// Refuses as [`calculate`] does.
pub fn rem(alloc: Global, left: &Value, right: &Value) -> TeraResult<Value>
    ensures ok { IfOk result (λ v. calculated remainder left.now right.now ≡ Ok v) }
    ensures err { IfErr result (Refuses (calculated remainder left.now right.now)) }
    ensures succeeds { IsOk (calculated remainder left.now right.now) → IsOk result }
{
    calculate(alloc, BinaryOp::Rem, left, right)
}

/// The quotient of a Euclidean division. Mirrors `floor_div` of `tera::value::number`, which is
/// private there.
///
/// Refuses as [`calculate`] does.
pub fn floor_div(alloc: Global, left: &Value, right: &Value) -> TeraResult<Value>
    ensures ok { IfOk result (λ v. calculated floor_division left.now right.now ≡ Ok v) }
    ensures err { IfErr result (Refuses (calculated floor_division left.now right.now)) }
    ensures succeeds { IsOk (calculated floor_division left.now right.now) → IsOk result }
{
    calculate(alloc, BinaryOp::FloorDiv, left, right)
}

/// The power of two numbers: the product of so many factors, 1 of none. Mirrors `pow` of
/// `tera::value::number`, which is private there.
///
/// Refuses as [`calculate`] does.
pub fn pow(alloc: Global, left: &Value, right: &Value) -> TeraResult<Value>
    ensures ok { IfOk result (λ v. calculated power left.now right.now ≡ Ok v) }
    ensures err { IfErr result (Refuses (calculated power left.now right.now)) }
    ensures succeeds { IsOk (calculated power left.now right.now) → IsOk result }
{
    calculate(alloc, BinaryOp::Pow, left, right)
}

/// What an operator computes of two numbers, whatever their kinds: the exact result, as a number of
/// 128 bits with a sign.
///
/// The left operand is looked at first, then the right one. What is no number is refused with
/// ``Only numbers can be used in arithmetic. This is a `N` ``, N being the name of its kind and the
/// last blank left out. A number that no `i128` holds is refused with ``Operand `V` is out of range
/// for integer arithmetic (must fit in i128)``. Then a division by 0 is refused with `Cannot divide
/// by 0`, and an exponent that is below 0, or 2^32 or more, with `Exponent V is out of range for
/// integer ** (must fit in u32)`. At last a result that no `i128` holds is refused with `Unable to
/// perform L op R`, and so is a remainder whose quotient none holds.
///
/// Takes memory for a refusal's text alone; want of it, `Out of memory`, is answered in its place.
pub fn calculate(alloc: Global, op: BinaryOp, left: &Value, right: &Value) -> TeraResult<Value>
    ensures ok { IfOk result (λ v. calculated (operator_of op) left.now right.now ≡ Ok v) }
    ensures err { IfErr result (Refuses (calculated (operator_of op) left.now right.now)) }
    ensures succeeds { IsOk (calculated (operator_of op) left.now right.now) → IsOk result }
{
    match compute(op, left, right) {
        Ok(number) => Ok(Value::from(number)),
        Err(why) => Err(why.into_error(alloc)),
    }
}

/// Why an operator computes nothing of two values.
#[derive(Clone, Copy, Debug, PartialEq, Eq)]
pub enum NotComputed {
    /// An operand is no number: the name of its kind.
    NotANumber {
        kind: &'static str,
    },
    /// An operand is a number that no `i128` holds.
    OperandOutsideI128 {
        operand: u128,
    },
    /// The operator has no result of these numbers.
    NoResult {
        op: BinaryOp,
        left: i128,
        right: i128,
        why: NoResult,
    },
}

impl NotComputed {
    /// The error of that refusal, as [`calculate`] answers it.
    ///
    /// Takes memory for its text; want of it, `Out of memory`, is answered in its place.
    #[cold]
    #[inline(never)]
    pub fn into_error(self, alloc: Global) -> Error
        ensures { Raises (stated (refusal_told self)) result }
    {
        match self {
            NotComputed::NotANumber { kind } => not_a_number(alloc, kind),
            NotComputed::OperandOutsideI128 { operand } => operand_outside_i128(alloc, operand),
            NotComputed::NoResult {
                op,
                left,
                right,
                why,
            } => no_result(alloc, op, left, right, why),
        }
    }
}

/// What an operator computes of two numbers, as a number; or why it computes nothing, where
/// [`calculate`] refuses. Takes no memory.
pub fn compute(op: BinaryOp, left: &Value, right: &Value) -> Result<i128, NotComputed>
    ensures result { result_map_both as_i128 refusal_told result
        ≡ calculated (operator_of op) left.now right.now }
    ensures call { IfErr result (TellsCall op left.now right.now) }
{
    let Some(first) = left.as_i128() else {
        return Err(no_operand(left));
    };
    let Some(second) = right.as_i128() else {
        return Err(no_operand(right));
    };
    match op.compute(first, second) {
        Ok(number) => Ok(number),
        Err(why) => Err(NotComputed::NoResult {
            op,
            left: first,
            right: second,
            why,
        }),
    }
}

/// The number with the other sign, as a number of 128 bits with a sign. Mirrors `negate` of
/// `tera::value::number`, which is private there.
///
/// Refuses what is no number with ``Only numbers can be negated. This is a `N` ``, N being the name
/// of its kind, without the last blank. Refuses a number that no `i128` holds, or whose negation
/// none holds, with `Cannot negate V: result would overflow i128`. Takes memory for a refusal's
/// text alone; want of it, `Out of memory`, is answered in its place.
pub fn negate(alloc: Global, value: &Value) -> TeraResult<Value>
    ensures ok { IfOk result (λ v. negated value.now ≡ Ok v) }
    ensures err { IfErr result (Refuses (negated value.now)) }
    ensures succeeds { IsOk (negated value.now) → IsOk result }
{
    match value.whole() {
        None => Err(negated_no_number(alloc, value.name())),
        Some(Whole::Signed(z)) => match negation(z) {
            Some(opposite) => Ok(Value::from(opposite)),
            None => Err(negation_outside_i128(alloc, Whole::Signed(z))),
        },
        Some(Whole::Unsigned(n)) => match i128::try_from(n) {
            Ok(z) => Ok(Value::from(-z)),
            Err(_) => Err(negation_outside_i128(alloc, Whole::Unsigned(n))),
        },
    }
}

// Why a value that has no number of an `i128` is no operand. It is inlined, so that no value has to
// lie in memory for it.
#[inline(always)]
fn no_operand(value: &Value) -> NotComputed
    ensures { number_of IntegerType.i128 value.now ≡ None
        → operand value.now ≡ Err (refusal_told result) }
{
    match value.whole() {
        Some(Whole::Unsigned(operand)) => NotComputed::OperandOutsideI128 { operand },
        Some(Whole::Signed(_)) => NotComputed::NotANumber { kind: value.name() },
        None => NotComputed::NotANumber { kind: value.name() },
    }
}
