//! What the operators compute.
ghost use Rattle.std.specs.Prelude.{◌≡◌, ◌+ℤ◌, ◌-ℤ◌, ◌*ℤ◌, neg_ℤ};
ghost use Rattle.tera_meaning.specs.Arithmetic.{small, power_of, computed};
ghost use Rattle.tera_report.specs.Refusal.{operator_text, remainder, floor_division, power};
ghost use Rattle.tera_scalars.specs.Operation.{operator_of, told};

/// An operator of two numbers.
#[derive(Clone, Copy, Debug, PartialEq, Eq)]
pub enum BinaryOp {
    Add,
    Sub,
    Mul,
    /// The remainder of a Euclidean division, which is never below 0.
    Rem,
    /// The quotient of a Euclidean division.
    FloorDiv,
    Pow,
}

/// Why two numbers of an `i128` have no result.
#[derive(Clone, Copy, Debug, PartialEq, Eq)]
pub enum NoResult {
    DividedByZero,
    /// The exponent is below 0, or 2^32 or more.
    ExponentOutsideU32,
    /// No `i128` holds the result, or the quotient of a remainder.
    NotExact,
}

impl BinaryOp {
    /// How it is written: `+`, `-`, `*`, `%`, `//` or `**`. Takes no memory.
    pub fn symbol(self) -> &'static str
        ensures { result.now ≡ operator_text (operator_of self) }
    {
        match self {
            BinaryOp::Add => "+",
            BinaryOp::Sub => "-",
            BinaryOp::Mul => "*",
            BinaryOp::Rem => "%",
            BinaryOp::FloorDiv => "//",
            BinaryOp::Pow => "**",
        }
    }

    /// What it computes of two numbers: the exact result, where an `i128` holds it. A division is
    /// Euclidean, and its remainder has a result only where its quotient has one. Takes no memory.
    pub fn compute(self, left: i128, right: i128) -> Result<i128, NoResult>
        ensures { told (operator_of self) left right result
            ≡ computed (operator_of self) left right }
    {
        match self {
            BinaryOp::Add => sum(left, right).ok_or(NoResult::NotExact),
            BinaryOp::Sub => difference(left, right).ok_or(NoResult::NotExact),
            BinaryOp::Mul => product(left, right).ok_or(NoResult::NotExact),
            BinaryOp::Rem => remainder(left, right),
            BinaryOp::FloorDiv => quotient(left, right),
            BinaryOp::Pow => raised(left, right),
        }
    }
}

/// The number with the other sign, where an `i128` holds it. Takes no memory.
#[tactic(auto, using(crate::proofs::Checked::checked_is_small))]
pub fn negation(number: i128) -> Option<i128>
    ensures { result ≡ small (neg_ℤ number) }
{
    number.checked_neg()
}

#[tactic(auto, using(crate::proofs::Checked::checked_is_small))]
fn sum(left: i128, right: i128) -> Option<i128>
    ensures { result ≡ small (left +ℤ right) }
{
    left.checked_add(right)
}

#[tactic(auto, using(crate::proofs::Checked::checked_is_small))]
fn difference(left: i128, right: i128) -> Option<i128>
    ensures { result ≡ small (left -ℤ right) }
{
    left.checked_sub(right)
}

#[tactic(auto, using(crate::proofs::Checked::checked_is_small))]
fn product(left: i128, right: i128) -> Option<i128>
    ensures { result ≡ small (left *ℤ right) }
{
    left.checked_mul(right)
}

// The quotient of a Euclidean division.
fn quotient(left: i128, right: i128) -> Result<i128, NoResult>
    ensures { told floor_division left right result ≡ computed floor_division left right }
{
    if right == 0 {
        return Err(NoResult::DividedByZero);
    }
    left.checked_div_euclid(right).ok_or(NoResult::NotExact)
}

// The remainder of a Euclidean division.
fn remainder(left: i128, right: i128) -> Result<i128, NoResult>
    ensures { told remainder left right result ≡ computed remainder left right }
{
    if right == 0 {
        return Err(NoResult::DividedByZero);
    }
    left.checked_rem_euclid(right).ok_or(NoResult::NotExact)
}

// The power of an exponent, which must be the count of its factors.
fn raised(base: i128, exponent: i128) -> Result<i128, NoResult>
    ensures { told power base exponent result ≡ computed power base exponent }
{
    match u32::try_from(exponent) {
        Ok(count) => power(base, count).ok_or(NoResult::NotExact),
        Err(_) => Err(NoResult::ExponentOutsideU32),
    }
}

// The product of so many factors: the square of half as many, and one more where they are odd.
fn power(base: i128, count: u32) -> Option<i128>
    ensures { result ≡ small (power_of base count) }
{
    if count == 0 {
        return Some(1);
    }
    let half = power(base, count / 2)?;
    let square = product(half, half)?;
    if count % 2 == 0 {
        Some(square)
    } else {
        product(square, base)
    }
}
