//! A number that arithmetic computes with.
ghost use Rattle.std.specs.Prelude.{◌≡◌, ◌↔◌, IsTrue, true, pos, Some};
ghost use Rattle.std.specs.Fmt.{signed_decimal};
ghost use Rattle.std.specs.Ordering.{int_cmp};
ghost use Rattle.tera_scalars.specs.Number.{number_value};

use itoa::Buffer;
use std::fmt;

/// A number that arithmetic computes with. Mirrors `tera::value::number::Number`.
#[derive(Clone, Copy, Debug, PartialEq, PartialOrd)]
#[non_exhaustive]
pub enum Number {
    Integer(i128),
}

impl Number {
    /// Whether it is a whole number, as every number here is. Mirrors `Number::is_integer`. Takes
    /// no memory.
    pub fn is_integer(&self) -> bool
        ensures { result ≡ true }
    {
        match self {
            Number::Integer(_) => true,
        }
    }

    /// The whole number that it is. Mirrors `Number::as_integer`. Takes no memory.
    pub fn as_integer(&self) -> Option<i128>
        ensures { result ≡ Some (number_value self.now) }
    {
        match self {
            Number::Integer(z) => Some(*z),
        }
    }

    /// Whether it is 0. Mirrors `Number::is_zero`, which is private there. Takes no memory.
    pub fn is_zero(&self) -> bool
        ensures { IsTrue result ↔ (number_value self.now ≡ pos 0) }
    {
        match self {
            Number::Integer(z) => *z == 0,
        }
    }
}

/// The whole number that it is. Takes no memory.
impl From<Number> for i128 {
    ghost from_gives = { λ n z. z ≡ number_value n };

    fn from(number: Number) -> i128 {
        match number {
            Number::Integer(z) => z,
        }
    }
}

/// Two numbers are `==` exactly where they are one number, and `partial_cmp` is the order of
/// numbers.
pub fn numbers_compare_by_value()
    ensures same { (a b : Number) → IsTrue (⟦<Number as PartialEq>⟧.eq a b)
        ↔ (number_value a ≡ number_value b) }
    ensures order { (a b : Number) → ⟦<Number as PartialOrd>⟧.partial_cmp a b
        ≡ Some (int_cmp (number_value a) (number_value b)) }
{}

/// In decimal. A width or a fill of the format changes nothing. Takes no memory.
impl fmt::Display for Number {
    ghost output = { λ n. Some (signed_decimal (number_value n)) };

    ghost styled_output = { λ n _. Some (signed_decimal (number_value n)) };

    fn fmt<W: fmt::Write>(&self, f: &mut fmt::Formatter<W>) -> fmt::Result {
        match self {
            Number::Integer(z) => f.write_str(Buffer::new().format(*z)),
        }
    }
}
