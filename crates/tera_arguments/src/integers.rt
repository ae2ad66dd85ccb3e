//! Integers of Rust, by the conversions of values to them.
ghost use Rattle.std.specs.Prelude.{◌≡◌, pos, Ok, Err, IfOk, IfErr};
ghost use Rattle.tera_arguments.specs.Taken.{Denies};
ghost use Rattle.tera_arguments.specs.inner.Raised.{IsRaised};
ghost use Rattle.tera_meaning.specs.Conversion.{IntegerType, converted};

use crate::ArgFromValue;
use std::alloc::Global;
use tera_report::{Error, TeraResult};
use tera_values::{ConversionRefused, Value};

// The number of a value as one of a type of Rust, whose name it is told.
#[tactic(auto, using(crate::proofs::IntegerLemmas::numbers_have_no_parts))]
fn integer<T: TryFrom<Value, Error = ConversionRefused>>(
    alloc: Global,
    value: &Value,
    name: &str,
) -> TeraResult<T>
    ensures ok { IfOk result (λ n. T.try_from_gives value.now (Ok n)) }
    ensures err { IfErr result (λ e. IsRaised T.try_from_gives value.now name.now e) }
{
    if !value.is_number() {
        return Err(Error::invalid_arg_type(alloc, name, value.name()));
    }
    match T::try_from(value.clone(alloc)?) {
        Ok(taken) => Ok(taken),
        Err(why) => Err(why.into_error(alloc)),
    }
}

/// The number that it is, whatever its kind. Refuses what is no number with ``Invalid type for the
/// value, expected `u8` but got `N` ``, N being the name of its kind. Refuses what is outside the
/// type with ``Value `V` is out of range for `u8` ``. The last blank of each is left out.
impl<'k> ArgFromValue<'k, Value> for u8 {
    type Output = u8;

    ghost takes = { λ value n. converted IntegerType.u8 value ≡ Ok (pos n) };

    ghost denies = { λ value e. Denies (converted IntegerType.u8 value) e };

    fn from_value(alloc: Global, value: &'k Value) -> TeraResult<u8> {
        integer(alloc, value, "u8")
    }
}

/// The number that it is, whatever its kind. Refuses what is no number with ``Invalid type for the
/// value, expected `u16` but got `N` ``, N being the name of its kind. Refuses what is outside the
/// type with ``Value `V` is out of range for `u16` ``. The last blank of each is left out.
impl<'k> ArgFromValue<'k, Value> for u16 {
    type Output = u16;

    ghost takes = { λ value n. converted IntegerType.u16 value ≡ Ok (pos n) };

    ghost denies = { λ value e. Denies (converted IntegerType.u16 value) e };

    fn from_value(alloc: Global, value: &'k Value) -> TeraResult<u16> {
        integer(alloc, value, "u16")
    }
}

/// The number that it is, whatever its kind. Refuses what is no number with ``Invalid type for the
/// value, expected `u32` but got `N` ``, N being the name of its kind. Refuses what is outside the
/// type with ``Value `V` is out of range for `u32` ``. The last blank of each is left out.
impl<'k> ArgFromValue<'k, Value> for u32 {
    type Output = u32;

    ghost takes = { λ value n. converted IntegerType.u32 value ≡ Ok (pos n) };

    ghost denies = { λ value e. Denies (converted IntegerType.u32 value) e };

    fn from_value(alloc: Global, value: &'k Value) -> TeraResult<u32> {
        integer(alloc, value, "u32")
    }
}

/// The number that it is, whatever its kind. Refuses what is no number with ``Invalid type for the
/// value, expected `u64` but got `N` ``, N being the name of its kind. Refuses what is outside the
/// type with ``Value `V` is out of range for `u64` ``. The last blank of each is left out.
impl<'k> ArgFromValue<'k, Value> for u64 {
    type Output = u64;

    ghost takes = { λ value n. converted IntegerType.u64 value ≡ Ok (pos n) };

    ghost denies = { λ value e. Denies (converted IntegerType.u64 value) e };

    fn from_value(alloc: Global, value: &'k Value) -> TeraResult<u64> {
        integer(alloc, value, "u64")
    }
}

/// The number that it is, whatever its kind. Refuses what is no number with ``Invalid type for the
/// value, expected `u128` but got `N` ``, N being the name of its kind. Refuses what is outside the
/// type with ``Value `V` is out of range for `u128` ``. The last blank of each is left out.
impl<'k> ArgFromValue<'k, Value> for u128 {
    type Output = u128;

    ghost takes = { λ value n. converted IntegerType.u128 value ≡ Ok (pos n) };

    ghost denies = { λ value e. Denies (converted IntegerType.u128 value) e };

    fn from_value(alloc: Global, value: &'k Value) -> TeraResult<u128> {
        integer(alloc, value, "u128")
    }
}

/// The number that it is, whatever its kind. Refuses what is no number with ``Invalid type for the
/// value, expected `usize` but got `N` ``, N being the name of its kind. Refuses what is outside
/// the type with ``Value `V` is out of range for `usize` ``. The last blank of each is left out.
impl<'k> ArgFromValue<'k, Value> for usize {
    type Output = usize;

    ghost takes = { λ value n. converted IntegerType.usize value ≡ Ok (pos n) };

    ghost denies = { λ value e. Denies (converted IntegerType.usize value) e };

    fn from_value(alloc: Global, value: &'k Value) -> TeraResult<usize> {
        integer(alloc, value, "usize")
    }
}

/// The number that it is, whatever its kind. Refuses what is no number with ``Invalid type for the
/// value, expected `i8` but got `N` ``, N being the name of its kind. Refuses what is outside the
/// type with ``Value `V` is out of range for `i8` ``. The last blank of each is left out.
impl<'k> ArgFromValue<'k, Value> for i8 {
    type Output = i8;

    ghost takes = { λ value n. converted IntegerType.i8 value ≡ Ok n };

    ghost denies = { λ value e. Denies (converted IntegerType.i8 value) e };

    fn from_value(alloc: Global, value: &'k Value) -> TeraResult<i8> {
        integer(alloc, value, "i8")
    }
}

/// The number that it is, whatever its kind. Refuses what is no number with ``Invalid type for the
/// value, expected `i16` but got `N` ``, N being the name of its kind. Refuses what is outside the
/// type with ``Value `V` is out of range for `i16` ``. The last blank of each is left out.
impl<'k> ArgFromValue<'k, Value> for i16 {
    type Output = i16;

    ghost takes = { λ value n. converted IntegerType.i16 value ≡ Ok n };

    ghost denies = { λ value e. Denies (converted IntegerType.i16 value) e };

    fn from_value(alloc: Global, value: &'k Value) -> TeraResult<i16> {
        integer(alloc, value, "i16")
    }
}

/// The number that it is, whatever its kind. Refuses what is no number with ``Invalid type for the
/// value, expected `i32` but got `N` ``, N being the name of its kind. Refuses what is outside the
/// type with ``Value `V` is out of range for `i32` ``. The last blank of each is left out.
impl<'k> ArgFromValue<'k, Value> for i32 {
    type Output = i32;

    ghost takes = { λ value n. converted IntegerType.i32 value ≡ Ok n };

    ghost denies = { λ value e. Denies (converted IntegerType.i32 value) e };

    fn from_value(alloc: Global, value: &'k Value) -> TeraResult<i32> {
        integer(alloc, value, "i32")
    }
}

/// The number that it is, whatever its kind. Refuses what is no number with ``Invalid type for the
/// value, expected `i64` but got `N` ``, N being the name of its kind. Refuses what is outside the
/// type with ``Value `V` is out of range for `i64` ``. The last blank of each is left out.
impl<'k> ArgFromValue<'k, Value> for i64 {
    type Output = i64;

    ghost takes = { λ value n. converted IntegerType.i64 value ≡ Ok n };

    ghost denies = { λ value e. Denies (converted IntegerType.i64 value) e };

    fn from_value(alloc: Global, value: &'k Value) -> TeraResult<i64> {
        integer(alloc, value, "i64")
    }
}

/// The number that it is, whatever its kind. Refuses what is no number with ``Invalid type for the
/// value, expected `i128` but got `N` ``, N being the name of its kind. Refuses what is outside the
/// type with ``Value `V` is out of range for `i128` ``. The last blank of each is left out.
impl<'k> ArgFromValue<'k, Value> for i128 {
    type Output = i128;

    ghost takes = { λ value n. converted IntegerType.i128 value ≡ Ok n };

    ghost denies = { λ value e. Denies (converted IntegerType.i128 value) e };

    fn from_value(alloc: Global, value: &'k Value) -> TeraResult<i128> {
        integer(alloc, value, "i128")
    }
}

/// The number that it is, whatever its kind. Refuses what is no number with ``Invalid type for the
/// value, expected `isize` but got `N` ``, N being the name of its kind. Refuses what is outside
/// the type with ``Value `V` is out of range for `isize` ``. The last blank of each is left out.
impl<'k> ArgFromValue<'k, Value> for isize {
    type Output = isize;

    ghost takes = { λ value n. converted IntegerType.isize value ≡ Ok n };

    ghost denies = { λ value e. Denies (converted IntegerType.isize value) e };

    fn from_value(alloc: Global, value: &'k Value) -> TeraResult<isize> {
        integer(alloc, value, "isize")
    }
}
