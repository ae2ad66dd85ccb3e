//! Conversions of values to the integer types of Rust. Each gives the number that a value is,
//! whatever its kind, and takes no memory.
ghost use Rattle.std.specs.Prelude.{◌≡◌, pos, None, Ok, IfOk, IfErr, IsOk};
ghost use Rattle.std.specs.Prelude.{MatchOption, MatchResult, IsSomeAnd};
ghost use Rattle.std.specs.Option.{option_map};
ghost use Rattle.std.specs.Result.{result_map_both};
ghost use Rattle.tera_meaning.specs.Conversion.{IntegerType, type_name, number_of, converted};
ghost use Rattle.tera_meaning.specs.Conversion.{held_as, read_as};
ghost use Rattle.tera_report.specs.Errors.{Refuses};
ghost use Rattle.tera_values.specs.Converted.{Gives, IsDueTo, integer_type};

use crate::Value;
use crate::convert::{ConversionRefused, refused};
use std::alloc::Global;
use tera_report::{Error, TeraResult};

/// An integer type of Rust.
#[derive(Clone, Copy, Debug, PartialEq, Eq)]
pub enum IntType {
    U8,
    U16,
    U32,
    U64,
    U128,
    Usize,
    I8,
    I16,
    I32,
    I64,
    I128,
    Isize,
}

impl IntType {
    /// Its name in Rust. Takes no memory.
    pub fn name(self) -> &'static str
        ensures { result.now ≡ type_name (integer_type self) }
    {
        match self {
            IntType::U8 => "u8",
            IntType::U16 => "u16",
            IntType::U32 => "u32",
            IntType::U64 => "u64",
            IntType::U128 => "u128",
            IntType::Usize => "usize",
            IntType::I8 => "i8",
            IntType::I16 => "i16",
            IntType::I32 => "i32",
            IntType::I64 => "i64",
            IntType::I128 => "i128",
            IntType::Isize => "isize",
        }
    }
}

impl Value {
    /// The number that it is, held in the kind to which an integer type of Rust converts.
    ///
    /// Refuses what is no number with ``Invalid type for the value, expected `T` but got `N` ``,
    /// N being the name of its kind. Refuses what is outside the type with ``Value `V` is out of
    /// range for `T` ``. The last blank of each is left out. Takes memory for a refusal's texts
    /// alone; want of it, `Out of memory`, is answered in its place.
    pub fn read_as(&self, alloc: Global, to: IntType) -> TeraResult<Value>
        ensures ok { IfOk result (λ v. read_as (integer_type to) self.now ≡ Ok v) }
        ensures err { IfErr result (Refuses (read_as (integer_type to) self.now)) }
        ensures succeeds { IsOk (read_as (integer_type to) self.now) → IsOk result }
    {
        match held_in(self, to) {
            Some(number) => Ok(number),
            None => Err(refusal(alloc, self, to)),
        }
    }
}

// The number that a value is, where the type has it.
fn held_in(value: &Value, to: IntType) -> Option<Value>
    ensures { result ≡ option_map (held_as (integer_type to))
        (number_of (integer_type to) value.now) }
{
    match to {
        IntType::U8 => held(u8_in(value)),
        IntType::U16 => held(u16_in(value)),
        IntType::U32 => held(u32_in(value)),
        IntType::U64 => held(value.as_u64()),
        IntType::U128 => held(value.as_u128()),
        IntType::Usize => held(usize_in(value)),
        IntType::I8 => held(i8_in(value)),
        IntType::I16 => held(i16_in(value)),
        IntType::I32 => held(i32_in(value)),
        IntType::I64 => held(value.as_i64()),
        IntType::I128 => held(value.as_i128()),
        IntType::Isize => held(isize_in(value)),
    }
}

// A number as the value that holds it.
fn held<T: Into<Value>>(number: Option<T>) -> Option<Value>
    ensures { MatchOption number (result ≡ None) (λ n. IsSomeAnd result (T.converts n)) }
{
    number.map(T::into)
}

// The error of a value of which the type has no number.
fn refusal(alloc: Global, value: &Value, to: IntType) -> Error
    ensures { number_of (integer_type to) value.now ≡ None
        → Refuses (read_as (integer_type to) value.now) result }
{
    if value.is_number() {
        match value.to_text(alloc) {
            Ok(text) => Error::out_of_range_arg(alloc, text.as_str(), to.name()),
            Err(refused) => refused,
        }
    } else {
        Error::invalid_arg_type(alloc, to.name(), value.name())
    }
}

// The number of a value that a type has, or why it has none.
fn given<T>(number: Option<T>, value: Value, target: &'static str) -> Result<T, ConversionRefused>
    ensures { MatchOption number (MatchResult result (λ _. ⊥) (IsDueTo value target.now))
        (λ x. result ≡ Ok x) }
{
    match number {
        Some(number) => Ok(number),
        None => Err(refused(value, target)),
    }
}

/// Refuses what is no number and what is outside the type. Mirrors `TryFrom<Value>` of `u8`.
impl TryFrom<Value> for u8 {
    type Error = ConversionRefused;

    ghost try_from_gives = { λ value result. Gives (converted IntegerType.u8 value) value
        (result_map_both (λ n. pos n) (λ refused. refused) result) };

    #[tactic(auto, using(crate::proofs::ConvertLemmas::outside_is_refused))]
    fn try_from(value: Value) -> Result<u8, ConversionRefused> {
        given(u8_in(&value), value, "u8")
    }
}

/// Refuses what is no number and what is outside the type. Mirrors `TryFrom<Value>` of `u16`.
impl TryFrom<Value> for u16 {
    type Error = ConversionRefused;

    ghost try_from_gives = { λ value result. Gives (converted IntegerType.u16 value) value
        (result_map_both (λ n. pos n) (λ refused. refused) result) };

    #[tactic(auto, using(crate::proofs::ConvertLemmas::outside_is_refused))]
    fn try_from(value: Value) -> Result<u16, ConversionRefused> {
        given(u16_in(&value), value, "u16")
    }
}

/// Refuses what is no number and what is outside the type. Mirrors `TryFrom<Value>` of `u32`.
impl TryFrom<Value> for u32 {
    type Error = ConversionRefused;

    ghost try_from_gives = { λ value result. Gives (converted IntegerType.u32 value) value
        (result_map_both (λ n. pos n) (λ refused. refused) result) };

    #[tactic(auto, using(crate::proofs::ConvertLemmas::outside_is_refused))]
    fn try_from(value: Value) -> Result<u32, ConversionRefused> {
        given(u32_in(&value), value, "u32")
    }
}

/// Refuses what is no number and what is outside the type. Mirrors `TryFrom<Value>` of `u64`.
impl TryFrom<Value> for u64 {
    type Error = ConversionRefused;

    ghost try_from_gives = { λ value result. Gives (converted IntegerType.u64 value) value
        (result_map_both (λ n. pos n) (λ refused. refused) result) };

    #[tactic(auto, using(crate::proofs::ConvertLemmas::outside_is_refused))]
    fn try_from(value: Value) -> Result<u64, ConversionRefused> {
        given(value.as_u64(), value, "u64")
    }
}

/// Refuses what is no number and what is outside the type. Mirrors `TryFrom<Value>` of `u128`.
impl TryFrom<Value> for u128 {
    type Error = ConversionRefused;

    ghost try_from_gives = { λ value result. Gives (converted IntegerType.u128 value) value
        (result_map_both (λ n. pos n) (λ refused. refused) result) };

    #[tactic(auto, using(crate::proofs::ConvertLemmas::outside_is_refused))]
    fn try_from(value: Value) -> Result<u128, ConversionRefused> {
        given(value.as_u128(), value, "u128")
    }
}

/// Refuses what is no number and what is outside the type. Mirrors `TryFrom<Value>` of `usize`.
impl TryFrom<Value> for usize {
    type Error = ConversionRefused;

    ghost try_from_gives = { λ value result. Gives (converted IntegerType.usize value) value
        (result_map_both (λ n. pos n) (λ refused. refused) result) };

    #[tactic(auto, using(crate::proofs::ConvertLemmas::outside_is_refused))]
    fn try_from(value: Value) -> Result<usize, ConversionRefused> {
        given(usize_in(&value), value, "usize")
    }
}

/// Refuses what is no number and what is outside the type. Mirrors `TryFrom<Value>` of `i8`.
impl TryFrom<Value> for i8 {
    type Error = ConversionRefused;

    ghost try_from_gives = { λ value result.
        Gives (converted IntegerType.i8 value) value result };

    #[tactic(auto, using(crate::proofs::ConvertLemmas::outside_is_refused))]
    fn try_from(value: Value) -> Result<i8, ConversionRefused> {
        given(i8_in(&value), value, "i8")
    }
}

/// Refuses what is no number and what is outside the type. Mirrors `TryFrom<Value>` of `i16`.
impl TryFrom<Value> for i16 {
    type Error = ConversionRefused;

    ghost try_from_gives = { λ value result.
        Gives (converted IntegerType.i16 value) value result };

    #[tactic(auto, using(crate::proofs::ConvertLemmas::outside_is_refused))]
    fn try_from(value: Value) -> Result<i16, ConversionRefused> {
        given(i16_in(&value), value, "i16")
    }
}

/// Refuses what is no number and what is outside the type. Mirrors `TryFrom<Value>` of `i32`.
impl TryFrom<Value> for i32 {
    type Error = ConversionRefused;

    ghost try_from_gives = { λ value result.
        Gives (converted IntegerType.i32 value) value result };

    #[tactic(auto, using(crate::proofs::ConvertLemmas::outside_is_refused))]
    fn try_from(value: Value) -> Result<i32, ConversionRefused> {
        given(i32_in(&value), value, "i32")
    }
}

/// Refuses what is no number and what is outside the type. Mirrors `TryFrom<Value>` of `i64`.
impl TryFrom<Value> for i64 {
    type Error = ConversionRefused;

    ghost try_from_gives = { λ value result.
        Gives (converted IntegerType.i64 value) value result };

    #[tactic(auto, using(crate::proofs::ConvertLemmas::outside_is_refused))]
    fn try_from(value: Value) -> Result<i64, ConversionRefused> {
        given(value.as_i64(), value, "i64")
    }
}

/// Refuses what is no number and what is outside the type. Mirrors `TryFrom<Value>` of `i128`.
impl TryFrom<Value> for i128 {
    type Error = ConversionRefused;

    ghost try_from_gives = { λ value result.
        Gives (converted IntegerType.i128 value) value result };

    #[tactic(auto, using(crate::proofs::ConvertLemmas::outside_is_refused))]
    fn try_from(value: Value) -> Result<i128, ConversionRefused> {
        given(value.as_i128(), value, "i128")
    }
}

/// Refuses what is no number and what is outside the type. Mirrors `TryFrom<Value>` of `isize`.
impl TryFrom<Value> for isize {
    type Error = ConversionRefused;

    ghost try_from_gives = { λ value result.
        Gives (converted IntegerType.isize value) value result };

    #[tactic(auto, using(crate::proofs::ConvertLemmas::outside_is_refused))]
    fn try_from(value: Value) -> Result<isize, ConversionRefused> {
        given(isize_in(&value), value, "isize")
    }
}

fn u8_in(value: &Value) -> Option<u8>
    ensures { option_map (λ n. pos n) result ≡ number_of IntegerType.u8 value.now }
{
    u8::try_from(value.as_i128()?).ok()
}

fn u16_in(value: &Value) -> Option<u16>
    ensures { option_map (λ n. pos n) result ≡ number_of IntegerType.u16 value.now }
{
    u16::try_from(value.as_i128()?).ok()
}

fn u32_in(value: &Value) -> Option<u32>
    ensures { option_map (λ n. pos n) result ≡ number_of IntegerType.u32 value.now }
{
    u32::try_from(value.as_i128()?).ok()
}

fn usize_in(value: &Value) -> Option<usize>
    ensures { option_map (λ n. pos n) result ≡ number_of IntegerType.usize value.now }
{
    usize::try_from(value.as_i128()?).ok()
}

fn i8_in(value: &Value) -> Option<i8>
    ensures { result ≡ number_of IntegerType.i8 value.now }
{
    i8::try_from(value.as_i128()?).ok()
}

fn i16_in(value: &Value) -> Option<i16>
    ensures { result ≡ number_of IntegerType.i16 value.now }
{
    i16::try_from(value.as_i128()?).ok()
}

fn i32_in(value: &Value) -> Option<i32>
    ensures { result ≡ number_of IntegerType.i32 value.now }
{
    i32::try_from(value.as_i128()?).ok()
}

fn isize_in(value: &Value) -> Option<isize>
    ensures { result ≡ number_of IntegerType.isize value.now }
{
    isize::try_from(value.as_i128()?).ok()
}
