//! Conversions of values, and what they refuse.
use crate::held::{Seen, both, hold, is_so, same, shows, unwanted};
use made_values::text;
use std::alloc::Global;
use std::fmt::{Debug, Display};
use std::process::Abort;
use tera_report::Error;
use tera_values::{ConversionRefused, Number, Value};

// The value becomes that.
fn becomes<T>(alloc: Global, of: Value, wanted: T) -> Seen
where
    T: TryFrom<Value, Error = ConversionRefused> + PartialEq + Debug + Drop,
{
    match T::try_from(of) {
        Ok(made) => are_equal(alloc, made, wanted),
        Err(refused) => let_go(alloc, refused, wanted),
    }
}

fn are_equal<T: PartialEq + Debug + Drop>(alloc: Global, left: T, right: T) -> Seen {
    same(alloc, &left, &right)
}

// A refusal is told and let go, and nothing is equal to it.
fn let_go<T: Debug + Drop>(alloc: Global, refused: ConversionRefused, wanted: T) -> Seen {
    let row = is_so(alloc, false, &refused, &wanted);
    drop(refused);
    row
}

// The number becomes that from each kind that can hold it.
fn becomes_in_each<T>(alloc: Global, number: i128, wanted: T) -> Seen
where
    T: TryFrom<Value, Error = ConversionRefused> + PartialEq + Debug + Copy + Drop,
{
    let as_u64 = match u64::try_from(number) {
        Ok(held) => becomes(alloc, Value::from(held), wanted),
        Err(_) => Ok(()),
    };
    let as_i64 = match i64::try_from(number) {
        Ok(held) => becomes(alloc, Value::from(held), wanted),
        Err(_) => Ok(()),
    };
    let as_u128 = match u128::try_from(number) {
        Ok(held) => becomes(alloc, Value::from(held), wanted),
        Err(_) => Ok(()),
    };
    let as_i128 = becomes(alloc, Value::from(number), wanted);
    both(both(as_u64, as_i64), both(as_u128, as_i128))
}

// Both numbers become what stands beside them, the ends of the type, from each kind.
fn ends<T>(alloc: Global, least: (i128, T), greatest: (u128, T)) -> Seen
where
    T: TryFrom<Value, Error = ConversionRefused> + PartialEq + Debug + Copy + Drop,
{
    let has_greatest = match i128::try_from(greatest.0) {
        Ok(number) => becomes_in_each(alloc, number, greatest.1),
        Err(_) => becomes(alloc, Value::from(greatest.0), greatest.1),
    };
    both(becomes_in_each(alloc, least.0, least.1), has_greatest)
}

#[test]
fn ends_of_integer_types(rt: HostRuntime) {
    let alloc = rt.alloc();
    ends_without_a_sign(&rt, alloc);
    ends_with_a_sign(&rt, alloc);
    hold!(&rt, [becomes(alloc, Value::from(true), true)]);
}

fn ends_without_a_sign(rt: &impl Abort, alloc: Global) {
    hold!(
        rt,
        [
            ends(
                alloc,
                (u8::MIN as i128, u8::MIN),
                (u8::MAX as u128, u8::MAX),
            ),
            ends(
                alloc,
                (u16::MIN as i128, u16::MIN),
                (u16::MAX as u128, u16::MAX),
            ),
            ends(
                alloc,
                (u32::MIN as i128, u32::MIN),
                (u32::MAX as u128, u32::MAX),
            ),
            ends(
                alloc,
                (u64::MIN as i128, u64::MIN),
                (u64::MAX as u128, u64::MAX),
            ),
            ends(
                alloc,
                (usize::MIN as i128, usize::MIN),
                (usize::MAX as u128, usize::MAX),
            ),
            ends(
                alloc,
                (u128::MIN as i128, u128::MIN),
                (u128::MAX, u128::MAX),
            ),
        ],
    );
}

fn ends_with_a_sign(rt: &impl Abort, alloc: Global) {
    hold!(
        rt,
        [
            ends(
                alloc,
                (i8::MIN as i128, i8::MIN),
                (i8::MAX as u128, i8::MAX),
            ),
            ends(
                alloc,
                (i16::MIN as i128, i16::MIN),
                (i16::MAX as u128, i16::MAX),
            ),
            ends(
                alloc,
                (i32::MIN as i128, i32::MIN),
                (i32::MAX as u128, i32::MAX),
            ),
            ends(
                alloc,
                (i64::MIN as i128, i64::MIN),
                (i64::MAX as u128, i64::MAX),
            ),
            ends(
                alloc,
                (isize::MIN as i128, isize::MIN),
                (isize::MAX as u128, isize::MAX),
            ),
            ends(
                alloc,
                (i128::MIN, i128::MIN),
                (i128::MAX as u128, i128::MAX),
            ),
        ],
    );
}

// It displays that.
fn displays<D: Display>(alloc: Global, it: &D, wanted: &str) -> Seen {
    let shown = it.to_string(alloc).unwrap_or(String::new(alloc));
    same(alloc, &shown.as_str(), &wanted)
}

// The refusal shows this text, and its error too.
fn tells(alloc: Global, refused: ConversionRefused, text: &str) -> Seen {
    let shown = displays(alloc, &refused, text);
    both(
        error_displays(alloc, refused.into_error(alloc), text),
        shown,
    )
}

fn error_displays(alloc: Global, error: Error, wanted: &str) -> Seen {
    let row = displays(alloc, &error, wanted);
    drop(error);
    row
}

// The conversion is refused by this text.
fn is_told<T>(alloc: Global, of: Value, text: &str) -> Seen
where
    T: TryFrom<Value, Error = ConversionRefused> + Debug + Drop,
{
    match T::try_from(of) {
        Err(refused) => tells(alloc, refused, text),
        Ok(made) => unwanted(alloc, made, text),
    }
}

// The number is refused, told as it prints, which the type of that name has not.
fn is_outside<T>(alloc: Global, of: Value, number: &str, name: &str) -> Seen
where
    T: TryFrom<Value, Error = ConversionRefused> + Debug + Drop,
{
    let told = format!(in alloc; "Value `{number}` is out of range for `{name}`");
    is_told::<T>(alloc, of, told.unwrap_or(String::new(alloc)).as_str())
}

// Both numbers beside the ends are refused.
fn has_neither<T>(alloc: Global, name: &str, below: (i128, &str), above: (u128, &str)) -> Seen
where
    T: TryFrom<Value, Error = ConversionRefused> + Debug + Drop,
{
    let is_below = is_outside::<T>(alloc, Value::from(below.0), below.1, name);
    let is_above = is_outside::<T>(alloc, Value::from(above.0), above.1, name);
    both(is_below, is_above)
}

const MINUS_ONE: (i128, &str) = (-1, "-1");

const PAST_U64: (u128, &str) = (18446744073709551616, "18446744073709551616");

const BELOW_I64: (i128, &str) = (-9223372036854775809, "-9223372036854775809");

const PAST_I64: (u128, &str) = (9223372036854775808, "9223372036854775808");

const PAST_I32: (u128, &str) = (2147483648, "2147483648");

#[test]
fn numbers_past_the_ends_of_integer_types(rt: HostRuntime) {
    let alloc = rt.alloc();
    let past_i128 = "170141183460469231731687303715884105728";
    let past_u32 = (4294967296, "4294967296");
    let below_i32 = (-2147483649, "-2147483649");
    hold!(
        &rt,
        [
            has_neither::<u8>(alloc, "u8", MINUS_ONE, (256, "256")),
            has_neither::<u16>(alloc, "u16", MINUS_ONE, (65536, "65536")),
            has_neither::<u32>(alloc, "u32", MINUS_ONE, past_u32),
            has_neither::<u64>(alloc, "u64", MINUS_ONE, PAST_U64),
            has_neither::<usize>(alloc, "usize", MINUS_ONE, PAST_U64),
            is_outside::<u128>(alloc, Value::from(-1i128), "-1", "u128"),
            has_neither::<i8>(alloc, "i8", (-129, "-129"), (128, "128")),
            has_neither::<i16>(alloc, "i16", (-32769, "-32769"), (32768, "32768")),
            has_neither::<i32>(alloc, "i32", below_i32, PAST_I32),
            has_neither::<i64>(alloc, "i64", BELOW_I64, PAST_I64),
            has_neither::<isize>(alloc, "isize", BELOW_I64, PAST_I64),
            is_outside::<i128>(
                alloc,
                Value::from(170141183460469231731687303715884105728u128),
                past_i128,
                "i128",
            ),
        ],
    );
}

#[test]
fn other_kinds_are_told(rt: HostRuntime) {
    let alloc = rt.alloc();
    let of_text = "Invalid type for the value, expected `u8` but got `string`";
    let of_none = "Invalid type for the value, expected `u8` but got `none`";
    let of_number = "Invalid type for the value, expected `bool` but got `u64`";
    hold!(
        &rt,
        [
            is_told::<u8>(alloc, text(alloc, "x"), of_text),
            is_told::<u8>(alloc, Value::none(), of_none),
            is_told::<bool>(alloc, Value::from(1u8), of_number),
        ],
    );
}

// The debug text of the conversion to `u8` is that.
fn is_debugged(alloc: Global, of: Value, wanted: &str) -> Seen {
    let answer = u8::try_from(of);
    let row = shows(alloc, &answer, wanted);
    drop(answer);
    row
}

#[test]
fn what_is_debugged(rt: HostRuntime) {
    let alloc = rt.alloc();
    let told = "Err(WrongType { expected: \"u8\", actual: \"none\" })";
    let outside = "Err(OutOfRange { value: Value { inner: U64(300) }, target: \"u8\" })";
    let number = Number::Integer(-5);
    hold!(
        &rt,
        [
            is_debugged(alloc, Value::none(), told),
            is_debugged(alloc, Value::from(300u64), outside),
            displays(alloc, &number, "-5"),
            shows(alloc, &number, "Integer(-5)"),
        ],
    );
}
