//! The integer types of Rust at their ends: each takes its least and its greatest number, and
//! refuses what is beside them and what is no number, by its own name.
use crate::arguments::taken::{is_no, refuses, takes};
use crate::held::{Seen, both, hold};
use std::alloc::Global;
use std::fmt::Debug;
use tera_arguments::ArgFromValue;
use tera_values::Value;

// What is outside the type of that name is refused, told as it prints.
fn is_outside<'k, V, T>(alloc: Global, value: &'k V, number: &str, name: &str) -> Seen
where
    T: ArgFromValue<'k, V, Output = T> + Debug + Drop,
{
    let told = format!(in alloc; "Value `{number}` is out of range for `{name}`");
    refuses::<V, T>(alloc, value, told.unwrap_or(String::new(alloc)).as_str())
}

// What is no number, and the numbers around the ends of a type, in the kinds that hold them.
fn around(low: [i128; 2], high: [u128; 2]) -> [Value; 5] {
    let [below, least] = low;
    let [greatest, above] = high;
    [
        Value::none(),
        Value::from(below),
        Value::from(least),
        Value::from(greatest),
        Value::from(above),
    ]
}

// Of four numbers behind what is none the two in the middle are taken as those, and the others are
// refused, as is what is none: told are these two as they print, and the name of the type.
fn keeps_to<'k, V, T>(alloc: Global, of: &'k [V; 5], ends: [T; 2], told: [&str; 3]) -> Seen
where
    T: ArgFromValue<'k, V, Output = T> + PartialEq + Debug + Drop,
{
    let [none, below, low, high, above] = of;
    let [least, greatest] = ends;
    let [beneath, beyond, name] = told;
    let are_taken = both(takes(alloc, low, least), takes(alloc, high, greatest));
    let is_below = is_outside::<V, T>(alloc, below, beneath, name);
    let is_above = is_outside::<V, T>(alloc, above, beyond, name);
    let is_kept = both(is_no::<V, T>(alloc, none, name, "none"), is_below);
    both(are_taken, both(is_kept, is_above))
}

#[test]
fn ends_of_small_types_without_a_sign(rt: HostRuntime) {
    let alloc = rt.alloc();
    let of_8 = around([-1, 0], [255, 256]);
    let of_16 = around([-1, 0], [65535, 65536]);
    let of_32 = around([-1, 0], [4294967295, 4294967296]);
    hold!(
        &rt,
        [
            keeps_to(alloc, &of_8, [u8::MIN, u8::MAX], ["-1", "256", "u8"]),
            keeps_to(alloc, &of_16, [u16::MIN, u16::MAX], ["-1", "65536", "u16"]),
            keeps_to(
                alloc,
                &of_32,
                [u32::MIN, u32::MAX],
                ["-1", "4294967296", "u32"],
            ),
        ],
    );
    drop(of_8);
    drop(of_16);
    drop(of_32);
}

const PAST_U64: &str = "18446744073709551616";

// What no `u128` is stands on either side of its ends.
#[test]
fn ends_of_types_without_a_sign(rt: HostRuntime) {
    let alloc = rt.alloc();
    let of_64 = around([-1, 0], [18446744073709551615, 18446744073709551616]);
    let of_128 = [
        Value::none(),
        Value::from(-1i128),
        Value::from(0i128),
        Value::from(340282366920938463463374607431768211455u128),
        Value::from(-1i128),
    ];
    hold!(
        &rt,
        [
            keeps_to(alloc, &of_64, [u64::MIN, u64::MAX], ["-1", PAST_U64, "u64"]),
            keeps_to(
                alloc,
                &of_64,
                [usize::MIN, usize::MAX],
                ["-1", PAST_U64, "usize"],
            ),
            keeps_to(alloc, &of_128, [u128::MIN, u128::MAX], ["-1", "-1", "u128"]),
        ],
    );
    drop(of_64);
    drop(of_128);
}

#[test]
fn ends_of_small_types_with_a_sign(rt: HostRuntime) {
    let alloc = rt.alloc();
    let of_8 = around([-129, -128], [127, 128]);
    let of_16 = around([-32769, -32768], [32767, 32768]);
    let of_32 = around([-2147483649, -2147483648], [2147483647, 2147483648]);
    let told_32 = ["-2147483649", "2147483648", "i32"];
    hold!(
        &rt,
        [
            keeps_to(alloc, &of_8, [i8::MIN, i8::MAX], ["-129", "128", "i8"]),
            keeps_to(
                alloc,
                &of_16,
                [i16::MIN, i16::MAX],
                ["-32769", "32768", "i16"],
            ),
            keeps_to(alloc, &of_32, [i32::MIN, i32::MAX], told_32),
        ],
    );
    drop(of_8);
    drop(of_16);
    drop(of_32);
}

const BELOW_I64: &str = "-9223372036854775809";

const PAST_I64: &str = "9223372036854775808";

const PAST_I128: &str = "170141183460469231731687303715884105728";

// What no `i128` is stands on either side of its ends.
#[test]
fn ends_of_types_with_a_sign(rt: HostRuntime) {
    let alloc = rt.alloc();
    let of_64 = around(
        [-9223372036854775809, -9223372036854775808],
        [9223372036854775807, 9223372036854775808],
    );
    let of_128 = [
        Value::none(),
        Value::from(170141183460469231731687303715884105728u128),
        Value::from(-170141183460469231731687303715884105728i128),
        Value::from(170141183460469231731687303715884105727u128),
        Value::from(170141183460469231731687303715884105728u128),
    ];
    let told_64 = [BELOW_I64, PAST_I64, "i64"];
    let told_size = [BELOW_I64, PAST_I64, "isize"];
    let told_128 = [PAST_I128, PAST_I128, "i128"];
    hold!(
        &rt,
        [
            keeps_to(alloc, &of_64, [i64::MIN, i64::MAX], told_64),
            keeps_to(alloc, &of_64, [isize::MIN, isize::MAX], told_size),
            keeps_to(alloc, &of_128, [i128::MIN, i128::MAX], told_128),
        ],
    );
    drop(of_64);
    drop(of_128);
}

// The number in each kind that can hold it, and for a kind that cannot in the widest with a sign.
fn in_each_kind(number: i128) -> [Value; 4] {
    let as_u64 = match u64::try_from(number) {
        Ok(held) => Value::from(held),
        Err(_) => Value::from(number),
    };
    let as_i64 = match i64::try_from(number) {
        Ok(held) => Value::from(held),
        Err(_) => Value::from(number),
    };
    let as_u128 = match u128::try_from(number) {
        Ok(held) => Value::from(held),
        Err(_) => Value::from(number),
    };
    [as_u64, as_i64, as_u128, Value::from(number)]
}

// Each of the four is taken as that.
fn takes_each<'k, V, T>(alloc: Global, of: &'k [V; 4], wanted: T) -> Seen
where
    T: ArgFromValue<'k, V, Output = T> + PartialEq + Debug + Copy + Drop,
{
    let [as_u64, as_i64, as_u128, as_i128] = of;
    takes(alloc, as_u64, wanted)?;
    takes(alloc, as_i64, wanted)?;
    takes(alloc, as_u128, wanted)?;
    takes(alloc, as_i128, wanted)
}

#[test]
fn least_numbers_are_taken_from_each_kind(rt: HostRuntime) {
    let alloc = rt.alloc();
    let zero = in_each_kind(0);
    let of_8 = in_each_kind(-128);
    let of_16 = in_each_kind(-32768);
    let of_32 = in_each_kind(-2147483648);
    let of_64 = in_each_kind(-9223372036854775808);
    let of_128 = in_each_kind(i128::MIN);
    hold!(
        &rt,
        [
            takes_each(alloc, &zero, u8::MIN),
            takes_each(alloc, &zero, u16::MIN),
            takes_each(alloc, &zero, u32::MIN),
            takes_each(alloc, &zero, u64::MIN),
            takes_each(alloc, &zero, u128::MIN),
            takes_each(alloc, &zero, usize::MIN),
            takes_each(alloc, &of_8, i8::MIN),
            takes_each(alloc, &of_16, i16::MIN),
            takes_each(alloc, &of_32, i32::MIN),
            takes_each(alloc, &of_64, i64::MIN),
            takes_each(alloc, &of_64, isize::MIN),
            takes_each(alloc, &of_128, i128::MIN),
        ],
    );
    drop(zero);
    drop(of_8);
    drop(of_16);
    drop(of_32);
    drop(of_64);
    drop(of_128);
}

#[test]
fn greatest_numbers_of_types_with_a_sign_are_taken_from_each_kind(rt: HostRuntime) {
    let alloc = rt.alloc();
    let of_8 = in_each_kind(127);
    let of_16 = in_each_kind(32767);
    let of_32 = in_each_kind(2147483647);
    let of_64 = in_each_kind(9223372036854775807);
    let of_128 = in_each_kind(i128::MAX);
    hold!(
        &rt,
        [
            takes_each(alloc, &of_8, i8::MAX),
            takes_each(alloc, &of_16, i16::MAX),
            takes_each(alloc, &of_32, i32::MAX),
            takes_each(alloc, &of_64, i64::MAX),
            takes_each(alloc, &of_64, isize::MAX),
            takes_each(alloc, &of_128, i128::MAX),
        ],
    );
    drop(of_8);
    drop(of_16);
    drop(of_32);
    drop(of_64);
    drop(of_128);
}

#[test]
fn greatest_numbers_of_types_without_a_sign_are_taken_from_each_kind(rt: HostRuntime) {
    let alloc = rt.alloc();
    let of_8 = in_each_kind(255);
    let of_16 = in_each_kind(65535);
    let of_32 = in_each_kind(4294967295);
    let of_64 = in_each_kind(18446744073709551615);
    let of_127 = in_each_kind(i128::MAX);
    hold!(
        &rt,
        [
            takes_each(alloc, &of_8, u8::MAX),
            takes_each(alloc, &of_16, u16::MAX),
            takes_each(alloc, &of_32, u32::MAX),
            takes_each(alloc, &of_64, u64::MAX),
            takes_each(alloc, &of_64, usize::MAX),
            takes_each(alloc, &of_127, u128::MAX >> 1),
        ],
    );
    drop(of_8);
    drop(of_16);
    drop(of_32);
    drop(of_64);
    drop(of_127);
}
