//! Arguments by their names.
use crate::arguments::made::owned;
use crate::arguments::taken::{is_refused, is_that};
use crate::held::{Seen, both, hold, is_so, nothing, shows, unwanted};
use made_values::{many_pairs, one_pair, safe, text};
use std::alloc::Global;
use std::fmt::Debug;
use tera_arguments::{ArgFromValue, Kwargs, KwargsIter, KwargsOf, Parts};
use tera_report::TeraResult;
use tera_values::{Key, Map, Value};

// The arguments of a map, and none of what is no map.
fn arguments(alloc: Global, of: Value) -> Kwargs {
    Kwargs::new(of.into_map().unwrap_or(Map::new(alloc)))
}

// One argument.
fn one_argument(alloc: Global, name: &'static str, value: Value) -> Kwargs {
    arguments(alloc, one_pair(alloc, Key::Str(name), value))
}

// The argument of that name is taken as that, whether it has to be there or not.
fn gets<'k, V, T>(alloc: Global, of: &'k KwargsOf<V>, name: &'k str, wanted: T) -> Seen
where
    V: Parts,
    T: ArgFromValue<'k, V, Output = T> + PartialEq + Debug + Drop,
{
    let row = is_there(alloc, of.get::<T>(alloc, name), &wanted);
    both(row, is_that(alloc, of.must_get::<T>(alloc, name), &wanted))
}

// It is there, and is that.
fn is_there<T>(alloc: Global, got: TeraResult<Option<T>>, wanted: &T) -> Seen
where
    T: PartialEq + Debug + Drop,
{
    let holds = match &got {
        Ok(Some(taken)) => *taken == *wanted,
        _ => false,
    };
    let row = is_so(alloc, holds, &got, wanted);
    drop(got);
    row
}

// No argument has that name.
fn lacks<'k, V, T>(alloc: Global, of: &'k KwargsOf<V>, name: &'k str) -> Seen
where
    V: Parts,
    T: ArgFromValue<'k, V, Output = T> + Debug + Drop,
{
    match of.get::<T>(alloc, name) {
        Ok(found) => is_absent(alloc, found),
        Err(refused) => unwanted(alloc, refused, "nothing"),
    }
}

fn is_absent<T: Debug + Drop>(alloc: Global, found: Option<T>) -> Seen {
    let row = nothing(alloc, &found);
    drop(found);
    row
}

// The argument is refused with that text, whether it has to be there or not.
fn is_denied<'k, V, T>(alloc: Global, of: &'k KwargsOf<V>, name: &'k str, text: &str) -> Seen
where
    V: Parts,
    T: ArgFromValue<'k, V, Output = T> + Debug + Drop,
{
    let row = is_refused(alloc, of.get::<T>(alloc, name), text);
    both(row, is_refused(alloc, of.must_get::<T>(alloc, name), text))
}

#[test]
fn can_get_kwarg_with_type(rt: HostRuntime) {
    let alloc = rt.alloc();
    let hello = one_argument(alloc, "hello", text(alloc, "world"));
    hold!(
        &rt,
        [
            gets(alloc, &hello, "hello", "world"),
            gets(alloc, &hello, "hello", owned(alloc, "world")),
            lacks::<Value, i64>(alloc, &hello, "unknown"),
            lacks::<Value, &str>(alloc, &hello, "hell"),
        ],
    );
    drop(hello);
}

#[test]
fn int_out_of_range_reports_range_not_type(rt: HostRuntime) {
    let alloc = rt.alloc();
    let wide = one_argument(alloc, "n", Value::from(300i64));
    let negative = one_argument(alloc, "n", Value::from(-1i64));
    let past = "Value `300` is out of range for `u8`";
    let below = "Value `-1` is out of range for `usize`";
    hold!(
        &rt,
        [
            is_denied::<Value, u8>(alloc, &wide, "n", past),
            is_denied::<Value, usize>(alloc, &negative, "n", below),
            gets(alloc, &wide, "n", 300u16),
            gets(alloc, &negative, "n", -1i8),
        ],
    );
    drop(wide);
    drop(negative);
}

// It is refused as missing.
fn is_missing<'k, V, T>(alloc: Global, of: &'k KwargsOf<V>, name: &'k str, text: &str) -> Seen
where
    V: Parts,
    T: ArgFromValue<'k, V, Output = T> + Debug + Drop,
{
    is_refused(alloc, of.must_get::<T>(alloc, name), text)
}

#[test]
fn what_has_to_be_there_is_told(rt: HostRuntime) {
    let alloc = rt.alloc();
    let none = Kwargs::new(Map::new(alloc));
    let text_at_n = one_argument(alloc, "n", text(alloc, "x"));
    let missing = "Missing keyword argument `n`";
    let wrong = "Invalid type for the value, expected `u8` but got `string`";
    hold!(
        &rt,
        [
            is_missing::<Value, u8>(alloc, &none, "n", missing),
            is_missing::<Value, &Value>(alloc, &none, "é", "Missing keyword argument `é`"),
            is_denied::<Value, u8>(alloc, &text_at_n, "n", wrong),
            lacks::<Value, u8>(alloc, &none, "n"),
        ],
    );
    drop(none);
    drop(text_at_n);
}

// What was made of pairs, or no argument.
pub fn or_none(alloc: Global, made: TeraResult<Kwargs>) -> Kwargs {
    made.unwrap_or(Kwargs::new(Map::new(alloc)))
}

// The arguments of two numbers.
fn two_numbers(alloc: Global, first: (&'static str, u8), second: (&'static str, u8)) -> Kwargs {
    let (first, second) = (
        (first.0, Value::from(first.1)),
        (second.0, Value::from(second.1)),
    );
    or_none(alloc, Kwargs::from_pairs(alloc, [first, second]))
}

#[test]
fn of_equal_keys_the_later_value_stands(rt: HostRuntime) {
    let alloc = rt.alloc();
    let same = two_numbers(alloc, ("n", 1), ("n", 2));
    let apart = two_numbers(alloc, ("n", 1), ("é", 2));
    hold!(
        &rt,
        [
            gets(alloc, &same, "n", 2i64),
            comes_as(alloc, same.iter(), &["n"]),
            gets(alloc, &apart, "n", 1i64),
            gets(alloc, &apart, "é", 2i64),
            comes_as(alloc, apart.iter(), &["n", "é"]),
        ],
    );
    drop(same);
    drop(apart);
}

#[test]
fn arguments_are_made_of_pairs(rt: HostRuntime) {
    let alloc = rt.alloc();
    let none: [(&'static str, Value); 0] = [];
    let one = [("n", Value::from(1u8))];
    let shown = "KwargsOf { values: Value { inner: Map({Str(\"n\"): Value { inner: U64(1) }}) } }";
    hold!(
        &rt,
        [
            is_shown(alloc, or_none(alloc, Kwargs::from_pairs(alloc, one)), shown),
            is_of_no_pair(alloc, Kwargs::from_pairs(alloc, none)),
        ],
    );
}

#[test]
fn of_equal_keys_the_first_key_stands(rt: HostRuntime) {
    let alloc = rt.alloc();
    let pairs = [
        (Key::U64(7), Value::from(1u8)),
        (Key::I128(7), Value::from(2u8)),
    ];
    let made = or_none(alloc, Kwargs::from_pairs(alloc, pairs));
    let shown = "KwargsOf { values: Value { inner: Map({U64(7): Value { inner: U64(2) }}) } }";
    hold!(&rt, [is_shown(alloc, made, shown)]);
}

// The arguments show that.
pub fn is_shown(alloc: Global, of: Kwargs, wanted: &str) -> Seen {
    let row = shows(alloc, &of, wanted);
    drop(of);
    row
}

// Arguments were made, and there is none.
fn is_of_no_pair(alloc: Global, made: TeraResult<Kwargs>) -> Seen {
    match made {
        Ok(of) => have_names(alloc, of, &[]),
        Err(refused) => unwanted(alloc, refused, "no argument"),
    }
}

// The arguments come at these names.
pub fn have_names(alloc: Global, of: Kwargs, names: &[&str]) -> Seen {
    let row = comes_as(alloc, of.iter(), names);
    drop(of);
    row
}

// The walk gives arguments at these names, in that order, and then ends for good.
pub fn comes_as(alloc: Global, walk: KwargsIter<'_>, names: &[&str]) -> Seen {
    let mut left = walk;
    for name in names {
        let next = left.next();
        let holds = match next {
            Some((key, _)) => key.as_str() == Some(*name),
            None => false,
        };
        is_so(alloc, holds, &next, name)?;
    }
    nothing(alloc, &left.next())?;
    nothing(alloc, &left.next())
}

#[test]
fn a_walk_over_arguments_ends_for_good(rt: HostRuntime) {
    let alloc = rt.alloc();
    let two = arguments(alloc, many_pairs(alloc, 2));
    hold!(&rt, [have_names(alloc, two, &["key é 0", "key é 1"])]);
}

#[test]
fn arguments_of_any_size(rt: HostRuntime) {
    let alloc = rt.alloc();
    let one = arguments(alloc, many_pairs(alloc, 1));
    let many = arguments(alloc, many_pairs(alloc, 1000));
    hold!(
        &rt,
        [
            gets(alloc, &one, "key é 0", 0u8),
            lacks::<Value, u8>(alloc, &one, "key é 1"),
            gets(alloc, &many, "key é 0", 0u64),
            gets(alloc, &many, "key é 999", 999i16),
            lacks::<Value, i16>(alloc, &many, "key é 1000"),
        ],
    );
    drop(one);
    drop(many);
}

// The arguments of 1,000 pairs, each a number at its own, which falls.
pub fn thousand_pairs(alloc: Global) -> Kwargs {
    let pairs: [(u128, Value); 1000] = std::array::from_fn(|place| (
        999u128.saturating_sub(place as u128),
        Value::from(place),
    ));
    or_none(alloc, Kwargs::from_pairs(alloc, pairs))
}

// The arguments show that, and so does a copy of them.
fn copy_shows(alloc: Global, of: Kwargs, wanted: &str) -> Seen {
    let is_shown_by_copy = match of.clone(alloc) {
        Ok(copy) => is_shown(alloc, copy, wanted),
        Err(refused) => unwanted(alloc, refused, wanted),
    };
    both(is_shown(alloc, of, wanted), is_shown_by_copy)
}

#[test]
fn copies_keep_kinds_and_flags(rt: HostRuntime) {
    let alloc = rt.alloc();
    let marked = one_argument(alloc, "é", safe(alloc, "é<"));
    let wide = one_argument(alloc, "n", Value::from(7u128));
    let none = Kwargs::new(Map::new(alloc));
    let shown = "KwargsOf { values: Value { inner: \
        Map({Str(\"é\"): Value { inner: String(true, \"é<\") }}) } }";
    let told = "KwargsOf { values: Value { inner: \
        Map({Str(\"n\"): Value { inner: U128(7) }}) } }";
    let empty = "KwargsOf { values: Value { inner: Map({}) } }";
    hold!(
        &rt,
        [
            copy_shows(alloc, marked, shown),
            copy_shows(alloc, wide, told),
            copy_shows(alloc, none, empty),
        ],
    );
}
