//! What values are taken as, and what is refused. What is generic takes its value by reference, and
//! each owner is handed to `drop`, so that no function writes out how a value ends.
use crate::arguments::given::{is_given, tells_held};
use crate::arguments::made::{displays, owned};
use crate::held::{Seen, both, hold, is_so, unwanted};
use made_values::{at_texts, bytes, numbers, one_item, safe, text, two_items};
use std::alloc::Global;
use std::borrow::CowStr;
use std::fmt::Debug;
use tera_arguments::{ArgFromValue, StringInput};
use tera_report::{Error, TeraResult};
use tera_values::{Map, Number, Value};

// It is taken as that.
pub fn takes<'k, V, T>(alloc: Global, value: &'k V, wanted: T) -> Seen
where
    T: ArgFromValue<'k, V, Output = T> + PartialEq + Debug + Drop,
{
    is_that(alloc, T::from_value(alloc, value), &wanted)
}

// The answer is that.
pub fn is_that<T>(alloc: Global, answer: TeraResult<T>, wanted: &T) -> Seen
where
    T: PartialEq + Debug + Drop,
{
    let holds = match &answer {
        Ok(taken) => *taken == *wanted,
        Err(_) => false,
    };
    let row = is_so(alloc, holds, &answer, wanted);
    drop(answer);
    row
}

// It is refused with an error of that text, which has no cause.
pub fn refuses<'k, V, T>(alloc: Global, value: &'k V, text: &str) -> Seen
where
    T: ArgFromValue<'k, V, Output = T> + Debug + Drop,
{
    is_refused(alloc, T::from_value(alloc, value), text)
}

// The answer is an error of that text, which has no cause.
pub fn is_refused<T: Debug + Drop>(alloc: Global, answer: TeraResult<T>, text: &str) -> Seen {
    match answer {
        Err(error) => is_alone(alloc, error, text),
        Ok(taken) => unwanted(alloc, taken, text),
    }
}

// The error has that text and no cause.
fn is_alone(alloc: Global, error: Error, text: &str) -> Seen {
    let row = displays(alloc, &error, text);
    let has_no_cause = is_so(alloc, error.source().is_none(), &error, &"no cause");
    drop(error);
    both(row, has_no_cause)
}

#[test]
fn numbers_are_taken_from_any_kind(rt: HostRuntime) {
    let alloc = rt.alloc();
    let of = [
        Value::from(7u64),
        Value::from(7i64),
        Value::from(7u128),
        Value::from(7i128),
    ];
    let [whole, signed, wide, wide_signed] = &of;
    hold!(
        &rt,
        [
            takes(alloc, whole, 7i8),
            takes(alloc, signed, 7u16),
            takes(alloc, wide, 7i32),
            takes(alloc, wide_signed, 7u64),
        ],
    );
    drop(of);
}

// A truth value is taken as itself.
fn keeps_truth(alloc: Global, truth: bool) -> Seen {
    let of = Value::from(truth);
    let row = takes(alloc, &of, truth);
    drop(of);
    row
}

// It is taken as that text, lent.
fn lends_text(alloc: Global, value: Value, wanted: &str) -> Seen {
    let row = takes(alloc, &value, wanted);
    drop(value);
    row
}

#[test]
fn truth_and_texts_are_taken_as_they_are(rt: HostRuntime) {
    let alloc = rt.alloc();
    hold!(
        &rt,
        [
            keeps_truth(alloc, true),
            keeps_truth(alloc, false),
            lends_text(alloc, text(alloc, "é<"), "é<"),
            lends_text(alloc, safe(alloc, "é<"), "é<"),
            lends_text(alloc, text(alloc, ""), ""),
        ],
    );
}

// It is refused as a value of another type than the one of that name.
pub fn is_no<'k, V, T>(alloc: Global, value: &'k V, wanted: &str, name: &str) -> Seen
where
    T: ArgFromValue<'k, V, Output = T> + Debug + Drop,
{
    let text = "Invalid type for the value, expected";
    let told = format!(in alloc; "{text} `{wanted}` but got `{name}`");
    refuses::<V, T>(alloc, value, told.unwrap_or(String::new(alloc)).as_str())
}

// What it is taken as.
pub fn taken<'k, V, T: ArgFromValue<'k, V, Output = T>>(
    alloc: Global,
    value: &'k V,
) -> TeraResult<T> {
    T::from_value(alloc, value)
}

// It is taken as a text of its own, which is that.
fn prints_as(alloc: Global, value: Value, wanted: &str) -> Seen {
    let row = takes(alloc, &value, owned(alloc, wanted));
    drop(value);
    row
}

#[test]
fn texts_are_printed(rt: HostRuntime) {
    let alloc = rt.alloc();
    let mixed = two_items(alloc, Value::from(1u8), text(alloc, "é"));
    let falling = at_texts(alloc, &[("é", 2), ("a", 1)]);
    hold!(
        &rt,
        [
            prints_as(alloc, Value::none(), ""),
            prints_as(alloc, Value::undefined(), ""),
            prints_as(alloc, Value::from(5u8), "5"),
            prints_as(alloc, Value::from(true), "true"),
            prints_as(alloc, safe(alloc, "é<"), "é<"),
            prints_as(alloc, bytes(alloc, b"a\xff"), "a\u{fffd}"),
            prints_as(alloc, mixed, "[1, \"é\"]"),
            prints_as(alloc, one_pair_of(alloc), "{\"é\": 7}"),
            prints_as(alloc, falling, "{\"é\": 2, \"a\": 1}"),
        ],
    );
}

// A map of a text past ASCII.
pub fn one_pair_of(alloc: Global) -> Value {
    at_texts(alloc, &[("é", 7)])
}

// The text is lent, and is that.
pub fn is_lent(alloc: Global, answer: TeraResult<CowStr<'_>>, wanted: &str) -> Seen {
    let holds = match &answer {
        Ok(CowStr::Borrowed(text)) => *text == wanted,
        _ => false,
    };
    let row = is_so(alloc, holds, &answer, &wanted);
    drop(answer);
    row
}

// The text is one of its own, and is that.
pub fn is_owned(alloc: Global, answer: TeraResult<CowStr<'_>>, wanted: &str) -> Seen {
    let holds = match &answer {
        Ok(CowStr::Owned(text)) => text.as_str() == wanted,
        _ => false,
    };
    let row = is_so(alloc, holds, &answer, &wanted);
    drop(answer);
    row
}

// It is taken as that text, lent.
fn stands(alloc: Global, value: Value, wanted: &str) -> Seen {
    let row = is_lent(alloc, taken(alloc, &value), wanted);
    drop(value);
    row
}

// It is taken as that text, printed.
fn is_printed(alloc: Global, value: Value, wanted: &str) -> Seen {
    let row = is_owned(alloc, taken(alloc, &value), wanted);
    drop(value);
    row
}

#[test]
fn texts_are_lent_and_other_values_printed(rt: HostRuntime) {
    let alloc = rt.alloc();
    hold!(
        &rt,
        [
            stands(alloc, text(alloc, "é<"), "é<"),
            stands(alloc, safe(alloc, "é<"), "é<"),
            stands(alloc, text(alloc, ""), ""),
            is_printed(alloc, Value::from(5u8), "5"),
            is_printed(alloc, Value::none(), ""),
            is_printed(alloc, numbers(alloc, &[1, 2]), "[1, 2]"),
        ],
    );
}

// The copy that is taken is held so.
fn copies(alloc: Global, value: Value, wanted: &str) -> Seen {
    let copy = taken(alloc, &value);
    drop(value);
    is_given(alloc, copy, wanted)
}

// What is lent is held so.
fn lends(alloc: Global, value: Value, wanted: &str) -> Seen {
    let row = match taken::<Value, &Value>(alloc, &value) {
        Ok(lent) => tells_held(alloc, lent, wanted),
        Err(refused) => unwanted(alloc, refused, wanted),
    };
    drop(value);
    row
}

#[test]
fn values_are_copied_or_lent(rt: HostRuntime) {
    let alloc = rt.alloc();
    let safe_text = "String(true, \"<\")";
    let array = "Array([Value { inner: String(true, \"<\") }])";
    hold!(
        &rt,
        [
            copies(alloc, safe(alloc, "<"), safe_text),
            copies(alloc, Value::from(7u128), "U128(7)"),
            copies(alloc, one_item(alloc, safe(alloc, "<")), array),
            lends(alloc, safe(alloc, "<"), safe_text),
            lends(alloc, Value::from(7i128), "I128(7)"),
            lends(alloc, one_item(alloc, safe(alloc, "<")), array),
        ],
    );
}

// It is taken as that number.
fn is_number(alloc: Global, value: Value, wanted: i128) -> Seen {
    let row = takes(alloc, &value, Number::Integer(wanted));
    drop(value);
    row
}

#[test]
fn numbers_of_an_i128_are_taken(rt: HostRuntime) {
    let alloc = rt.alloc();
    let wide = Value::from(u128::MAX);
    let told = "Number `340282366920938463463374607431768211455` is out of range for i128";
    hold!(
        &rt,
        [
            is_number(alloc, Value::from(7u64), 7),
            is_number(alloc, Value::from(-7i64), -7),
            is_number(alloc, Value::from(7u128), 7),
            is_number(alloc, Value::from(i128::MIN), i128::MIN),
            refuses::<Value, Number>(alloc, &wide, told),
        ],
    );
    drop(wide);
}

#[test]
fn other_kinds_are_refused(rt: HostRuntime) {
    let alloc = rt.alloc();
    let of = [
        Value::from(1u8),
        Value::from(-1i8),
        Value::none(),
        text(alloc, "x"),
        Value::from(7u128),
        Value::undefined(),
        text(alloc, "7"),
    ];
    let [number, negative, none, letter, wide, undefined, digit] = &of;
    hold!(
        &rt,
        [
            is_no::<Value, bool>(alloc, number, "bool", "u64"),
            is_no::<Value, &str>(alloc, negative, "&str", "i64"),
            is_no::<Value, StringInput<'_>>(alloc, none, "string", "none"),
            is_no::<Value, u8>(alloc, letter, "u8", "string"),
            is_no::<Value, Map>(alloc, wide, "Map", "u128"),
            is_no::<Value, Number>(alloc, undefined, "Number", "undefined"),
            is_no::<Value, Number>(alloc, digit, "Number", "string"),
        ],
    );
    drop(of);
}
