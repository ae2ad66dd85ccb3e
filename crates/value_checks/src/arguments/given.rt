//! What single values are made of: the kind, and the flag of a text.
use crate::arguments::made::owned;
use crate::held::{Seen, both, hold, is_so, shows, unwanted};
use made_values::{safe, text};
use std::alloc::Global;
use std::borrow::CowStr;
use std::rc::RcStr;
use tera_conversions::ToValue;
use tera_report::TeraResult;
use tera_values::{Key, Number, Value};

// The value is held so.
pub fn is_held(alloc: Global, value: Value, wanted: &str) -> Seen {
    let row = tells_held(alloc, &value, wanted);
    drop(value);
    row
}

// The value is held so, in the words of Debug, which tell the kind and the flag of each part.
pub fn tells_held(alloc: Global, value: &Value, wanted: &str) -> Seen {
    let whole = format!(in alloc; "Value {{ inner: {wanted} }}").unwrap_or(String::new(alloc));
    let is_made = is_so(alloc, !whole.is_empty(), value, &wanted);
    both(is_made, shows(alloc, value, whole.as_str()))
}

// What was made is held so.
pub fn is_given(alloc: Global, made: TeraResult<Value>, wanted: &str) -> Seen {
    match made {
        Ok(value) => is_held(alloc, value, wanted),
        Err(refused) => unwanted(alloc, refused, wanted),
    }
}

// It gives a value that is held so.
pub fn gives<T: ToValue>(alloc: Global, source: T, wanted: &str) -> Seen {
    is_given(alloc, source.to_value(alloc), wanted)
}

#[test]
fn numbers_keep_their_sign(rt: HostRuntime) {
    let alloc = rt.alloc();
    hold!(
        &rt,
        [
            gives(alloc, u8::MAX, "U64(255)"),
            gives(alloc, u16::MAX, "U64(65535)"),
            gives(alloc, u32::MAX, "U64(4294967295)"),
            gives(alloc, u64::MAX, "U64(18446744073709551615)"),
            gives(alloc, usize::MAX, "U64(18446744073709551615)"),
            gives(
                alloc,
                u128::MAX,
                "U128(340282366920938463463374607431768211455)",
            ),
            gives(alloc, 0u128, "U128(0)"),
            gives(alloc, i8::MIN, "I64(-128)"),
            gives(alloc, i16::MIN, "I64(-32768)"),
            gives(alloc, i32::MIN, "I64(-2147483648)"),
            gives(alloc, i64::MIN, "I64(-9223372036854775808)"),
            gives(alloc, isize::MIN, "I64(-9223372036854775808)"),
            gives(
                alloc,
                i128::MIN,
                "I128(-170141183460469231731687303715884105728)",
            ),
            gives(alloc, 7i128, "I128(7)"),
            gives(alloc, Number::Integer(7), "I128(7)"),
        ],
    );
}

#[test]
fn single_values_are_given(rt: HostRuntime) {
    let alloc = rt.alloc();
    hold!(
        &rt,
        [
            gives(alloc, "é<", "String(false, \"é<\")"),
            gives(alloc, owned(alloc, "é<"), "String(false, \"é<\")"),
            gives(alloc, CowStr::Borrowed("é<"), "String(false, \"é<\")"),
            gives(
                alloc,
                CowStr::Owned(owned(alloc, "é<")),
                "String(false, \"é<\")",
            ),
            gives(alloc, "", "String(false, \"\")"),
            gives(alloc, String::new(alloc), "String(false, \"\")"),
            gives(alloc, 'a', "String(false, \"a\")"),
            gives(alloc, 'é', "String(false, \"é\")"),
            gives(alloc, '€', "String(false, \"€\")"),
            gives(alloc, '😀', "String(false, \"😀\")"),
            gives(alloc, '<', "String(false, \"<\")"),
            gives(alloc, true, "Bool(true)"),
            gives(alloc, false, "Bool(false)"),
            gives(alloc, (), "None"),
            gives(alloc, None::<u8>, "None"),
            gives(alloc, Some(7u8), "U64(7)"),
            gives(alloc, Some(None::<bool>), "None"),
            gives(alloc, Some("a"), "String(false, \"a\")"),
        ],
    );
}

// A reference to it gives a value that is held so.
fn gives_as_lent(alloc: Global, value: Value, wanted: &str) -> Seen {
    let row = gives(alloc, &value, wanted);
    drop(value);
    row
}

// The key that owns that text.
pub fn text_key(alloc: Global, of: &str) -> Key<'static> {
    match RcStr::from_str(alloc, of) {
        Ok(held) => Key::String(held),
        Err(_) => Key::Bool(false),
    }
}

#[test]
fn keys_and_values_are_given_as_they_are(rt: HostRuntime) {
    let alloc = rt.alloc();
    hold!(
        &rt,
        [
            gives(alloc, Key::Bool(true), "Bool(true)"),
            gives(alloc, Key::U64(7), "U64(7)"),
            gives(alloc, Key::I64(-7), "I64(-7)"),
            gives(alloc, Key::U128(7), "U128(7)"),
            gives(alloc, Key::I128(7), "I128(7)"),
            gives(alloc, Key::Str("é"), "String(false, \"é\")"),
            gives(alloc, text_key(alloc, "é"), "String(false, \"é\")"),
            gives(alloc, safe(alloc, "<"), "String(true, \"<\")"),
            gives(alloc, text(alloc, "<"), "String(false, \"<\")"),
            gives(alloc, Value::from(7u128), "U128(7)"),
            gives(alloc, Value::undefined(), "Undefined"),
            gives_as_lent(alloc, safe(alloc, "<"), "String(true, \"<\")"),
            gives_as_lent(alloc, Value::from(7i128), "I128(7)"),
        ],
    );
}

#[test]
fn what_is_lent_gives_the_same(rt: HostRuntime) {
    let alloc = rt.alloc();
    hold!(
        &rt,
        [
            gives(alloc, &true, "Bool(true)"),
            gives(alloc, &'é', "String(false, \"é\")"),
            gives(alloc, &owned(alloc, "é"), "String(false, \"é\")"),
            gives(alloc, &"é", "String(false, \"é\")"),
            gives(alloc, &7u8, "U64(7)"),
            gives(alloc, &7u16, "U64(7)"),
            gives(alloc, &7u32, "U64(7)"),
            gives(alloc, &7u64, "U64(7)"),
            gives(alloc, &7usize, "U64(7)"),
            gives(alloc, &7u128, "U128(7)"),
            gives(alloc, &-7i8, "I64(-7)"),
            gives(alloc, &-7i16, "I64(-7)"),
            gives(alloc, &-7i32, "I64(-7)"),
            gives(alloc, &-7i64, "I64(-7)"),
            gives(alloc, &-7isize, "I64(-7)"),
            gives(alloc, &-7i128, "I128(-7)"),
        ],
    );
}
