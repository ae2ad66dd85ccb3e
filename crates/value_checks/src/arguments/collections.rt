//! What collections give, by what their parts give.
mod refusing;

use crate::arguments::given::{gives, text_key};
use crate::arguments::made::{
    none_of, one_of, owned, set_of, table_of, tree_of, two_of, with_item,
};
use crate::held::hold;
use made_values::safe;
use std::alloc::Global;
use std::collections::{BTreeMap, HashMap};
use tera_values::{Key, Value};

#[test]
fn lists_and_sets_are_arrays(rt: HostRuntime) {
    let alloc = rt.alloc();
    let bytes = "Array([Value { inner: U64(1) }, Value { inner: U64(255) }])";
    let texts = "Array([Value { inner: String(false, \"b\") }])";
    let values = "Array([Value { inner: String(true, \"<\") }])";
    let numbers = "Array([Value { inner: I64(-2) }, Value { inner: I64(7) }])";
    let one = "Array([Value { inner: String(false, \"a\") }])";
    hold!(
        &rt,
        [
            gives(alloc, two_of(alloc, 1u8, 255u8), bytes),
            gives(alloc, one_of(alloc, "b"), texts),
            gives(alloc, one_of(alloc, safe(alloc, "<")), values),
            gives(alloc, none_of::<bool>(alloc), "Array([])"),
            gives(alloc, set_of(alloc, 7i32, -2i32), numbers),
            gives(alloc, set_of(alloc, "a", "a"), one),
        ],
    );
}

#[test]
fn slices_are_arrays_or_bytes(rt: HostRuntime) {
    let alloc = rt.alloc();
    let values = two_of(alloc, safe(alloc, "<"), Value::from(7u128));
    let array = "Array([Value { inner: String(true, \"<\") }, Value { inner: U128(7) }])";
    let no_values: &[Value] = &[];
    let no_bytes: &[u8] = &[];
    hold!(
        &rt,
        [
            gives(alloc, values.as_slice(), array),
            gives(alloc, no_values, "Array([])"),
            gives(alloc, b"a\xff".as_slice(), "Bytes([97, 255])"),
            gives(alloc, no_bytes, "Bytes([])"),
        ],
    );
    drop(values);
}

#[test]
fn maps_are_maps(rt: HostRuntime) {
    let alloc = rt.alloc();
    let lent = "Map({Str(\"é\"): Value { inner: U64(7) }})";
    let kept = "Map({String(\"é\"): Value { inner: None }})";
    let wide = "Map({U128(7): Value { inner: Bool(true) }})";
    let signed = "Map({Bool(true): Value { inner: I64(-7) }})";
    let letter = "Map({String(\"é\"): Value { inner: String(false, \"a\") }})";
    let negative = "Map({I128(-7): Value { inner: I128(7) }})";
    let some = "Map({Str(\"a\"): Value { inner: Bool(false) }})";
    let none = "Map({Str(\"a\"): Value { inner: None }})";
    hold!(
        &rt,
        [
            gives(alloc, table_of(alloc, "é", 7u8), lent),
            gives(alloc, table_of(alloc, owned(alloc, "é"), ()), kept),
            gives(alloc, table_of(alloc, 7u128, true), wide),
            gives(alloc, HashMap::<i128, bool>::new(alloc), "Map({})"),
            gives(alloc, tree_of(alloc, Key::Bool(true), -7i8), signed),
            gives(alloc, tree_of(alloc, text_key(alloc, "é"), 'a'), letter),
            gives(alloc, tree_of(alloc, -7i128, 7i128), negative),
            gives(alloc, BTreeMap::<&'static str, u8>::new(alloc), "Map({})"),
            gives(alloc, table_of(alloc, "a", Some(false)), some),
            gives(alloc, table_of(alloc, "a", None::<bool>), none),
        ],
    );
}

// A list of bytes, a list of none, and nothing.
fn lists_of_bytes(alloc: Global) -> Vec<Option<Vec<u8>>> {
    let lists = two_of(alloc, Some(one_of(alloc, 1u8)), None);
    with_item(lists, Some(none_of(alloc)))
}

#[test]
fn collections_nest(rt: HostRuntime) {
    let alloc = rt.alloc();
    let lists = "Array([Value { inner: Array([Value { inner: U64(1) }]) }, \
        Value { inner: None }, Value { inner: Array([]) }])";
    let numbers = "Map({String(\"a\"): \
        Value { inner: Array([Value { inner: I128(-1) }, Value { inner: I128(2) }]) }})";
    let numbers_of = two_of(alloc, -1i128, 2i128);
    hold!(
        &rt,
        [
            gives(alloc, lists_of_bytes(alloc), lists),
            gives(
                alloc,
                tree_of(alloc, owned(alloc, "a"), numbers_of),
                numbers,
            ),
            gives(
                alloc,
                Some(one_of(alloc, 1u8)),
                "Array([Value { inner: U64(1) }])",
            ),
        ],
    );
}
