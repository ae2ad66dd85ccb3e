//! What is read of values.
use crate::held::{Seen, both, hold, is_so, nothing, same, unwanted};
use made_values::{
    at_texts, bytes, many_items, many_pairs, no_items, no_pairs, numbers, one_pair, text,
};
use std::alloc::Global;
use tera_values::{Key, Value, ValueKind};

// Which tests of kinds hold of it, in the order of the kinds.
fn tests(value: &Value) -> [bool; 11] {
    [
        value.is_undefined(),
        value.is_none(),
        value.is_bool(),
        value.is_u64(),
        value.is_i64(),
        value.is_u128(),
        value.is_i128(),
        value.is_string(),
        value.is_array(),
        value.is_map(),
        value.is_bytes(),
    ]
}

// The test at that place alone holds of it.
fn is_only(alloc: Global, value: &Value, place: usize) -> Seen {
    let found = tests(value);
    for (i, holds) in found.iter().enumerate() {
        is_so(alloc, *holds == (i == place), &(value, found), &place)?;
    }
    Ok(())
}

#[test]
fn tests_of_kinds(rt: HostRuntime) {
    let alloc = rt.alloc();
    let all = [
        Value::undefined(),
        Value::none(),
        Value::from(false),
        Value::from(0u8),
        Value::from(-1i8),
        Value::from(1u128),
        Value::from(1i128),
        text(alloc, ""),
        no_items(alloc),
        no_pairs(alloc),
        bytes(alloc, b""),
    ];
    for (place, value) in all.iter().enumerate() {
        if let Err(seen) = is_only(alloc, value, place) {
            panic!(rt; "at {place}: {seen}");
        }
    }
    drop(all);
}

// It is of that kind and name, and can be gone over or not.
fn reads(alloc: Global, value: Value, wanted: (ValueKind, &str, bool)) -> Seen {
    let (kind, name, has_parts) = wanted;
    let found = (value.kind(), value.name(), value.can_be_iterated_on());
    let holds = found.0 == kind && found.1 == name && found.2 == has_parts;
    let row = is_so(alloc, holds, &found, &wanted);
    drop(value);
    row
}

#[test]
fn what_is_gone_over(rt: HostRuntime) {
    let alloc = rt.alloc();
    hold!(
        &rt,
        [
            reads(alloc, text(alloc, "a"), (ValueKind::String, "string", true)),
            reads(
                alloc,
                bytes(alloc, b"ab"),
                (ValueKind::Bytes, "bytes", true),
            ),
            reads(
                alloc,
                many_items(alloc, 2),
                (ValueKind::Array, "array", true),
            ),
            reads(
                alloc,
                many_pairs(alloc, 3),
                (ValueKind::Map, "map/struct", true),
            ),
            reads(alloc, Value::from(-1i8), (ValueKind::I64, "i64", false)),
            reads(alloc, Value::from(1u8), (ValueKind::U64, "u64", false)),
            reads(alloc, Value::from(1i128), (ValueKind::I128, "i128", false)),
            reads(alloc, Value::from(1u128), (ValueKind::U128, "u128", false)),
            reads(alloc, Value::from(true), (ValueKind::Bool, "bool", false)),
            reads(alloc, Value::none(), (ValueKind::None, "none", false)),
            reads(
                alloc,
                Value::undefined(),
                (ValueKind::Undefined, "undefined", false),
            ),
        ],
    );
}

// How many items or pairs are lent.
fn lent(value: Value) -> Option<usize> {
    let count = parts_lent(&value);
    drop(value);
    count
}

fn parts_lent(value: &Value) -> Option<usize> {
    match value.kind() {
        ValueKind::Array => Some(value.as_array()?.len()),
        ValueKind::Map => Some(value.as_map()?.len()),
        _ => None,
    }
}

// How many items are handed over.
fn items_taken(value: Value) -> Option<usize> {
    let items = value.into_vec()?;
    let count = items.len();
    drop(items);
    Some(count)
}

// How many pairs are handed over.
fn pairs_taken(value: Value) -> Option<usize> {
    let map = value.into_map()?;
    let count = map.len();
    drop(map);
    Some(count)
}

#[test]
fn parts_are_lent_and_handed_over(rt: HostRuntime) {
    let alloc = rt.alloc();
    hold!(
        &rt,
        [
            same(alloc, &lent(many_items(alloc, 2)), &Some(2)),
            same(alloc, &lent(many_pairs(alloc, 3)), &Some(3)),
            same(alloc, &items_taken(many_items(alloc, 2)), &Some(2)),
            same(alloc, &pairs_taken(many_pairs(alloc, 3)), &Some(3)),
        ],
    );
}

// What it holds at an item is that number, or nothing.
fn holds_at(alloc: Global, value: Value, at: Value, wanted: Option<i64>) -> Seen {
    let part = value.get_at(&at);
    let found = match part {
        Some(part) => part.as_i64(),
        None => None,
    };
    let row = is_so(alloc, found == wanted, &part, &wanted);
    drop(value);
    drop(at);
    row
}

#[test]
fn items_are_lent(rt: HostRuntime) {
    let alloc = rt.alloc();
    let pairs = at_texts(alloc, &[("a", 5), ("b", 6)]);
    hold!(
        &rt,
        [
            holds_at(alloc, pairs, text(alloc, "b"), Some(6)),
            holds_at(
                alloc,
                many_pairs(alloc, 20),
                text(alloc, "key é 19"),
                Some(19),
            ),
            holds_at(
                alloc,
                one_pair(alloc, Key::U64(1), Value::from(8i64)),
                Value::from(1i128),
                Some(8),
            ),
            holds_at(
                alloc,
                numbers(alloc, &[5, 6, 7]),
                Value::from(-1i8),
                Some(7),
            ),
            holds_at(alloc, numbers(alloc, &[5, 6, 7]), Value::from(3u8), None),
            holds_at(alloc, numbers(alloc, &[5]), text(alloc, "0"), None),
            holds_at(alloc, text(alloc, "5"), Value::from(0u8), None),
        ],
    );
}

// It is those bytes.
fn are_bytes(alloc: Global, value: Value, wanted: &[u8]) -> Seen {
    let row = is_so(alloc, value.as_bytes() == Some(wanted), &value, &wanted);
    drop(value);
    row
}

#[test]
fn bytes_are_lent(rt: HostRuntime) {
    let alloc = rt.alloc();
    hold!(&rt, [are_bytes(alloc, bytes(alloc, b"ab"), b"ab")]);
}

// It is no map.
fn is_no_map(alloc: Global, value: Value) -> Seen {
    let map = value.into_map();
    let row = nothing(alloc, &map);
    drop(map);
    row
}

#[test]
fn none_is_no_map(rt: HostRuntime) {
    hold!(&rt, [is_no_map(rt.alloc(), Value::none())]);
}

// An `e`, an accent of its own and four letters.
const ACCENTED: &str = "e\u{301}cole";

// The text has so many characters, and reversed it is that text, which is not safe.
fn turns(alloc: Global, of: Value, count: usize, wanted: &str) -> Seen {
    let is_counted = same(alloc, &of.len(), &Some(count));
    let is_turned = match of.reverse(alloc) {
        Ok(made) => is_unsafe(alloc, made, wanted),
        Err(refused) => unwanted(alloc, refused, wanted),
    };
    drop(of);
    both(is_counted, is_turned)
}

fn is_unsafe(alloc: Global, made: Value, wanted: &str) -> Seen {
    let holds = made.as_str() == Some(wanted) && !made.is_safe();
    let row = is_so(alloc, holds, &made, &wanted);
    drop(made);
    row
}

#[test]
fn len_and_reverse_use_chars(rt: HostRuntime) {
    let alloc = rt.alloc();
    let turned = "eloc\u{301}e";
    hold!(&rt, [turns(alloc, text(alloc, ACCENTED), 6, turned)]);
}
