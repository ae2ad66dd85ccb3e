//! What is written of values that no text of JSON is read as, and what is refused of them.
use crate::held::hold;
use made_values::{bytes, no_pairs, one_item, safe, text, two_items, with};
use std::alloc::Global;
use tera_json::{Lacking, to_json, to_json_with};
use tera_report::TeraResult;
use tera_values::{Key, Map, Value};

// Whether that was written, or said by the refusal.
fn is(alloc: Global, told: TeraResult<String>, wanted: &str) -> bool {
    match told {
        Ok(found) => found.as_str() == wanted,
        Err(refused) => match refused.to_string(alloc) {
            Ok(found) => found.as_str() == wanted,
            Err(_) => false,
        },
    }
}

// Whether that is written of a value, which is let go.
fn writes(alloc: Global, value: Value, wanted: &str) -> bool {
    let so = is(alloc, to_json(alloc, &value), wanted);
    drop(value);
    so
}

// Whether that is written with null for undefined and bytes.
fn writes_nulls(alloc: Global, value: Value, wanted: &str) -> bool {
    let so = is(alloc, to_json_with(alloc, &value, Lacking::Null), wanted);
    drop(value);
    so
}

// Some pairs, with one more.
fn with_number(map: Map, key: Key<'static>) -> Map {
    with(map, key, Value::from(7u8))
}

#[test]
fn keys_become_texts(rt: HostRuntime) {
    let alloc = rt.alloc();
    let kinds = with_number(with_number(Map::new(alloc), Key::Bool(true)), Key::I128(-5));
    let kinds = with_number(with_number(kinds, Key::U64(1)), Key::Str("b"));
    let number = with_number(with_number(Map::new(alloc), Key::U64(1)), Key::Str("1"));
    let truth = with_number(
        with_number(Map::new(alloc), Key::Str("true")),
        Key::Bool(true),
    );
    let inside = one_item(alloc, Value::of_map(truth));
    hold!(
        &rt,
        [
            writes(
                alloc,
                Value::of_map(kinds),
                "{\"true\":7,\"-5\":7,\"1\":7,\"b\":7}",
            ),
            writes(
                alloc,
                Value::of_map(number),
                "Key at `/1` is written as another key is",
            ),
            writes(
                alloc,
                inside,
                "Key at `/0/true` is written as another key is",
            ),
        ],
    );
}

#[test]
fn undefined_and_bytes_are_refused_unless_null_is_chosen(rt: HostRuntime) {
    let alloc = rt.alloc();
    let both = two_items(alloc, Value::none(), bytes(alloc, b"a"));
    let again = two_items(alloc, Value::undefined(), bytes(alloc, b"a"));
    let at = Value::of_map(with(Map::new(alloc), Key::Str("a/b"), Value::undefined()));
    hold!(
        &rt,
        [
            writes(
                alloc,
                Value::undefined(),
                "Value of type `undefined` at `` has no JSON",
            ),
            writes(alloc, both, "Value of type `bytes` at `/1` has no JSON"),
            writes(
                alloc,
                at,
                "Value of type `undefined` at `/a~1b` has no JSON",
            ),
            writes_nulls(alloc, again, "[null,null]"),
        ],
    );
}

#[test]
fn flags_are_not_written(rt: HostRuntime) {
    let alloc = rt.alloc();
    let both = two_items(alloc, safe(alloc, "<"), text(alloc, "<"));
    hold!(
        &rt,
        [
            writes(alloc, both, "[\"<\",\"<\"]"),
            writes(alloc, no_pairs(alloc), "{}"),
        ],
    );
}
