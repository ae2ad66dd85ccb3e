//! What arrays and maps are taken as: copied or lent, and lists item by item.
use crate::arguments::given::is_given;
use crate::arguments::made::{none_of, one_of, owned, two_of};
use crate::arguments::taken::{is_no, one_pair_of, refuses, taken, takes};
use crate::held::{Seen, both, hold, is_so, unwanted};
use made_values::{at_texts, bytes, no_items, no_pairs, numbers, one_item, text, two_items};
use std::alloc::Global;
use tera_report::TeraResult;
use tera_values::{Key, Map, Value};

// The copy of the map that is taken.
fn copied_map(alloc: Global, value: &Value) -> TeraResult<Value> {
    let map: Map = taken(alloc, value)?;
    Ok(Value::of_map(map))
}

// That copy is held so.
fn copies_map(alloc: Global, value: Value, wanted: &str) -> Seen {
    let copy = copied_map(alloc, &value);
    drop(value);
    is_given(alloc, copy, wanted)
}

// In the map that is lent, the first key is that text, and it has that number.
fn lends_map(alloc: Global, value: Value, key: &str, wanted: i64) -> Seen {
    let row = match taken::<Value, &Map>(alloc, &value) {
        Ok(map) => both(
            has_first(alloc, map, key),
            has_number(alloc, map, key, wanted),
        ),
        Err(refused) => unwanted(alloc, refused, key),
    };
    drop(value);
    row
}

// The first key of the map is that text.
fn has_first(alloc: Global, map: &Map, key: &str) -> Seen {
    let found = map.get_index(0);
    let holds = match found {
        Some((first, _)) => first.as_str() == Some(key),
        None => false,
    };
    is_so(alloc, holds, &found, &key)
}

// In the map a text has that number.
fn has_number(alloc: Global, map: &Map, key: &str, wanted: i64) -> Seen {
    let found = map.get(&Key::Str(key));
    let holds = match found {
        Some(value) => value.as_i64() == Some(wanted),
        None => false,
    };
    is_so(alloc, holds, &found, &wanted)
}

#[test]
fn maps_are_copied_or_lent(rt: HostRuntime) {
    let alloc = rt.alloc();
    let map = "Map({Str(\"é\"): Value { inner: I64(7) }})";
    let falling = "Map({Str(\"b\"): Value { inner: I64(1) }, \
        Str(\"a\"): Value { inner: I64(2) }})";
    let pairs = [("b", 1), ("a", 2)];
    let items = no_items(alloc);
    hold!(
        &rt,
        [
            copies_map(alloc, one_pair_of(alloc), map),
            copies_map(alloc, at_texts(alloc, &pairs), falling),
            lends_map(alloc, one_pair_of(alloc), "é", 7),
            lends_map(alloc, at_texts(alloc, &pairs), "b", 1),
            copies_map(alloc, no_pairs(alloc), "Map({})"),
            is_no::<Value, Map>(alloc, &items, "Map", "array"),
            is_no::<Value, &Map>(alloc, &items, "Map", "array"),
        ],
    );
    drop(items);
}

// Items are lent that are equal to these.
fn lends_items(alloc: Global, value: Value, wanted: Vec<Value>) -> Seen {
    let row = takes(alloc, &value, wanted.as_slice());
    drop(value);
    drop(wanted);
    row
}

// It is refused where items are to be lent.
fn has_no_items(alloc: Global, value: Value, name: &str) -> Seen {
    let row = is_no::<Value, &[Value]>(alloc, &value, "&[Value]", name);
    drop(value);
    row
}

#[test]
fn items_are_lent(rt: HostRuntime) {
    let alloc = rt.alloc();
    let held = two_of(alloc, Value::from(1i64), Value::from(2i64));
    hold!(
        &rt,
        [
            lends_items(alloc, numbers(alloc, &[1, 2]), held),
            has_no_items(alloc, no_pairs(alloc), "map/struct"),
            has_no_items(alloc, bytes(alloc, b"\x01"), "bytes"),
        ],
    );
}

#[test]
fn lists_are_taken_item_by_item(rt: HostRuntime) {
    let alloc = rt.alloc();
    let of = [
        two_items(alloc, numbers(alloc, &[1, 255]), no_items(alloc)),
        two_items(alloc, Value::from(5u8), text(alloc, "é")),
        one_item(alloc, text(alloc, "é")),
        one_item(alloc, Value::from(true)),
        no_items(alloc),
    ];
    let [nested, both, one_text, one_truth, none] = &of;
    let lists = two_of(alloc, two_of(alloc, 1u8, 255u8), Vec::new(alloc));
    let texts = two_of(alloc, owned(alloc, "5"), owned(alloc, "é"));
    hold!(
        &rt,
        [
            takes(alloc, nested, lists),
            takes(alloc, both, texts),
            takes(alloc, one_text, one_of(alloc, "é")),
            takes(alloc, one_truth, one_of(alloc, true)),
            takes(alloc, none, none_of::<u8>(alloc)),
        ],
    );
    drop(of);
}

// It is no list of bytes: it is refused as a value of another type than the one of that name.
fn is_no_list(alloc: Global, value: Value, wanted: &str, name: &str) -> Seen {
    let row = is_no::<Value, Vec<u8>>(alloc, &value, wanted, name);
    drop(value);
    row
}

#[test]
fn the_first_refusal_of_an_item_is_passed_on(rt: HostRuntime) {
    let alloc = rt.alloc();
    let of = [
        two_items(alloc, Value::from(1u8), text(alloc, "x")),
        two_items(alloc, Value::from(300u16), text(alloc, "x")),
    ];
    let [one_and_text, wide_and_text] = &of;
    let text_and_wide = two_items(alloc, text(alloc, "x"), Value::from(300u16));
    let told = "Value `300` is out of range for `u8`";
    hold!(
        &rt,
        [
            is_no::<Value, Vec<u8>>(alloc, one_and_text, "u8", "string"),
            is_no_list(alloc, text_and_wide, "u8", "string"),
            refuses::<Value, Vec<u8>>(alloc, wide_and_text, told),
            is_no_list(alloc, bytes(alloc, b"\x01"), "Vec<Value>", "bytes"),
            is_no::<Value, Vec<Vec<u8>>>(alloc, one_and_text, "Vec<Value>", "u64"),
        ],
    );
    drop(of);
}
