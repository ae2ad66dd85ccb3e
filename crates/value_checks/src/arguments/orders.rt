//! In which order the pairs of maps stand that are given, named and walked over.
use crate::arguments::given::gives;
use crate::arguments::made::{many_in_table, row_of, tree_of};
use crate::arguments::named::{comes_as, have_names, is_shown, or_none, thousand_pairs};
use crate::held::{Seen, both, hold, is_so, same};
use made_values::{or_undefined, printed, with};
use std::alloc::Global;
use std::collections::{BTreeMap, HashMap};
use tera_arguments::Kwargs;
use tera_conversions::ToValue;
use tera_values::{Key, Map, Value};

// The map of a number at `b`, and then of one at `a`.
fn falling(alloc: Global) -> Map {
    let first = with(Map::new(alloc), Key::Str("b"), Value::from(1u8));
    with(first, Key::Str("a"), Value::from(2u8))
}

// Two pairs in a tree, which stands in the order of its keys.
fn in_tree(alloc: Global) -> BTreeMap<&'static str, u8> {
    let mut map = tree_of(alloc, "b", 1);
    let _ = map.insert("a", 2);
    map
}

// Two pairs in a hashed map.
fn in_table(alloc: Global) -> HashMap<&'static str, u8> {
    let mut map = HashMap::new(alloc);
    let _ = map.insert("b", 1);
    let _ = map.insert("a", 2);
    map
}

#[test]
fn maps_stand_as_what_gives_them(rt: HostRuntime) {
    let alloc = rt.alloc();
    let falls = "Map({Str(\"b\"): Value { inner: U64(1) }, Str(\"a\"): Value { inner: U64(2) }})";
    let rises = "Map({Str(\"a\"): Value { inner: U64(2) }, Str(\"b\"): Value { inner: U64(1) }})";
    let later = "Map({Str(\"b\"): Value { inner: U64(2) }})";
    hold!(
        &rt,
        [
            gives(alloc, falling(alloc), falls),
            gives(alloc, row_of(alloc, ("b", 1u8), ("a", 2u8)), falls),
            gives(alloc, row_of(alloc, ("a", 2u8), ("b", 1u8)), rises),
            gives(alloc, row_of(alloc, ("b", 1u8), ("b", 2u8)), later),
            gives(alloc, in_tree(alloc), rises),
            gives(alloc, in_table(alloc), rises),
        ],
    );
}

// The keys of the map rise.
fn rises(alloc: Global, map: &Map) -> Seen {
    let mut last: Option<&Key<'static>> = None;
    for (key, _) in map.iter() {
        if let Some(before) = last {
            is_so(alloc, *before < *key, &(before, key), &"rising keys")?;
        }
        last = Some(key);
    }
    Ok(())
}

// A hashed map of so many pairs gives one of as many, whose keys rise.
fn gives_rising(alloc: Global, count: i64) -> Seen {
    let given = or_undefined(many_in_table(alloc, count).to_value(alloc));
    let row = match given.as_map() {
        Some(map) => both(
            same(alloc, &(map.len() as i128), &(count as i128)),
            rises(alloc, map),
        ),
        None => is_so(alloc, false, &given, &"a map"),
    };
    drop(given);
    row
}

#[test]
fn hashed_maps_give_rising_ones(rt: HostRuntime) {
    let alloc = rt.alloc();
    hold!(
        &rt,
        [
            gives_rising(alloc, 0),
            gives_rising(alloc, 1),
            gives_rising(alloc, 2),
            gives_rising(alloc, 1000),
        ],
    );
}

#[test]
fn arguments_come_in_their_order(rt: HostRuntime) {
    let alloc = rt.alloc();
    let put_again = with(falling(alloc), Key::Str("b"), Value::from(3u8));
    hold!(
        &rt,
        [
            have_names(alloc, Kwargs::new(Map::new(alloc)), &[]),
            have_names(alloc, Kwargs::new(falling(alloc)), &["b", "a"]),
            have_names(alloc, Kwargs::new(put_again), &["b", "a"]),
        ],
    );
}

// Arguments of which the third has the key of the first.
fn with_equal_key(alloc: Global) -> Kwargs {
    let pairs = [
        ("b", Value::from(1u8)),
        ("a", Value::from(2u8)),
        ("b", Value::from(3u8)),
    ];
    or_none(alloc, Kwargs::from_pairs(alloc, pairs))
}

#[test]
fn an_equal_key_keeps_its_place(rt: HostRuntime) {
    let alloc = rt.alloc();
    let shown = "KwargsOf { values: Value { inner: Map({Str(\"b\"): Value { inner: U64(3) }, \
        Str(\"a\"): Value { inner: U64(2) }}) } }";
    let of = with_equal_key(alloc);
    hold!(
        &rt,
        [
            comes_as(alloc, of.iter(), &["b", "a"]),
            is_shown(alloc, of, shown),
        ],
    );
}

// The arguments come at 999, 998, .. down to 0, and are 0, 1, .. up to 999.
fn falls(alloc: Global, of: &Kwargs) -> Seen {
    let mut next = 999u128;
    for (key, value) in of.iter() {
        let place = 999u128.wrapping_sub(next);
        let holds = match key {
            Key::U128(number) => *number == next && value.as_u128() == Some(place),
            _ => false,
        };
        is_so(alloc, holds, &(key, value), &(next, place))?;
        next = next.wrapping_sub(1);
    }
    same(alloc, &next, &0u128.wrapping_sub(1))
}

#[test]
fn many_arguments_come_in_their_order(rt: HostRuntime) {
    let alloc = rt.alloc();
    let of = thousand_pairs(alloc);
    hold!(&rt, [falls(alloc, &of)]);
    drop(of);
}

// The map prints that.
fn prints(alloc: Global, map: Map, wanted: &str) -> Seen {
    let value = Value::of_map(map);
    let text = printed(alloc, &value);
    drop(value);
    same(alloc, &text.as_str(), &wanted)
}

#[test]
fn maps_print_in_their_order(rt: HostRuntime) {
    let alloc = rt.alloc();
    let put_again = with(falling(alloc), Key::Str("b"), Value::from(3u8));
    hold!(
        &rt,
        [
            prints(alloc, falling(alloc), "{\"b\": 1, \"a\": 2}"),
            prints(alloc, put_again, "{\"b\": 3, \"a\": 2}"),
        ],
    );
}
