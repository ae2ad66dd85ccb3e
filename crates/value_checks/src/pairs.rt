//! Maps as a caller fills, asks and walks over them.
use crate::held::{Seen, both, hold, is_so, nothing, same, unwanted};
use made_values::with;
use std::alloc::Global;
use std::mem;
use std::ops::Range;
use tera_values::{Key, Map, Pairs, Value};

// What was found is that number.
fn is(alloc: Global, found: Option<&Value>, number: u8) -> Seen {
    is_equal(alloc, found, Value::from(number))
}

fn is_equal(alloc: Global, found: Option<&Value>, wanted: Value) -> Seen {
    let row = is_so(alloc, found == Some(&wanted), &found, &wanted);
    drop(wanted);
    row
}

// At a key, in whatever width, the map has that number.
fn key_has(alloc: Global, map: &Map, key: Key<'static>, number: u8) -> Seen {
    let row = is(alloc, map.get(&key), number);
    drop(key);
    row
}

// A pair that is lent, or nothing.
type Found<'a> = Option<(&'a Key<'static>, &'a Value)>;

// That is the pair of that key and number.
fn is_pair(alloc: Global, found: Found<'_>, key: Key<'static>, number: u8) -> Seen {
    let wanted = Value::from(number);
    let holds = match found {
        Some((held, value)) => *held == key && *value == wanted,
        None => false,
    };
    let row = is_so(alloc, holds, &found, &(&key, &wanted));
    drop(wanted);
    drop(key);
    row
}

// A text and a number as keys, and the text put once more.
fn filled(alloc: Global) -> Map {
    let text = with(Map::new(alloc), Key::Str("b"), Value::from(1u8));
    let number = with(text, Key::U64(7), Value::from(2u8));
    with(number, Key::Str("b"), Value::from(3u8))
}

#[test]
fn what_is_put_is_found(rt: HostRuntime) {
    let alloc = rt.alloc();
    let map = filled(alloc);
    hold!(
        &rt,
        [
            is(alloc, map.get(&Key::Str("b")), 3),
            key_has(alloc, &map, Key::I64(7), 2),
            nothing(alloc, &map.get(&Key::Str("7"))),
            same(alloc, &map.len(), &2),
            is_so(alloc, !map.is_empty(), &map, &"a map that is not empty"),
        ],
    );
    drop(map);
}

// What was there at the key is given back, and then the number is there.
fn gives_back(alloc: Global, map: &mut Map, put: (Key<'static>, u8), before: Option<u8>) -> Seen {
    let (key, number) = put;
    match map.insert(key, Value::from(number)) {
        Ok(given) => was_there(alloc, given, before),
        Err(refused) => unwanted(alloc, refused, "room for a pair"),
    }
}

fn was_there(alloc: Global, given: Option<Value>, before: Option<u8>) -> Seen {
    let row = match before {
        Some(held) => is(alloc, given.as_ref(), held),
        None => nothing(alloc, &given),
    };
    drop(given);
    row
}

#[test]
fn what_was_there_is_given_back(rt: HostRuntime) {
    let alloc = rt.alloc();
    let mut map = Map::new(alloc);
    hold!(
        &rt,
        [
            gives_back(alloc, &mut map, (Key::U64(7), 1), None),
            gives_back(alloc, &mut map, (Key::Str("7"), 2), None),
            gives_back(alloc, &mut map, (Key::I128(7), 3), Some(1)),
            same(alloc, &map.len(), &2),
        ],
    );
    drop(map);
}

// A key that is there keeps its place, and takes the later value.
#[test]
fn pairs_come_in_the_order_of_their_keys_first_insertion(rt: HostRuntime) {
    let alloc = rt.alloc();
    let map = filled(alloc);
    let mut left = map.iter();
    hold!(
        &rt,
        [
            is_pair(alloc, left.next(), Key::Str("b"), 3),
            is_pair(alloc, left.next(), Key::U64(7), 2),
            nothing(alloc, &left.next()),
        ],
    );
    drop(map);
}

#[test]
fn pairs_have_places(rt: HostRuntime) {
    let alloc = rt.alloc();
    let map = filled(alloc);
    hold!(
        &rt,
        [
            is_pair(alloc, map.get_index(0), Key::Str("b"), 3),
            is_pair(alloc, map.get_index(1), Key::U64(7), 2),
            nothing(alloc, &map.get_index(2)),
            nothing(alloc, &map.get_index(usize::MAX)),
        ],
    );
    drop(map);
}

// The first key of those that are equal stays, in the width that it has.
#[test]
fn the_first_key_stays(rt: HostRuntime) {
    let alloc = rt.alloc();
    hold!(
        &rt,
        [
            keeps_first(alloc, 1, 0),
            keeps_first(alloc, 12, 11),
            keeps_first(alloc, 13, 0),
            keeps_first(alloc, 13, 12),
            keeps_first(alloc, 25, 24),
            keeps_first(alloc, 100, 13),
        ],
    );
}

// Of so many numbers in 64 bits the one that is put again, in 128, stays as it was.
fn keeps_first(alloc: Global, count: u8, number: u8) -> Seen {
    let map = counted(Map::new(alloc), 0..count);
    let again = with(map, Key::I128(i128::from(number)), Value::none());
    let place = usize::from(number);
    let row = is_wide(alloc, again.get_index(place), u64::from(number));
    let is_counted = same(alloc, &again.len(), &usize::from(count));
    drop(again);
    both(row, is_counted)
}

// The key of that pair is that number in 64 bits.
fn is_wide(alloc: Global, found: Found<'_>, wanted: u64) -> Seen {
    let holds = match found {
        Some((Key::U64(number), _)) => *number == wanted,
        _ => false,
    };
    is_so(alloc, holds, &found, &wanted)
}

// Two walks give the same pairs in the same order.
fn are_alike(alloc: Global, left: Pairs<'_>, right: Pairs<'_>) -> Seen {
    let mut right = right;
    for (key, value) in left {
        let next = right.next();
        let holds = match next {
            Some((other, held)) => key == other && value == held,
            None => false,
        };
        is_so(alloc, holds, &next, &(key, value))?;
    }
    nothing(alloc, &right.next())
}

#[test]
fn copies_keep_the_order(rt: HostRuntime) {
    let alloc = rt.alloc();
    let map = filled(alloc);
    let copy = map.clone().unwrap_or(Map::new(alloc));
    hold!(
        &rt,
        [
            same(alloc, &copy.len(), &2),
            are_alike(alloc, map.iter(), copy.iter()),
        ],
    );
    drop(copy);
    drop(map);
}

#[test]
fn a_map_without_pairs_has_none(rt: HostRuntime) {
    let alloc = rt.alloc();
    let map = Map::new(alloc);
    hold!(
        &rt,
        [
            is_so(alloc, map.is_empty(), &map, &"an empty map"),
            same(alloc, &map.len(), &0),
            nothing(alloc, &map.get(&Key::Bool(true))),
            nothing(alloc, &map.get_index(0)),
            nothing(alloc, &map.iter().next()),
        ],
    );
    drop(map);
}

// The map with those numbers too, each at itself.
fn counted(map: Map, numbers: Range<u8>) -> Map {
    let mut map = map;
    for number in numbers {
        map = with(map, Key::U64(u64::from(number)), Value::from(number));
    }
    map
}

// The pairs given away are the numbers from 0 up, so many, each at itself.
fn gives_away(alloc: Global, map: Map, count: u8) -> Seen {
    let mut row = Ok(());
    let mut number = 0u8;
    for (key, value) in map {
        let wanted = Key::U64(u64::from(number));
        row = both(row, is_pair(alloc, Some((&key, &value)), wanted, number));
        number = number.saturating_add(1);
        drop(value);
        drop(key);
    }
    both(row, same(alloc, &number, &count))
}

#[test]
fn pairs_are_given_away_in_their_order(rt: HostRuntime) {
    let alloc = rt.alloc();
    hold!(
        &rt,
        [
            gives_away(alloc, counted(Map::new(alloc), 0..0), 0),
            gives_away(alloc, counted(Map::new(alloc), 0..1), 1),
            gives_away(alloc, counted(Map::new(alloc), 0..12), 12),
            gives_away(alloc, counted(Map::new(alloc), 0..13), 13),
            gives_away(alloc, counted(Map::new(alloc), 0..100), 100),
        ],
    );
}

// A copy of so many pairs, put on to a hundred, has them all in their order.
fn copy_grows(alloc: Global, count: u8) -> Seen {
    let map = counted(Map::new(alloc), 0..count);
    let copy = map.clone().unwrap_or(Map::new(alloc));
    drop(map);
    gives_away(alloc, counted(copy, count..100), 100)
}

#[test]
fn copies_grow(rt: HostRuntime) {
    let alloc = rt.alloc();
    hold!(
        &rt,
        [
            copy_grows(alloc, 0),
            copy_grows(alloc, 1),
            copy_grows(alloc, 5),
            copy_grows(alloc, 11),
            copy_grows(alloc, 12),
            copy_grows(alloc, 13),
        ],
    );
}

#[test]
fn many_pairs_are_found(rt: HostRuntime) {
    let alloc = rt.alloc();
    let map = counted(Map::new(alloc), 0..100);
    hold!(
        &rt,
        [
            key_has(alloc, &map, Key::I64(12), 12),
            key_has(alloc, &map, Key::U128(99), 99),
            nothing(alloc, &map.get(&Key::U64(100))),
            is_pair(alloc, map.get_index(13), Key::U64(13), 13),
            nothing(alloc, &map.get_index(100)),
            same(alloc, &map.len(), &100),
        ],
    );
    drop(map);
}

#[test]
fn a_value_is_small(rt: HostRuntime) {
    let size = mem::size_of::<Value>();
    hold!(&rt, [is_so(rt.alloc(), size <= 32, &size, &"at most 32")]);
}
