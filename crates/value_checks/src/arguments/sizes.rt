//! What is lent of values without parts, with one and with 1,000.
use crate::arguments::inputs::rendered;
use crate::arguments::taken::{is_lent, taken, takes};
use crate::held::{Seen, both, hold, is_so, same};
use made_values::{many_items, many_pairs, repeated};
use std::alloc::Global;
use tera_values::{Map, Value};

// So many values.
fn many_values(alloc: Global, count: i64) -> Vec<Value> {
    many_items(alloc, count)
        .into_vec()
        .unwrap_or(Vec::new(alloc))
}

// The items of an array of so many.
fn lends_items(alloc: Global, count: i64) -> Seen {
    let of = many_items(alloc, count);
    let held = many_values(alloc, count);
    let row = takes(alloc, &of, held.as_slice());
    drop(of);
    drop(held);
    row
}

// How many pairs the map has that is lent.
fn lent_count(alloc: Global, value: &Value) -> Option<usize> {
    match taken::<Value, &Map>(alloc, value).ok() {
        Some(map) => Some(map.len()),
        None => None,
    }
}

// The map of so many pairs.
fn lends_pairs(alloc: Global, count: i64) -> Seen {
    let of = many_pairs(alloc, count);
    let is_map = is_so(alloc, of.is_map(), &of, &"a map");
    let is_counted = same(alloc, &lent_count(alloc, &of), &of.len());
    drop(of);
    both(is_map, is_counted)
}

// A text of so many characters and one more.
fn lends_text(alloc: Global, count: usize) -> Seen {
    let of = repeated(alloc, 'é', count, "<");
    let text = of.as_str().unwrap_or("");
    let is_taken = takes(alloc, &of, text);
    let is_stood = is_lent(alloc, taken(alloc, &of), text);
    let is_shown = is_lent(alloc, rendered(alloc, &of, false), text);
    drop(of);
    both(is_taken, both(is_stood, is_shown))
}

#[test]
fn parts_of_any_size_are_lent(rt: HostRuntime) {
    let alloc = rt.alloc();
    hold!(
        &rt,
        [
            lends_items(alloc, 0),
            lends_items(alloc, 1),
            lends_items(alloc, 1000),
            lends_pairs(alloc, 0),
            lends_pairs(alloc, 1),
            lends_pairs(alloc, 1000),
            lends_text(alloc, 0),
            lends_text(alloc, 1),
            lends_text(alloc, 1000),
        ],
    );
}
