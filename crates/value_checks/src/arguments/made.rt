//! What is given and taken in the tests. Where memory is wanting a part is left out, so that the
//! test which looks at it fails.
use crate::held::{Seen, same};
use indexmap::IndexMap;
use std::alloc::Global;
use std::collections::{BTreeMap, BTreeSet, HashMap};
use std::fmt::Display;
use std::hash::Hash;

/// A text of its own.
pub fn owned(alloc: Global, of: &str) -> String {
    String::from_str(alloc, of).unwrap_or(String::new(alloc))
}

/// It displays that.
pub fn displays<D: Display>(alloc: Global, it: &D, wanted: &str) -> Seen {
    let text = format!(in alloc; "{it}").unwrap_or(String::new(alloc));
    same(alloc, &text.as_str(), &wanted)
}

/// A list of no item.
pub fn none_of<T>(alloc: Global) -> Vec<T> {
    Vec::new(alloc)
}

/// The list and one more item.
pub fn with_item<T: Drop>(items: Vec<T>, item: T) -> Vec<T> {
    let mut items = items;
    let _ = items.push(item);
    items
}

/// A list of one item.
pub fn one_of<T: Drop>(alloc: Global, item: T) -> Vec<T> {
    with_item(Vec::new(alloc), item)
}

/// A list of two items.
pub fn two_of<T: Drop>(alloc: Global, first: T, second: T) -> Vec<T> {
    with_item(one_of(alloc, first), second)
}

/// A set of two.
pub fn set_of<T: Ord + Drop>(alloc: Global, first: T, second: T) -> BTreeSet<T> {
    let mut set = BTreeSet::new(alloc);
    let _ = set.insert(first);
    let _ = set.insert(second);
    set
}

/// A map of one pair, in the order of keys.
pub fn tree_of<K: Ord + Drop, T: Drop>(alloc: Global, key: K, value: T) -> BTreeMap<K, T> {
    let mut map = BTreeMap::new(alloc);
    let _ = map.insert(key, value);
    map
}

/// A hashed map of one pair.
pub fn table_of<K: Eq + Hash + Drop, T: Drop>(alloc: Global, key: K, value: T) -> HashMap<K, T> {
    let mut map = HashMap::new(alloc);
    let _ = map.insert(key, value);
    map
}

/// A map of two pairs, in the order in which they are put.
pub fn row_of<K: Eq + Hash + Drop, T: Drop>(
    alloc: Global,
    first: (K, T),
    second: (K, T),
) -> IndexMap<K, T> {
    let mut map = IndexMap::new(alloc);
    let (key, value) = first;
    let _ = map.insert(key, value);
    let (key, value) = second;
    let _ = map.insert(key, value);
    map
}

/// So many numbers, rising from 0, each at a text past ASCII with it, in a hashed map.
pub fn many_in_table(alloc: Global, count: i64) -> HashMap<String, i64> {
    let mut map = HashMap::new(alloc);
    for number in 0..count {
        let _ = map.insert(numbered(alloc, number), number);
    }
    map
}

// The text of that number.
fn numbered(alloc: Global, number: i64) -> String {
    format!(in alloc; "key é {number}").unwrap_or(String::new(alloc))
}
