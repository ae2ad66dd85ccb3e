//! Values for the tests. Where memory is wanting, undefined stands for what could not be made, or a
//! part is left out: then the test that looks at it fails.
#![tactic(auto)]

ghost use Rattle.std.specs.Prelude.{◌≡◌, ◌⊎◌, ◌++◌, ◌∷◌, [], map, true, false};
ghost use Rattle.std.specs.Result.{result_unwrap_or};
ghost use Rattle.tera_meaning.specs.Tree.{undefined, array, object, items, no_items, no_members};
ghost use Rattle.tera_meaning.specs.Tree.{bytes};
ghost use Rattle.tera_values.specs.Key.{key_form};
ghost use Rattle.tera_values.specs.View.{marked};
ghost use Rattle.made_values.specs.Made.{Inserted, IsArrayOf, IsMapOf, numbered};
ghost use Rattle.made_values.specs.Made.{at_text};

use std::alloc::Global;
use std::fmt::Debug;
use std::rc::RcStr;
use tera_report::TeraResult;
use tera_values::{Key, Map, Value};

/// What was made, or undefined.
pub fn or_undefined(made: TeraResult<Value>) -> Value
    ensures { result ≡ result_unwrap_or made undefined }
{
    made.unwrap_or(Value::undefined())
}

/// A text that is not marked safe.
pub fn text(alloc: Global, of: &str) -> Value
    ensures { (result ≡ marked of.now false) ⊎ (result ≡ undefined) }
{
    or_undefined(Value::normal_string(alloc, of))
}

/// A text that is marked safe.
pub fn safe(alloc: Global, of: &str) -> Value
    ensures { (result ≡ marked of.now true) ⊎ (result ≡ undefined) }
{
    or_undefined(Value::safe_string(alloc, of))
}

/// That character as many times, and then that text.
pub fn repeated(alloc: Global, of: char, count: usize, last: &str) -> Value {
    let mut made = String::new(alloc);
    for _ in 0..count {
        let _ = made.push(of);
    }
    let _ = made.push_str(last);
    Value::from(made)
}

/// Those bytes.
pub fn bytes(alloc: Global, of: &[u8]) -> Value
    ensures { (result ≡ bytes of.now) ⊎ (result ≡ bytes []) }
{
    Value::bytes(of.to_vec(alloc).unwrap_or(Vec::new(alloc)))
}

/// The items and one more.
pub fn with_item(items: Vec<Value>, item: Value) -> Vec<Value>
    ensures { (result.items ≡ items.items ++ item ∷ []) ⊎ (result.items ≡ items.items) }
{
    let mut items = items;
    drop(items.push(item));
    items
}

/// An array of no item.
pub fn no_items(alloc: Global) -> Value
    ensures { result ≡ array no_items }
{
    Value::of_array(Vec::new(alloc))
}

/// An array of one item.
pub fn one_item(alloc: Global, item: Value) -> Value
    ensures { IsArrayOf (item ∷ []) result }
{
    Value::of_array(with_item(Vec::new(alloc), item))
}

/// An array of two items.
pub fn two_items(alloc: Global, first: Value, second: Value) -> Value
    ensures { IsArrayOf (first ∷ second ∷ []) result }
{
    Value::of_array(with_item(with_item(Vec::new(alloc), first), second))
}

/// An array of these numbers.
pub fn numbers(alloc: Global, of: &[i64]) -> Value
    ensures { IsArrayOf (numbered of.now) result }
{
    let mut items = Vec::new(alloc);
    for number in of {
        items = with_item(items, Value::from(*number));
    }
    Value::of_array(items)
}

/// An array of so many arrays, each of a text past ASCII and a number, which rises from 0.
pub fn many_items(alloc: Global, count: i64) -> Value {
    let mut items = Vec::new(alloc);
    for number in 0..count {
        let both = two_items(alloc, text(alloc, "é<"), Value::from(number));
        items = with_item(items, both);
    }
    Value::of_array(items)
}

/// A map of no pair.
pub fn no_pairs(alloc: Global) -> Value
    ensures { result ≡ object no_members }
{
    Value::empty_map(alloc)
}

/// The map with that pair.
pub fn with(map: Map, key: Key<'static>, value: Value) -> Map
    ensures { Inserted map ((key_form key.entry, value) ∷ []) result }
{
    let mut map = map;
    drop(map.insert(key, value));
    map
}

/// A map of one pair.
pub fn one_pair(alloc: Global, key: Key<'static>, value: Value) -> Value
    ensures { IsMapOf ((key_form key.entry, value) ∷ []) result }
{
    Value::of_map(with(Map::new(alloc), key, value))
}

/// A map of a number at each of these texts.
pub fn at_texts(alloc: Global, pairs: &[(&'static str, i64)]) -> Value
    ensures { IsMapOf (map (λ p. at_text p.0.now p.1) pairs.now) result }
{
    let mut map = Map::new(alloc);
    for (key, number) in pairs {
        map = with(map, Key::Str(*key), Value::from(*number));
    }
    Value::of_map(map)
}

/// A map of so many pairs, the number of each, which rises from 0, at a text past ASCII with it.
pub fn many_pairs(alloc: Global, count: i64) -> Value {
    let mut map = Map::new(alloc);
    for number in 0..count {
        map = with_number(alloc, map, number);
    }
    Value::of_map(map)
}

// The map with that number too, where there was memory for its key.
fn with_number(alloc: Global, map: Map, number: i64) -> Map {
    match numbered(alloc, number).ok() {
        Some(key) => with(map, key, Value::from(number)),
        None => map,
    }
}

// The key of that number.
fn numbered(alloc: Global, number: i64) -> TeraResult<Key<'static>> {
    let text = format!(in alloc; "key é {number}")?;
    Ok(Key::String(RcStr::from_str(alloc, text.as_str())?))
}

/// What the value prints, or nothing.
pub fn printed(alloc: Global, value: &Value) -> String {
    value.to_text(alloc).unwrap_or(String::new(alloc))
}

/// Whether its debug text is that.
pub fn shows<D: Debug>(alloc: Global, it: &D, wanted: &str) -> bool {
    let shown = format!(in alloc; "{it:?}").unwrap_or(String::new(alloc));
    shown.as_str() == wanted
}
