//! Maps: made of known pairs, filled in a loop, asked by a name, and read pair by pair.
ghost use Rattle.std.specs.Prelude.{◌≡◌, [], ◌∷◌, pos, true, codes, IfOk, IfErr};
ghost use Rattle.std.specs.Map.{values_of};
ghost use Rattle.tera.specs.Errors.{IsOutOfMemory};
ghost use Rattle.tera.specs.Integer.{u64 as kind_u64};
ghost use Rattle.tera.specs.KeyMeaning.{text_key, borrowed, truth_key};
ghost use Rattle.tera.specs.Pairs.{key_form_order, put_all, value_at};
ghost use Rattle.tera.specs.Tree.{none, array, object, items, members};
ghost use Rattle.tera.specs.View.{integer};
ghost use Rattle.uses.specs.Maps.{flagged, is_truthy};

use std::alloc::Global;
use tera::{Key, Map, TeraResult, Value};

/// A map of two settings. `Out of memory` is the only refusal.
pub fn settings(alloc: Global, depth: u64) -> TeraResult<Value>
    ensures ok { IfOk result (λ v. v ≡ object (members (
        (text_key (borrowed (codes "depth")), integer kind_u64 (pos depth))
        ∷ (truth_key true, none) ∷ []))) }
    ensures err { IfErr result IsOutOfMemory }
{
    let mut map = Map::new(alloc);
    map.insert(Key::Str("depth"), Value::from(depth))?;
    map.insert(Key::Bool(true), Value::none())?;
    Ok(Value::of_map(map))
}

/// A map in which each of the numbers is a key of `true`. `Out of memory` is the only refusal.
pub fn flags(alloc: Global, numbers: &[u64]) -> TeraResult<Map>
    ensures ok { IfOk result (λ map. map ≡ put_all key_form_order [] (flagged numbers.now)) }
    ensures err { IfErr result IsOutOfMemory }
{
    let mut map = Map::new(alloc);
    for number in numbers {
        map.insert(Key::U64(*number), Value::from(true))?;
    }
    Ok(map)
}

/// Whether a map has a value at a name, and a condition holds at it.
pub fn is_on(map: &Map, name: &str) -> bool
    ensures { result
        ≡ is_truthy (value_at key_form_order map.now (text_key (borrowed name.now))) }
{
    match map.get(&Key::Str(name)) {
        Some(value) => value.is_truthy(),
        None => false,
    }
}

/// The values of a map as an array, in the order in which their keys were first put. `Out of
/// memory` is the only refusal.
pub fn values_in_order(alloc: Global, map: &Map) -> TeraResult<Value>
    ensures ok { IfOk result (λ v. v ≡ array (items (values_of map.now))) }
    ensures err { IfErr result IsOutOfMemory }
{
    let mut values = Vec::new(alloc);
    for (_, value) in map.iter() {
        values.push(value.clone(alloc)?)?;
    }
    Ok(Value::of_array(values))
}
