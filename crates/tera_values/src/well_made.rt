//! The laws that values, maps and keys are well made.
ghost use Rattle.std.specs.List.{AllByRecursion};
ghost use Rattle.tera_meaning.specs.Tree.{array, object, items, members};
ghost use Rattle.tera_meaning.specs.WellMade.{IsWellMade, IsWellMadeKey, IsByte};
ghost use Rattle.tera_values.specs.Key.{key_form};

use crate::value::ValueInner;
use crate::{Key, Map, Value};

/// Each value that a program holds is well made, at every depth: each number is one of its kind,
/// each text spells characters in UTF-8, each byte is below 256, and no two keys of a map are
/// equal. The function only walks through the value, for the sake of the clause. Takes no memory.
#[cycle(well_made)]
pub fn is_well_made(value: &Value)
    ensures { IsWellMade value.now }
{
    match &value.inner {
        ValueInner::Undefined => {}
        ValueInner::None => {}
        ValueInner::Bool(_) => {}
        ValueInner::U64(n) => {
            let _number = *n;
        }
        ValueInner::I64(z) => {
            let _number = *z;
        }
        ValueInner::U128(n) => {
            let _number = *n;
        }
        ValueInner::I128(z) => {
            let _number = *z;
        }
        ValueInner::String(_, text) => {
            let _text = text.as_str();
        }
        ValueInner::Array(all) => items_are_well_made(all.as_slice()),
        ValueInner::Bytes(held) => bytes_are_small(held.as_slice()),
        ValueInner::Map(all) => map_is_well_made(all),
    }
}

// Items are well made.
#[cycle(well_made)]
fn items_are_well_made(all: &[Value])
    ensures { IsWellMade (array (items all.now)) }
{
    for value in all {
        is_well_made(value);
    }
}

/// Each map that a program holds is well made, at every depth: so is each key and each value, and
/// no two keys are equal. The function only walks through the map, for the sake of the clause.
/// Takes no memory.
#[cycle(well_made)]
pub fn map_is_well_made(map: &Map)
    ensures { IsWellMade (object (members map.now)) }
{
    for (key, value) in map.iter() {
        key_is_well_made(key);
        is_well_made(value);
    }
}

/// Each key that a program holds is well made: its number is one of its kind, or its text spells
/// characters in UTF-8. The function only looks at the key, for the sake of the clause. Takes no
/// memory.
pub fn key_is_well_made(key: &Key<'_>)
    ensures { IsWellMadeKey (key_form key.now) }
{
    match key {
        Key::Bool(_) => {}
        Key::U64(n) => {
            let _number = *n;
        }
        Key::I64(z) => {
            let _number = *z;
        }
        Key::U128(n) => {
            let _number = *n;
        }
        Key::I128(z) => {
            let _number = *z;
        }
        Key::String(text) => {
            let _text = text.as_str();
        }
        Key::Str(text) => {
            let _text = *text;
        }
        Key::Inline(text) => {
            let _text = text.as_str();
        }
    }
}

// Bytes are below 256.
fn bytes_are_small(held: &[u8])
    ensures { AllByRecursion IsByte held.now }
{}
