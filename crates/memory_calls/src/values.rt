//! Values, keys and maps: made and copied.
use crate::answers::{tell, tell_change, widened};
use crate::made::{Made, as_value, lost, map};
use std::rc::RcStr;
use tera_report::{Error, TeraResult};
use tera_values::{HashState, Key, Map, Value};

/// What makes values.
pub fn tell_makers(rt: &(impl Print + AllocGlobal), made: &Made) -> TeraResult<()> {
    let (alloc, text) = (rt.alloc(), made.text.as_str());
    tell(
        rt,
        "Value::normal_string",
        Value::normal_string(alloc, text),
    );
    tell(rt, "Value::safe_string", Value::safe_string(alloc, text));
    tell(rt, "Value::empty_map", Ok(Value::empty_map(alloc)));
    tell(rt, "Value::as_key", made.plain.as_key(alloc));
    tell(
        rt,
        "Value::as_key of what is no key",
        made.list.as_key(alloc),
    );
    tell_keys(rt, text)
}

fn tell_keys(rt: &(impl Print + AllocGlobal), text: &str) -> TeraResult<()> {
    let alloc = rt.alloc();
    tell(rt, "Key::of_text", widened(Key::of_text(alloc, text)));
    let owned = String::from_str(alloc, text)?;
    tell(rt, "Key::of_string", widened(Key::of_string(owned)));
    tell_key(rt, Key::String(RcStr::from_str(alloc, text)?));
    Ok(())
}

fn tell_key(rt: &(impl Print + AllocGlobal), key: Key<'static>) {
    tell(rt, "Key::clone", key.clone(rt.alloc()));
    tell(rt, "Key::as_value", key.as_value(rt.alloc()));
    drop(key);
}

/// What copies values.
pub fn tell_copies(rt: &(impl Print + AllocGlobal), made: &Made) {
    let alloc = rt.alloc();
    tell(rt, "Value::clone of a list", made.list.clone(alloc));
    tell(rt, "Value::clone of a map", made.map.clone(alloc));
    tell(rt, "Value::clone of a text", made.plain.clone(alloc));
    tell(rt, "Value::clone of bytes", made.raw.clone(alloc));
}

/// Maps by themselves.
pub fn tell_maps(rt: &(impl Print + AllocGlobal), made: &Made) -> TeraResult<()> {
    let alloc = rt.alloc();
    tell(rt, "Map::new", Ok(Value::of_map(Map::new(alloc))));
    let hashed = Map::with_hasher(alloc, HashState::fixed());
    tell(rt, "Map::with_hasher", Ok(Value::of_map(hashed)));
    let held = map(alloc, made.count)?;
    tell(rt, "Map::clone", as_value(held.clone()));
    match RcStr::from_str(alloc, "new") {
        Ok(key) => tell_insert(rt, held, Key::String(key)),
        Err(refused) => lost(held, Error::from(refused)),
    }
}

// A number is put at that key.
fn tell_insert(rt: &impl Print, map: Map, key: Key<'static>) -> TeraResult<()> {
    let mut held = map;
    let answer = inserted(&mut held, key);
    tell_change(rt, "Map::insert", answer, Value::of_map(held));
    Ok(())
}

fn inserted(map: &mut Map, key: Key<'static>) -> TeraResult<()> {
    drop(map.insert(key, Value::from(7u8))?);
    Ok(())
}
