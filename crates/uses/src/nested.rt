//! A value that is made of parts, and the very bytes that it prints.
ghost use Rattle.std.specs.Prelude.{◌≡◌, codes, IfOk, IfErr};
ghost use Rattle.std.specs.String.{string_bytes};
ghost use Rattle.tera.specs.Errors.{IsOutOfMemory};
ghost use Rattle.uses.specs.Nested.{nested};

use std::alloc::Global;
use tera::{Key, Map, TeraResult, Value};

/// A map of an array of a map. `Out of memory` is the only refusal.
pub fn nested_value(alloc: Global) -> TeraResult<Value>
    ensures ok { IfOk result (λ value. value ≡ nested) }
    ensures err { IfErr result IsOutOfMemory }
{
    let mut inner = Map::new(alloc);
    inner.insert(Key::Str("b"), Value::normal_string(alloc, "x")?)?;
    let mut items = Vec::new(alloc);
    items.push(Value::from(1u64))?;
    items.push(Value::of_map(inner))?;
    let mut outer = Map::new(alloc);
    outer.insert(Key::Str("a"), Value::of_array(items))?;
    Ok(Value::of_map(outer))
}

/// What it prints. `Out of memory` is the only refusal.
pub fn nested_text(alloc: Global) -> TeraResult<String>
    ensures ok { IfOk result (λ text. string_bytes text ≡ codes "{\"a\": [1, {\"b\": \"x\"}]}") }
    ensures err { IfErr result IsOutOfMemory }
{
    nested_value(alloc)?.to_text(alloc)
}
