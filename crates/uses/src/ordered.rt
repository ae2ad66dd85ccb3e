//! A map whose pairs stand in the order in which their keys were first put.
ghost use Rattle.std.specs.Prelude.{◌≡◌, codes, IfOk, IfErr};
ghost use Rattle.std.specs.String.{string_bytes};
ghost use Rattle.tera.specs.Errors.{IsOutOfMemory};
ghost use Rattle.uses.specs.Ordered.{sizes};

use std::alloc::Global;
use tera::{Key, Map, TeraResult, Value};

/// A width and a height. The width is put twice: it keeps its place, and takes the later value.
/// `Out of memory` is the only refusal.
pub fn sizes(alloc: Global) -> TeraResult<Value>
    ensures ok { IfOk result (λ value. value ≡ sizes) }
    ensures err { IfErr result IsOutOfMemory }
{
    let mut map = Map::new(alloc);
    map.insert(Key::Str("width"), Value::from(0u64))?;
    map.insert(Key::Str("height"), Value::from(24u64))?;
    map.insert(Key::Str("width"), Value::from(80u64))?;
    Ok(Value::of_map(map))
}

/// What it prints. `Out of memory` is the only refusal.
pub fn sizes_text(alloc: Global) -> TeraResult<String>
    ensures ok { IfOk result (λ text. string_bytes text ≡ codes "{\"width\": 80, \"height\": 24}") }
    ensures err { IfErr result IsOutOfMemory }
{
    sizes(alloc)?.to_text(alloc)
}
