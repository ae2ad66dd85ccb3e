//! One map over another.
ghost use Rattle.std.specs.Map.{keys_of};
ghost use Rattle.std.specs.Option.{option_or};
ghost use Rattle.std.specs.Prelude.{◌≡◌, ◌++◌, IfOk, IfErr};
ghost use Rattle.tera.specs.Errors.{IsOutOfMemory};
ghost use Rattle.tera.specs.KeyMeaning.{KeyForm};
ghost use Rattle.tera.specs.Pairs.{key_form_order, put_all, value_at};
ghost use Rattle.tera.specs.PutKeys.{keys_beside};

use std::alloc::Global;
use tera::laws::puts::{new_keys_are_put_last, what_was_put_is_found};
use tera::{Map, TeraResult};

/// The pairs of a map, and those of another put over them: a key that both have keeps its place and
/// takes the later value. `Out of memory` is the only refusal.
pub fn merged(alloc: Global, first: &Map, second: &Map) -> TeraResult<Map>
    ensures pairs { IfOk result (λ map. map ≡ put_all key_form_order first.now second.now) }
    ensures found { IfOk result (λ map. (q : KeyForm) → value_at key_form_order map q
        ≡ option_or (value_at key_form_order second.now q) (value_at key_form_order first.now q)) }
    ensures keys { IfOk result (λ map. keys_of map
        ≡ keys_of first.now ++ keys_beside key_form_order first.now second.now) }
    ensures err { IfErr result IsOutOfMemory }
{
    what_was_put_is_found();
    new_keys_are_put_last();
    let mut merged = first.clone()?;
    for (key, value) in second.iter() {
        merged.insert(key.clone(alloc)?, value.clone(alloc)?)?;
    }
    Ok(merged)
}
