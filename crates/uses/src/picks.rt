//! Some pairs of a map, by their names.
ghost use Rattle.std.specs.Prelude.{◌≡◌, [], map, IfOk, IfErr};
ghost use Rattle.tera.specs.Errors.{IsOutOfMemory};
ghost use Rattle.tera.specs.KeyMeaning.{KeyForm};
ghost use Rattle.tera.specs.Pairs.{key_form_order, put_all, value_at};
ghost use Rattle.uses.specs.Picks.{named, value_if_named};

use std::alloc::Global;
use std::borrow::CowStr;
use tera::laws::held_keys::keys_that_tie_find_the_same;
use tera::meaning::pairs::values_are_put_at_keys;
use tera::{Key, Map, TeraResult, ToKey};

/// The pairs of a map at these names, in the order of the names. A name that the map lacks gives
/// none. `Out of memory` is the only refusal.
pub fn picked(alloc: Global, pairs: &Map, names: &[&str]) -> TeraResult<Map>
    ensures pairs { IfOk result (λ picked. picked
        ≡ put_all key_form_order [] (named pairs.now (map (λ name. name.now) names.now))) }
    ensures found { IfOk result (λ picked. (q : KeyForm) → value_at key_form_order picked q
        ≡ value_if_named pairs.now (map (λ name. name.now) names.now) q) }
    ensures err { IfErr result IsOutOfMemory }
{
    keys_that_tie_find_the_same();
    values_are_put_at_keys();
    let mut picked = Map::new(alloc);
    for name in names {
        if let Some(value) = pairs.get(&Key::Str(*name)) {
            let key = CowStr::Borrowed(*name).to_key(alloc)?;
            picked.insert(key, value.clone(alloc)?)?;
        }
    }
    Ok(picked)
}
