//! The names that a document gives.
ghost use Rattle.std.specs.Prelude.{◌≡◌, IfOk, IfErr, OnOk};
ghost use Rattle.tera.specs.Errors.{IsOutOfMemory};
ghost use Rattle.tera.specs.Key.{key_form, text_in_key};
ghost use Rattle.tera_render.specs.Names.{AreNames, NameMembers, RefusesNames, keep};

use std::alloc::Global;
use tera::laws::held_keys::keys_that_tie_find_the_same;
use tera::value::HashState;
use tera::{Context, Error, Key, Map, TeraResult, Value};
use tera_json::from_json;

/// The names of the members of the object that a text of JSON is, each with its value. They, and
/// the keys of maps, are hashed under the state that is given.
///
/// Refuses what `from_json` refuses, and a document that is no object with `The document is no
/// object`. Takes memory; want of it, `Out of memory`, is answered in the place of all else.
pub(crate) fn names_of(alloc: Global, state: HashState, text: &str) -> TeraResult<Context>
    ensures ok { IfOk result (AreNames text.now) }
    ensures err { IfErr result (RefusesNames text.now) }
{
    let value = from_json(alloc, state, text)?;
    match value.into_map() {
        Some(all) => Ok(names_in(alloc, state, all)?),
        None => Err(Error::message(alloc, "The document is no object")),
    }
}

// The names that the pairs of a map give.
fn names_in(alloc: Global, state: HashState, all: Map) -> TeraResult<Context>
    ensures ok { IfOk result (NameMembers all) }
    ensures err { IfErr result IsOutOfMemory }
{
    keys_that_tie_find_the_same();
    let mut names = Context::with_hasher(alloc, state);
    for (key, value) in all {
        keep_pair(&mut names, &key, value)?;
    }
    Ok(names)
}

// Keeps the value of a pair under the text that its key is.
fn keep_pair(names: &mut Context, key: &Key<'_>, value: Value) -> TeraResult<()>
    ensures ok { OnOk result (names.new
        ≡ keep names.old (text_in_key (key_form key.now)) value) }
    ensures err { IfErr result IsOutOfMemory }
{
    match key.as_str() {
        Some(name) => names.insert_value(name, value),
        None => Ok(()),
    }
}
