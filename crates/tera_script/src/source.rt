//! What a map holds under the texts of its keys.
ghost use Rattle.std.specs.Prelude.{◌≡◌, None, IfOk, IsOk};
ghost use Rattle.tera_meaning.specs.Read.{members_in};
ghost use Rattle.tera_script.specs.inner.Command.{IsSourceOf};

use std::alloc::{AllocError, Global};
use tera_context::Context;
use tera_values::{HashState, Value};

/// The context that holds what a map has at each key under the text of the key. `None` where the
/// value is no map, or a key is no text. Takes memory, and fails for want of it alone.
pub(crate) fn source_of(
    alloc: Global,
    state: HashState,
    value: Value,
) -> Result<Option<Context>, AllocError>
    ensures source { IfOk result (λ answer. IsSourceOf value answer) }
    ensures free { members_in value ≡ None → IsOk result }
{
    let Some(map) = value.into_map() else {
        return Ok(None);
    };
    let mut source = Context::with_hasher(alloc, state);
    for (key, held) in map {
        let Some(name) = key.as_str() else {
            return Ok(None);
        };
        let name = String::from_str(alloc, name)?;
        source.insert_owned(name, held)?;
    }
    Ok(Some(source))
}
