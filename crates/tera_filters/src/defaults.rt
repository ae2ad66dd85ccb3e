//! The filter that stands in for what is undefined.
ghost use Rattle.std.specs.Prelude.{◌≡◌, IfOk, IfErr, IsOk, Ok, false};
ghost use Rattle.tera.specs.Errors.{Refuses};
ghost use Rattle.tera.specs.Form.{Form};
ghost use Rattle.tera.specs.Meaning.{meaning};
ghost use Rattle.tera.specs.Read.{iterable_in, truthy_in};
ghost use Rattle.tera_filters.specs.Defaults.{default_of};

use crate::arguments::argument;
use std::alloc::Global;
use tera::{Error, Kwargs, TeraResult, Value};

/// The value itself, or the argument `value` where it is undefined.
///
/// Refuses where that argument is missing, whatever the value is, with ``Missing keyword argument
/// `value` ``, without the last blank. Takes memory for the copy of either, as [`Value::clone`]
/// does, and for the text of the refusal; want of it, `Out of memory`, is answered in the place of
/// either.
pub fn default(alloc: Global, value: &Value, arguments: &Kwargs) -> TeraResult<Value>
    ensures ok { IfOk result (λ v. default_of value.now arguments.now ≡ Ok v) }
    ensures err { IfErr result (Refuses (default_of value.now arguments.now)) }
    ensures succeeds { (made : Form) → default_of value.now arguments.now ≡ Ok made
        → iterable_in made ≡ false → IsOk result }
    ensures empty { (made : Form) → default_of value.now arguments.now ≡ Ok made
        → truthy_in (meaning made) ≡ false → IsOk result }
{
    defined(alloc, value, arguments)?.clone(alloc)
}

// What `default` answers a copy of.
fn defined<'a>(alloc: Global, value: &'a Value, arguments: &'a Kwargs) -> TeraResult<&'a Value>
    ensures ok { IfOk result (λ held. default_of value.now arguments.now ≡ Ok held.now) }
    ensures err { IfErr result (Refuses (default_of value.now arguments.now)) }
    ensures succeeds { IsOk (default_of value.now arguments.now) → IsOk result }
{
    let Some(other) = argument(alloc, arguments, "value")? else {
        return Err(Error::missing_arg(alloc, "value"));
    };
    if value.is_undefined() {
        Ok(other)
    } else {
        Ok(value)
    }
}
