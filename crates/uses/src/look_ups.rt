//! What is found deep in a value, and the names of its fields.
ghost use Rattle.std.specs.FinMap.{get};
ghost use Rattle.std.specs.Option.{option_and_then};
ghost use Rattle.std.specs.Prelude.{◌≡◌, map, unwrap_or, IfOk, IfErr};
ghost use Rattle.std.specs.String.{string_bytes};
ghost use Rattle.tera.specs.Errors.{IsOutOfMemory};
ghost use Rattle.tera.specs.Fields.{AreRisingOf, shown_in};
ghost use Rattle.tera.specs.Path.{path};

use std::alloc::Global;
use tera::meaning::lookups::fields_have_one_list_of_names;
use tera::{Context, TeraResult, Value};

/// What a path leads to from the value of a name, or another value where it leads nowhere.
pub fn found_or<'a>(
    context: &'a Context,
    name: &'a str,
    to: &'a str,
    otherwise: &'a Value,
) -> &'a Value
    ensures { result.now ≡ unwrap_or
        (option_and_then (λ value. path value to.now) (get context.now name.now)) otherwise.now }
{
    match context.get(name) {
        Some(value) => value.get_from_path(to).unwrap_or(otherwise),
        None => otherwise,
    }
}

/// What the keys of a map print: each text once, in the order of their bytes. `Out of memory` is
/// the only refusal.
pub fn field_names(alloc: Global, value: &Value) -> TeraResult<Vec<String>>
    ensures ok { IfOk result (λ names.
        AreRisingOf (shown_in value.now) (map string_bytes names.items)) }
    ensures err { IfErr result IsOutOfMemory }
{
    fields_have_one_list_of_names();
    value.available_fields(alloc)
}
