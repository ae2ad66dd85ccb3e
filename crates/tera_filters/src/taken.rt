//! What filters take of a value, and the copies that they answer.
ghost use Rattle.std.specs.Prelude.{◌≡◌, IfOk, IfErr, IsOk, Ok, false};
ghost use Rattle.std.specs.Option.{option_copied};
ghost use Rattle.tera.specs.Errors.{IsOutOfMemory, Refuses};
ghost use Rattle.tera.specs.Meaning.{meaning};
ghost use Rattle.tera.specs.Read.{iterable_in, truthy_in};
ghost use Rattle.tera.specs.Taken.{as_items, as_text};
ghost use Rattle.tera_filters.specs.Arrays.{or_undefined};

use crate::refused::{no_array, no_text};
use std::alloc::Global;
use tera::{TeraResult, Value};

/// The items of an array.
pub(crate) fn items_of<'a>(alloc: Global, value: &'a Value) -> TeraResult<&'a [Value]>
    ensures ok { IfOk result (λ items. as_items value.now ≡ Ok items.now) }
    ensures err { IfErr result (Refuses (as_items value.now)) }
    ensures succeeds { IsOk (as_items value.now) → IsOk result }
{
    match value.as_array() {
        Some(items) => Ok(items),
        None => Err(no_array(alloc, value)),
    }
}

/// The bytes of a text.
pub(crate) fn text_of<'a>(alloc: Global, value: &'a Value) -> TeraResult<&'a str>
    ensures ok { IfOk result (λ text. as_text value.now ≡ Ok text.now) }
    ensures err { IfErr result (Refuses (as_text value.now)) }
    ensures succeeds { IsOk (as_text value.now) → IsOk result }
{
    match value.as_str() {
        Some(text) => Ok(text),
        None => Err(no_text(alloc, value)),
    }
}

/// A copy of an item, undefined where there is none.
pub(crate) fn copy_of(alloc: Global, item: Option<&Value>) -> TeraResult<Value>
    ensures ok { IfOk result (λ v. or_undefined (option_copied item.entry) ≡ v) }
    ensures err { IfErr result IsOutOfMemory }
    ensures succeeds { iterable_in (or_undefined (option_copied item.entry)) ≡ false
        → IsOk result }
    ensures empty { truthy_in (meaning (or_undefined (option_copied item.entry))) ≡ false
        → IsOk result }
{
    match item {
        Some(item) => item.clone(alloc),
        None => Ok(Value::undefined()),
    }
}
