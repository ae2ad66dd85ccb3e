//! The errors of what filters refuse.
ghost use Rattle.std.specs.Prelude.{codes};
ghost use Rattle.tera.specs.Errors.{Raises};
ghost use Rattle.tera.specs.Lookup.{name_of};
ghost use Rattle.tera.specs.Refusal.{invalid_argument, stated};
ghost use Rattle.tera_filters.specs.Arrays.{no_key, no_length};
ghost use Rattle.tera_filters.specs.Numbers.{no_integer};
ghost use Rattle.tera_filters.specs.Texts.{not_joinable};

use std::alloc::Global;
use tera::{Error, Value};

/// A value that is no array. `Out of memory` where the text finds none.
pub(crate) fn no_array(alloc: Global, value: &Value) -> Error
    ensures { Raises (invalid_argument (codes "&[Value]") (name_of value.now)) result }
{
    Error::invalid_arg_type(alloc, "&[Value]", value.name())
}

/// A value that is no map. `Out of memory` where the text finds none.
pub(crate) fn no_map(alloc: Global, value: &Value) -> Error
    ensures { Raises (invalid_argument (codes "Map") (name_of value.now)) result }
{
    Error::invalid_arg_type(alloc, "Map", value.name())
}

/// A value that has no length. `Out of memory` where the text finds none.
pub(crate) fn no_length(alloc: Global, value: &Value) -> Error
    ensures { Raises (stated (no_length (name_of value.now))) result }
{
    Error::message_of(alloc, &["Value of type ", value.name(), " has no length"])
}

/// A map that has nothing at a key. `Out of memory` where the text finds none.
pub(crate) fn no_key(alloc: Global, key: &str) -> Error
    ensures { Raises (no_key key.now) result }
{
    Error::message_of(alloc, &["The map has no key `", key, "`"])
}

/// A value that is no text. `Out of memory` where the text finds none.
pub(crate) fn no_text(alloc: Global, value: &Value) -> Error
    ensures { Raises (invalid_argument (codes "&str") (name_of value.now)) result }
{
    Error::invalid_arg_type(alloc, "&str", value.name())
}

/// An item that is not joined. `Out of memory` where the text finds none.
pub(crate) fn not_joinable(alloc: Global, item: &Value) -> Error
    ensures { Raises (stated (not_joinable (name_of item.now))) result }
{
    let before = "Only strings, numbers and bools can be joined. This is a `";
    Error::message_of(alloc, &[before, item.name(), "`"])
}

/// A text that is no integer. `Out of memory` where the text finds none.
pub(crate) fn no_integer(alloc: Global, text: &str) -> Error
    ensures { Raises (no_integer text.now) result }
{
    Error::message_of(alloc, &["`", text, "` is no integer"])
}
