//! The errors of refusals that a look-up or a slice names.
ghost use Rattle.tera_meaning.specs.Lookup.{name_of};
ghost use Rattle.tera_report.specs.Errors.{Raises};
ghost use Rattle.tera_report.specs.Refusal.{stated, not_a_key, not_a_map_key};
ghost use Rattle.tera_report.specs.Refusal.{not_an_index, not_a_container, in_array, in_text};
ghost use Rattle.tera_report.specs.Refusal.{step_of_zero, not_sliceable, not_reversible};

use crate::Value;
use std::alloc::Global;
use tera_report::Error;

/// A value that is no key. `Out of memory` where the text finds none.
pub(crate) fn not_a_key(alloc: Global) -> Error
    ensures { Raises (stated not_a_key) result }
{
    Error::message(alloc, "Not a valid key type")
}

/// A value that is no key of a map. `Out of memory` where the text finds none.
pub(crate) fn not_a_map_key(alloc: Global, key: &Value) -> Error
    ensures { Raises (stated (not_a_map_key (name_of key.now))) result }
{
    let before = "Map keys must be strings, integers, or bools, got `";
    Error::message_of(alloc, &[before, key.name(), "`."])
}

/// A value that is no index into an array. `Out of memory` where the text finds none.
pub(crate) fn not_an_array_index(alloc: Global, index: &Value) -> Error
    ensures { Raises (stated (not_an_index in_array (name_of index.now))) result }
{
    let before = "Array index must be an integer, got `";
    Error::message_of(alloc, &[before, index.name(), "`."])
}

/// A value that is no index into a text. `Out of memory` where the text finds none.
pub(crate) fn not_a_text_index(alloc: Global, index: &Value) -> Error
    ensures { Raises (stated (not_an_index in_text (name_of index.now))) result }
{
    let before = "String index must be an integer, got `";
    Error::message_of(alloc, &[before, index.name(), "`."])
}

/// A value that holds no others. `Out of memory` where the text finds none.
pub(crate) fn not_a_container(alloc: Global, value: &Value) -> Error
    ensures { Raises (stated (not_a_container (name_of value.now))) result }
{
    let before = "`in` cannot be used on a container of type `";
    let after = "`. It can only be used on arrays, strings and map/structs";
    Error::message_of(alloc, &[before, value.name(), after])
}

/// A step of a slice that is 0. `Out of memory` where the text finds none.
pub(crate) fn step_of_zero(alloc: Global) -> Error
    ensures { Raises (stated step_of_zero) result }
{
    Error::message(alloc, "Slicing step cannot be 0")
}

/// A value that has no slices. `Out of memory` where the text finds none.
pub(crate) fn not_sliceable(alloc: Global, value: &Value) -> Error
    ensures { Raises (stated (not_sliceable (name_of value.now))) result }
{
    let before = "Slicing can only be used on arrays or strings, not on `";
    Error::message_of(alloc, &[before, value.name(), "`."])
}

/// A value that has no opposite order. `Out of memory` where the text finds none.
pub(crate) fn not_reversible(alloc: Global, value: &Value) -> Error
    ensures { Raises (stated (not_reversible (name_of value.now))) result }
{
    let after = " cannot be reversed";
    Error::message_of(alloc, &["Value of type ", value.name(), after])
}
