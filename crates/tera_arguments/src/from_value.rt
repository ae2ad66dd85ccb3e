//! What a value can be handed to a filter or a function as.
ghost use Rattle.std.specs.Prelude.{◌≡◌, ◌≢◌, [], None, Ok, IfOk, IfErr, MatchOption};
ghost use Rattle.std.specs.List.{AllZip};
ghost use Rattle.std.specs.String.{string_bytes};
ghost use Rattle.tera_arguments.specs.Taken.{Denies, as_text, as_number, as_pairs, as_items};
ghost use Rattle.tera_arguments.specs.Taken.{TakesText, TakesItems, DeniesItems};
ghost use Rattle.tera_conversions.specs.Given.{PartsRefuse};
ghost use Rattle.tera_meaning.specs.Conversion.{IntegerType, as_truth, number_of};
ghost use Rattle.tera_meaning.specs.Meaning.{layout};
ghost use Rattle.tera_meaning.specs.Read.{members_in, text_in};
ghost use Rattle.tera_meaning.specs.Search.{CopyTakes};
ghost use Rattle.tera_scalars.specs.Number.{number_value};
ghost use Rattle.tera_report.specs.Errors.{IsOutOfMemory};
ghost use Rattle.tera_report.specs.declared.errors.Error.{Error};
ghost use Rattle.tera_meaning.specs.Printed.{PrintsNothing};
ghost use Rattle.tera_meaning.specs.Quoted.{Prints};

use crate::parts::Parts;
use crate::private::Sealed;
use std::alloc::Global;
use std::borrow::CowStr;
use tera_report::{Error, TeraResult};
use tera_values::{Map, Number, Value};

/// What a value can be handed to a filter or a function as. Mirrors `tera::ArgFromValue`. It is
/// sealed: no other crate implements it.
///
/// Each implementation says what it takes of a value, by the form in which the value is held, and
/// with which errors it refuses. A refusal takes memory for its text; want of it, `Out of memory`,
/// is answered in its place. An implementation that says nothing else of memory takes none. In the
/// texts of refusals V is the number as it prints.
pub trait ArgFromValue<'k, V>: Sealed<V> {
    /// What a value is taken as.
    type Output;

    // what is taken of a value
    ghost takes: { V → Self.Output → Type 0 };

    // an error that may be answered in its place
    ghost denies: { V → Error → Type 0 };

    /// What the value is taken as; parts that are lent are those of the value.
    fn from_value(alloc: Global, value: &'k V) -> TeraResult<Self::Output>
        ensures ok { IfOk result (takes value.now) }
        ensures err { IfErr result (denies value.now) };
}

/// The truth value that it is. Refuses every other value with ``Invalid type for the value,
/// expected `bool` but got `N` ``, N being the name of its kind, without the last blank.
impl<'k> ArgFromValue<'k, Value> for bool {
    type Output = bool;

    ghost takes = { λ value b. as_truth value ≡ Ok b };

    ghost denies = { λ value e. Denies (as_truth value) e };

    fn from_value(alloc: Global, value: &'k Value) -> TeraResult<bool> {
        match value.as_bool() {
            Some(b) => Ok(b),
            None => Err(Error::invalid_arg_type(alloc, "bool", value.name())),
        }
    }
}

/// The text that it is, lent, whatever its flag. Refuses every other value with ``Invalid type for
/// the value, expected `&str` but got `N` ``, N being the name of its kind, without the last blank.
impl<'k> ArgFromValue<'k, Value> for &'k str {
    type Output = &'k str;

    ghost takes = { λ value t. as_text value ≡ Ok t.now };

    ghost denies = { λ value e. Denies (as_text value) e };

    fn from_value(alloc: Global, value: &'k Value) -> TeraResult<&'k str> {
        match value.as_str() {
            Some(text) => Ok(text),
            None => Err(Error::invalid_arg_type(alloc, "&str", value.name())),
        }
    }
}

/// The printed text of any value. Takes memory where something is printed; the only refusal is want
/// of it, `Out of memory`.
impl<'k> ArgFromValue<'k, Value> for String {
    type Output = String;

    ghost takes = { λ value t. Prints (layout value) (string_bytes t) };

    ghost denies = { λ value e. ¬ PrintsNothing (layout value) × IsOutOfMemory e };

    fn from_value(alloc: Global, value: &'k Value) -> TeraResult<String> {
        value.to_text(alloc)
    }
}

/// A text lent, whatever its flag, and any other value printed. Takes memory where something is
/// printed; the only refusal is want of it, `Out of memory`.
impl<'k> ArgFromValue<'k, Value> for CowStr<'k> {
    type Output = CowStr<'k>;

    ghost takes = { TakesText };

    ghost denies = { λ value e. (text_in value ≡ None)
        × (¬ PrintsNothing (layout value)) × IsOutOfMemory e };

    fn from_value(alloc: Global, value: &'k Value) -> TeraResult<CowStr<'k>> {
        match value.as_str() {
            Some(text) => Ok(CowStr::Borrowed(text)),
            None => Ok(CowStr::Owned(value.to_text(alloc)?)),
        }
    }
}

/// A copy, deep, with its kinds and flags. Takes memory for texts, bytes, items and pairs, where
/// there are some; the only refusal is want of it, `Out of memory`.
impl<'k> ArgFromValue<'k, Value> for Value {
    type Output = Value;

    ghost takes = { λ value copy. copy ≡ value };

    ghost denies = { λ value e. CopyTakes value × IsOutOfMemory e };

    fn from_value(alloc: Global, value: &'k Value) -> TeraResult<Value> {
        value.clone(alloc)
    }
}

/// The value itself, lent. Refuses none, and takes no memory.
impl<'k> ArgFromValue<'k, Value> for &'k Value {
    type Output = &'k Value;

    ghost takes = { λ value lent. lent.now ≡ value };

    ghost denies = { λ _ _. ⊥ };

    fn from_value(_alloc: Global, value: &'k Value) -> TeraResult<&'k Value> {
        Ok(value)
    }
}

/// The number that it is, whatever its kind. Refuses one that no `i128` holds with ``Number `V` is
/// out of range for i128``. Refuses what is no number with ``Invalid type for the value, expected
/// `Number` but got `N` ``, N being the name of its kind, without the last blank.
impl<'k> ArgFromValue<'k, Value> for Number {
    type Output = Number;

    ghost takes = { λ value n. as_number value ≡ Ok (number_value n) };

    ghost denies = { λ value e. Denies (as_number value) e };

    fn from_value(alloc: Global, value: &'k Value) -> TeraResult<Number> {
        match value.as_number() {
            Some(number) => Ok(number),
            None => Err(no_number(alloc, value)),
        }
    }
}

/// A copy of the map, deep, its pairs in their order. Takes memory where there are pairs. Refuses
/// every other value with ``Invalid type for the value, expected `Map` but got `N` ``, N being the
/// name of its kind, without the last blank.
impl<'k> ArgFromValue<'k, Value> for Map {
    type Output = Map;

    ghost takes = { λ value map. as_pairs value ≡ Ok map };

    ghost denies = { λ value e. MatchOption (members_in value) (Denies (as_pairs value) e)
        (λ pairs. (pairs ≢ []) × IsOutOfMemory e) };

    fn from_value(alloc: Global, value: &'k Value) -> TeraResult<Map> {
        match value.as_map() {
            Some(map) => map.clone(),
            None => Err(Error::invalid_arg_type(alloc, "Map", value.name())),
        }
    }
}

/// The map that it is, lent. Refuses every other value with ``Invalid type for the value, expected
/// `Map` but got `N` ``, N being the name of its kind, without the last blank.
impl<'k> ArgFromValue<'k, Value> for &'k Map {
    type Output = &'k Map;

    ghost takes = { λ value map. as_pairs value ≡ Ok map.now };

    ghost denies = { λ value e. Denies (as_pairs value) e };

    fn from_value(alloc: Global, value: &'k Value) -> TeraResult<&'k Map> {
        match value.as_map() {
            Some(map) => Ok(map),
            None => Err(Error::invalid_arg_type(alloc, "Map", value.name())),
        }
    }
}

/// The items of the array that it is, lent. Refuses every other value with ``Invalid type for the
/// value, expected `&[Value]` but got `N` ``, N being the name of its kind, without the last blank.
impl<'k> ArgFromValue<'k, Value> for &'k [Value] {
    type Output = &'k [Value];

    ghost takes = { λ value items. as_items value ≡ Ok items.now };

    ghost denies = { λ value e. Denies (as_items value) e };

    fn from_value(alloc: Global, value: &'k Value) -> TeraResult<&'k [Value]> {
        match value.as_array() {
            Some(items) => Ok(items),
            None => Err(Error::invalid_arg_type(alloc, "&[Value]", value.name())),
        }
    }
}

/// Each item of the array that it is, taken as one of `T`. Takes memory, but for no item; the first
/// refusal of an item is passed on. Refuses every other value with ``Invalid type for the value,
/// expected `Vec<Value>` but got `N` ``, N being the name of its kind, without the last blank.
impl<'k, V: Parts, T: ArgFromValue<'k, V, Output = T> + Drop> ArgFromValue<'k, V> for Vec<T> {
    type Output = Vec<T>;

    ghost takes = { λ value taken. TakesItems V.items T.takes value taken.items };

    ghost denies = { λ value e. DeniesItems V.items V.is_no_array T.takes T.denies value e };

    fn from_value(alloc: Global, value: &'k V) -> TeraResult<Vec<T>> {
        match value.items() {
            Some(items) => taken(alloc, items),
            None => Err(value.no_array(alloc)),
        }
    }
}

// Each of the items, taken as one of `T`.
fn taken<'k, V, T: ArgFromValue<'k, V, Output = T> + Drop>(
    alloc: Global,
    items: &'k [V],
) -> TeraResult<Vec<T>>
    ensures ok { IfOk result (λ taken. AllZip T.takes items.now taken.items) }
    ensures err { IfErr result (PartsRefuse T.takes T.denies items.now) }
{
    let mut taken = Vec::with_capacity(alloc, items.len())?;
    for value in items {
        taken.push_reserved(T::from_value(alloc, value)?);
    }
    Ok(taken)
}

// The error of a value that is no number of an `i128`.
fn no_number(alloc: Global, value: &Value) -> Error
    ensures { number_of IntegerType.i128 value.now ≡ None → Denies (as_number value.now) result }
{
    if value.is_number() {
        match value.to_text(alloc) {
            Ok(text) => {
                Error::message_of(
                    alloc,
                    &["Number `", text.as_str(), "` is out of range for i128"],
                )
            }
            Err(refused) => refused,
        }
    } else {
        Error::invalid_arg_type(alloc, "Number", value.name())
    }
}
