//! Filters that make numbers.
ghost use Rattle.std.specs.Prelude.{◌≡◌, IfOk, IfErr, IsOk, Ok};
ghost use Rattle.tera.specs.Errors.{Refuses};
ghost use Rattle.tera_filters.specs.Numbers.{abs_of, int_of};

use crate::refused::no_integer;
use std::alloc::Global;
use tera::scalars::{not_a_number, place_in_path};
use tera::value::number::negate;
use tera::{TeraResult, Value};

/// A number without its sign. One that is not below 0 keeps its kind.
///
/// Refuses every other value with ``Only numbers can be used in arithmetic. This is a `N` ``, N
/// being the name of its kind, without the last blank, and the least number of an `i128` as
/// [`negate`] does. Takes memory for the text of a refusal; want of it, `Out of memory`, is
/// answered in its place.
pub fn abs(alloc: Global, value: &Value) -> TeraResult<Value>
    ensures ok { IfOk result (λ v. abs_of value.now ≡ Ok v) }
    ensures err { IfErr result (Refuses (abs_of value.now)) }
    ensures succeeds { IsOk (abs_of value.now) → IsOk result }
{
    if !value.is_number() {
        Err(not_a_number(alloc, value.name()))
    } else if *value < Value::from(0u64) {
        negate(alloc, value)
    } else {
        value.clone(alloc)
    }
}

/// The number that a value is, in its kind; or that a text writes, of one or more ASCII digits,
/// which may stand behind one `+`, of a number below 2^64.
///
/// Refuses any other text with ``T` is no integer``, and every other value as [`abs`] does. Takes
/// memory for the text of the refusal; want of it, `Out of memory`, is answered in its place.
pub fn int(alloc: Global, value: &Value) -> TeraResult<Value>
    ensures ok { IfOk result (λ v. int_of value.now ≡ Ok v) }
    ensures err { IfErr result (Refuses (int_of value.now)) }
    ensures succeeds { IsOk (int_of value.now) → IsOk result }
{
    if value.is_number() {
        return value.clone(alloc);
    }
    let Some(text) = value.as_str() else {
        return Err(not_a_number(alloc, value.name()));
    };
    match place_in_path(text) {
        Some(n) => Ok(Value::from(n)),
        None => Err(no_integer(alloc, text)),
    }
}
