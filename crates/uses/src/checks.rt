//! A check of each value of an array, whose error tells the place.
ghost use Rattle.std.specs.Prelude.{◌≡◌, ◌+◌, length, Ok, IfErr, OnOk};
ghost use Rattle.tera.specs.Errors.{Raises, Refuses};
ghost use Rattle.tera.specs.Stepped.{stepped};
ghost use Rattle.uses.specs.Checks.{counted, no_number};

use std::alloc::Global;
use tera::{Error, TeraResult, Value};

/// Whether each value is a number. Refuses the first one that is none with `item N is no number`, N
/// being its place, counted from 0. Takes memory for that text alone; want of it, `Out of memory`,
/// is answered in its place.
pub fn require_numbers(alloc: Global, values: &[Value]) -> TeraResult<()>
    ensures ok { OnOk result (stepped counted 0 values.now ≡ Ok (length values.now)) }
    ensures err { IfErr result (Refuses (stepped counted 0 values.now)) }
{
    for (place, value) in values.iter().enumerate() {
        require_number(alloc, place, value)?;
    }
    Ok(())
}

// The same of the value at a place.
fn require_number(alloc: Global, place: usize, value: &Value) -> TeraResult<()>
    ensures ok { OnOk result (counted place value.now ≡ Ok (place + 1)) }
    ensures err { IfErr result (Refuses (counted place value.now)) }
{
    if value.is_number() {
        Ok(())
    } else {
        Err(no_number(alloc, place))
    }
}

// The error of a place.
fn no_number(alloc: Global, place: usize) -> Error
    ensures { Raises (no_number place) result }
{
    match format!(in alloc; "item {place} is no number") {
        Ok(text) => Error::message(alloc, text.as_str()),
        Err(refused) => Error::from(refused),
    }
}
