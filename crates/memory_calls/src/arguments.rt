//! What values are taken as.
use crate::answers::{tell, tell_error};
use crate::made::{Made, as_value};
use std::alloc::Global;
use std::borrow::CowStr;
use tera_arguments::{ArgFromValue, StringInput};
use tera_report::TeraResult;
use tera_values::{Map, Number, Value};

/// What it is taken as.
pub fn taken<'k, V, T: ArgFromValue<'k, V, Output = T>>(
    alloc: Global,
    value: &'k V,
) -> TeraResult<T> {
    T::from_value(alloc, value)
}

/// Values that are taken.
pub fn tell_taken(rt: &(impl Print + AllocGlobal), made: &Made) {
    let alloc = rt.alloc();
    tell(
        rt,
        "String::from_value",
        taken::<Value, String>(alloc, &made.list),
    );
    tell(rt, "CowStr::from_value", owned(alloc, &made.list));
    tell(
        rt,
        "Value::from_value",
        taken::<Value, Value>(alloc, &made.list),
    );
    tell(rt, "Map::from_value", as_value(taken(alloc, &made.map)));
    tell_lists(rt, made);
}

fn tell_lists(rt: &(impl Print + AllocGlobal), made: &Made) {
    let alloc = rt.alloc();
    tell(
        rt,
        "Vec::from_value",
        taken::<Value, Vec<String>>(alloc, &made.texts),
    );
    tell(
        rt,
        "Vec::from_value of no array",
        taken::<Value, Vec<u8>>(alloc, &made.raw),
    );
    tell(
        rt,
        "Vec::from_value of another item",
        taken::<Value, Vec<bool>>(alloc, &made.texts),
    );
}

fn owned(alloc: Global, value: &Value) -> TeraResult<Option<String>> {
    Ok(own_text(taken(alloc, value)?))
}

/// The text, where it is one of its own.
pub fn own_text(text: CowStr<'_>) -> Option<String> {
    match text {
        CowStr::Owned(text) => Some(text),
        CowStr::Borrowed(_) => None,
    }
}

// The type of that name refuses the value.
fn tell_refusal<'k, V, T>(rt: &(impl Print + AllocGlobal), name: &str, value: &'k V)
where
    T: ArgFromValue<'k, V, Output = T> + Drop,
{
    match taken::<V, T>(rt.alloc(), value) {
        Ok(taken) => tell_taken_as(rt, name, taken),
        Err(refused) => tell_error(rt, name, refused),
    }
}

fn tell_taken_as<T: Drop>(rt: &impl Print, name: &str, taken: T) {
    let _ = println!(rt; "{name}: ok");
    drop(taken);
}

/// Values that are of no such type.
pub fn tell_refused(rt: &(impl Print + AllocGlobal), made: &Made) {
    let none = &made.none;
    tell_refusal::<Value, bool>(rt, "bool::from_value", none);
    tell_refusal::<Value, &str>(rt, "&str::from_value", none);
    tell_refusal::<Value, Number>(rt, "Number::from_value", none);
    tell_refusal::<Value, Number>(rt, "Number::from_value of a number", &made.wide);
    tell_refusal::<Value, Map>(rt, "Map::from_value of none", none);
    tell_refusal::<Value, &Map>(rt, "&Map::from_value", none);
    tell_refusal::<Value, &[Value]>(rt, "&[Value]::from_value", none);
    tell_refusal::<Value, StringInput<'_>>(rt, "StringInput::from_value", none);
}

// The integer type of that name refuses the number and what is none.
fn tell_integer<'k, V, T>(rt: &(impl Print + AllocGlobal), name: &str, values: [&'k V; 2])
where
    T: ArgFromValue<'k, V, Output = T> + Drop,
{
    let [past, none] = values;
    tell_refusal::<V, T>(rt, name, past);
    tell_refusal::<V, T>(rt, name, none);
}

/// Integers.
pub fn tell_integers(rt: &(impl Print + AllocGlobal), made: &Made) {
    tell_unsigned(rt, made);
    tell_signed(rt, made);
}

fn tell_unsigned(rt: &(impl Print + AllocGlobal), made: &Made) {
    let (past, below) = ([&made.wide, &made.none], [&made.below, &made.none]);
    tell_integer::<Value, u8>(rt, "u8::from_value", past);
    tell_integer::<Value, u16>(rt, "u16::from_value", past);
    tell_integer::<Value, u32>(rt, "u32::from_value", past);
    tell_integer::<Value, u64>(rt, "u64::from_value", past);
    tell_integer::<Value, u128>(rt, "u128::from_value", below);
    tell_integer::<Value, usize>(rt, "usize::from_value", past);
}

fn tell_signed(rt: &(impl Print + AllocGlobal), made: &Made) {
    let past = [&made.wide, &made.none];
    tell_integer::<Value, i8>(rt, "i8::from_value", past);
    tell_integer::<Value, i16>(rt, "i16::from_value", past);
    tell_integer::<Value, i32>(rt, "i32::from_value", past);
    tell_integer::<Value, i64>(rt, "i64::from_value", past);
    tell_integer::<Value, i128>(rt, "i128::from_value", past);
    tell_integer::<Value, isize>(rt, "isize::from_value", past);
}
