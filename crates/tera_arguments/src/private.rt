//! Traits that no other crate can name, and so none implements `ArgFromValue` or `Parts`.
use crate::StringInput;
use std::borrow::CowStr;
use tera_values::{Map, Number, Value};

pub trait SealedParts {}

impl SealedParts for Value {}

// What may be taken of a `V`.
pub trait Sealed<V> {}

impl Sealed<Value> for bool {}

impl Sealed<Value> for u8 {}

impl Sealed<Value> for u16 {}

impl Sealed<Value> for u32 {}

impl Sealed<Value> for u64 {}

impl Sealed<Value> for u128 {}

impl Sealed<Value> for usize {}

impl Sealed<Value> for i8 {}

impl Sealed<Value> for i16 {}

impl Sealed<Value> for i32 {}

impl Sealed<Value> for i64 {}

impl Sealed<Value> for i128 {}

impl Sealed<Value> for isize {}

impl Sealed<Value> for &str {}

impl Sealed<Value> for String {}

impl Sealed<Value> for CowStr<'_> {}

impl Sealed<Value> for Value {}

impl Sealed<Value> for &Value {}

impl Sealed<Value> for Number {}

impl Sealed<Value> for Map {}

impl Sealed<Value> for &Map {}

impl Sealed<Value> for &[Value] {}

impl<V, T: Sealed<V>> Sealed<V> for Vec<T> {}

impl Sealed<Value> for StringInput<'_> {}
