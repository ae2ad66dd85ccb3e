//! Copies of values, deep.
ghost use Rattle.std.specs.Prelude.{◌≡◌, ◌+◌, ◌<◌, true, false, [], ◌∷◌, ◌++◌, IfOk, IfErr};
ghost use Rattle.std.specs.Prelude.{IsOk, OnOk, MatchOption, string_bytes};
ghost use Rattle.std.specs.Vec.{vec_len, vec_capacity};
ghost use Rattle.tera_meaning.specs.Meaning.{meaning};
ghost use Rattle.tera_meaning.specs.Read.{iterable_in, truthy_in};
ghost use Rattle.tera_meaning.specs.Tree.{bytes};
ghost use Rattle.tera_report.specs.Errors.{IsOutOfMemory};
ghost use Rattle.tera_values.specs.View.{marked};

use crate::Value;
use crate::value::ValueInner;
use std::alloc::{AllocError, Global};
use tera_report::TeraResult;

impl Value {
    /// A value of the same form: kinds of integers, keys and flags of texts are kept at every
    /// depth. Mirrors `Clone` of `tera::Value`.
    ///
    /// Takes memory for texts, bytes, items and pairs, where there are some, and none for other
    /// values; the only refusal is want of it, `Out of memory`.
    pub fn clone(&self, alloc: Global) -> TeraResult<Value>
        ensures ok { IfOk result (λ v. v ≡ self.now) }
        ensures err { IfErr result IsOutOfMemory }
        ensures succeeds { iterable_in self.now ≡ false → IsOk result }
        ensures empty { truthy_in (meaning self.now) ≡ false → IsOk result }
    {
        Ok(self.copy(alloc)?)
    }

    /// A clone, with an error that says nothing but want of memory: so what is answered is small.
    ///
    /// Takes memory as `clone` does. It is inlined, so that what takes no memory is copied with no
    /// call.
    #[inline(always)]
    pub fn copy(&self, alloc: Global) -> Result<Value, AllocError>
        ensures ok { IfOk result (λ v. v ≡ self.now) }
        ensures succeeds { iterable_in self.now ≡ false → IsOk result }
        ensures empty { truthy_in (meaning self.now) ≡ false → IsOk result }
    {
        match self.plain_copy() {
            Some(copy) => Ok(copy),
            None => self.owner_copy(alloc),
        }
    }

    // A copy of what owns no memory.
    #[inline(always)]
    fn plain_copy(&self) -> Option<Value>
        ensures { MatchOption result (iterable_in self.now ≡ true) (λ v. v ≡ self.now) }
    {
        let inner = match &self.inner {
            ValueInner::Undefined => ValueInner::Undefined,
            ValueInner::None => ValueInner::None,
            ValueInner::Bool(b) => ValueInner::Bool(*b),
            ValueInner::U64(n) => ValueInner::U64(*n),
            ValueInner::I64(z) => ValueInner::I64(*z),
            ValueInner::U128(n) => ValueInner::U128(*n),
            ValueInner::I128(z) => ValueInner::I128(*z),
            _ => return None,
        };
        Some(Value { inner })
    }

    // A copy of what owns memory. It stands apart, so that `copy` stays short.
    #[inline(never)]
    #[cycle(copy)]
    fn owner_copy(&self, alloc: Global) -> Result<Value, AllocError>
        requires { iterable_in self.now ≡ true }
        ensures ok { IfOk result (λ v. v ≡ self.now) }
        ensures empty { truthy_in (meaning self.now) ≡ false → IsOk result }
    {
        match &self.inner {
            ValueInner::String(safe, text) => text_copy(alloc, *safe, text.as_str()),
            ValueInner::Array(all) => copies(alloc, all.as_slice()).map(Value::of_array),
            ValueInner::Bytes(held) => bytes_copy(alloc, held.as_slice()),
            ValueInner::Map(all) => all.copy(alloc).map(Value::of_map),
            _ => unreachable!(),
        }
    }
}

// A copy of a text with its flag. It stands apart, as what follows it does, so that a level of
// arrays and maps needs little stack.
#[inline(never)]
fn text_copy(alloc: Global, safe: bool, text: &str) -> Result<Value, AllocError>
    ensures ok { IfOk result (λ v. v ≡ marked text.now safe) }
    ensures succeeds { text.now ≡ [] → IsOk result }
{
    Ok(Value {
        inner: ValueInner::String(safe, text_of(alloc, text)?),
    })
}

// A copy of bytes.
#[inline(never)]
fn bytes_copy(alloc: Global, held: &[u8]) -> Result<Value, AllocError>
    ensures ok { IfOk result (λ v. v ≡ bytes held.now) }
    ensures succeeds { held.now ≡ [] → IsOk result }
{
    Ok(Value::bytes(bytes_of(alloc, held)?))
}

/// A text of its own. The empty one takes no memory.
pub(crate) fn text_of(alloc: Global, text: &str) -> Result<String, AllocError>
    ensures ok { IfOk result (λ made. string_bytes made ≡ text.now) }
    ensures succeeds { text.now ≡ [] → IsOk result }
{
    if text.is_empty() {
        return Ok(String::new(alloc));
    }
    String::from_str(alloc, text)
}

/// Bytes of their own. None take no memory.
pub(crate) fn bytes_of(alloc: Global, held: &[u8]) -> Result<Vec<u8>, AllocError>
    ensures ok { IfOk result (λ made. made.items ≡ held.now) }
    ensures succeeds { held.now ≡ [] → IsOk result }
{
    if held.is_empty() {
        return Ok(Vec::new(alloc));
    }
    held.to_vec(alloc)
}

/// A copy of each item, in their order.
#[inline(never)]
#[cycle(copy)]
pub(crate) fn copies(alloc: Global, all: &[Value]) -> Result<Vec<Value>, AllocError>
    ensures ok { IfOk result (λ v. v.items ≡ all.now) }
    ensures succeeds { all.now ≡ [] → IsOk result }
{
    let mut made = Vec::with_capacity(alloc, all.len())?;
    for value in all {
        push_copy(alloc, &mut made, value)?;
    }
    Ok(made)
}

/// Puts a copy behind the items, where there is room for it. What owns no memory is put by itself,
/// so that no more than it takes is moved.
#[inline(always)]
#[cycle(copy)]
pub(crate) fn push_copy(
    alloc: Global,
    made: &mut Vec<Value>,
    value: &Value,
) -> Result<(), AllocError>
    requires { vec_len made.old < vec_capacity made.old }
    ensures items { OnOk result (made.new.items ≡ made.old.items ++ value.now ∷ []) }
    ensures len { OnOk result (vec_len made.new ≡ vec_len made.old + 1) }
    ensures capacity { OnOk result (vec_capacity made.new ≡ vec_capacity made.old) }
{
    match value.plain_copy() {
        Some(copy) => made.push_reserved(copy),
        None => made.push_reserved(value.owner_copy(alloc)?),
    }
    Ok(())
}
