//! Slices of values, and their reversal.
ghost use Rattle.std.specs.Prelude.{◌≡◌, ◌≢◌, ◌<◌, ◌≤◌, Result, Ok, Some, IfOk, IfErr, IsOk, pos};
ghost use Rattle.std.specs.Prelude.{[], false, reverse, length, slice_get};
ghost use Rattle.tera_meaning.specs.Form.{Form};
ghost use Rattle.tera_meaning.specs.Meaning.{meaning};
ghost use Rattle.tera_meaning.specs.Read.{truthy_in};
ghost use Rattle.tera_meaning.specs.SliceRule.{IsSliced, reversed};
ghost use Rattle.tera_meaning.specs.Slice.{cut, slice_of, IsStrided};
ghost use Rattle.tera_report.specs.Errors.{Refuses};
ghost use Rattle.tera_report.specs.Refusal.{Refusal};
ghost use Rattle.tera_scalars.specs.Positions.{turned};

use crate::Value;
use crate::copy::{bytes_of, push_copy};
use crate::refused::{not_reversible, not_sliceable, step_of_zero};
use crate::value::ValueInner;
use std::alloc::{AllocError, Global};
use tera_report::TeraResult;
use tera_scalars::{Stride, reversed_text, sliced_text};

impl Value {
    /// The items of an array or the characters of a text from a start up to an end, by a step that
    /// may go backwards. A bound below 0 counts from the end, and one past an end is clamped to it.
    /// An absent step is 1. An absent bound is where the items begin or end in the direction of the
    /// step. Items keep their forms, and a text keeps its flag. Mirrors `Value::slice`, which is
    /// private there.
    ///
    /// Refuses a step of 0 with `Slicing step cannot be 0`. Then it refuses every other value with
    /// ``Slicing can only be used on arrays or strings, not on `N`.``, where N is the name of its
    /// kind. Takes memory for what it gives, unless that is empty, and for a refusal's text; want
    /// of it, `Out of memory`, is answered in the place of either.
    pub fn slice(
        &self,
        alloc: Global,
        start: Option<i128>,
        end: Option<i128>,
        step: Option<i128>,
    ) -> TeraResult<Value>
        ensures ok { IfOk result (λ v. IsSliced self.now start end step (Ok v)) }
        ensures err { IfErr result (λ e. (outcome : Result Form Refusal)
            × IsSliced self.now start end step outcome × Refuses outcome e) }
        ensures empty { (made : Form) → IsSliced self.now start end step (Ok made)
            → truthy_in (meaning made) ≡ false → IsOk result }
    {
        let step = step.unwrap_or(1);
        if step == 0 {
            return Err(step_of_zero(alloc));
        }
        self.cut(alloc, start, end, step)
    }

    /// The items of an array, the characters of a text or the bytes of bytes in the opposite order.
    /// Items keep their forms; a reversed text is not safe. Mirrors `Value::reverse`, where bytes
    /// become an array of numbers.
    ///
    /// Refuses every other value with `Value of type N cannot be reversed`, where N is the name of
    /// its kind. Takes memory for what it gives, unless that is empty, and for a refusal's text;
    /// want of it, `Out of memory`, is answered in the place of either.
    #[tactic(auto, using(tera_meaning::proofs::TreeLaws::list_of_items))]
    pub fn reverse(&self, alloc: Global) -> TeraResult<Value>
        ensures ok { IfOk result (λ v. reversed self.now ≡ Ok v) }
        ensures err { IfErr result (Refuses (reversed self.now)) }
        ensures empty { (made : Form) → reversed self.now ≡ Ok made
            → truthy_in (meaning made) ≡ false → IsOk result }
    {
        match &self.inner {
            ValueInner::Array(all) => {
                Ok(Value::of_array(reversed_items(alloc, all.as_slice())?))
            }
            ValueInner::String(_, text) => Ok(Value {
                inner: ValueInner::String(false, reversed_text(alloc, text.as_str())?),
            }),
            ValueInner::Bytes(held) => Ok(Value::bytes(reversed_bytes(alloc, held.as_slice())?)),
            _ => Err(not_reversible(alloc, self)),
        }
    }

    // The slice by a step other than 0.
    #[tactic(auto, using(tera_meaning::proofs::TreeLaws::list_of_items))]
    fn cut(
        &self,
        alloc: Global,
        start: Option<i128>,
        end: Option<i128>,
        step: i128,
    ) -> TeraResult<Value>
        ensures ok { IfOk result (λ v. step ≢ pos 0 → cut self.now start end step ≡ Ok v) }
        ensures err { IfErr result (Refuses (cut self.now start end step)) }
        ensures empty { IfOk (cut self.now start end step)
            (λ made. truthy_in (meaning made) ≡ false → step ≢ pos 0 → IsOk result) }
    {
        match &self.inner {
            ValueInner::Array(all) => {
                let part = sliced_items(alloc, all.as_slice(), start, end, step)?;
                Ok(Value::of_array(part))
            }
            ValueInner::String(safe, text) => {
                let part = sliced_text(alloc, text.as_str(), start, end, step)?;
                Ok(Value {
                    inner: ValueInner::String(*safe, part),
                })
            }
            _ => Err(not_sliceable(alloc, self)),
        }
    }
}

// Copies of the items of a slice.
fn sliced_items(
    alloc: Global,
    all: &[Value],
    start: Option<i128>,
    end: Option<i128>,
    step: i128,
) -> Result<Vec<Value>, AllocError>
    ensures ok { IfOk result (λ ys. step ≢ pos 0 → ys.items ≡ slice_of all.now start end step) }
    ensures succeeds { step ≢ pos 0 → slice_of all.now start end step ≡ [] → IsOk result }
{
    strided_items(
        alloc,
        all,
        step < 0,
        Stride::new(all.len(), start, end, step),
    )
}

// Copies of the items in the opposite order.
fn reversed_items(alloc: Global, all: &[Value]) -> Result<Vec<Value>, AllocError>
    ensures ok { IfOk result (λ ys. ys.items ≡ reverse all.now) }
    ensures succeeds { all.now ≡ [] → IsOk result }
{
    let mut made = Vec::with_capacity(alloc, all.len())?;
    for place in 0..all.len() {
        push_copy(alloc, &mut made, item_from(all, true, place))?;
    }
    Ok(made)
}

// Copies of the items that a walk takes, from the front or from the back.
fn strided_items(
    alloc: Global,
    all: &[Value],
    backwards: bool,
    stride: Stride,
) -> Result<Vec<Value>, AllocError>
    requires moves { 0 < stride.by }
    requires within { stride.until ≤ length all.now }
    ensures ok { IfOk result (λ ys. IsStrided (turned backwards all.now) stride.from stride.until
        stride.by ys.items) }
    ensures succeeds { stride.until ≤ stride.from → IsOk result }
{
    let mut made = Vec::with_capacity(alloc, stride.count())?;
    let mut at = stride.from;
    while at < stride.until {
        push_copy(alloc, &mut made, item_from(all, backwards, at))?;
        at = at.saturating_add(stride.by);
    }
    Ok(made)
}

// The item so many behind the first one, or before the last one.
#[inline(always)]
fn item_from(all: &[Value], backwards: bool, at: usize) -> &Value
    requires { at < length all.now }
    ensures { slice_get (turned backwards all.now) at ≡ Some result.now }
{
    if backwards {
        &all[all.len() - 1 - at]
    } else {
        &all[at]
    }
}

// The bytes in the opposite order.
fn reversed_bytes(alloc: Global, held: &[u8]) -> Result<Vec<u8>, AllocError>
    ensures ok { IfOk result (λ made. made.items ≡ reverse held.now) }
    ensures succeeds { held.now ≡ [] → IsOk result }
{
    let mut made = bytes_of(alloc, held)?;
    made.reverse();
    Ok(made)
}
