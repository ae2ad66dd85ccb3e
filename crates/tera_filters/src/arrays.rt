//! Filters of arrays and maps.
ghost use Rattle.std.specs.Prelude.{◌≡◌, IfOk, IfErr, IsOk, None, Ok, false};
ghost use Rattle.tera.specs.Errors.{Refuses};
ghost use Rattle.tera.specs.Form.{Form};
ghost use Rattle.tera.specs.Meaning.{meaning};
ghost use Rattle.tera.specs.Read.{iterable_in, truthy_in};
ghost use Rattle.tera.specs.Slice.{sliced};
ghost use Rattle.tera.specs.SliceRule.{reversed};
ghost use Rattle.tera_filters.specs.Arrays.{first_of, get_of, last_of, length_of, nth_of};
ghost use Rattle.tera_filters.specs.Arrays.{slice_of};

use crate::arguments::{argument, bound, needed_place, needed_text};
use crate::refused::{no_key, no_length, no_map};
use crate::taken::{copy_of, items_of};
use std::alloc::Global;
use tera::meaning::slices::slices_have_one_answer;
use tera::{Kwargs, TeraResult, Value};

/// How many characters a text has, items an array, pairs a map, bytes bytes.
///
/// Refuses every other value with `Value of type N has no length`, N being the name of its kind.
/// Takes memory for the text of the refusal; want of it, `Out of memory`, is answered in its place.
pub fn length(alloc: Global, value: &Value) -> TeraResult<Value>
    ensures ok { IfOk result (λ v. length_of value.now ≡ Ok v) }
    ensures err { IfErr result (Refuses (length_of value.now)) }
    ensures succeeds { IsOk (length_of value.now) → IsOk result }
{
    match value.len() {
        Some(length) => Ok(Value::from(length)),
        None => Err(no_length(alloc, value)),
    }
}

/// The first item of an array, undefined where it has none.
///
/// Refuses every other value with ``Invalid type for the value, expected `&[Value]` but got `N` ``,
/// N being the name of its kind, without the last blank. Takes memory for the copy of the item, as
/// [`Value::clone`] does, and for the text of the refusal; want of it, `Out of memory`, is answered
/// in the place of either.
pub fn first(alloc: Global, value: &Value) -> TeraResult<Value>
    ensures ok { IfOk result (λ v. first_of value.now ≡ Ok v) }
    ensures err { IfErr result (Refuses (first_of value.now)) }
    ensures succeeds { (made : Form) → first_of value.now ≡ Ok made → iterable_in made ≡ false
        → IsOk result }
    ensures empty { (made : Form) → first_of value.now ≡ Ok made
        → truthy_in (meaning made) ≡ false → IsOk result }
{
    copy_of(alloc, items_of(alloc, value)?.first())
}

/// The last item of an array, undefined where it has none.
///
/// Refuses and takes memory as [`first`] does.
pub fn last(alloc: Global, value: &Value) -> TeraResult<Value>
    ensures ok { IfOk result (λ v. last_of value.now ≡ Ok v) }
    ensures err { IfErr result (Refuses (last_of value.now)) }
    ensures succeeds { (made : Form) → last_of value.now ≡ Ok made → iterable_in made ≡ false
        → IsOk result }
    ensures empty { (made : Form) → last_of value.now ≡ Ok made
        → truthy_in (meaning made) ≡ false → IsOk result }
{
    copy_of(alloc, items_of(alloc, value)?.last())
}

/// The item of an array behind as many others as the argument `n` says, undefined where there is
/// none.
///
/// Refuses what is no array as [`first`] does, and then an argument that is missing or is no number
/// of a `usize`. Takes memory as [`first`] does.
pub fn nth(alloc: Global, value: &Value, arguments: &Kwargs) -> TeraResult<Value>
    ensures ok { IfOk result (λ v. nth_of value.now arguments.now ≡ Ok v) }
    ensures err { IfErr result (Refuses (nth_of value.now arguments.now)) }
    ensures succeeds { (made : Form) → nth_of value.now arguments.now ≡ Ok made
        → iterable_in made ≡ false → IsOk result }
    ensures empty { (made : Form) → nth_of value.now arguments.now ≡ Ok made
        → truthy_in (meaning made) ≡ false → IsOk result }
{
    let items = items_of(alloc, value)?;
    let n = needed_place(alloc, arguments, "n")?;
    copy_of(alloc, items.get(n))
}

/// The items of an array, the characters of a text or the bytes of bytes in the opposite order. A
/// reversed text is not safe.
///
/// Refuses and takes memory as [`Value::reverse`] does.
pub fn reverse(alloc: Global, value: &Value) -> TeraResult<Value>
    ensures ok { IfOk result (λ v. reversed value.now ≡ Ok v) }
    ensures err { IfErr result (Refuses (reversed value.now)) }
    ensures empty { (made : Form) → reversed value.now ≡ Ok made
        → truthy_in (meaning made) ≡ false → IsOk result }
{
    value.reverse(alloc)
}

/// The items of an array or the characters of a text from the argument `start` up to the argument
/// `end`. Each may be left out, and one below 0 counts from the end. A text keeps its flag.
///
/// Refuses an argument that is no number of an `i128`, and then what [`Value::slice`] refuses.
/// Takes memory as that does.
pub fn slice(alloc: Global, value: &Value, arguments: &Kwargs) -> TeraResult<Value>
    ensures ok { IfOk result (λ v. slice_of value.now arguments.now ≡ Ok v) }
    ensures err { IfErr result (Refuses (slice_of value.now arguments.now)) }
    ensures empty { (made : Form) → slice_of value.now arguments.now ≡ Ok made
        → truthy_in (meaning made) ≡ false → IsOk result }
{
    let start = bound(alloc, arguments, "start")?;
    let end = bound(alloc, arguments, "end")?;
    cut(alloc, value, start, end)
}

/// What a map has at the argument `key`, a text; or the argument `default` where it has nothing
/// there.
///
/// Refuses every other value with ``Invalid type for the value, expected `Map` but got `N` ``, N
/// being the name of its kind; then a key that is missing or is no text; and then one at which
/// nothing is, with ``The map has no key `K` ``, where no default is given. The last blank of each
/// is left out. Takes memory as [`first`] does.
pub fn get(alloc: Global, value: &Value, arguments: &Kwargs) -> TeraResult<Value>
    ensures ok { IfOk result (λ v. get_of value.now arguments.now ≡ Ok v) }
    ensures err { IfErr result (Refuses (get_of value.now arguments.now)) }
    ensures succeeds { (made : Form) → get_of value.now arguments.now ≡ Ok made
        → iterable_in made ≡ false → IsOk result }
    ensures empty { (made : Form) → get_of value.now arguments.now ≡ Ok made
        → truthy_in (meaning made) ≡ false → IsOk result }
{
    held_at(alloc, value, arguments)?.clone(alloc)
}

// What `get` answers a copy of.
fn held_at<'a>(alloc: Global, value: &'a Value, arguments: &'a Kwargs) -> TeraResult<&'a Value>
    ensures ok { IfOk result (λ held. get_of value.now arguments.now ≡ Ok held.now) }
    ensures err { IfErr result (Refuses (get_of value.now arguments.now)) }
    ensures succeeds { IsOk (get_of value.now arguments.now) → IsOk result }
{
    if value.as_map().is_none() {
        return Err(no_map(alloc, value));
    }
    let key = needed_text(alloc, arguments, "key")?;
    let default = argument(alloc, arguments, "default")?;
    match value.get_attr(key).or(default) {
        Some(held) => Ok(held),
        None => Err(no_key(alloc, key)),
    }
}

// The slice between two bounds by a step of 1.
fn cut(alloc: Global, value: &Value, start: Option<i128>, end: Option<i128>) -> TeraResult<Value>
    ensures ok { IfOk result (λ v. sliced value.now start end None ≡ Ok v) }
    ensures err { IfErr result (Refuses (sliced value.now start end None)) }
    ensures empty { (made : Form) → sliced value.now start end None ≡ Ok made
        → truthy_in (meaning made) ≡ false → IsOk result }
{
    slices_have_one_answer();
    value.slice(alloc, start, end, None)
}
