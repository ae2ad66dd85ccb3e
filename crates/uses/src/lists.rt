//! The end of an array, by a slice.
ghost use Rattle.std.specs.Prelude.{◌≡◌, ◌-◌, pos, neg_ℤ, List, length, drop, Some, IfOk, IfErr};
ghost use Rattle.std.specs.Prelude.{Result, Ok};
ghost use Rattle.tera.specs.Errors.{IsOutOfMemory, Refuses};
ghost use Rattle.tera.specs.Form.{Form};
ghost use Rattle.tera.specs.Read.{items_in};
ghost use Rattle.tera.specs.Refusal.{Refusal};
ghost use Rattle.tera.specs.Tree.{array, items};
ghost use Rattle.uses.specs.Lists.{IsEnd};

use std::alloc::Global;
use tera::meaning::slices::slices_by_one_are_stretches;
use tera::{TeraResult, Value};

/// The last items of an array, so many of them, or all where it has no more. Of a text they are
/// characters.
///
/// Refuses what is no array and no text, as `Value::slice` does. Of an array `Out of memory` is the
/// only refusal.
pub fn last_items(alloc: Global, value: &Value, count: u64) -> TeraResult<Value>
    ensures ok { (xs : List Form) → items_in value.now ≡ Some xs
        → IfOk result (λ last. last ≡ array (items (drop (length xs - count) xs))) }
    ensures err { (xs : List Form) → items_in value.now ≡ Some xs → IfErr result IsOutOfMemory }
    ensures any { IfOk result (λ last. IsEnd value.now count (Ok last)) }
    ensures any_err { IfErr result (λ e. (outcome : Result Form Refusal)
        × IsEnd value.now count outcome × Refuses outcome e) }
{
    slices_by_one_are_stretches();
    if count == 0 {
        // a start of -0 would take all
        value.slice(alloc, None, Some(0), None)
    } else {
        value.slice(alloc, bound_below(count), None, None)
    }
}

// A bound of so many below 0.
fn bound_below(count: u64) -> Option<i128>
    ensures { result ≡ Some (neg_ℤ (pos count)) }
{
    Some(-i128::from(count))
}
