//! Filters that put the items of arrays in order, or keep some of them.
ghost use Rattle.std.specs.BTreeMap.{is_at};
ghost use Rattle.std.specs.BTreeSet.{insert_key};
ghost use Rattle.std.specs.List.{list_any};
ghost use Rattle.std.specs.List.Sorted.{IsStrictlySortedBy};
ghost use Rattle.std.specs.Ordering.{on};
ghost use Rattle.std.specs.Prelude.{◌≡◌, ◌++◌, [], ◌∷◌, if◌then◌else◌, IfOk, IfErr, IsOk, OnOk};
ghost use Rattle.std.specs.Prelude.{Ok};
ghost use Rattle.tera.specs.Errors.{IsOutOfMemory, Refuses};
ghost use Rattle.tera.specs.Meaning.{meaning};
ghost use Rattle.tera.specs.Order.{compare};
ghost use Rattle.tera.specs.Taken.{as_items};
ghost use Rattle.tera_filters.specs.Arrays.{first_ones, is_less, sort_of, unique_of};
ghost use Rattle.tera_filters.specs.Sorting.{in_order};

use crate::taken::items_of;
use std::alloc::Global;
use std::collections::BTreeSet;
use tera::{TeraResult, Value};

/// The items of an array in the order of their meanings, which orders values of all kinds. Items
/// that mean the same stay as they stood, and each keeps its kind and its flag.
///
/// Refuses every other value with ``Invalid type for the value, expected `&[Value]` but got `N` ``,
/// N being the name of its kind, without the last blank. Takes memory for the copies of the items,
/// to sort more than 20 of them, and for the text of the refusal; want of it, `Out of memory`, is
/// answered in the place of either. No items take none.
pub fn sort(alloc: Global, value: &Value) -> TeraResult<Value>
    ensures ok { IfOk result (λ v. sort_of value.now ≡ Ok v) }
    ensures err { IfErr result (Refuses (sort_of value.now)) }
    ensures empty { as_items value.now ≡ Ok [] → IsOk result }
{
    let items = items_of(alloc, value)?;
    Ok(Value::of_array(sorted(alloc, items)?))
}

/// The items of an array, of those that mean the same the first alone. Each keeps its kind and its
/// flag.
///
/// Refuses as [`sort`] does. Takes memory for the copies of the items, and for those that are known
/// to stand before one; want of it, `Out of memory`, is answered in the place of either. No items
/// take none.
pub fn unique(alloc: Global, value: &Value) -> TeraResult<Value>
    ensures ok { IfOk result (λ v. unique_of value.now ≡ Ok v) }
    ensures err { IfErr result (Refuses (unique_of value.now)) }
    ensures empty { as_items value.now ≡ Ok [] → IsOk result }
{
    let items = items_of(alloc, value)?;
    Ok(Value::of_array(first_ones(alloc, items)?))
}

// Copies of the items in order.
fn sorted(alloc: Global, items: &[Value]) -> TeraResult<Vec<Value>>
    ensures ok { IfOk result (λ made. made.items ≡ in_order is_less items.now) }
    ensures err { IfErr result IsOutOfMemory }
    ensures empty { items.now ≡ [] → IsOk result }
{
    let mut made = copies(alloc, items)?;
    made.sort()?;
    Ok(made)
}

// Copies of the items.
fn copies(alloc: Global, items: &[Value]) -> TeraResult<Vec<Value>>
    ensures ok { IfOk result (λ made. made.items ≡ items.now) }
    ensures err { IfErr result IsOutOfMemory }
    ensures empty { items.now ≡ [] → IsOk result }
{
    let mut made = Vec::with_capacity(alloc, items.len())?;
    for item in items {
        made.push(item.clone(alloc)?)?;
    }
    Ok(made)
}

// Copies of the items before which none that means the same stands.
fn first_ones(alloc: Global, items: &[Value]) -> TeraResult<Vec<Value>>
    ensures ok { IfOk result (λ made. made.items ≡ first_ones items.now) }
    ensures err { IfErr result IsOutOfMemory }
    ensures empty { items.now ≡ [] → IsOk result }
{
    let mut seen = BTreeSet::new(alloc);
    let mut made = Vec::new(alloc);
    for item in items {
        keep_new(alloc, item, &mut seen, &mut made)?;
    }
    Ok(made)
}

// Puts a copy of an item behind others, where none that means the same was seen.
fn keep_new(
    alloc: Global,
    item: &Value,
    seen: &mut BTreeSet<Value>,
    made: &mut Vec<Value>,
) -> TeraResult<()>
    ensures keys { OnOk result
        (seen.new.keys ≡ insert_key (on meaning compare) seen.old.keys item.now) }
    ensures rises { OnOk result (IsStrictlySortedBy (on meaning compare) seen.new.keys) }
    ensures kept { OnOk result (made.new.items
        ≡ (if list_any (is_at (on meaning compare item.now)) seen.old.keys
        then made.old.items else made.old.items ++ item.now ∷ [])) }
    ensures err { IfErr result IsOutOfMemory }
{
    if seen.insert(item.clone(alloc)?)? {
        made.push(item.clone(alloc)?)?;
    }
    Ok(())
}
