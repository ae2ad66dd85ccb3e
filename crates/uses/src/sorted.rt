//! The values of an array in their order, each of them once.
ghost use Rattle.std.specs.List.{find};
ghost use Rattle.std.specs.List.Sorted.{IsStrictlySortedBy};
ghost use Rattle.std.specs.Ordering.{eq_by_cmp, on};
ghost use Rattle.std.specs.Prelude.{◌≡◌, IfOk, IfErr};
ghost use Rattle.tera.specs.Errors.{IsOutOfMemory};
ghost use Rattle.tera.specs.Form.{Form};
ghost use Rattle.tera.specs.Meaning.{meaning};
ghost use Rattle.tera.specs.Order.{compare};

use std::alloc::Global;
use std::collections::BTreeSet;
use tera::{TeraResult, Value};

/// The values in rising order, of equal ones the first alone. `Out of memory` is the only refusal.
pub fn sorted_unique(alloc: Global, values: &[Value]) -> TeraResult<Vec<Value>>
    ensures rises { IfOk result (λ sorted.
        IsStrictlySortedBy (on meaning compare) sorted.items) }
    ensures found { IfOk result (λ sorted. (x : Form)
        → find (eq_by_cmp (on meaning compare) x) sorted.items
        ≡ find (eq_by_cmp (on meaning compare) x) values.now) }
    ensures err { IfErr result IsOutOfMemory }
{
    let mut sorted = Vec::new(alloc);
    for value in set_of(alloc, values)? {
        sorted.push(value)?;
    }
    Ok(sorted)
}

// The set of the values, of equal ones the first.
fn set_of(alloc: Global, values: &[Value]) -> TeraResult<BTreeSet<Value>>
    ensures rises { IfOk result (λ set. IsStrictlySortedBy (on meaning compare) set.keys) }
    ensures found { IfOk result (λ set. (x : Form)
        → find (eq_by_cmp (on meaning compare) x) set.keys
        ≡ find (eq_by_cmp (on meaning compare) x) values.now) }
    ensures err { IfErr result IsOutOfMemory }
{
    let mut set = BTreeSet::new(alloc);
    for value in values {
        set.insert(value.clone(alloc)?)?;
    }
    Ok(set)
}
