//! The names of a context with their values, in the order of the bytes of the names.
ghost use Rattle.std.specs.Prelude.{◌≡◌, IfOk, IsOk};
ghost use Rattle.std.specs.FinMap.{empty, entries};
ghost use Rattle.std.specs.Cmp.Lexicographic.{slice_cmp};
ghost use Rattle.std.specs.Ordering.{nat_cmp};
ghost use Rattle.tera_meaning.specs.Pairs.{HasDistinctKeys};
ghost use Rattle.tera_context.specs.Context.{lent_entries, named, state_of};

use indexmap::IndexMap;
use std::alloc::{AllocError, Global};
use tera_values::{HashState, Value};

/// The names with their values, lent, in the order of the bytes of the names. Takes memory, but
/// where there is no name.
pub(crate) fn by_name(
    alloc: Global,
    values: &IndexMap<String, Value, HashState>,
) -> Result<Vec<(&str, &Value)>, AllocError>
    ensures ok { IfOk result (λ all. lent_entries all.items
        ≡ entries (state_of values.now.entries)) }
    ensures nothing { state_of values.now.entries ≡ empty → IsOk result }
{
    let mut all = lent(alloc, values)?;
    all.sort_unstable_by_key(|entry| entry.0);
    Ok(all)
}

// The names with their values, lent, in the order in which they are kept. No two names are equal.
fn lent(
    alloc: Global,
    values: &IndexMap<String, Value, HashState>,
) -> Result<Vec<(&str, &Value)>, AllocError>
    ensures ok { IfOk result (λ all. lent_entries all.items ≡ named values.now.entries) }
    ensures apart { IfOk result (λ all.
        HasDistinctKeys (slice_cmp nat_cmp) (lent_entries all.items)) }
    ensures nothing { state_of values.now.entries ≡ empty → IsOk result }
{
    let mut all = Vec::with_capacity(alloc, values.len())?;
    for (name, value) in values {
        all.push((name.as_str(), value))?;
    }
    Ok(all)
}
