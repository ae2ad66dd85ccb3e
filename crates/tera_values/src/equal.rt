//! Whether two values mean the same, by walks over arrays and maps that stop at the first
//! difference.
ghost use Rattle.std.specs.Prelude.{◌≡◌, Some, not};
ghost use Rattle.std.specs.Option.{option_copied, is_some};
ghost use Rattle.std.specs.Ordering.{is_eq};
ghost use Rattle.tera_meaning.specs.Meaning.{meaning};
ghost use Rattle.tera_meaning.specs.Order.{same};
ghost use Rattle.tera_meaning.specs.Tree.{array, items, object, members};
ghost use Rattle.tera_values.specs.inner.MapDifference.{maps_order, differing};

use crate::compare::order;
use crate::value::ValueInner;
use crate::{Map, Value};

/// Whether two values mean the same. Numbers that are both held in the same 64 bits are compared
/// with no call.
#[inline(always)]
#[cycle(equal)]
pub(crate) fn equal(left: &Value, right: &Value) -> bool
    ensures { result ≡ same (meaning left.now) (meaning right.now) }
{
    match (&left.inner, &right.inner) {
        (ValueInner::U64(n), ValueInner::U64(m)) => n == m,
        (ValueInner::I64(z), ValueInner::I64(y)) => z == y,
        _ => others_equal(left, right),
    }
}

// The same of all other values. It stands apart, so that `equal` stays short where it is inlined.
#[inline(never)]
#[cycle(equal)]
fn others_equal(left: &Value, right: &Value) -> bool
    ensures { result ≡ same (meaning left.now) (meaning right.now) }
{
    match &left.inner {
        ValueInner::Array(all) => array_equal(all.as_slice(), right),
        ValueInner::Map(all) => map_equal(all, right),
        _ => order(left, right).is_eq(),
    }
}

// Whether an array of these items and a value mean the same.
#[cycle(equal)]
fn array_equal(left: &[Value], right: &Value) -> bool
    ensures { result ≡ same (meaning (array (items left.now))) (meaning right.now) }
{
    match right.as_array() {
        Some(all) => items_equal(left, all),
        None => false,
    }
}

// Whether two arrays of these items mean the same: they have as many, and each means the same as
// the one in its place.
#[cycle(equal)]
fn items_equal(left: &[Value], right: &[Value]) -> bool
    ensures { result
        ≡ same (meaning (array (items left.now))) (meaning (array (items right.now))) }
{
    if left.len() != right.len() {
        return false;
    }
    for place in 0..left.len() {
        if !equal(&left[place], &right[place]) {
            return false;
        }
    }
    true
}

// Whether a map and a value mean the same.
#[cycle(equal)]
fn map_equal(left: &Map, right: &Value) -> bool
    ensures { result ≡ same (meaning (object (members left.now))) (meaning right.now) }
{
    match right.as_map() {
        Some(all) => pairs_equal(left, all),
        None => false,
    }
}

// Whether two maps mean the same: they have as many pairs, and what the left one has at a key, the
// right one has there too.
#[cycle(equal)]
fn pairs_equal(left: &Map, right: &Map) -> bool
    ensures { result ≡ is_eq (maps_order left.now right.now) }
{
    if left.len() != right.len() {
        return false;
    }
    for (key, value) in left.iter() {
        if !alike(value, right.get(key)) {
            return false;
        }
    }
    true
}

// Whether what another map has at the key of a value means the same.
#[cycle(equal)]
fn alike(value: &Value, other: Option<&Value>) -> bool
    ensures { result ≡ not (is_some (differing (Some value.now) (option_copied other.entry))) }
{
    match other {
        Some(other) => equal(value, other),
        None => false,
    }
}
