//! The partial order of values.
ghost use Rattle.std.specs.Prelude.{◌≡◌, ◌==◌, Some, None, IfSome, if◌then◌else◌};
ghost use Rattle.tera_meaning.specs.Decided.{decided};
ghost use Rattle.tera_meaning.specs.Meaning.{meaning};
ghost use Rattle.tera_meaning.specs.Order.{rank, compare};
ghost use Rattle.tera_meaning.specs.Tree.{array, items};

use crate::Value;
use crate::compare::rank;
use crate::value::ValueInner;
use std::cmp::Ordering;

impl Value {
    /// The partial order: nothing on two maps, even empty ones, and nothing on values of two ranks,
    /// all integers being of one. On two arrays the first items whose answer isn't `Some(Equal)`
    /// give the answer, which may be nothing; without such items the lengths decide. Else what
    /// `cmp` gives, with which it agrees wherever it answers. Takes no memory.
    pub fn try_compare(&self, other: &Value) -> Option<Ordering>
        ensures value { result ≡ decided (meaning self.now) (meaning other.now) }
        ensures agrees { IfSome result (λ o. o ≡ compare (meaning self.now) (meaning other.now)) }
    {
        partial_order(self, other)
    }
}

// The partial order of two values.
#[cycle(partial_order)]
fn partial_order(left: &Value, right: &Value) -> Option<Ordering>
    ensures { result ≡ decided (meaning left.now) (meaning right.now) }
{
    match &left.inner {
        ValueInner::Array(all) => partial_array_order(all.as_slice(), right),
        ValueInner::Map(_) => None,
        _ => order_of_one_rank(left, right),
    }
}

// The partial order of an array of these items and a value.
#[cycle(partial_order)]
fn partial_array_order(left: &[Value], right: &Value) -> Option<Ordering>
    ensures { result ≡ decided (meaning (array (items left.now))) (meaning right.now) }
{
    match right.as_array() {
        Some(all) => partial_items_order(left, all),
        None => None,
    }
}

// The partial order of two arrays of these items.
#[cycle(partial_order)]
fn partial_items_order(left: &[Value], right: &[Value]) -> Option<Ordering>
    ensures { result
        ≡ decided (meaning (array (items left.now))) (meaning (array (items right.now))) }
{
    for place in 0..left.len().min(right.len()) {
        let first = partial_order(&left[place], &right[place]);
        if first != Some(Ordering::Equal) {
            return first;
        }
    }
    Some(left.len().cmp(&right.len()))
}

// The order of two values, where they are of one rank.
fn order_of_one_rank(left: &Value, right: &Value) -> Option<Ordering>
    ensures { result ≡ (if rank (meaning left.now) == rank (meaning right.now)
        then Some (compare (meaning left.now) (meaning right.now)) else None) }
{
    if rank(left) == rank(right) {
        Some(left.cmp(right))
    } else {
        None
    }
}
