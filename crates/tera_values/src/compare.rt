//! The order of values: that of their meanings, whatever the kind of an integer or the flag of a
//! text.
ghost use Rattle.std.specs.Prelude.{◌≡◌, ◌↔◌, IsTrue, Some, false};
ghost use Rattle.std.specs.Cmp.{on_total, on_equiv, on_per, on_po};
ghost use Rattle.std.specs.Option.{option_copied};
ghost use Rattle.std.specs.Ordering.{on, as_partial_cmp};
ghost use Rattle.std.proofs.Common.{refl};
ghost use Rattle.tera_meaning.specs.Meaning.{meaning};
ghost use Rattle.tera_meaning.specs.Order.{rank, compare, same};
ghost use Rattle.tera_meaning.proofs.OrderLaws.{compare_total, compare_partial, same_equivalence};
ghost use Rattle.tera_meaning.proofs.OrderLaws.{same_partial_equivalence};
ghost use Rattle.tera_meaning.specs.Tree.{truth, number, text, bytes, array, object, items};
ghost use Rattle.tera_meaning.specs.Tree.{members};
ghost use Rattle.tera_values.specs.inner.Held.{holds_values};
ghost use Rattle.tera_values.specs.inner.MapDifference.{differing, maps_order};
ghost use Rattle.tera_scalars.specs.Whole.{whole_value};

use crate::equal::equal;
use crate::map_difference::{Difference, goes_on, least_difference};
use crate::value::ValueInner;
use crate::{Map, Value, ranks};
use std::cmp::Ordering;
use tera_scalars::Whole;

/// Values are equal exactly where they mean the same: kinds of integers, safe flags and the order
/// of a map's pairs count for nothing. Mirrors `PartialEq` of `tera::Value`. Takes no memory.
impl PartialEq for Value {
    ghost eq = { on meaning same };

    ghost laws = { on_per meaning same_partial_equivalence };

    fn eq(&self, other: &Value) -> bool
        ensures value { result ≡ same (meaning self.now) (meaning other.now) }
        ensures meaning { IsTrue result ↔ (meaning self.now ≡ meaning other.now) }
    {
        equal(self, other)
    }
}

impl Eq for Value {
    ghost laws = { on_equiv meaning same_equivalence };
}

/// The total order, so always an answer. Mirrors `PartialOrd` of `tera::Value`. Takes no memory.
impl PartialOrd for Value {
    ghost partial_cmp = { as_partial_cmp (on meaning compare) };

    ghost laws = { on_po meaning compare_partial };

    fn partial_cmp(&self, other: &Value) -> Option<Ordering> {
        Some(order(self, other))
    }
}

/// The total order of meanings: by rank (truth values, numbers, texts, arrays, maps, bytes, none,
/// undefined), and inside a rank as the definition `compare` says. Mirrors `Ord` of `tera::Value`.
/// Takes no memory.
impl Ord for Value {
    ghost cmp = { on meaning compare };

    ghost total = { on_total meaning compare_total };

    ghost matches_partial_cmp = { λ a b. refl };

    ghost matches_eq = { λ a b. refl };

    fn cmp(&self, other: &Value) -> Ordering {
        order(self, other)
    }
}

/// The order of two values.
#[cycle(order)]
pub(crate) fn order(left: &Value, right: &Value) -> Ordering
    ensures { result ≡ compare (meaning left.now) (meaning right.now) }
{
    match &left.inner {
        ValueInner::Array(all) => array_order(all.as_slice(), right),
        ValueInner::Map(all) => map_order(all, right),
        _ => plain_order(left, right),
    }
}

// The order of a value that holds no others and a value.
#[inline(always)]
fn plain_order(left: &Value, right: &Value) -> Ordering
    requires { holds_values left.now ≡ false }
    ensures { result ≡ compare (meaning left.now) (meaning right.now) }
{
    match &left.inner {
        ValueInner::Undefined => ranks::UNDEFINED.cmp(&rank(right)),
        ValueInner::None => ranks::NONE.cmp(&rank(right)),
        ValueInner::Bool(b) => truth_order(*b, right),
        ValueInner::U64(n) => number_order(Whole::Unsigned(u128::from(*n)), right),
        ValueInner::I64(z) => number_order(Whole::Signed(i128::from(*z)), right),
        ValueInner::U128(n) => number_order(Whole::Unsigned(*n), right),
        ValueInner::I128(z) => number_order(Whole::Signed(*z), right),
        ValueInner::String(_, text) => text_order(text.as_str(), right),
        ValueInner::Bytes(held) => bytes_order(held.as_slice(), right),
        _ => unreachable!(),
    }
}

// The order of an array of these items and a value.
#[cycle(order)]
fn array_order(left: &[Value], right: &Value) -> Ordering
    ensures { result ≡ compare (meaning (array (items left.now))) (meaning right.now) }
{
    match right.as_array() {
        Some(all) => items_order(left, all),
        None => ranks::ARRAY.cmp(&rank(right)),
    }
}

// The order of two arrays of these items: that of the first that differ, and where none do, that of
// the lengths.
#[cycle(order)]
fn items_order(left: &[Value], right: &[Value]) -> Ordering
    ensures { result
        ≡ compare (meaning (array (items left.now))) (meaning (array (items right.now))) }
{
    for place in 0..left.len().min(right.len()) {
        let first = item_order(&left[place], &right[place]);
        if first != Ordering::Equal {
            return first;
        }
    }
    left.len().cmp(&right.len())
}

// The order of two items. Numbers that are both held in the same 64 bits are compared in the loop
// itself: no call is made for them.
#[inline(always)]
#[cycle(order)]
fn item_order(left: &Value, right: &Value) -> Ordering
    ensures { result ≡ compare (meaning left.now) (meaning right.now) }
{
    match (&left.inner, &right.inner) {
        (ValueInner::U64(n), ValueInner::U64(m)) => n.cmp(m),
        (ValueInner::I64(z), ValueInner::I64(y)) => z.cmp(y),
        _ => order(left, right),
    }
}

// The order of a map of these pairs and a value.
#[cycle(order)]
fn map_order(left: &Map, right: &Value) -> Ordering
    ensures { result ≡ compare (meaning (object (members left.now))) (meaning right.now) }
{
    match right.as_map() {
        Some(all) => pairs_order(left, all),
        None => ranks::MAP.cmp(&rank(right)),
    }
}

// The order of two maps: as it stands at the least key where they differ.
#[cycle(order)]
fn pairs_order(left: &Map, right: &Map) -> Ordering
    ensures { result ≡ maps_order left.now right.now }
{
    match least_difference(&*left, &*right) {
        Some((_, Difference::Values(order))) => order,
        Some((key, Difference::LeftAlone)) => if goes_on(right, key) {
            Ordering::Less
        } else {
            Ordering::Greater
        },
        Some((key, Difference::RightAlone)) => if goes_on(left, key) {
            Ordering::Greater
        } else {
            Ordering::Less
        },
        None => Ordering::Equal,
    }
}

/// How a value and what another map has at its key differ, where they do.
#[cycle(order)]
pub(crate) fn differing(value: &Value, other: Option<&Value>) -> Option<Difference>
    ensures { result ≡ differing (Some value.now) (option_copied other.entry) }
{
    let Some(other) = other else {
        return Some(Difference::LeftAlone);
    };
    match order(value, other) {
        Ordering::Equal => None,
        Ordering::Less => Some(Difference::Values(Ordering::Less)),
        Ordering::Greater => Some(Difference::Values(Ordering::Greater)),
    }
}

// The order of a truth value and a value.
fn truth_order(b: bool, other: &Value) -> Ordering
    ensures { result ≡ compare (truth b) (meaning other.now) }
{
    match other.as_bool() {
        Some(c) => b.cmp(&c),
        None => ranks::TRUTH.cmp(&rank(other)),
    }
}

// The order of a number and a value.
fn number_order(n: Whole, other: &Value) -> Ordering
    ensures { result ≡ compare (number (whole_value n)) (meaning other.now) }
{
    match other.whole() {
        Some(m) => n.order(m),
        None => ranks::NUMBER.cmp(&rank(other)),
    }
}

// The order of a text and a value.
fn text_order(left: &str, other: &Value) -> Ordering
    ensures { result ≡ compare (text left.now) (meaning other.now) }
{
    match other.as_str() {
        Some(t) => left.cmp(t),
        None => ranks::TEXT.cmp(&rank(other)),
    }
}

// The order of bytes and a value.
fn bytes_order(left: &[u8], other: &Value) -> Ordering
    ensures { result ≡ compare (bytes left.now) (meaning other.now) }
{
    match other.as_bytes() {
        Some(held) => left.cmp(held),
        None => ranks::BYTES.cmp(&rank(other)),
    }
}

/// Its rank in the order of values.
pub(crate) fn rank(value: &Value) -> u8
    ensures { result ≡ rank (meaning value.now) }
{
    match &value.inner {
        ValueInner::Bool(_) => ranks::TRUTH,
        ValueInner::U64(_) => ranks::NUMBER,
        ValueInner::I64(_) => ranks::NUMBER,
        ValueInner::U128(_) => ranks::NUMBER,
        ValueInner::I128(_) => ranks::NUMBER,
        ValueInner::String(_, _) => ranks::TEXT,
        ValueInner::Array(_) => ranks::ARRAY,
        ValueInner::Map(_) => ranks::MAP,
        ValueInner::Bytes(_) => ranks::BYTES,
        ValueInner::None => ranks::NONE,
        ValueInner::Undefined => ranks::UNDEFINED,
    }
}
