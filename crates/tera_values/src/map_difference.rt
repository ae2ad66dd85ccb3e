//! The least key at which two maps differ, whatever the order of their pairs.
ghost use Rattle.std.specs.Prelude.{◌≡◌, Some, None};
ghost use Rattle.std.specs.Option.{option_copied, option_map};
ghost use Rattle.tera_meaning.specs.Pairs.{key_form_order, value_at, goes_on, HasDistinctKeys};
ghost use Rattle.tera_values.specs.Key.{key_form};
ghost use Rattle.tera_values.specs.inner.MapDifference.{IsDifference, least_met, differing};
ghost use Rattle.tera_values.specs.inner.MapDifference.{lacking};
ghost use Rattle.tera_values.specs.inner.MapDifference.{is_before, difference_at};

use crate::compare::differing;
use crate::{Key, Map, Value};
use std::cmp::Ordering;

/// How two maps differ at a key: by the values, or one has a value there alone.
#[derive(Clone, Copy, Debug)]
pub(crate) enum Difference {
    Values(Ordering),
    LeftAlone,
    RightAlone,
}

/// The least key at which two maps differ, and how. One walk over each, and the other map asked by
/// key.
#[cycle(order)]
pub(crate) fn least_difference<'a>(
    left: &'a Map,
    right: &'a Map,
) -> Option<(&'a Key<'static>, Difference)>
    ensures { IsDifference left.now right.now
        (option_map (λ d. (key_form d.0.now, d.1)) result) }
{
    let found = least_differing(left, right);
    if found.is_none() && left.len() == right.len() {
        return None;
    }
    least_absent(left, right, found)
}

// The least key of the left map at which the right one has no value, or one of another meaning.
#[cycle(order)]
fn least_differing<'a>(left: &'a Map, right: &Map) -> Option<(&'a Key<'static>, Difference)>
    ensures distinct { HasDistinctKeys key_form_order left.now }
    ensures least { option_map (λ d. (key_form d.0.now, d.1)) result
        ≡ least_met (λ e. differing (Some e.1) (value_at key_form_order right.now e.0)) None
        left.now }
{
    let mut least = None;
    for (key, value) in left.iter() {
        if is_below(key, least) {
            least = difference_at(differing(value, right.get(key)), key, least);
        }
    }
    least
}

// The lesser of this difference and the least key of the right map at which the left one has no
// value.
fn least_absent<'a>(
    left: &Map,
    right: &'a Map,
    found: Option<(&'a Key<'static>, Difference)>,
) -> Option<(&'a Key<'static>, Difference)>
    ensures distinct { HasDistinctKeys key_form_order right.now }
    ensures least { option_map (λ d. (key_form d.0.now, d.1)) result
        ≡ least_met (λ e. lacking (value_at key_form_order left.now e.0))
        (option_map (λ d. (key_form d.0.now, d.1)) found.entry) right.now }
{
    let mut least = found;
    for (key, _) in right.iter() {
        if is_below(key, least) {
            least = difference_at(lacking(left.get(key)), key, least);
        }
    }
    least
}

/// Whether some key is above this one.
pub(crate) fn goes_on(map: &Map, key: &Key<'static>) -> bool
    ensures { result ≡ goes_on key_form_order map.now (key_form key.now) }
{
    for (held, _) in map.iter() {
        if key < held {
            return true;
        }
    }
    false
}

// A difference at a key in place of the least so far, where there is one.
fn difference_at<'a>(
    how: Option<Difference>,
    key: &'a Key<'static>,
    least: Option<(&'a Key<'static>, Difference)>,
) -> Option<(&'a Key<'static>, Difference)>
    ensures { option_map (λ d. (key_form d.0.now, d.1)) result
        ≡ difference_at how (key_form key.now)
        (option_map (λ d. (key_form d.0.now, d.1)) least.entry) }
{
    match how {
        Some(how) => Some((key, how)),
        None => least,
    }
}

// What the left map lacks of the right one.
fn lacking(other: Option<&Value>) -> Option<Difference>
    ensures { result ≡ lacking (option_copied other.entry) }
{
    match other {
        Some(_) => None,
        None => Some(Difference::RightAlone),
    }
}

// Whether the key is below that of the difference, where there is one.
fn is_below(key: &Key<'static>, least: Option<(&Key<'static>, Difference)>) -> bool
    ensures { result
        ≡ is_before key_form_order (key_form key.now)
        (option_map (λ d. (key_form d.0.now, d.1)) least.entry) }
{
    match least {
        Some((least, _)) => key < least,
        None => true,
    }
}
