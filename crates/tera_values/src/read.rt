//! What a value holds: its parts, lent or handed on, and what it counts as.
ghost use Rattle.std.specs.Prelude.{◌≡◌, None, Some, MatchOption};
ghost use Rattle.std.specs.Option.{option_map};
ghost use Rattle.tera_meaning.specs.Meaning.{meaning};
ghost use Rattle.tera_meaning.specs.Read.{truth_in, number_in, text_in, bytes_in, items_in};
ghost use Rattle.tera_meaning.specs.Read.{members_in, safe_in, marked_safe, truthy_in, size_in};
ghost use Rattle.tera_meaning.specs.Read.{iterable_in, is_nonempty};
ghost use Rattle.tera_scalars.specs.Whole.{whole_value};

use crate::value::ValueInner;
use crate::{Map, Value};
use tera_report::words::characters;
use tera_scalars::Whole;

impl Value {
    /// The truth value that it is. Mirrors `Value::as_bool`. Takes no memory.
    pub fn as_bool(&self) -> Option<bool>
        ensures { result ≡ truth_in self.now }
    {
        match &self.inner {
            ValueInner::Bool(b) => Some(*b),
            _ => None,
        }
    }

    /// The text that it is, lent, whatever its flag. Mirrors `Value::as_str`. Takes no memory.
    pub fn as_str(&self) -> Option<&str>
        ensures { MatchOption result (text_in self.now ≡ None)
            (λ t. text_in self.now ≡ Some t.now) }
    {
        match &self.inner {
            ValueInner::String(_, text) => Some(text.as_str()),
            _ => None,
        }
    }

    /// The items of the array that it is, lent. Mirrors `Value::as_array`. Takes no memory.
    #[tactic(auto, using(tera_meaning::proofs::TreeLaws::list_of_items))]
    pub fn as_array(&self) -> Option<&[Value]>
        ensures { MatchOption result (items_in self.now ≡ None)
            (λ xs. items_in self.now ≡ Some xs.now) }
    {
        match &self.inner {
            ValueInner::Array(all) => Some(all.as_slice()),
            _ => None,
        }
    }

    /// The bytes that it is, lent. Those of a text are no bytes. Mirrors `Value::as_bytes`. Takes
    /// no memory.
    pub fn as_bytes(&self) -> Option<&[u8]>
        ensures { MatchOption result (bytes_in self.now ≡ None)
            (λ bs. bytes_in self.now ≡ Some bs.now) }
    {
        match &self.inner {
            ValueInner::Bytes(held) => Some(held.as_slice()),
            _ => None,
        }
    }

    /// The items of the array that it is, handed on. Mirrors `Value::into_vec`, which is private
    /// there. Takes no memory.
    #[tactic(auto, using(tera_meaning::proofs::TreeLaws::list_of_items))]
    pub fn into_vec(self) -> Option<Vec<Value>>
        ensures { MatchOption result (items_in self ≡ None) (λ xs. items_in self ≡ Some xs.items) }
    {
        match self.into_inner() {
            ValueInner::Array(all) => Some(all),
            _ => None,
        }
    }

    /// The pairs of the map that it is, lent. Mirrors `Value::as_map`. Takes no memory.
    #[tactic(auto, using(tera_meaning::proofs::TreeLaws::list_of_members))]
    pub fn as_map(&self) -> Option<&Map>
        ensures { MatchOption result (members_in self.now ≡ None)
            (λ m. members_in self.now ≡ Some m.now) }
    {
        match &self.inner {
            ValueInner::Map(map) => Some(map),
            _ => None,
        }
    }

    /// The pairs of the map that it is, handed on. Mirrors `Value::into_map`. Takes no memory.
    #[tactic(auto, using(tera_meaning::proofs::TreeLaws::list_of_members))]
    pub fn into_map(self) -> Option<Map>
        ensures { MatchOption result (members_in self ≡ None)
            (λ m. members_in self ≡ Some m) }
    {
        match self.into_inner() {
            ValueInner::Map(pairs) => Some(pairs),
            _ => None,
        }
    }

    /// Whether it is shown as it is: a text by its flag, arrays, maps and bytes never, all else
    /// always. Mirrors `Value::is_safe`. Takes no memory.
    pub fn is_safe(&self) -> bool
        ensures { result ≡ safe_in self.now }
    {
        match &self.inner {
            ValueInner::String(safe, _) => *safe,
            ValueInner::Array(_) | ValueInner::Bytes(_) | ValueInner::Map(_) => false,
            _ => true,
        }
    }

    /// The same value, a text with its flag set. Mirrors `Value::mark_safe`. Takes no memory.
    pub fn mark_safe(self) -> Value
        ensures { result ≡ marked_safe self }
    {
        let inner = match self.into_inner() {
            ValueInner::String(_, text) => ValueInner::String(true, text),
            other => other,
        };
        Value { inner }
    }

    /// Whether a condition holds at it: undefined and none never, a truth value itself, a number
    /// unless zero, a text, an array, a map or bytes unless empty. Mirrors `Value::is_truthy`.
    /// Takes no memory.
    pub fn is_truthy(&self) -> bool
        ensures { result ≡ truthy_in (meaning self.now) }
    {
        match &self.inner {
            ValueInner::Undefined => false,
            ValueInner::None => false,
            ValueInner::Bool(b) => *b,
            ValueInner::U64(n) => *n != 0,
            ValueInner::I64(z) => *z != 0,
            ValueInner::U128(n) => *n != 0,
            ValueInner::I128(z) => *z != 0,
            ValueInner::String(_, text) => is_nonempty(text.as_bytes()),
            ValueInner::Array(all) => is_nonempty(all.as_slice()),
            ValueInner::Bytes(held) => is_nonempty(held.as_slice()),
            ValueInner::Map(all) => all.len() != 0,
        }
    }

    /// How many characters the text has, items the array, pairs the map, bytes the bytes; nothing
    /// on other kinds. Mirrors `Value::len`. Takes no memory.
    pub fn len(&self) -> Option<usize>
        ensures { result ≡ size_in (meaning self.now) }
    {
        match &self.inner {
            ValueInner::String(_, text) => Some(characters(text.as_str())),
            ValueInner::Array(all) => Some(all.len()),
            ValueInner::Bytes(held) => Some(held.len()),
            ValueInner::Map(all) => Some(all.len()),
            _ => None,
        }
    }

    /// Whether it is a text, an array, a map or bytes. Mirrors `Value::can_be_iterated_on`, which
    /// is private there. Takes no memory.
    pub fn can_be_iterated_on(&self) -> bool
        ensures { result ≡ iterable_in self.now }
    {
        match &self.inner {
            ValueInner::String(_, _) => true,
            ValueInner::Array(_) | ValueInner::Bytes(_) | ValueInner::Map(_) => true,
            _ => false,
        }
    }

    // The number that it is.
    pub(crate) fn whole(&self) -> Option<Whole>
        ensures { option_map whole_value result ≡ number_in self.now }
    {
        match &self.inner {
            ValueInner::U64(n) => Some(Whole::Unsigned(u128::from(*n))),
            ValueInner::I64(z) => Some(Whole::Signed(i128::from(*z))),
            ValueInner::U128(n) => Some(Whole::Unsigned(*n)),
            ValueInner::I128(z) => Some(Whole::Signed(*z)),
            _ => None,
        }
    }
}

// Whether there is an item.
fn is_nonempty<T>(all: &[T]) -> bool
    ensures { result ≡ is_nonempty all.now }
{
    !all.is_empty()
}
