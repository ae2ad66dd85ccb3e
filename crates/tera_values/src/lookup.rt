//! What a value has at an attribute or an item, and the key that it is.
ghost use Rattle.std.specs.Prelude.{◌≡◌, false, None, Some, Ok, IfSome, IfOk, IfErr, IsOk};
ghost use Rattle.std.specs.Prelude.{MatchOption, is_some, unwrap_or};
ghost use Rattle.std.specs.Option.{option_copied};
ghost use Rattle.tera_meaning.specs.Lookup.{attr, as_key, key_in, paired, item, indexed, part_at};
ghost use Rattle.tera_meaning.specs.Lookup.{held_item};
ghost use Rattle.tera_report.specs.Refusal.{in_array};
ghost use Rattle.tera_scalars.specs.Whole.{whole_value};
ghost use Rattle.tera_meaning.specs.Meaning.{meaning};
ghost use Rattle.tera_meaning.specs.Pairs.{key_form_order, value_at};
ghost use Rattle.tera_meaning.specs.Read.{text_in, iterable_in, truthy_in};
ghost use Rattle.tera_meaning.specs.Tree.{undefined, object, members};
ghost use Rattle.tera_report.specs.Errors.{Refuses, IsOutOfMemory};
ghost use Rattle.tera_values.specs.Key.{key_form, FitsInline};
ghost use Rattle.tera_values.specs.View.{marked};
ghost use Rattle.tera_values.specs.inner.Key.{owning};

use crate::refused::{not_a_key, not_a_map_key, not_a_text_index, not_an_array_index};
use crate::value::ValueInner;
use crate::{Key, Map, Value};
use std::alloc::Global;
use tera_report::TeraResult;
use tera_scalars::{Whole, character, place};

impl Value {
    /// What the map has at that text, lent; nothing where it has nothing there, and on every other
    /// value. Mirrors `Value::get_attr`, which is private there. Takes no memory.
    #[tactic(auto, using(tera_meaning::proofs::TreeLaws::list_of_members))]
    pub fn get_attr<'a>(&'a self, name: &'a str) -> Option<&'a Value>
        ensures { option_copied result ≡ attr self.now name.now }
    {
        match &self.inner {
            ValueInner::Map(all) => value_at(all, Key::Str(name)),
            _ => None,
        }
    }

    /// The key that it is: a truth value, an integer in its kind, a text of its own. Mirrors
    /// `Value::as_key`, which is private there.
    ///
    /// Refuses every other value with `Not a valid key type`. Takes memory only for a text of more
    /// than 16 bytes and for that of the refusal; want of it, `Out of memory`, is answered in the
    /// place of either.
    pub fn as_key(&self, alloc: Global) -> TeraResult<Key<'static>>
        ensures ok { IfOk result (λ key. as_key self.now ≡ Ok (key_form key)) }
        ensures err { IfErr result (Refuses (as_key self.now)) }
        ensures succeeds { IsOk (as_key self.now) → IfSome (text_in self.now) FitsInline
            → IsOk result }
    {
        match self.key() {
            Some(key) => Ok(key.owned(alloc)?),
            None => Err(not_a_key(alloc)),
        }
    }

    /// The item that it holds, lent: what a map has at the key that the item is, whatever its kind;
    /// what an array has at an index, one below 0 being counted from the end. `None` where nothing
    /// is there, where the item is no key of a map or no index of an array, and on every other
    /// value: a character of a text is made, by `get_item`. The project's own. Takes no memory.
    #[tactic(auto, using(crate::proofs::LookupLemmas::listed))]
    pub fn get_at<'a>(&'a self, at: &Value) -> Option<&'a Value>
        ensures { option_copied result ≡ held_item self.now at.now }
    {
        match &self.inner {
            ValueInner::Map(all) => find_value(all, at),
            ValueInner::Array(all) => part(all.as_slice(), at.whole()?),
            _ => None,
        }
    }

    /// A copy of what it has at an item. A map has a value at the key that the item is, whatever
    /// its kind; an array or a text has a part at an index, one below 0 being counted from the end.
    /// A character keeps the text's flag. Undefined where there is nothing, and on every other
    /// value. Mirrors `Value::get_item`, which is private there.
    ///
    /// Refuses an item of a map that is no key with ``Map keys must be strings, integers, or bools,
    /// got `N`.``, where N is the name of the item's kind. Refuses one of an array that is no
    /// integer with ``Array index must be an integer, got `N`.``, and one of a text with ``String
    /// index must be an integer, got `N`.``. Takes memory for the copy, as `clone` does, and for a
    /// refusal's text; want of it, `Out of memory`, is answered in the place of either.
    pub fn get_item(&self, alloc: Global, at: &Value) -> TeraResult<Value>
        ensures ok { IfOk result (λ part. item self.now at.now ≡ Ok part) }
        ensures err { IfErr result (Refuses (item self.now at.now)) }
        ensures succeeds { IfOk (item self.now at.now)
            (λ part. iterable_in part ≡ false → IsOk result) }
        ensures empty { IfOk (item self.now at.now)
            (λ part. truthy_in (meaning part) ≡ false → IsOk result) }
    {
        match &self.inner {
            ValueInner::Map(all) => item_of_map(alloc, all, at),
            ValueInner::Array(all) => item_of_array(alloc, all.as_slice(), at),
            ValueInner::String(safe, text) => item_of_text(alloc, text.as_str(), *safe, at),
            _ => Ok(Value::undefined()),
        }
    }

    // Whether it is a key.
    fn is_key(&self) -> bool
        ensures { result ≡ is_some (key_in self.now) }
    {
        self.key().is_some()
    }

    // The key that it is, with its text lent. No other table says which kinds are keys.
    #[inline(always)]
    fn key(&self) -> Option<Key<'_>>
        ensures { MatchOption result (key_in self.now ≡ None)
            (λ key. key_in self.now ≡ Some (owning (key_form key))) }
    {
        match &self.inner {
            ValueInner::Bool(b) => Some(Key::Bool(*b)),
            ValueInner::U64(n) => Some(Key::U64(*n)),
            ValueInner::I64(z) => Some(Key::I64(*z)),
            ValueInner::U128(n) => Some(Key::U128(*n)),
            ValueInner::I128(z) => Some(Key::I128(*z)),
            ValueInner::String(_, text) => Some(Key::Str(text.as_str())),
            _ => None,
        }
    }
}

/// What a map has at the key that a value is, lent; nothing where the value is no key. Takes no
/// memory.
pub(crate) fn find_value<'a>(all: &'a Map, key: &Value) -> Option<&'a Value>
    ensures { option_copied result ≡ paired all.now (key_in key.now) }
{
    value_at(all, key.key()?)
}

// What a map has at a key, lent.
#[inline(always)]
fn value_at<'a>(all: &'a Map, key: Key<'_>) -> Option<&'a Value>
    ensures { option_copied result ≡ value_at key_form_order all.now (key_form key.entry) }
{
    all.get(&key)
}

// What a map has at an item.
#[tactic(auto, using(tera_meaning::proofs::TreeLaws::list_of_members))]
fn item_of_map(alloc: Global, all: &Map, at: &Value) -> TeraResult<Value>
    ensures ok { IfOk result
        (λ part. item (object (members all.now)) at.now ≡ Ok part) }
    ensures err { IfErr result (Refuses (item (object (members all.now)) at.now)) }
    ensures succeeds { IfOk (item (object (members all.now)) at.now)
        (λ part. iterable_in part ≡ false → IsOk result) }
    ensures empty { IfOk (item (object (members all.now)) at.now)
        (λ part. truthy_in (meaning part) ≡ false → IsOk result) }
{
    if !at.is_key() {
        return Err(not_a_map_key(alloc, at));
    }
    copy_of(alloc, find_value(all, at))
}

// What an array has at an item.
fn item_of_array(alloc: Global, all: &[Value], at: &Value) -> TeraResult<Value>
    ensures ok { IfOk result (λ made. indexed in_array at.now (part_at all.now) ≡ Ok made) }
    ensures err { IfErr result (Refuses (indexed in_array at.now (part_at all.now))) }
    ensures succeeds { IfOk (indexed in_array at.now (part_at all.now))
        (λ made. iterable_in made ≡ false → IsOk result) }
    ensures empty { IfOk (indexed in_array at.now (part_at all.now))
        (λ made. truthy_in (meaning made) ≡ false → IsOk result) }
{
    let Some(index) = at.whole() else {
        return Err(not_an_array_index(alloc, at));
    };
    copy_of(alloc, part(all, index))
}

// The part at an index.
fn part<T>(all: &[T], index: Whole) -> Option<&T>
    ensures { option_copied result ≡ part_at all.now (whole_value index) }
{
    match place(index, all.len()) {
        Some(place) => all.get(place),
        None => None,
    }
}

// What a text has at an item.
#[tactic(auto, using(crate::proofs::LookupLemmas::some_encoded))]
fn item_of_text(alloc: Global, text: &str, safe: bool, at: &Value) -> TeraResult<Value>
    ensures ok { IfOk result (λ part. item (marked text.now safe) at.now ≡ Ok part) }
    ensures err { IfErr result (Refuses (item (marked text.now safe) at.now)) }
    ensures succeeds { IfOk (item (marked text.now safe) at.now)
        (λ part. iterable_in part ≡ false → IsOk result) }
    ensures empty { IfOk (item (marked text.now safe) at.now)
        (λ part. truthy_in (meaning part) ≡ false → IsOk result) }
{
    let Some(index) = at.whole() else {
        return Err(not_a_text_index(alloc, at));
    };
    match character(text, index) {
        Some(found) => {
            let mut made = String::new(alloc);
            made.push(found)?;
            Ok(Value {
                inner: ValueInner::String(safe, made),
            })
        }
        None => Ok(Value::undefined()),
    }
}

// A copy of the part, undefined where there is none.
fn copy_of(alloc: Global, part: Option<&Value>) -> TeraResult<Value>
    ensures ok { IfOk result (λ made. unwrap_or (option_copied part.entry) undefined ≡ made) }
    ensures err { IfErr result IsOutOfMemory }
    ensures succeeds { iterable_in (unwrap_or (option_copied part.entry) undefined) ≡ false
        → IsOk result }
    ensures empty { truthy_in (meaning (unwrap_or (option_copied part.entry) undefined)) ≡ false
        → IsOk result }
{
    match part {
        Some(part) => part.clone(alloc),
        None => Ok(Value::undefined()),
    }
}
