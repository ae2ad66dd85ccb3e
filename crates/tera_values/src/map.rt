//! Maps, and walks over their pairs.
ghost use Rattle.std.specs.Prelude.{◌≡◌, ◌==◌, [], None, length, IfOk, IfErr, IsOk, OnOk, OnErr};
ghost use Rattle.std.specs.Prelude.{slice_get};
ghost use Rattle.std.specs.Option.{option_copied, option_map};
ghost use Rattle.tera_meaning.specs.Pairs.{key_form_order, put, value_at, HasDistinctKeys};
ghost use Rattle.tera_values.specs.inner.Map.{keys_held, AreListsOf};
ghost use Rattle.tera_report.specs.Errors.{IsOutOfMemory};
ghost use Rattle.tera_values.specs.Key.{key_form};

mod columns;
mod keys;

use crate::{HashState, Key, Value};
use columns::Columns;
use keys::{Keys, OwnKeys, next_key};
use std::alloc::{AllocError, Global};
use std::marker::Model;
use std::{fmt, slice, vec};
use tera_report::TeraResult;

/// The pairs of a map, in the order in which their keys came. Mirrors `tera::value::Map`.
///
/// They stand behind a pointer, which the first pair makes, so that values stay small.
#[cycle(value)]
pub struct Map {
    alloc: Global,
    held: Held,
}

// What a map holds: the state that its keys will be hashed under, or its pairs, which know it.
#[cycle(value)]
#[derive(Drop)]
pub(crate) enum Held {
    Nothing(HashState),
    Pairs(Box<Columns>),
}

impl Drop for Map {
    #[inline(always)]
    #[cycle(value)]
    fn drop(self) {
        let Map { alloc: _, held: _ } = self;
    }
}

impl Model for Map {
    ghost use Rattle.std.specs.Prelude.{List};
    ghost use Rattle.tera_meaning.specs.Form.{Form};
    ghost use Rattle.tera_meaning.specs.KeyMeaning.{KeyForm};
    ghost use Rattle.tera_values.specs.Map.{coded_pairs};
    ghost use Rattle.tera_values.specs.inner.Map.{pairs_in};

    ghost Value = { List (KeyForm × Form) };

    ghost coded = { coded_pairs };

    ghost use Rattle.tera_values.specs.inner.Map.{HasPairs};

    ghost view = { λ m. pairs_in m.held };

    ghost invariant = { λ m. HasPairs m.held };

    ghost use Rattle.tera_values.specs.inner.Size.{pairs_size};

    ghost size = { pairs_size };

    ghost use Rattle.tera_values.specs.inner.Depth.{deep_le-pairs_size};

    ghost size_decreases = { λ m h. deep_le-pairs_size m };
}

impl Map {
    /// A map without pairs, hashed under the fixed state. Mirrors `IndexMap::new`. Takes no memory.
    pub fn new(alloc: Global) -> Map
        ensures { result ≡ [] }
    {
        Map::with_hasher(alloc, HashState::fixed())
    }

    /// A map without pairs, hashed under a state. Mirrors `IndexMap::with_hasher`. Takes no memory.
    pub fn with_hasher(alloc: Global, state: HashState) -> Map
        ensures { result ≡ [] }
    {
        Map {
            alloc,
            held: Held::Nothing(state),
        }
    }

    /// The state that its keys are hashed under; a clone has the same. Mirrors `IndexMap::hasher`.
    /// Takes no memory.
    pub fn hasher(&self) -> HashState {
        match &self.held {
            Held::Nothing(state) => *state,
            Held::Pairs(columns) => columns.state(),
        }
    }

    /// How many pairs there are. Mirrors `IndexMap::len`. Takes no memory.
    #[tactic(auto, using(crate::proofs::ColumnLemmas::counted))]
    pub fn len(&self) -> usize
        ensures len { result ≡ length self.now }
        ensures distinct { HasDistinctKeys key_form_order self.now }
    {
        self.lists().1.len()
    }

    /// Whether there is no pair. Mirrors `IndexMap::is_empty`. Takes no memory.
    pub fn is_empty(&self) -> bool
        ensures { result ≡ (length self.now == 0) }
    {
        matches!(self.held, Held::Nothing(_))
    }

    /// The value at a key, lent; `None` where no key is equal to it. Mirrors `IndexMap::get`. Takes
    /// no memory.
    pub fn get(&self, key: &Key<'_>) -> Option<&Value>
        ensures { option_copied result ≡ value_at key_form_order self.now (key_form key.now) }
    {
        match &self.held {
            Held::Nothing(_) => None,
            Held::Pairs(columns) => columns.get(key),
        }
    }

    /// The key and the value at a place, counted from 0, lent; `None` past the last. Mirrors
    /// `IndexMap::get_index`. Takes no memory.
    pub fn get_index(&self, index: usize) -> Option<(&Key<'static>, &Value)>
        ensures { option_map (λ p. (key_form p.0.now, p.1.now)) result
            ≡ slice_get self.now index }
    {
        let (keys, values) = self.lists();
        if index < keys.len() {
            Some((&keys[index], &values[index]))
        } else {
            None
        }
    }

    /// Puts a value at a key, and answers the value that was there. A new key goes last; a key that
    /// is there stays as it is held and where it is. Mirrors `IndexMap::insert`.
    ///
    /// Takes memory where the key is not there; the only refusal is want of it, `Out of memory`,
    /// and then the map is as it was.
    pub fn insert(&mut self, key: Key<'static>, value: Value) -> TeraResult<Option<Value>>
        ensures ok { OnOk result
            (self.new ≡ put key_form_order self.old (key_form key.entry) value) }
        ensures given { IfOk result
            (λ before. before ≡ value_at key_form_order self.old (key_form key.entry)) }
        ensures unchanged { OnErr result (self.new ≡ self.old) }
        ensures err { IfErr result IsOutOfMemory }
        ensures absent { OnErr result
            (value_at key_form_order self.old (key_form key.entry) ≡ None) }
    {
        Ok(self.put(key, value)?)
    }

    // The same, with an error that says nothing.
    #[inline(always)]
    fn put(&mut self, key: Key<'static>, value: Value) -> Result<Option<Value>, AllocError>
        ensures ok { OnOk result
            (self.new ≡ put key_form_order self.old (key_form key.entry) value) }
        ensures given { IfOk result
            (λ before. before ≡ value_at key_form_order self.old (key_form key.entry)) }
        ensures unchanged { OnErr result (self.new ≡ self.old) }
        ensures absent { OnErr result
            (value_at key_form_order self.old (key_form key.entry) ≡ None) }
    {
        match &mut self.held {
            Held::Pairs(columns) => columns.insert(key, value),
            Held::Nothing(state) => {
                self.held = Held::Pairs(Columns::of_pair(self.alloc, *state, key, value)?);
                Ok(None)
            }
        }
    }

    /// The pairs, lent one after another in their order. No two keys are equal. Mirrors
    /// `IndexMap::iter`. Takes no memory.
    #[tactic(auto, using(crate::proofs::ColumnLemmas::distinct_pairs))]
    pub fn iter(&self) -> Pairs<'_>
        ensures pairs { result ≡ self.now }
        ensures distinct { HasDistinctKeys key_form_order self.now }
    {
        let (keys, values) = self.lists();
        Pairs {
            keys: keys.iter(),
            values: values.iter(),
        }
    }

    // The keys, and the values in the same order.
    fn lists(&self) -> (&[Key<'static>], &[Value])
        ensures { AreListsOf self.now result.0.now result.1.now }
    {
        match &self.held {
            Held::Nothing(_) => (&[], &[]),
            Held::Pairs(columns) => columns.lists(),
        }
    }

    // The keys, and the values in the same order, given away.
    fn into_lists(self) -> (Keys, Vec<Value>)
        ensures { AreListsOf self (keys_held result.0) result.1.items }
    {
        let Map { alloc, held } = self;
        match held {
            Held::Nothing(_) => (Keys::Few(Vec::new(alloc)), Vec::new(alloc)),
            Held::Pairs(columns) => Box::into_inner(columns).into_lists(),
        }
    }

    /// A map of the same pairs in their order, each key and each value in the form that it has,
    /// deep. Mirrors `Clone` of `IndexMap`.
    ///
    /// Takes memory where there are pairs; the only refusal is want of it, `Out of memory`.
    pub fn clone(&self) -> TeraResult<Map>
        ensures ok { IfOk result (λ m. m ≡ self.now) }
        ensures err { IfErr result IsOutOfMemory }
        ensures succeeds { self.now ≡ [] → IsOk result }
    {
        Ok(self.copy(self.alloc)?)
    }

    /// A clone, with an error that says nothing: so what is answered is small.
    #[cycle(copy)]
    pub(crate) fn copy(&self, alloc: Global) -> Result<Map, AllocError>
        ensures ok { IfOk result (λ m. m ≡ self.now) }
        ensures succeeds { self.now ≡ [] → IsOk result }
    {
        let held = match &self.held {
            Held::Nothing(state) => Held::Nothing(*state),
            Held::Pairs(columns) => Held::Pairs(columns.copy(alloc)?),
        };
        Ok(Map { alloc, held })
    }
}

/// As std's maps show themselves, the pairs in their order.
impl fmt::Debug for Map {
    #[cycle(debug)]
    fn fmt<W: fmt::Write>(&self, f: &mut fmt::Formatter<W>) -> fmt::Result {
        let mut shown = f.debug_map();
        for (key, value) in self.iter() {
            shown.entry(key, value);
        }
        shown.finish()
    }
}

/// The pairs of a map that are left of a walk.
#[derive(Drop)]
pub struct Pairs<'a> {
    keys: slice::Iter<'a, Key<'static>>,
    values: slice::Iter<'a, Value>,
}

impl<'a> Model for Pairs<'a> {
    ghost use Rattle.std.specs.Prelude.{List};
    ghost use Rattle.std.specs.Slice.Iter.{iter_rest};
    ghost use Rattle.tera_meaning.specs.Form.{Form};
    ghost use Rattle.tera_meaning.specs.KeyMeaning.{KeyForm};
    ghost use Rattle.tera_values.specs.Map.{coded_pairs};
    ghost use Rattle.tera_values.specs.inner.Map.{pairs_held, AreColumns};

    ghost Value = { List (KeyForm × Form) };

    ghost coded = { coded_pairs };

    ghost view = { λ p. pairs_held (iter_rest p.keys) (iter_rest p.values) };

    ghost invariant = { λ p. AreColumns (iter_rest p.keys) (iter_rest p.values) };
}

/// Lends the next pair in their order, and behind the last `None` for ever. Takes no memory.
impl<'a> Iterator for Pairs<'a> {
    ghost use Rattle.std.specs.Iterator.{YieldsFirstBy, item_count};
    ghost use Rattle.tera_values.specs.Key.{key_form};

    type Item = (&'a Key<'static>, &'a Value);

    ghost next_gives = { YieldsFirstBy (λ p. (key_form p.0.now, p.1.now)) (λ s. s) };

    ghost remaining = { item_count (λ s. s) };

    fn next(&mut self) -> Option<(&'a Key<'static>, &'a Value)> {
        let key = self.keys.next()?;
        let value = self.values.next()?;
        Some((key, value))
    }
}

/// The pairs, given away one after another in their order. No two keys are equal. Mirrors
/// `IntoIterator` of `IndexMap`. Takes no memory.
impl IntoIterator for Map {
    ghost use Rattle.std.specs.Prelude.{◌≡◌};
    ghost use Rattle.tera_meaning.specs.Pairs.{HasDistinctKeys, key_form_order};

    type Item = (Key<'static>, Value);

    type IntoIter = OwnPairs;

    ghost into_iter_gives = { λ m r. (r ≡ m) × HasDistinctKeys key_form_order m };

    fn into_iter(self) -> OwnPairs {
        let (keys, values) = self.into_lists();
        OwnPairs {
            keys: keys.into_own(),
            values: values.into_iter(),
        }
    }
}

/// The pairs of a map that are left of a walk that gives them away.
#[derive(Drop)]
pub struct OwnPairs {
    keys: OwnKeys,
    values: vec::IntoIter<Value>,
}

impl Model for OwnPairs {
    ghost use Rattle.std.specs.Prelude.{List};
    ghost use Rattle.std.specs.Vec.Iter.{into_iter_items};
    ghost use Rattle.tera_meaning.specs.Form.{Form};
    ghost use Rattle.tera_meaning.specs.KeyMeaning.{KeyForm};
    ghost use Rattle.tera_values.specs.Map.{coded_pairs};
    ghost use Rattle.tera_values.specs.inner.Map.{pairs_held, keys_left, AreColumns};

    ghost Value = { List (KeyForm × Form) };

    ghost coded = { coded_pairs };

    ghost view = { λ p. pairs_held (keys_left p.keys) (into_iter_items p.values) };

    ghost invariant = { λ p. AreColumns (keys_left p.keys) (into_iter_items p.values) };
}

/// Gives the next pair away in their order, and behind the last `None` for ever. Takes no memory.
impl Iterator for OwnPairs {
    ghost use Rattle.std.specs.Iterator.{YieldsFirstBy, item_count};
    ghost use Rattle.tera_values.specs.Key.{key_form};

    type Item = (Key<'static>, Value);

    ghost next_gives = { YieldsFirstBy (λ p. (key_form p.0, p.1)) (λ s. s) };

    ghost remaining = { item_count (λ s. s) };

    fn next(&mut self) -> Option<(Key<'static>, Value)> {
        let value = self.values.next()?;
        let key = next_key(&mut self.keys)?;
        Some((key, value))
    }
}
