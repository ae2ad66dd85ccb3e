//! The two lists that the pairs of a map are kept in: its keys, and its values in the same order.
//! Only `map.rt` knows them.
ghost use Rattle.std.specs.Prelude.{◌≡◌, ◌<◌, ◌∷◌, [], None, IfOk, OnOk, OnErr, false};
ghost use Rattle.std.specs.List.{list_any};
ghost use Rattle.std.specs.Option.{option_copied};
ghost use Rattle.std.specs.Vec.{vec_len, vec_capacity};
ghost use Rattle.tera_meaning.specs.Pairs.{key_form_order, put, value_at};
ghost use Rattle.tera_values.specs.Key.{key_form};
ghost use Rattle.tera_values.specs.inner.Map.{keys_tie, keys_held, AreListsOf};

use crate::copy::copies;
use crate::map::keys::{
    FIRST, Keys, copied_keys, first_key, insert_key, key_slice, more_room, place_of,
};
use crate::{HashState, Key, Value};
use std::alloc::{AllocError, Global};
use std::marker::Model;
use std::mem;

/// The keys of a map, its values in the same order, and the state that the keys are hashed under.
#[cycle(value)]
pub(crate) struct Columns {
    state: HashState,
    keys: Keys,
    values: Vec<Value>,
}

impl Drop for Columns {
    #[inline(always)]
    #[cycle(value)]
    fn drop(self) {
        let Columns {
            state: _,
            keys: _,
            values: _,
        } = self;
    }
}

impl Model for Columns {
    ghost use Rattle.std.specs.Prelude.{List};
    ghost use Rattle.tera_meaning.specs.Form.{Form};
    ghost use Rattle.tera_meaning.specs.KeyMeaning.{KeyForm};
    ghost use Rattle.tera_values.specs.Map.{coded_pairs};

    ghost Value = { List (KeyForm × Form) };

    ghost coded = { coded_pairs };

    ghost use Rattle.tera_values.specs.inner.Map.{pairs_held, keys_held, AreColumns};
    ghost use Rattle.tera_values.specs.inner.Size.{columns_size};

    ghost view = { λ c. pairs_held (keys_held c.keys) c.values.items };

    ghost invariant = { λ c. AreColumns (keys_held c.keys) c.values.items };

    ghost size = { columns_size };

    ghost use Rattle.tera_values.specs.inner.Depth.{most_le-columns_size};

    ghost size_decreases = { λ c h. most_le-columns_size (keys_held c.keys) c.values.items h };
}

impl Columns {
    /// The columns of one pair.
    pub(crate) fn of_pair(
        alloc: Global,
        state: HashState,
        key: Key<'static>,
        value: Value,
    ) -> Result<Box<Columns>, AllocError>
        ensures { IfOk result (λ made. made.value ≡ (key_form key.entry, value) ∷ []) }
    {
        let keys = first_key(alloc, key)?;
        let mut values = Vec::with_capacity(alloc, FIRST)?;
        values.push_reserved(value);
        boxed(
            alloc,
            Columns {
                state,
                keys,
                values,
            },
        )
    }

    /// The state that the keys are hashed under.
    pub(crate) fn state(&self) -> HashState {
        self.state
    }

    /// The keys, and the values in the same order.
    pub(crate) fn lists(&self) -> (&[Key<'static>], &[Value])
        ensures { AreListsOf self.now result.0.now result.1.now }
    {
        (key_slice(&self.keys), self.values.as_slice())
    }

    /// The value at a key.
    #[tactic(auto, using(crate::proofs::ColumnLemmas::looked_up))]
    pub(crate) fn get(&self, key: &Key<'_>) -> Option<&Value>
        ensures { option_copied result ≡ value_at key_form_order self.now (key_form key.now) }
    {
        match place_of(&self.keys, key) {
            Some(place) => Some(&self.values[place]),
            None => None,
        }
    }

    /// Inserts a value at a key, and answers the value that was there.
    pub(crate) fn insert(
        &mut self,
        key: Key<'static>,
        value: Value,
    ) -> Result<Option<Value>, AllocError>
        ensures ok { OnOk result
            (self.new ≡ put key_form_order self.old (key_form key.entry) value) }
        ensures given { IfOk result
            (λ before. before ≡ value_at key_form_order self.old (key_form key.entry)) }
        ensures unchanged { OnErr result (self.new ≡ self.old) }
        ensures absent { OnErr result
            (value_at key_form_order self.old (key_form key.entry) ≡ None) }
        ensures some { self.new ≡ [] → self.old ≡ [] }
    {
        if let Err(refused) = make_room(&self.keys, &mut self.values, &key) {
            drop(key);
            return Err(refused);
        }
        let (place, is_new) = insert_key(
            *self.values.allocator(),
            self.state,
            &mut self.keys,
            key,
        )?;
        if is_new {
            self.values.push_reserved(value);
            return Ok(None);
        }
        Ok(Some(mem::replace(&mut self.values[place], value)))
    }

    /// Copies of the keys and of the values, in their order.
    #[cycle(copy)]
    pub(crate) fn copy(&self, alloc: Global) -> Result<Box<Columns>, AllocError>
        ensures { IfOk result (λ made. made.value ≡ self.now) }
    {
        let keys = copied_keys(alloc, self.state, &self.keys)?;
        let values = copies(alloc, self.values.as_slice())?;
        boxed(
            alloc,
            Columns {
                state: self.state,
                keys,
                values,
            },
        )
    }

    /// The keys, and the values in the same order, given away.
    pub(crate) fn into_lists(self) -> (Keys, Vec<Value>)
        ensures { AreListsOf self (keys_held result.0) result.1.items }
    {
        let Columns {
            state: _,
            keys,
            values,
        } = self;
        (keys, values)
    }
}

// The columns behind a pointer.
#[inline(never)]
fn boxed(alloc: Global, columns: Columns) -> Result<Box<Columns>, AllocError>
    ensures { IfOk result (λ made. made.value ≡ columns) }
{
    match Box::new(alloc, columns) {
        Ok(made) => Ok(made),
        Err(_) => Err(AllocError),
    }
}

// Makes room for the value of a key, where the key is not there.
fn make_room(keys: &Keys, values: &mut Vec<Value>, key: &Key<'_>) -> Result<(), AllocError>
    ensures items { values.new.items ≡ values.old.items }
    ensures room { OnOk result (list_any (keys_tie key.now) (keys_held keys.now) ≡ false
        → vec_len values.new < vec_capacity values.new) }
    ensures absent { OnErr result (list_any (keys_tie key.now) (keys_held keys.now) ≡ false) }
{
    if values.len() < values.capacity() || place_of(keys, key).is_some() {
        return Ok(());
    }
    values.reserve(more_room(values.len()))
}
