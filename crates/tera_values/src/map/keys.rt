//! The keys of a map: a list while they are few, and else a set that knows their order.
ghost use Rattle.std.specs.Prelude.{◌≡◌, ◌∷◌, ◌++◌, ◌+◌, ◌≤◌, [], length, position};
ghost use Rattle.std.specs.Prelude.{IfOk, OnOk, OnErr};
ghost use Rattle.std.specs.Prelude.{MatchOption, is_some, not, false, max, ◌-◌};
ghost use Rattle.std.specs.List.{IsDistinct, list_any, position_or_len};
ghost use Rattle.indexmap.specs.IndexSet.{insert_key, spare};
ghost use Rattle.tera_values.specs.Key.{key_form};
ghost use Rattle.tera_values.specs.inner.Map.{keys_tie, is_text_key, keys_held, keys_left};
ghost use Rattle.tera_values.specs.inner.Map.{AreKeysLike};

use crate::key_text::is_text_key;
use crate::{HashState, Key};
use indexmap::{IndexSet, set};
use std::alloc::{AllocError, Global};
use std::{mem, vec};

/// How many keys a list holds at most. They are looked up one after another, without a hash.
pub(crate) const FEW: usize = 12;

/// For how many keys and values the first key makes room. The next room is for `FEW`.
pub(crate) const FIRST: usize = 2;

/// The keys of a map, in their order.
pub(crate) enum Keys {
    Few(Vec<Key<'static>>),
    Many(KeySet),
}

// A set of keys, each with its place, hashed under the state of their map.
type KeySet = IndexSet<Key<'static>, HashState>;

impl Drop for Keys {
    #[inline(always)]
    fn drop(self) {
        match self {
            Keys::Few(_) => {}
            Keys::Many(_) => {}
        }
    }
}

impl Keys {
    /// The keys, to be given away in their order.
    pub(crate) fn into_own(self) -> OwnKeys
        ensures { keys_left result ≡ keys_held self }
    {
        match self {
            Keys::Few(few) => OwnKeys::Few(few.into_iter()),
            Keys::Many(many) => OwnKeys::Many(many.into_iter()),
        }
    }
}

/// The place of the key that is equal to this one.
#[tactic(auto, using(crate::proofs::KeyLemmas::found_where_placed))]
pub(crate) fn place_of(keys: &Keys, key: &Key<'_>) -> Option<usize>
    ensures place { result ≡ position (keys_tie key.now) (keys_held keys.now) }
    ensures found { is_some result ≡ list_any (keys_tie key.now) (keys_held keys.now) }
{
    match keys {
        Keys::Few(few) => place_among(few.as_slice(), key),
        Keys::Many(many) => place_in(many, key),
    }
}

// The place, in a set, of the key that is equal to this one. It stands apart, so that a look-up
// among few keys stays short.
#[inline(never)]
fn place_in(many: &KeySet, key: &Key<'_>) -> Option<usize>
    ensures { result ≡ position (keys_tie key.now) many.now.keys }
{
    many.get_index_of(key)
}

// The place, among few keys, of the one that is equal to this. Most are texts.
fn place_among(few: &[Key<'static>], key: &Key<'_>) -> Option<usize>
    ensures { result ≡ position (keys_tie key.now) few.now }
{
    match key {
        Key::String(text) => place_of_text(few, text.as_str()),
        Key::Str(text) => place_of_text(few, *text),
        Key::Inline(text) => place_of_text(few, text.as_str()),
        _ => few.iter().position(|held| key == held),
    }
}

// The place of the key that is this text.
fn place_of_text(few: &[Key<'static>], text: &str) -> Option<usize>
    ensures { result ≡ position (is_text_key text.now) few.now }
{
    few.iter().position(|held| is_text_key(text, held))
}

// The place of the key that is equal to this one, or else that behind all, and whether it is new.
#[tactic(auto, using(crate::proofs::KeyLemmas::placing))]
fn place_for(few: &[Key<'static>], key: &Key<'_>) -> (usize, bool)
    ensures place { result.0 ≡ position_or_len (keys_tie key.now) few.now }
    ensures new { result.1 ≡ not (list_any (keys_tie key.now) few.now) }
{
    match place_among(few, key) {
        Some(place) => (place, false),
        None => (few.len(), true),
    }
}

/// The keys, in their order.
pub(crate) fn key_slice(keys: &Keys) -> &[Key<'static>]
    ensures { result.now ≡ keys_held keys.now }
{
    match keys {
        Keys::Few(few) => few.as_slice(),
        Keys::Many(many) => many.as_slice(),
    }
}

/// Inserts a key behind the others where none is equal to it. Answers the place of the one that is,
/// or of the new one, and whether it is new.
pub(crate) fn insert_key(
    alloc: Global,
    state: HashState,
    keys: &mut Keys,
    key: Key<'static>,
) -> Result<(usize, bool), AllocError>
    requires { IsDistinct keys_tie (keys_held keys.old) }
    ensures keys { OnOk result
        (keys_held keys.new ≡ insert_key keys_tie (keys_held keys.old) key.entry) }
    ensures place { IfOk result (λ found. found.0
        ≡ position_or_len (keys_tie key.entry) (keys_held keys.old)) }
    ensures new { IfOk result (λ found. found.1
        ≡ not (list_any (keys_tie key.entry) (keys_held keys.old))) }
    ensures distinct { IsDistinct keys_tie (keys_held keys.new) }
    ensures err { OnErr result (keys_held keys.new ≡ keys_held keys.old) }
    ensures absent { OnErr result
        (list_any (keys_tie key.entry) (keys_held keys.old) ≡ false) }
{
    match keys {
        Keys::Few(few) => {
            let (place, is_new) = place_for(few.as_slice(), &key);
            if !is_new {
                drop(key);
                return Ok((place, false));
            }
            if place < FEW {
                push_key(few, key)?;
                return Ok((place, true));
            }
            *keys = Keys::Many(set_with(alloc, state, few, key)?);
            Ok((place, true))
        }
        Keys::Many(many) => insert_in(many, key),
    }
}

/// For how many more keys or values room is made, where there are `len` of them and no room: for
/// `FEW` in all, and behind that for one more, where std makes at least twice the room.
pub(crate) fn more_room(len: usize) -> usize
    ensures { result ≡ max (FEW - len) 1 }
{
    FEW.saturating_sub(len).max(1)
}

// Inserts a key behind few others.
fn push_key(few: &mut Vec<Key<'static>>, key: Key<'static>) -> Result<(), AllocError>
    ensures ok { OnOk result (few.new.items ≡ few.old.items ++ key.entry ∷ []) }
    ensures err { OnErr result (few.new.items ≡ few.old.items) }
{
    if few.len() == few.capacity() {
        few.reserve(more_room(few.len()))?;
    }
    few.push_reserved(key);
    Ok(())
}

// Inserts a key into a set, behind the others, where none is equal to it.
fn insert_in(held: &mut KeySet, key: Key<'static>) -> Result<(usize, bool), AllocError>
    ensures keys { OnOk result (held.new.keys ≡ insert_key keys_tie held.old.keys key.entry) }
    ensures place { IfOk result (λ found. found.0
        ≡ position_or_len (keys_tie key.entry) held.old.keys) }
    ensures new { IfOk result (λ found. found.1
        ≡ not (list_any (keys_tie key.entry) held.old.keys)) }
    ensures distinct { IsDistinct keys_tie held.new.keys }
    ensures err { OnErr result (held.new.keys ≡ held.old.keys) }
    ensures absent { OnErr result (list_any (keys_tie key.entry) held.old.keys ≡ false) }
{
    match held.insert_full(key) {
        Ok(found) => Ok(found),
        Err(_) => Err(AllocError),
    }
}

/// A list of one key.
pub(crate) fn first_key(alloc: Global, key: Key<'static>) -> Result<Keys, AllocError>
    ensures { IfOk result (λ made. keys_held made ≡ key.entry ∷ []) }
{
    let mut few = Vec::with_capacity(alloc, FIRST)?;
    few.push_reserved(key);
    Ok(Keys::Few(few))
}

// The set of the keys of a list and of a new one behind them. For want of memory the list stays as
// it is.
fn set_with(
    alloc: Global,
    state: HashState,
    few: &mut Vec<Key<'static>>,
    key: Key<'static>,
) -> Result<KeySet, AllocError>
    requires distinct { IsDistinct keys_tie few.old.items }
    requires new { list_any (keys_tie key) few.old.items ≡ false }
    ensures keys { IfOk result (λ many. many.keys ≡ few.old.items ++ key.entry ∷ []) }
    ensures err { OnErr result (few.new.items ≡ few.old.items) }
{
    let mut many = set_of(alloc, state, few)?;
    many.insert(key).unwrap();
    Ok(many)
}

// The set of the keys of a list, with room for one more, into which they are moved. For want of
// memory the list stays as it is.
fn set_of(
    alloc: Global,
    state: HashState,
    few: &mut Vec<Key<'static>>,
) -> Result<KeySet, AllocError>
    requires { IsDistinct keys_tie few.old.items }
    ensures keys { IfOk result (λ many. many.keys ≡ few.old.items) }
    ensures room { IfOk result (λ many. 1 ≤ spare many) }
    ensures err { OnErr result (few.new.items ≡ few.old.items) }
{
    let room = few.len() + FEW;
    let mut many: KeySet = IndexSet::with_capacity_and_hasher(alloc, room, state)?;
    insert_all(&mut many, mem::replace(few, Vec::new(alloc)));
    Ok(many)
}

// Inserts distinct keys into an empty set with room for them and one more, in their order.
fn insert_all(many: &mut KeySet, keys: Vec<Key<'static>>)
    requires distinct { IsDistinct keys_tie keys.items }
    requires empty { many.old.keys ≡ [] }
    requires room { length keys.items + 1 ≤ spare many.old }
    ensures keys { many.new.keys ≡ keys.entry.items }
    ensures room { 1 ≤ spare many.new }
{
    for key in keys {
        many.insert(key).unwrap();
    }
}

/// Copies of the keys, in their order. It stands apart, so that a level of maps needs little stack.
#[inline(never)]
pub(crate) fn copied_keys(alloc: Global, state: HashState, keys: &Keys) -> Result<Keys, AllocError>
    requires { IsDistinct keys_tie (keys_held keys.now) }
    ensures { IfOk result (λ made. AreKeysLike (keys_held keys.now) (keys_held made)) }
{
    match keys {
        Keys::Few(few) => Ok(Keys::Few(copied_list(alloc, few.as_slice())?)),
        Keys::Many(many) => Ok(Keys::Many(copied_set(alloc, state, many.as_slice())?)),
    }
}

// A list of copies of distinct keys, in their order.
fn copied_list(alloc: Global, keys: &[Key<'static>]) -> Result<Vec<Key<'static>>, AllocError>
    requires { IsDistinct keys_tie keys.now }
    ensures { IfOk result (λ made. AreKeysLike keys.now made.items) }
{
    let mut made = Vec::with_capacity(alloc, keys.len())?;
    for key in keys {
        made.push_reserved(key.copy(alloc)?);
    }
    Ok(made)
}

// A set of copies of distinct keys, in their order.
fn copied_set(alloc: Global, state: HashState, keys: &[Key<'static>]) -> Result<KeySet, AllocError>
    requires { IsDistinct keys_tie keys.now }
    ensures { IfOk result (λ made. AreKeysLike keys.now made.keys) }
{
    let mut made: KeySet = IndexSet::with_capacity_and_hasher(alloc, keys.len(), state)?;
    insert_copies(alloc, &mut made, keys)?;
    Ok(made)
}

// Inserts copies of distinct keys into an empty set, in their order.
fn insert_copies(alloc: Global, made: &mut KeySet, keys: &[Key<'static>]) -> Result<(), AllocError>
    requires distinct { IsDistinct keys_tie keys.now }
    requires empty { made.old.keys ≡ [] }
    ensures { OnOk result (AreKeysLike keys.now made.new.keys) }
{
    for key in keys {
        insert_in(made, key.copy(alloc)?)?;
    }
    Ok(())
}

/// The keys that are left of a walk that gives them away.
#[derive(Drop)]
pub(crate) enum OwnKeys {
    Few(vec::IntoIter<Key<'static>>),
    Many(set::IntoIter<Key<'static>>),
}

/// The next of the keys that are left.
pub(crate) fn next_key(keys: &mut OwnKeys) -> Option<Key<'static>>
    ensures { MatchOption result ((keys_left keys.old ≡ []) × (keys_left keys.new ≡ []))
        (λ key. keys_left keys.old ≡ key ∷ keys_left keys.new) }
{
    match keys {
        OwnKeys::Few(few) => few.next(),
        OwnKeys::Many(many) => many.next(),
    }
}
