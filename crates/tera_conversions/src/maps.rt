//! Maps, each given by what its keys and its values give.
ghost use Rattle.std.specs.Prelude.{◌≡◌, ◌⊎◌, ◌<◌, List, [], length, reverse, IfOk, IfErr, OnOk};
ghost use Rattle.std.specs.BTreeMap.{insert_entry};
ghost use Rattle.std.specs.List.{AllZip, IsDistinct};
ghost use Rattle.std.specs.List.Sorted.{IsPermutation};
ghost use Rattle.std.specs.Map.{keys_of};
ghost use Rattle.tera_conversions.specs.Given.{GivesMap, GivesPair, GivesRisingMap, LaterRefuse};
ghost use Rattle.tera_conversions.specs.Given.{PairRefuses};
ghost use Rattle.tera_conversions.specs.inner.Forms.{forms_of};
ghost use Rattle.tera_meaning.specs.Form.{Form};
ghost use Rattle.tera_meaning.specs.KeyMeaning.{KeyForm};
ghost use Rattle.tera_meaning.specs.Pairs.{key_form_order, pairs_of, put, put_all};
ghost use Rattle.tera_meaning.specs.Tree.{object, members};
ghost use Rattle.tera_report.specs.Errors.{IsOutOfMemory};

use crate::{ToKey, ToValue};
use indexmap::IndexMap;
use std::alloc::Global;
use std::collections::{BTreeMap, HashMap};
use std::hash::Hash;
use tera_report::TeraResult;
use tera_values::{Key, Map, Value};

/// Itself, its pairs in their order. Takes no memory.
impl ToValue for Map {
    ghost gives = { λ map v. v ≡ object (members map) };

    ghost refuses = { λ _ _. ⊥ };

    fn to_value(self, _alloc: Global) -> TeraResult<Value> {
        Ok(Value::of_map(self))
    }
}

/// A map of what its keys and its values give, in its order.
///
/// Takes memory, but for no entry. The error is the first one of a key or a value, in that order,
/// or, where the first entry gave its pair, `Out of memory`.
impl<K: ToKey + Hash + Drop, T: ToValue + Drop> ToValue for IndexMap<K, T> {
    ghost gives = { λ map v. GivesMap K.gives_key T.gives map.entries v };

    ghost refuses = { λ map e. LaterRefuse (GivesPair K.gives_key T.gives)
        (PairRefuses K.gives_key K.refuses_key T.refuses) map.entries e };

    fn to_value(self, alloc: Global) -> TeraResult<Value> {
        let mut given = Map::new(alloc);
        for (key, value) in self {
            put(alloc, &mut given, key, value)?;
        }
        Ok(Value::of_map(given))
    }
}

/// A map of what its keys and its values give, in the order of its keys.
///
/// Takes memory, but for no entry. The error is the first one of a key or a value, in that order,
/// or, where the first entry gave its pair, `Out of memory`.
impl<K: ToKey + Ord + Drop, T: ToValue + Drop> ToValue for BTreeMap<K, T> {
    ghost gives = { λ map v. GivesMap K.gives_key T.gives map.entries v };

    ghost refuses = { λ map e. LaterRefuse (GivesPair K.gives_key T.gives)
        (PairRefuses K.gives_key K.refuses_key T.refuses) map.entries e };

    fn to_value(self, alloc: Global) -> TeraResult<Value> {
        let mut given = Map::new(alloc);
        for (key, value) in self {
            put(alloc, &mut given, key, value)?;
        }
        Ok(Value::of_map(given))
    }
}

/// A map of what its keys and its values give, in rising order of the keys that are given.
///
/// Takes memory, but for no entry. The error is the first one of a key or a value, in the order in
/// which the table is walked, or, where the first entry gave its pair, `Out of memory`.
impl<K: ToKey + Hash + Drop, T: ToValue + Drop> ToValue for HashMap<K, T> {
    ghost gives = { λ map v. GivesRisingMap K.gives_key T.gives map.entries v };

    ghost refuses = { λ map e. LaterRefuse (GivesPair K.gives_key T.gives)
        (PairRefuses K.gives_key K.refuses_key T.refuses) map.entries e };

    fn to_value(self, alloc: Global) -> TeraResult<Value> {
        let mut sorted = BTreeMap::new(alloc);
        for (key, value) in self {
            place(alloc, &mut sorted, key, value)?;
        }
        in_order(alloc, sorted)
    }
}

/// The rising map of entries whose keys are not equal holds just the pairs that they give: keys
/// that are not equal give keys that are not. It does nothing: its clause is the law.
pub fn maps_hold_each_entry<K: ToKey, T: ToValue>()
    ensures { (entries : List (K × T)) (given : List (KeyForm × Form))
        → IsDistinct K.PartialEq.eq (keys_of entries)
        → AllZip (GivesPair K.gives_key T.gives) entries given
        → IsPermutation given (pairs_of (reverse given)) }
{}

/// Put one after another, the pairs that such entries give stand in the order of the entries. It
/// does nothing: its clause is the law.
pub fn maps_keep_the_order_of_entries<K: ToKey, T: ToValue>()
    ensures { (entries : List (K × T)) (given : List (KeyForm × Form))
        → IsDistinct K.PartialEq.eq (keys_of entries)
        → AllZip (GivesPair K.gives_key T.gives) entries given
        → put_all key_form_order [] given ≡ given }
{}

// Puts the pair of an entry.
fn put<K: ToKey, T: ToValue + Drop>(
    alloc: Global,
    given: &mut Map,
    key: K,
    value: T,
) -> TeraResult<()>
    ensures ok { OnOk result ((pair : KeyForm × Form)
        × GivesPair K.gives_key T.gives (key, value) pair
        × (given.new ≡ put key_form_order given.old pair.0 pair.1)) }
    ensures err { IfErr result (λ e. (IsOutOfMemory e × (pair : KeyForm × Form)
        × GivesPair K.gives_key T.gives (key, value) pair)
        ⊎ PairRefuses K.gives_key K.refuses_key T.refuses (key, value) e) }
{
    let key = key.to_key(alloc)?;
    let value = value.to_value(alloc)?;
    given.insert(key, value)?;
    Ok(())
}

// Puts the pair of an entry into the place of its key.
fn place<K: ToKey, T: ToValue + Drop>(
    alloc: Global,
    sorted: &mut BTreeMap<Key<'static>, Value>,
    key: K,
    value: T,
) -> TeraResult<()>
    ensures ok { OnOk result ((pair : KeyForm × Form)
        × GivesPair K.gives_key T.gives (key, value) pair
        × (forms_of sorted.new.entries
        ≡ insert_entry key_form_order (forms_of sorted.old.entries) pair.0 pair.1)) }
    ensures err { IfErr result (λ e. (IsOutOfMemory e × (pair : KeyForm × Form)
        × GivesPair K.gives_key T.gives (key, value) pair)
        ⊎ PairRefuses K.gives_key K.refuses_key T.refuses (key, value) e) }
{
    let key = key.to_key(alloc)?;
    let value = value.to_value(alloc)?;
    sorted.insert(key, value)?;
    Ok(())
}

// The map of these pairs, in the order of their keys.
fn in_order(alloc: Global, sorted: BTreeMap<Key<'static>, Value>) -> TeraResult<Value>
    ensures ok { IfOk result (λ v. v ≡ object (members (forms_of sorted.entry.entries))) }
    ensures err { IfErr result (λ e. (0 < length sorted.entry.entries) × IsOutOfMemory e) }
{
    let mut made = Map::new(alloc);
    for (key, value) in sorted {
        made.insert(key, value)?;
    }
    Ok(Value::of_map(made))
}
