//! The named arguments of a filter or a function.
ghost use Rattle.std.specs.Prelude.{◌≡◌, ◌⊎◌, ◌<◌, [], length, IfOk, IfErr, IsOk, MatchOption};
ghost use Rattle.std.specs.Option.{IsSomeAnd};
ghost use Rattle.tera_arguments.specs.Named.{TakesArgument, pairs_held};
ghost use Rattle.tera_meaning.specs.Pairs.{HasDistinctKeys, key_form_order};
ghost use Rattle.tera_meaning.specs.Tree.{object, members};
ghost use Rattle.tera_report.specs.Errors.{IsOutOfMemory, Raises};
ghost use Rattle.tera_report.specs.Refusal.{missing_argument};

use crate::ArgFromValue;
use crate::parts::Parts;
use std::alloc::Global;
use std::marker::Model;
use tera_conversions::ToKey;
use tera_report::{Error, TeraResult};
use tera_values::{Key, Map, Pairs, Value};

/// The named arguments of a filter or a function. Mirrors `tera::Kwargs`.
pub type Kwargs = KwargsOf<Value>;

/// Arguments by their names, seen as the value that holds them. `Kwargs` is its name over `Value`.
#[derive(Debug, Drop)]
pub struct KwargsOf<V> {
    values: V,
}

impl<V> Model for KwargsOf<V> {
    ghost Value = { V };

    ghost view = { λ k. k.values };
}

impl<V: Parts> KwargsOf<V> {
    /// These pairs in their order, by what can be made their keys. Of two with equal keys the first
    /// key and its place and the later value stand. Mirrors `From<[(&'static str, Value); N]>` of
    /// `tera::Kwargs`.
    ///
    /// Takes memory, but for no pair; the first error of a key is passed on.
    pub fn from_pairs<K: ToKey + Drop, const N: usize>(
        alloc: Global,
        pairs: [(K, V); N],
    ) -> TeraResult<KwargsOf<V>>
        ensures ok { IfOk result (V.is_map K K.gives_key pairs) }
        ensures err { IfErr result (λ e. ((0 < length pairs) × IsOutOfMemory e)
            ⊎ V.no_map K K.gives_key K.refuses_key pairs e) }
    {
        let held = if N == 0 {
            Vec::new(alloc)
        } else {
            Vec::from_array(alloc, pairs)?
        };
        Ok(KwargsOf {
            values: V::of_pairs(alloc, held)?,
        })
    }

    /// The argument of that name, taken as one of `T`; nothing where there is none. Mirrors
    /// `Kwargs::get`.
    ///
    /// Refuses what `T` refuses, and takes the memory that `T` takes.
    pub fn get<'k, T: ArgFromValue<'k, V, Output = T>>(
        &'k self,
        alloc: Global,
        name: &'k str,
    ) -> TeraResult<Option<T>>
        ensures ok { IfOk result (TakesArgument T.takes (V.argument self.now name.now)) }
        ensures err { IfErr result (λ e.
            IsSomeAnd (V.argument self.now name.now) (λ v. T.denies v e)) }
    {
        match self.values.argument(name) {
            Some(value) => Ok(Some(T::from_value(alloc, value)?)),
            None => Ok(None),
        }
    }

    /// The argument of that name, taken as one of `T`. Mirrors `Kwargs::must_get`.
    ///
    /// Refuses a name that is not there with ``Missing keyword argument `NAME` ``, without the last
    /// blank, and else what `T` refuses. Takes the memory that `T` takes, and for the text of the
    /// refusal; want of it, `Out of memory`, is answered in its place.
    pub fn must_get<'k, T: ArgFromValue<'k, V, Output = T>>(
        &'k self,
        alloc: Global,
        name: &'k str,
    ) -> TeraResult<T>
        ensures ok { IfOk result (λ x.
            IsSomeAnd (V.argument self.now name.now) (λ v. T.takes v x)) }
        ensures err { IfErr result (λ e. MatchOption (V.argument self.now name.now)
            (Raises (missing_argument name.now) e) (λ v. T.denies v e)) }
    {
        match self.values.argument(name) {
            Some(value) => T::from_value(alloc, value),
            None => Err(Error::missing_arg(alloc, name)),
        }
    }
}

impl KwargsOf<Value> {
    /// The pairs of a map, in their order. Mirrors `Kwargs::new`. Takes no memory.
    pub fn new(values: Map) -> Kwargs
        ensures { result ≡ object (members values) }
    {
        Kwargs {
            values: Value::of_map(values),
        }
    }

    /// The pairs, lent one after another in their order; no two keys are equal. Mirrors
    /// `Kwargs::iter`. Takes no memory.
    pub fn iter(&self) -> KwargsIter<'_>
        ensures pairs { result ≡ pairs_held self.now }
        ensures distinct { HasDistinctKeys key_form_order (pairs_held self.now) }
    {
        match self.values.as_map() {
            Some(map) => KwargsIter {
                pairs: Some(map.iter()),
            },
            None => KwargsIter { pairs: None },
        }
    }

    /// The same arguments, deep, with their kinds and flags. Mirrors `Clone` of `tera::Kwargs`.
    ///
    /// Takes memory for the pairs, where there are some; the only refusal is want of it, `Out of
    /// memory`.
    pub fn clone(&self, alloc: Global) -> TeraResult<Kwargs>
        ensures ok { IfOk result (λ k. k ≡ self.now) }
        ensures err { IfErr result IsOutOfMemory }
        ensures succeeds { self.now ≡ object (members []) → IsOk result }
    {
        Ok(Kwargs {
            values: self.values.clone(alloc)?,
        })
    }
}

/// The named arguments that are left of a walk over them.
#[derive(Drop)]
pub struct KwargsIter<'a> {
    pairs: Option<Pairs<'a>>,
}

impl<'a> Model for KwargsIter<'a> {
    ghost use Rattle.std.specs.Prelude.{List, [], unwrap_or};
    ghost use Rattle.tera_meaning.specs.Form.{Form};
    ghost use Rattle.tera_meaning.specs.KeyMeaning.{KeyForm};
    ghost use Rattle.tera_values.specs.Map.{coded_pairs};

    ghost Value = { List (KeyForm × Form) };

    ghost coded = { coded_pairs };

    ghost view = { λ k. unwrap_or k.pairs [] };
}

impl<'a> Iterator for KwargsIter<'a> {
    ghost use Rattle.std.specs.Iterator.{YieldsFirstBy, item_count};
    ghost use Rattle.tera_values.specs.Key.{key_form};

    type Item = (&'a Key<'static>, &'a Value);

    ghost next_gives = { YieldsFirstBy (λ e. (key_form e.0.now, e.1.now)) (λ s. s) };

    ghost remaining = { item_count (λ s. s) };

    fn next(&mut self) -> Option<(&'a Key<'static>, &'a Value)> {
        match &mut self.pairs {
            Some(pairs) => pairs.next(),
            None => None,
        }
    }
}
