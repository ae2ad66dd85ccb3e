//! The parts of values from which arguments are taken.
ghost use Rattle.std.specs.Prelude.{◌≡◌, ℕ, List, Option, Some, None, MatchOption, IfOk, IfErr};
ghost use Rattle.std.specs.Option.{option_copied};
ghost use Rattle.tera_arguments.specs.Taken.{IsNoArray};
ghost use Rattle.tera_conversions.specs.Given.{GivesMap, GivesPair, LaterRefuse};
ghost use Rattle.tera_meaning.specs.KeyMeaning.{KeyForm};
ghost use Rattle.tera_meaning.specs.Lookup.{attr};
ghost use Rattle.tera_meaning.specs.Read.{items_in};
ghost use Rattle.tera_report.specs.declared.errors.Error.{Error};

use crate::private::SealedParts;
use std::alloc::Global;
use tera_conversions::ToKey;
use tera_report::{Error, TeraResult};
use tera_values::{Map, Value};

/// What holds arguments by their names, and items. It is sealed, and `Value` alone implements it.
/// `KwargsOf` goes by it and not by `Value`, since the kit refuses a bound on a lifetime in a
/// signature that names `Value`.
pub trait Parts: SealedParts + Sized + Drop {
    // the argument of a name
    ghost argument: { Self → List ℕ → Option Self };

    // the items of an array
    ghost items: { Self → Option (List Self) };

    // the error of what is no array
    ghost is_no_array: { Self → Error → Type 0 };

    // the map of some pairs
    ghost is_map: { (K : Type 0) → (K → KeyForm → Type 0) → List (K × Self) → Self → Type 0 };

    // an error that may be answered in its place
    ghost no_map: { (K : Type 0) → (K → KeyForm → Type 0) → (K → Error → Type 0)
        → List (K × Self) → Error → Type 0 };

    /// The map of these pairs, in their order. Of two with equal keys the first key and its place
    /// and the later value stand.
    ///
    /// Takes memory, but for no pair. The error is the first one of a key or, where the first key
    /// was given, `Out of memory`.
    fn of_pairs<K: ToKey + Drop>(alloc: Global, pairs: Vec<(K, Self)>) -> TeraResult<Self>
        ensures ok { IfOk result (is_map K K.gives_key pairs.items) }
        ensures err { IfErr result (no_map K K.gives_key K.refuses_key pairs.items) };

    /// The argument of that name, lent. Takes no memory.
    fn argument<'a>(&'a self, name: &'a str) -> Option<&'a Self>
        ensures { option_copied result ≡ argument self.now name.now };

    /// The items of the array that it is, lent. Takes no memory.
    fn items(&self) -> Option<&[Self]>
        ensures { MatchOption result (items self.now ≡ None) (λ xs. items self.now ≡ Some xs.now) };

    /// The error of what is no array: ``Invalid type for the value, expected `Vec<Value>` but got
    /// `N` ``, N being the name of its kind, without the last blank; or want of memory for it.
    fn no_array(&self, alloc: Global) -> Error
        ensures { is_no_array self.now result };
}

impl Parts for Value {
    ghost argument = { attr };

    ghost items = { λ value. items_in value };

    ghost is_no_array = { IsNoArray };

    ghost is_map = { λ K key pairs v. GivesMap key (λ given v. v ≡ given) pairs v };

    ghost no_map = { λ K key no_key pairs e. LaterRefuse (GivesPair key (λ given v. v ≡ given))
        (λ pair. no_key pair.0) pairs e };

    fn of_pairs<K: ToKey + Drop>(alloc: Global, pairs: Vec<(K, Value)>) -> TeraResult<Value>
        ensures ok { IfOk result (GivesMap K.gives_key (λ given v. v ≡ given) pairs.items) }
        ensures err { IfErr result (LaterRefuse (GivesPair K.gives_key (λ given v. v ≡ given))
            (λ pair. K.refuses_key pair.0) pairs.items) }
    {
        let mut made = Map::new(alloc);
        for (key, value) in pairs {
            drop(made.insert(key.to_key(alloc)?, value)?);
        }
        Ok(Value::of_map(made))
    }

    fn argument<'a>(&'a self, name: &'a str) -> Option<&'a Value> {
        self.get_attr(name)
    }

    fn items(&self) -> Option<&[Value]> {
        self.as_array()
    }

    fn no_array(&self, alloc: Global) -> Error {
        Error::invalid_arg_type(alloc, "Vec<Value>", self.name())
    }
}
