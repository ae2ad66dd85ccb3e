//! Collections, each given by what its parts give.
ghost use Rattle.std.specs.Prelude.{◌≡◌, ◌<◌, length, IfOk, OnErr};
ghost use Rattle.std.specs.List.{AllZip};
ghost use Rattle.tera_conversions.specs.Given.{GivesArray, GivesPart, PartRefuses, PartsRefuse};
ghost use Rattle.tera_meaning.specs.Tree.{array, bytes, items};
ghost use Rattle.tera_report.specs.Errors.{IsOutOfMemory};

use crate::ToValue;
use std::alloc::{AllocError, Global};
use std::collections::BTreeSet;
use tera_report::TeraResult;
use tera_values::Value;

/// None of nothing, else what its part gives, or its error. Takes memory for the part alone.
impl<T: ToValue> ToValue for Option<T> {
    ghost gives = { GivesPart T.gives };

    ghost refuses = { PartRefuses T.refuses };

    fn to_value(self, alloc: Global) -> TeraResult<Value> {
        match self {
            Some(part) => part.to_value(alloc),
            None => Ok(Value::none()),
        }
    }
}

/// An array of what its parts give; bytes are an array of numbers too.
///
/// Takes memory, but for no part. The error is the first one of a part or, where there is a part,
/// `Out of memory`.
impl<T: ToValue + Drop> ToValue for Vec<T> {
    ghost gives = { λ parts v. GivesArray T.gives parts.items v };

    ghost refuses = { λ parts e. PartsRefuse T.gives T.refuses parts.items e };

    #[tactic(auto, using(crate::proofs::GivenLaws::refused_after))]
    fn to_value(self, alloc: Global) -> TeraResult<Value> {
        let mut given = Vec::with_capacity(alloc, self.len())?;
        for part in self {
            given.push(part.to_value(alloc)?)?;
        }
        Ok(Value::of_array(given))
    }
}

/// An array of what its parts give, in rising order.
///
/// Takes memory, but for no part. The error is the first one of a part or, where there is a part,
/// `Out of memory`.
impl<T: ToValue + Ord + Drop> ToValue for BTreeSet<T> {
    ghost gives = { λ parts v. GivesArray T.gives parts.keys v };

    ghost refuses = { λ parts e. PartsRefuse T.gives T.refuses parts.keys e };

    #[tactic(auto, using(crate::proofs::GivenLaws::refused_after))]
    fn to_value(self, alloc: Global) -> TeraResult<Value> {
        let mut rising = Vec::with_capacity(alloc, self.len())?;
        for part in self {
            rising.push(part.to_value(alloc)?)?;
        }
        Ok(Value::of_array(rising))
    }
}

/// An array of copies of the values. Takes memory, but for no value; the only refusal is want of
/// it, `Out of memory`.
impl ToValue for &[Value] {
    ghost gives = { λ parts v. v ≡ array (items parts.now) };

    ghost refuses = { λ parts e. (0 < length parts.now) × IsOutOfMemory e };

    fn to_value(self, alloc: Global) -> TeraResult<Value> {
        Ok(Value::of_array(copies(alloc, self)?))
    }
}

/// A copy of the bytes, as bytes. Takes memory, but for no byte; the only refusal is want of it,
/// `Out of memory`.
impl ToValue for &[u8] {
    ghost gives = { λ held v. v ≡ bytes held.now };

    ghost refuses = { λ held e. (0 < length held.now) × IsOutOfMemory e };

    fn to_value(self, alloc: Global) -> TeraResult<Value> {
        let mut copy = Vec::new(alloc);
        copy.extend_from_slice(self)?;
        Ok(Value::bytes(copy))
    }
}

// A copy of each value, in their order.
fn copies(alloc: Global, all: &[Value]) -> Result<Vec<Value>, AllocError>
    ensures ok { IfOk result (λ v. v.items ≡ all.now) }
    ensures err { OnErr result (0 < length all.now) }
{
    let mut made = Vec::with_capacity(alloc, all.len())?;
    for value in all {
        made.push(value.copy(alloc)?)?;
    }
    Ok(made)
}
