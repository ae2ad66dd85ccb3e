//! What filters take of their named arguments.
ghost use Rattle.std.specs.Prelude.{◌≡◌, pos, IfOk, IfErr, IsOk, Ok};
ghost use Rattle.std.specs.Option.{option_copied, option_map};
ghost use Rattle.tera.specs.Conversion.{IntegerType, converted};
ghost use Rattle.tera.specs.Errors.{Refuses};
ghost use Rattle.tera.specs.Lookup.{attr};
ghost use Rattle.tera.specs.Taken.{as_text};
ghost use Rattle.tera_filters.specs.Arguments.{needed, optional, or_else};

use std::alloc::Global;
use tera::{Kwargs, TeraResult, Value};

/// The place that an argument is, which has to be there.
pub(crate) fn needed_place(alloc: Global, arguments: &Kwargs, name: &str) -> TeraResult<usize>
    ensures ok { IfOk result (λ n.
        needed (converted IntegerType.usize) arguments.now name.now ≡ Ok (pos n)) }
    ensures err { IfErr result
        (Refuses (needed (converted IntegerType.usize) arguments.now name.now)) }
    ensures succeeds { IsOk (needed (converted IntegerType.usize) arguments.now name.now)
        → IsOk result }
{
    arguments.must_get::<usize>(alloc, name)
}

/// The text that an argument is, which has to be there.
pub(crate) fn needed_text<'a>(
    alloc: Global,
    arguments: &'a Kwargs,
    name: &'a str,
) -> TeraResult<&'a str>
    ensures ok { IfOk result (λ t. needed as_text arguments.now name.now ≡ Ok t.now) }
    ensures err { IfErr result (Refuses (needed as_text arguments.now name.now)) }
    ensures succeeds { IsOk (needed as_text arguments.now name.now) → IsOk result }
{
    arguments.must_get::<&str>(alloc, name)
}

/// The bound that an argument is, which may be left out.
pub(crate) fn bound(alloc: Global, arguments: &Kwargs, name: &str) -> TeraResult<Option<i128>>
    ensures ok { IfOk result (λ bound.
        optional (converted IntegerType.i128) arguments.now name.now ≡ Ok bound) }
    ensures err { IfErr result
        (Refuses (optional (converted IntegerType.i128) arguments.now name.now)) }
    ensures succeeds { IsOk (optional (converted IntegerType.i128) arguments.now name.now)
        → IsOk result }
{
    arguments.get::<i128>(alloc, name)
}

/// An argument, lent, whatever it is.
pub(crate) fn argument<'a>(
    alloc: Global,
    arguments: &'a Kwargs,
    name: &'a str,
) -> TeraResult<Option<&'a Value>>
    ensures ok { IfOk result (λ value. option_copied value ≡ attr arguments.now name.now) }
    ensures err { IfErr result (λ _. ⊥) }
{
    arguments.get::<&Value>(alloc, name)
}

// The text that an argument is, which may be left out.
fn optional_text<'a>(
    alloc: Global,
    arguments: &'a Kwargs,
    name: &'a str,
) -> TeraResult<Option<&'a str>>
    ensures ok { IfOk result (λ text.
        optional as_text arguments.now name.now ≡ Ok (option_copied text)) }
    ensures err { IfErr result (Refuses (optional as_text arguments.now name.now)) }
    ensures succeeds { IsOk (optional as_text arguments.now name.now) → IsOk result }
{
    arguments.get::<&str>(alloc, name)
}

/// The text that an argument is, or another where it is left out.
pub(crate) fn text_or<'a>(
    alloc: Global,
    arguments: &'a Kwargs,
    name: &'a str,
    otherwise: &'a str,
) -> TeraResult<&'a str>
    ensures ok { IfOk result (λ text.
        or_else as_text arguments.now name.now otherwise.now ≡ Ok text.now) }
    ensures err { IfErr result
        (Refuses (or_else as_text arguments.now name.now otherwise.now)) }
    ensures succeeds { IsOk (or_else as_text arguments.now name.now otherwise.now)
        → IsOk result }
{
    match optional_text(alloc, arguments, name)? {
        Some(text) => Ok(text),
        None => Ok(otherwise),
    }
}

// The place that an argument is, which may be left out.
fn optional_place(alloc: Global, arguments: &Kwargs, name: &str) -> TeraResult<Option<usize>>
    ensures ok { IfOk result (λ n. optional (converted IntegerType.usize) arguments.now name.now
        ≡ Ok (option_map (λ n. pos n) n)) }
    ensures err { IfErr result
        (Refuses (optional (converted IntegerType.usize) arguments.now name.now)) }
    ensures succeeds { IsOk (optional (converted IntegerType.usize) arguments.now name.now)
        → IsOk result }
{
    arguments.get::<usize>(alloc, name)
}

/// The place that an argument is, or another where it is left out.
pub(crate) fn place_or(
    alloc: Global,
    arguments: &Kwargs,
    name: &str,
    otherwise: usize,
) -> TeraResult<usize>
    ensures ok { IfOk result (λ n.
        or_else (converted IntegerType.usize) arguments.now name.now (pos otherwise)
        ≡ Ok (pos n)) }
    ensures err { IfErr result
        (Refuses (or_else (converted IntegerType.usize) arguments.now name.now (pos otherwise))) }
    ensures succeeds { IsOk
        (or_else (converted IntegerType.usize) arguments.now name.now (pos otherwise))
        → IsOk result }
{
    match optional_place(alloc, arguments, name)? {
        Some(n) => Ok(n),
        None => Ok(otherwise),
    }
}
