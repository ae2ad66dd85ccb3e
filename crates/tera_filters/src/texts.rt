//! Filters that make texts. None of these is marked safe.
ghost use Rattle.std.specs.Prelude.{◌≡◌, ◌++◌, ℕ, List, [], IfOk, IfErr, IsOk, OnOk, Ok, is_ok};
ghost use Rattle.std.specs.String.{string_bytes};
ghost use Rattle.tera.specs.Errors.{Refuses};
ghost use Rattle.tera.specs.Growing.{grown_bytes};
ghost use Rattle.tera.specs.Taken.{as_items};
ghost use Rattle.tera_filters.specs.Texts.{join_of, joinable, joined, joined_on, lower_of};
ghost use Rattle.tera_filters.specs.Texts.{made, trim_of, upper_of};

use crate::arguments::text_or;
use crate::refused::not_joinable;
use crate::taken::{items_of, text_of};
use std::alloc::Global;
use tera::sink::{Growing, Sink};
use tera::{Kwargs, TeraResult, Value};

/// A text in upper case, as Unicode has it. The answer is not marked safe.
///
/// Refuses every other value with ``Invalid type for the value, expected `&str` but got `N` ``, N
/// being the name of its kind, without the last blank. Takes memory for the answer and for the text
/// of the refusal; want of it, `Out of memory`, is answered in the place of either.
pub fn upper(alloc: Global, value: &Value) -> TeraResult<Value>
    ensures ok { IfOk result (λ v. upper_of value.now ≡ Ok v) }
    ensures err { IfErr result (Refuses (upper_of value.now)) }
{
    let text = text_of(alloc, value)?;
    Ok(Value::from(text.to_uppercase(alloc)?))
}

/// A text in lower case, as Unicode has it. The answer is not marked safe.
///
/// Refuses and takes memory as [`upper`] does.
pub fn lower(alloc: Global, value: &Value) -> TeraResult<Value>
    ensures ok { IfOk result (λ v. lower_of value.now ≡ Ok v) }
    ensures err { IfErr result (Refuses (lower_of value.now)) }
{
    let text = text_of(alloc, value)?;
    Ok(Value::from(text.to_lowercase(alloc)?))
}

/// A text without the white space at its ends. The answer is not marked safe.
///
/// Refuses and takes memory as [`upper`] does, and none for an empty answer.
pub fn trim(alloc: Global, value: &Value) -> TeraResult<Value>
    ensures ok { IfOk result (λ v. trim_of value.now ≡ Ok v) }
    ensures err { IfErr result (Refuses (trim_of value.now)) }
    ensures empty { trim_of value.now ≡ Ok (made []) → IsOk result }
{
    let text = text_of(alloc, value)?;
    Value::normal_string(alloc, text.trim())
}

/// The texts, numbers and truth values of an array as they print, with the argument `sep` between
/// them, or nothing where it is left out. The answer is not marked safe.
///
/// Refuses what is no array with ``Invalid type for the value, expected `&[Value]` but got `N` ``;
/// then a separator that is no text; and then the first item of another kind, with ``Only strings,
/// numbers and bools can be joined. This is a `N` ``. N is the name of the kind, and the last blank
/// of each is left out. Takes memory as [`upper`] does, and none where there is no item.
pub fn join(alloc: Global, value: &Value, arguments: &Kwargs) -> TeraResult<Value>
    ensures ok { IfOk result (λ v. join_of value.now arguments.now ≡ Ok v) }
    ensures err { IfErr result (Refuses (join_of value.now arguments.now)) }
    ensures empty { as_items value.now ≡ Ok [] → IsOk (join_of value.now arguments.now)
        → IsOk result }
{
    let items = items_of(alloc, value)?;
    let between = text_or(alloc, arguments, "sep", "")?;
    Ok(Value::from(joined(alloc, items, between)?))
}

// Items with a text between them.
fn joined(alloc: Global, items: &[Value], between: &str) -> TeraResult<String>
    ensures ok { IfOk result (λ text. joined between.now items.now ≡ Ok (string_bytes text)) }
    ensures err { IfErr result (Refuses (joined between.now items.now)) }
    ensures empty { items.now ≡ [] → IsOk result }
{
    let mut out = Growing::new(alloc);
    let Some((first, others)) = items.split_first() else {
        return Ok(String::new(alloc));
    };
    put_item(alloc, first, &mut out)?;
    put_others(alloc, others, between, &mut out)?;
    Ok(out.into_text())
}

// Puts items, each behind a text.
fn put_others(alloc: Global, items: &[Value], between: &str, out: &mut Growing) -> TeraResult<()>
    ensures ok { OnOk result ((text : List ℕ) × (joined_on between.now items.now ≡ Ok text)
        × (grown_bytes out.new ≡ grown_bytes out.old ++ text)) }
    ensures err { IfErr result (Refuses (joined_on between.now items.now)) }
{
    for item in items {
        out.put(between)?;
        put_item(alloc, item, out)?;
    }
    Ok(())
}

// Puts what is joined of an item.
#[tactic(auto, using(crate::proofs::Joining::prints_joinable, crate::proofs::Joining::not_joined))]
fn put_item(alloc: Global, item: &Value, out: &mut Growing) -> TeraResult<()>
    ensures ok { OnOk result ((text : List ℕ) × (joinable item.now ≡ Ok text)
        × (grown_bytes out.new ≡ grown_bytes out.old ++ text)) }
    ensures err { IfErr result (Refuses (joinable item.now)) }
{
    if is_joinable(item) {
        Ok(item.print_to(out)?)
    } else {
        Err(not_joinable(alloc, item))
    }
}

// Whether an item is a text, a number or a truth value.
#[tactic(auto, using(crate::proofs::Joining::joinable_kinds))]
fn is_joinable(item: &Value) -> bool
    ensures { result ≡ is_ok (joinable item.now) }
{
    item.as_str().is_some() || item.is_number() || item.as_bool().is_some()
}
