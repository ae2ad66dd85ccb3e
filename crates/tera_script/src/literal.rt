//! Literals: how a script spells a value. A level of arrays and maps needs little stack: it is one
//! frame, of `take_array` or `take_map`, and what does not call itself is not inlined there.
ghost use Rattle.std.specs.Prelude.{◌≡◌, ◌≢◌, ◌⊎◌, ◌∷◌, ℕ, List, IfOk, IsOk};
ghost use Rattle.std.specs.Prelude.{IfSome, IsSome, OnOk, Some};
ghost use Rattle.std.specs.Option.{option_map};
ghost use Rattle.tera_script.specs.Line.{IsBare};
ghost use Rattle.tera_script.specs.Readers.{value_in, plain_at};
ghost use Rattle.tera_script.specs.Readers.{hex_at, bytes_read, with_rest};
ghost use Rattle.tera_script.specs.Readers.{IsQuotedAt, IsLiteralAt, IsArrayAt, IsMapAt, IsPairPut};
ghost use Rattle.tera_meaning.specs.Pairs.{key_form_order, put};
ghost use Rattle.tera_values.specs.Key.{key_form};

use crate::hex::take_hex;
use crate::key::take_key;
use crate::number::{number_in, take_short, value_of};
use crate::text::take_text;
use crate::word::{past_blanks, split_word};
use std::alloc::{AllocError, Global};
use tera_values::{HashState, Key, Map, Value};

/// How deep arrays and maps may nest. The outermost is level 1.
pub(crate) const LEVELS: usize = 64;

/// The literal at the front of the bytes, in which arrays and maps nest at most `levels` deep, and
/// the bytes behind it. `None` where there is none, or a byte of a word follows one without quotes,
/// brackets and braces. Takes memory for texts, byte strings, arrays and maps, and fails for want
/// of it alone.
#[inline(always)]
#[cycle(literal)]
pub(crate) fn take_literal(
    alloc: Global,
    state: HashState,
    bytes: &[u8],
    levels: usize,
) -> Result<Option<(Value, &[u8])>, AllocError>
    ensures literal { IfOk result (λ answer.
        IsLiteralAt levels bytes.now (option_map with_rest answer)) }
    ensures free { IsBare bytes.now ⊎ IsSome (plain_at bytes.now) → IsOk result }
{
    if let Some(found) = take_number(bytes) {
        Ok(Some(found))
    } else if let Some(inside) = bytes.strip_prefix(b"[".as_slice()) {
        take_array(alloc, state, inside, levels)
    } else if let Some(inside) = bytes.strip_prefix(b"{".as_slice()) {
        take_map(alloc, state, inside, levels)
    } else {
        take_flat(alloc, bytes)
    }
}

// The array behind an opening bracket, and the bytes behind its closing bracket.
#[inline(never)]
#[cycle(literal)]
fn take_array(
    alloc: Global,
    state: HashState,
    bytes: &[u8],
    levels: usize,
) -> Result<Option<(Value, &[u8])>, AllocError>
    ensures { IfOk result (λ answer. IsArrayAt levels bytes.now (option_map with_rest answer)) }
{
    if levels == 0 {
        return Ok(None);
    }
    let mut items = Vec::new(alloc);
    let mut rest = past_blanks(bytes);
    if let Some(behind) = rest.strip_prefix(b"]".as_slice()) {
        return Ok(Some((Value::of_array(items), behind)));
    }
    loop {
        let Some((item, behind)) = take_literal(alloc, state, rest, levels - 1)? else {
            return Ok(None);
        };
        items.push(item)?;
        let Some((mark, next)) = past_blanks(behind).split_first() else {
            return Ok(None);
        };
        if *mark == b']' {
            return Ok(Some((Value::of_array(items), next)));
        }
        if *mark != b',' {
            return Ok(None);
        }
        rest = past_blanks(next);
    }
}

// The map behind an opening brace, and the bytes behind its closing brace.
#[inline(never)]
#[cycle(literal)]
fn take_map(
    alloc: Global,
    state: HashState,
    bytes: &[u8],
    levels: usize,
) -> Result<Option<(Value, &[u8])>, AllocError>
    ensures { IfOk result (λ answer. IsMapAt levels bytes.now (option_map with_rest answer)) }
{
    if levels == 0 {
        return Ok(None);
    }
    let mut pairs = Map::with_hasher(alloc, state);
    let mut rest = past_blanks(bytes);
    if let Some(behind) = rest.strip_prefix(b"}".as_slice()) {
        return Ok(Some((Value::of_map(pairs), behind)));
    }
    loop {
        let Some(behind) = take_pair(alloc, state, &mut pairs, rest, levels - 1)? else {
            return Ok(None);
        };
        let Some((mark, further)) = past_blanks(behind).split_first() else {
            return Ok(None);
        };
        if *mark == b'}' {
            return Ok(Some((Value::of_map(pairs), further)));
        }
        if *mark != b',' {
            return Ok(None);
        }
        rest = past_blanks(further);
    }
}

// Puts the pair at the front, a key, a colon and a literal, into a map. The bytes behind it.
#[inline(always)]
#[cycle(literal)]
fn take_pair<'a>(
    alloc: Global,
    state: HashState,
    pairs: &mut Map,
    bytes: &'a [u8],
    levels: usize,
) -> Result<Option<&'a [u8]>, AllocError>
    ensures { IfOk result (λ answer.
        IsPairPut levels bytes.now pairs.old pairs.new (option_map (λ rest. rest.now) answer)) }
{
    let Some((key, after)) = take_key(alloc, bytes)? else {
        return Ok(None);
    };
    let Some(next) = past_blanks(after).strip_prefix(b":".as_slice()) else {
        return Ok(None);
    };
    let Some((value, rest)) = take_literal(alloc, state, past_blanks(next), levels)? else {
        return Ok(None);
    };
    put_pair(pairs, key, value)?;
    Ok(Some(rest))
}

// Puts a value at a key.
#[inline(never)]
fn put_pair(pairs: &mut Map, key: Key<'static>, value: Value) -> Result<(), AllocError>
    ensures { OnOk result (pairs.new ≡ put key_form_order pairs.old (key_form key.entry) value) }
{
    let Ok(_) = pairs.insert(key, value) else {
        return Err(AllocError);
    };
    Ok(())
}

// The literal at the front, and the bytes behind it, where none of an array or a map begins there.
#[inline(never)]
fn take_flat(alloc: Global, bytes: &[u8]) -> Result<Option<(Value, &[u8])>, AllocError>
    ensures literal { IfOk result (λ answer. (levels : ℕ)
        → ((inside : List ℕ) → bytes.now ≢ 91 ∷ inside)
        → ((inside : List ℕ) → bytes.now ≢ 123 ∷ inside)
        → IsLiteralAt levels bytes.now (option_map with_rest answer)) }
    ensures free { IsBare bytes.now ⊎ IsSome (plain_at bytes.now) → IsOk result }
{
    if let Some(text) = bytes.strip_prefix(b"\"".as_slice()) {
        take_quoted(alloc, text, false)
    } else if let Some(text) = bytes.strip_prefix(b"s\"".as_slice()) {
        take_quoted(alloc, text, true)
    } else if let Some(digits) = bytes.strip_prefix(b"x\"".as_slice()) {
        take_bytes(alloc, digits)
    } else {
        Ok(take_plain(bytes))
    }
}

// The text behind an opening quote, with this flag, and the bytes behind its closing quote.
fn take_quoted(
    alloc: Global,
    bytes: &[u8],
    safe: bool,
) -> Result<Option<(Value, &[u8])>, AllocError>
    ensures { IfOk result (λ answer. IsQuotedAt safe bytes.now (option_map with_rest answer)) }
{
    let Some(taken) = take_text(alloc, bytes)? else {
        return Ok(None);
    };
    let (_, rest) = bytes.split_at(taken.used);
    let value = Value::from(taken.text);
    if safe {
        Ok(Some((value.mark_safe(), rest)))
    } else {
        Ok(Some((value, rest)))
    }
}

// The byte string behind an opening quote, and the bytes behind its closing quote.
fn take_bytes(alloc: Global, bytes: &[u8]) -> Result<Option<(Value, &[u8])>, AllocError>
    ensures { IfOk result (λ answer. option_map with_rest answer ≡ bytes_read (hex_at bytes.now)) }
{
    match take_hex(alloc, bytes)? {
        Some((taken, rest)) => Ok(Some((Value::bytes(taken), rest))),
        None => Ok(None),
    }
}

// The short number at the front, and the bytes behind it. `None` says no more than that one pass
// was not enough.
#[inline(always)]
#[tactic(auto, using(crate::proofs::Words::of_number), unfolding(crate::specs::Readers::plain_at))]
fn take_number(bytes: &[u8]) -> Option<(Value, &[u8])>
    ensures { IfSome result (λ found. Some (with_rest found) ≡ plain_at bytes.now) }
{
    let (number, rest) = take_short(bytes)?;
    Some((value_of(number), rest))
}

/// The literal without quotes at the front, and the bytes behind it. Takes no memory.
#[tactic(auto, unfolding(crate::specs::Readers::plain_at))]
pub(crate) fn take_plain(bytes: &[u8]) -> Option<(Value, &[u8])>
    ensures { option_map with_rest result ≡ plain_at bytes.now }
{
    let (word, rest) = split_word(bytes);
    let value = value_in(word)?;
    Some((value, rest))
}

// The value that a word spells.
#[tactic(auto, unfolding(crate::specs::Readers::value_in))]
fn value_in(word: &[u8]) -> Option<Value>
    ensures { result ≡ value_in word.now }
{
    if word == b"undefined".as_slice() {
        Some(Value::undefined())
    } else if word == b"none".as_slice() {
        Some(Value::none())
    } else if word == b"true".as_slice() {
        Some(Value::from(true))
    } else if word == b"false".as_slice() {
        Some(Value::from(false))
    } else {
        Some(value_of(number_in(word)?))
    }
}
