//! Keys of a map literal: how a script spells one.
ghost use Rattle.std.specs.Prelude.{◌≡◌, ℕ, List, ◌∷◌, IfOk, IsOk, IsSome, MatchOption};
ghost use Rattle.std.specs.Option.{option_map};
ghost use Rattle.tera_meaning.specs.KeyMeaning.{number_key, text_key, owned};
ghost use Rattle.tera_script.specs.Readers.{key_in, plain_key_at, key_rest, integer_held, IsKeyAt};
ghost use Rattle.tera_script.specs.Text.{BeginsWithText, BeginsWithNoText};
ghost use Rattle.tera_script.specs.TextParts.{BeginsWithInline};
ghost use Rattle.tera_values.specs.Key.{key_form};

use crate::number::{Integer, number_in};
use crate::text::{long_text, short_text};
use crate::word::split_word;
use std::alloc::{AllocError, Global};
use tera_values::Key;

/// The key at the front of the bytes, and the bytes behind it: a truth value, a number or a text
/// that is not marked safe. `None` where there is none, or a byte of a word follows one without
/// quotes. Takes memory for a text that has an escape or more than 16 bytes, or that no quote
/// closes, and fails for want of it alone.
#[inline(never)]
pub(crate) fn take_key(
    alloc: Global,
    bytes: &[u8],
) -> Result<Option<(Key<'static>, &[u8])>, AllocError>
    ensures key { IfOk result (λ answer. IsKeyAt bytes.now (option_map key_rest answer)) }
    ensures free { IsSome (plain_key_at bytes.now) → IsOk result }
    ensures short { (behind : List ℕ) → bytes.now ≡ 34 ∷ behind → BeginsWithInline behind
        → IsOk result }
{
    let Some(behind) = bytes.strip_prefix(b"\"".as_slice()) else {
        return Ok(take_plain_key(bytes));
    };
    let Some((key, used)) = take_text_key(alloc, behind)? else {
        return Ok(None);
    };
    let (_, rest) = behind.split_at(used);
    Ok(Some((key, rest)))
}

// The key that the text at the front is, behind its opening quote, and how many bytes it takes.
fn take_text_key(alloc: Global, bytes: &[u8]) -> Result<Option<(Key<'static>, usize)>, AllocError>
    ensures text { IfOk result (λ answer. MatchOption answer
        (BeginsWithNoText bytes.now)
        (λ found. (text : List ℕ) × BeginsWithText bytes.now text found.1
        × (key_form found.0 ≡ text_key (owned text)))) }
    ensures free { BeginsWithInline bytes.now → IsOk result }
{
    if let Some((short, used)) = short_text(bytes) {
        return Ok(Some((Key::of_text(alloc, short)?, used)));
    }
    match long_text(alloc, bytes)? {
        Some(taken) => Ok(Some((Key::of_string(taken.text)?, taken.used))),
        None => Ok(None),
    }
}

/// The key without quotes at the front, and the bytes behind it. Takes no memory.
#[tactic(auto, unfolding(crate::specs::Readers::plain_key_at))]
pub(crate) fn take_plain_key(bytes: &[u8]) -> Option<(Key<'static>, &[u8])>
    ensures { option_map key_rest result ≡ plain_key_at bytes.now }
{
    let (word, rest) = split_word(bytes);
    let key = key_in(word)?;
    Some((key, rest))
}

// The key that a word spells.
#[tactic(auto, unfolding(crate::specs::Readers::key_in))]
fn key_in(word: &[u8]) -> Option<Key<'static>>
    ensures { option_map key_form result ≡ key_in word.now }
{
    if word == b"true".as_slice() {
        Some(Key::Bool(true))
    } else if word == b"false".as_slice() {
        Some(Key::Bool(false))
    } else {
        Some(key_of(number_in(word)?))
    }
}

// The key that holds the number.
fn key_of(integer: Integer) -> Key<'static>
    ensures { key_form result ≡ number_key (integer_held integer) }
{
    match integer {
        Integer::U64(n) => Key::U64(n),
        Integer::I64(z) => Key::I64(z),
        Integer::U128(n) => Key::U128(n),
        Integer::I128(z) => Key::I128(z),
    }
}
