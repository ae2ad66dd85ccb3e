//! Where a literal is none. Nothing is made of what is passed, so no memory is taken.
ghost use Rattle.std.specs.Prelude.{◌≡◌, ◌≢◌, ◌∷◌, Bool, ℕ, List};
ghost use Rattle.tera_script.specs.Readers.{IsArrayAt, IsLiteralAt, IsQuotedAt, hex_at, plain_at};
ghost use Rattle.tera_script.specs.inner.Passed.{IsKeyIfAt, IsMapIfAt, IsPairIfAt, Passes};

use crate::escape::take_escape;
use crate::hex::byte_of;
use crate::key::take_plain_key;
use crate::literal::take_plain;
use crate::number::{suffix_in, take_digits};
use crate::stop::{Expectation, Stop, stop_at};
use crate::text::run_length;
use crate::word::{past_blanks, split_word};

/// Passes a literal in which arrays and maps nest at most `levels` deep. Where none begins this
/// was expected.
#[cycle(pass)]
pub(crate) fn pass_literal(
    bytes: &[u8],
    levels: usize,
    what: Expectation,
) -> Result<&[u8], Stop<'_>>
    ensures { Passes (IsLiteralAt levels bytes.now) result }
{
    if let Some(inside) = bytes.strip_prefix(b"[".as_slice()) {
        pass_array(bytes, inside, levels)
    } else if let Some(inside) = bytes.strip_prefix(b"{".as_slice()) {
        pass_map(bytes, inside, levels, false)
    } else {
        pass_flat(bytes, what)
    }
}

// Passes an array, behind its bracket.
#[cycle(pass)]
fn pass_array<'a>(array: &'a [u8], inside: &'a [u8], levels: usize) -> Result<&'a [u8], Stop<'a>>
    ensures { Passes (IsArrayAt levels inside.now) result }
{
    if levels == 0 {
        return Err(stop_at(array, Expectation::FewerLevels));
    }
    let mut rest = past_blanks(inside);
    if let Some(behind) = rest.strip_prefix(b"]".as_slice()) {
        return Ok(behind);
    }
    let mut what = Expectation::ValueOrBracket;
    loop {
        let behind = past_blanks(pass_literal(rest, levels - 1, what)?);
        let Some((mark, next)) = behind.split_first() else {
            return Err(stop_at(behind, Expectation::CommaOrBracket));
        };
        if *mark == b']' {
            return Ok(next);
        }
        if *mark != b',' {
            return Err(stop_at(behind, Expectation::CommaOrBracket));
        }
        rest = past_blanks(next);
        what = Expectation::ValueBehindComma;
    }
}

/// Passes a map, behind its brace. Its keys may have to be texts.
#[cycle(pass)]
pub(crate) fn pass_map<'a>(
    map: &'a [u8],
    inside: &'a [u8],
    levels: usize,
    texts: bool,
) -> Result<&'a [u8], Stop<'a>>
    ensures { Passes (IsMapIfAt texts levels inside.now) result }
{
    if levels == 0 {
        return Err(stop_at(map, Expectation::FewerLevels));
    }
    let mut rest = past_blanks(inside);
    if let Some(behind) = rest.strip_prefix(b"}".as_slice()) {
        return Ok(behind);
    }
    let mut what = Expectation::KeyOrBrace;
    loop {
        let behind = past_blanks(pass_pair(rest, levels - 1, texts, what)?);
        let Some((mark, next)) = behind.split_first() else {
            return Err(stop_at(behind, Expectation::CommaOrBrace));
        };
        if *mark == b'}' {
            return Ok(next);
        }
        if *mark != b',' {
            return Err(stop_at(behind, Expectation::CommaOrBrace));
        }
        rest = past_blanks(next);
        what = Expectation::KeyBehindComma;
    }
}

// Passes a key, a colon and a literal.
#[cycle(pass)]
fn pass_pair(bytes: &[u8], levels: usize, texts: bool, what: Expectation) -> Result<&[u8], Stop<'_>>
    ensures { Passes (IsPairIfAt texts levels bytes.now) result }
{
    let after = past_blanks(pass_key(bytes, texts, what)?);
    match after.strip_prefix(b":".as_slice()) {
        Some(next) => pass_literal(past_blanks(next), levels, Expectation::ValueBehindColon),
        None => Err(stop_at(after, Expectation::Colon)),
    }
}

// Passes a key, which may have to be a text.
fn pass_key(bytes: &[u8], texts: bool, what: Expectation) -> Result<&[u8], Stop<'_>>
    ensures { Passes (IsKeyIfAt texts bytes.now) result }
{
    if let Some(inside) = bytes.strip_prefix(b"\"".as_slice()) {
        return pass_text(inside);
    }
    let Some((_, rest)) = take_plain_key(bytes) else {
        return Err(stop_in_word(bytes, what));
    };
    if texts {
        return Err(stop_at(bytes, Expectation::TextKey));
    }
    Ok(rest)
}

// Passes a literal that is no array and no map.
fn pass_flat(bytes: &[u8], what: Expectation) -> Result<&[u8], Stop<'_>>
    ensures { (levels : ℕ) → ((inside : List ℕ) → bytes.now ≢ 91 ∷ inside)
        → ((inside : List ℕ) → bytes.now ≢ 123 ∷ inside)
        → Passes (IsLiteralAt levels bytes.now) result }
{
    if let Some(text) = bytes.strip_prefix(b"\"".as_slice()) {
        pass_text(text)
    } else if let Some(text) = bytes.strip_prefix(b"s\"".as_slice()) {
        pass_text(text)
    } else if let Some(digits) = bytes.strip_prefix(b"x\"".as_slice()) {
        pass_hex(digits)
    } else {
        pass_plain(bytes, what)
    }
}

// Passes a literal without quotes, brackets and braces.
fn pass_plain(bytes: &[u8], what: Expectation) -> Result<&[u8], Stop<'_>>
    ensures { Passes (λ answer. answer ≡ plain_at bytes.now) result }
{
    match take_plain(bytes) {
        Some((_, rest)) => Ok(rest),
        None => Err(stop_in_word(bytes, what)),
    }
}

/// Passes a text behind its opening quote.
pub(crate) fn pass_text(bytes: &[u8]) -> Result<&[u8], Stop<'_>>
    ensures { (safe : Bool) → Passes (IsQuotedAt safe bytes.now) result }
{
    let mut rest = bytes;
    loop {
        let (_, token) = rest.split_at(run_length(rest));
        let Some((byte, after)) = token.split_first() else {
            return Err(stop_at(token, Expectation::Quote));
        };
        if *byte == b'"' {
            return Ok(after);
        }
        let Some((_, next)) = take_escape(after) else {
            return Err(stop_at(token, Expectation::Escape));
        };
        rest = next;
    }
}

// Passes the digits of a byte string behind its opening quote.
fn pass_hex(bytes: &[u8]) -> Result<&[u8], Stop<'_>>
    ensures { Passes (λ answer. answer ≡ hex_at bytes.now) result }
{
    let mut rest = bytes;
    loop {
        let Some((high, behind)) = rest.split_first() else {
            return Err(stop_at(rest, Expectation::HexDigits));
        };
        if *high == b'"' {
            return Ok(behind);
        }
        let Some((low, others)) = behind.split_first() else {
            return Err(stop_at(rest, Expectation::HexDigits));
        };
        let Some(_) = byte_of(*high, *low) else {
            return Err(stop_at(rest, Expectation::HexDigits));
        };
        rest = others;
    }
}

// What is wrong with a word that spells no value: its number, or all of it.
fn stop_in_word(bytes: &[u8], what: Expectation) -> Stop<'_> {
    let (signed, digits) = match bytes {
        [b'-', digits @ ..] => (true, digits),
        _ => (false, bytes),
    };
    match digits {
        [first, ..] if first.is_ascii_digit() => stop_in_number(bytes, digits),
        _ if signed => stop_at(digits, Expectation::Digit),
        _ => stop_at(bytes, what),
    }
}

// What is wrong with a number that begins with these digits, behind its sign.
fn stop_in_number<'a>(number: &'a [u8], digits: &'a [u8]) -> Stop<'a> {
    let Some((_, rest)) = take_digits(digits) else {
        return stop_at(number, Expectation::NumberInRange);
    };
    let (suffix, _) = split_word(rest);
    match suffix_in(suffix) {
        Some(_) => stop_at(number, Expectation::NumberInRange),
        None => stop_at(rest, Expectation::Suffix),
    }
}
