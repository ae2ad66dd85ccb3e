//! Numbers: an optional minus, digits and an optional suffix that names a kind.
ghost use Rattle.std.specs.Prelude.{◌≡◌, ℕ, List, Option, Some, None, SomeIff, MatchOption, IsTrue};
ghost use Rattle.std.specs.Prelude.{cond, [], false, IfSome, ◌⊎◌, ◌+◌, ◌*◌, ◌^◌, ◌<◌, ◌≤◌};
ghost use Rattle.std.specs.Char.{digit_value, is_ascii_digit};
ghost use Rattle.std.specs.Option.{option_map};
ghost use Rattle.tera_meaning.specs.Integer.{i128 as kind_i128};
ghost use Rattle.tera_script.specs.Number.{signed};
ghost use Rattle.tera_script.specs.Readers.{Stops, BeginsWithDigit, digits_at, suffix_in};
ghost use Rattle.tera_script.specs.Readers.{integer_of, is_of_kind};
ghost use Rattle.tera_script.specs.Readers.{unsigned_in, number_in, with_rest, integer_held};
ghost use Rattle.tera_script.specs.Readers.{suffix_kind, front, past, is_word_byte, digits_from};
ghost use Rattle.tera_meaning.specs.Tree.{number};

use crate::word::ends_word;
use tera_values::Value;

/// A number in its kind.
#[derive(Clone, Copy)]
pub(crate) enum Integer {
    U64(u64),
    I64(i64),
    U128(u128),
    I128(i128),
}

// The kind that a suffix names.
#[derive(Clone, Copy)]
pub(crate) enum Suffix {
    U64,
    I64,
    U128,
    I128,
}

/// The value that holds the number. Takes no memory.
pub(crate) fn value_of(integer: Integer) -> Value
    ensures { result ≡ number (integer_held integer) }
{
    match integer {
        Integer::U64(n) => Value::from(n),
        Integer::I64(z) => Value::from(z),
        Integer::U128(n) => Value::from(n),
        Integer::I128(z) => Value::from(z),
    }
}

/// The number that a word spells, in its kind. `None` where it spells none. Takes no memory.
#[tactic(auto, unfolding(crate::specs::Readers::number_in))]
pub(crate) fn number_in(word: &[u8]) -> Option<Integer>
    ensures { option_map integer_held result ≡ number_in word.now }
{
    match word {
        [] => None,
        [b'-', digits @ ..] => unsigned_in(true, digits),
        _ => unsigned_in(false, word),
    }
}

// The number that a sign and the bytes behind it spell.
#[tactic(auto, unfolding(crate::specs::Readers::unsigned_in))]
fn unsigned_in(minus: bool, bytes: &[u8]) -> Option<Integer>
    ensures { option_map integer_held result ≡ unsigned_in minus bytes.now }
{
    let (magnitude, rest) = take_digits(bytes)?;
    let suffix = suffix_in(rest)?;
    integer_of(minus, magnitude, suffix)
}

// What can take one more digit with no test of what 64 bits hold.
const FEW: u64 = 100_000_000_000_000_000;

/// The number without a suffix that is the whole word at the front, and the bytes behind it. It is
/// read in one pass, with sums of 64 bits; `None` says no more than that this was not enough.
#[tactic(auto, unfolding(crate::specs::Readers::number_in))]
pub(crate) fn take_short(bytes: &[u8]) -> Option<(Integer, &[u8])>
    ensures number { IfSome result (λ found.
        number_in (front is_word_byte bytes.now) ≡ Some (integer_held found.0)) }
    ensures rest { IfSome result (λ found. past is_word_byte bytes.now ≡ found.1.now) }
{
    match bytes {
        [b'-', digits @ ..] => short_number(true, digits),
        _ => short_number(false, bytes),
    }
}

// The number of the digits that are the whole word at the front, with a minus before them or none,
// and the bytes behind it. `None` says no more than that one pass was not enough.
fn short_number(minus: bool, bytes: &[u8]) -> Option<(Integer, &[u8])>
    ensures number { IfSome result (λ found.
        unsigned_in minus (front is_word_byte bytes.now) ≡ Some (integer_held found.0)) }
    ensures unsigned { IfSome result (λ found. number_in (front is_word_byte bytes.now)
        ≡ unsigned_in false (front is_word_byte bytes.now)) }
    ensures rest { IfSome result (λ found. past is_word_byte bytes.now ≡ found.1.now) }
{
    let (magnitude, rest) = short_digits(bytes)?;
    let number = in_first_kind(minus, u128::from(magnitude))?;
    Some((number, rest))
}

// The number of the digits that are the whole word at the front, and the bytes behind them. `None`
// says no more than that one pass was not enough.
fn short_digits(bytes: &[u8]) -> Option<(u64, &[u8])>
    ensures digits { IfSome result (λ found.
        digits_at (front is_word_byte bytes.now) ≡ Some (found.0, [])) }
    ensures rest { IfSome result (λ found. past is_word_byte bytes.now ≡ found.1.now) }
{
    let (first, others) = first_digit(bytes)?;
    let mut magnitude = u64::from(first - b'0');
    let mut rest = others;
    while let Some((digit, behind)) = first_digit(rest) {
        if magnitude >= FEW {
            return None;
        }
        magnitude = magnitude * 10 + u64::from(digit - b'0');
        rest = behind;
    }
    if !ends_word(rest) {
        return None;
    }
    Some((magnitude, rest))
}

/// The number of the digits at the front, one or more, and the bytes behind them.
#[tactic(auto, unfolding(crate::specs::Readers::digits_at))]
pub(crate) fn take_digits(bytes: &[u8]) -> Option<(u128, &[u8])>
    ensures { option_map with_rest result ≡ digits_at bytes.now }
{
    let (few, behind) = few_digits(bytes);
    let mut magnitude = u128::from(few);
    let mut rest = behind;
    while let Some((digit, others)) = first_digit(rest) {
        magnitude = with_digit(magnitude, digit)?;
        rest = others;
    }
    if rest.len() == bytes.len() {
        return None;
    }
    Some((magnitude, rest))
}

// The number of the first digits at the front, and the bytes behind them: of all, or of as many as
// make a number of 18 digits.
fn few_digits(bytes: &[u8]) -> (u64, &[u8])
    ensures digits { digits_from result.0 result.1.now ≡ digits_from 0 bytes.now }
    ensures many { Stops is_ascii_digit result.1.now ⊎ (10 ^ 17 ≤ result.0) }
{
    let mut magnitude: u64 = 0;
    let mut rest = bytes;
    while let Some((digit, others)) = first_digit(rest)
        && magnitude < FEW
    {
        magnitude = magnitude * 10 + u64::from(digit - b'0');
        rest = others;
    }
    (magnitude, rest)
}

// The digit at the front, and the bytes behind it. `None` where no digit stands there.
fn first_digit(bytes: &[u8]) -> Option<(u8, &[u8])>
    ensures { MatchOption result (Stops is_ascii_digit bytes.now)
        (λ found. BeginsWithDigit bytes.now found.0 found.1.now) }
{
    match bytes {
        [byte, rest @ ..] if byte.is_ascii_digit() => Some((*byte, rest)),
        _ => None,
    }
}

// The number with one more digit, if 128 bits hold it.
fn with_digit(magnitude: u128, digit: u8) -> Option<u128>
    requires { IsTrue (is_ascii_digit digit) }
    ensures { SomeIff result (magnitude * 10 + digit_value digit < 2 ^ 128)
        (magnitude * 10 + digit_value digit) }
{
    let ones = u128::from(digit - b'0');
    magnitude.checked_mul(10)?.checked_add(ones)
}

/// The kind that a word names, or none where there is no word. `None` for any other word.
#[tactic(auto, unfolding(crate::specs::Readers::suffix_in))]
pub(crate) fn suffix_in(word: &[u8]) -> Option<Option<Suffix>>
    ensures { option_map (option_map suffix_kind) result ≡ suffix_in word.now }
{
    if word.is_empty() {
        Some(None)
    } else if word == b"u64".as_slice() {
        Some(Some(Suffix::U64))
    } else if word == b"i64".as_slice() {
        Some(Some(Suffix::I64))
    } else if word == b"u128".as_slice() {
        Some(Some(Suffix::U128))
    } else if word == b"i128".as_slice() {
        Some(Some(Suffix::I128))
    } else {
        None
    }
}

// The number with this sign in the kind of its suffix, or in the first kind that holds it.
#[tactic(auto, unfolding(crate::specs::Readers::integer_of))]
fn integer_of(minus: bool, magnitude: u128, suffix: Option<Suffix>) -> Option<Integer>
    ensures { option_map integer_held result
        ≡ integer_of minus magnitude (option_map suffix_kind suffix) }
{
    match suffix {
        None => in_first_kind(minus, magnitude),
        Some(Suffix::U64) => {
            if minus {
                return None;
            }
            Some(Integer::U64(u64::try_from(magnitude).ok()?))
        }
        Some(Suffix::I64) => {
            let number = signed(minus, magnitude)?;
            Some(Integer::I64(i64::try_from(number).ok()?))
        }
        Some(Suffix::U128) => {
            if minus {
                return None;
            }
            Some(Integer::U128(magnitude))
        }
        Some(Suffix::I128) => Some(Integer::I128(signed(minus, magnitude)?)),
    }
}

// The first of i64, u64, i128 and u128 that holds the number.
#[tactic(auto, unfolding(crate::specs::Readers::integer_of))]
fn in_first_kind(minus: bool, magnitude: u128) -> Option<Integer>
    ensures { option_map integer_held result ≡ integer_of minus magnitude None }
{
    let Some(number) = signed(minus, magnitude) else {
        if minus {
            return None;
        }
        return Some(Integer::U128(magnitude));
    };
    if let Ok(small) = i64::try_from(number) {
        return Some(Integer::I64(small));
    }
    if let Ok(small) = u64::try_from(number) {
        return Some(Integer::U64(small));
    }
    Some(Integer::I128(number))
}

/// The number with this sign, if 128 bits hold it.
pub(crate) fn signed(minus: bool, magnitude: u128) -> Option<i128>
    ensures { result ≡ (cond (is_of_kind kind_i128 (signed minus magnitude))
        (Some (signed minus magnitude)) None) }
{
    if minus {
        0i128.checked_sub_unsigned(magnitude)
    } else {
        0i128.checked_add_unsigned(magnitude)
    }
}
