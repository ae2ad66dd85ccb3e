//! The texts of a script.

ghost use Rattle.std.specs.Prelude.{◌≡◌, ◌≢◌, ℕ, List, ◌∷◌, ◌++◌, IfOk, IfSome, IfNone, IsOk};
ghost use Rattle.std.specs.Prelude.{MatchOption, ◌<◌};
ghost use Rattle.std.specs.Prelude.{◌≤◌, ◌⊎◌, IsUtf8, string_bytes, length, drop, slice_index};
ghost use Rattle.std.specs.Cow.{cow_str_bytes};
ghost use Rattle.tera_script.specs.Line.{HasNoEscape};
ghost use Rattle.tera_script.specs.Text.{BeginsWithText, BeginsWithNoText};
ghost use Rattle.tera_script.specs.TextParts.{IsPlain, IsShort, BeginsWithRun};

use crate::escape::take_escape;
use bstr::ByteSlice;
use std::alloc::{AllocError, Global};
use std::borrow::CowStr;
use std::str;

/// A text that some bytes begin with.
#[derive(Debug, Drop)]
pub struct TakenText {
    /// What is spelled.
    pub text: String,
    /// How many bytes it takes, the closing quote among them.
    pub used: usize,
}

/// The text at the front of the bytes, which begin behind its opening quote. `None` where no front
/// of them is the inside of a text and a closing quote, or where what they spell is not UTF-8.
/// Takes memory, and fails for want of it alone.
pub fn take_text(alloc: Global, bytes: &[u8]) -> Result<Option<TakenText>, AllocError>
    ensures { IfOk result (λ answer. MatchOption answer
        (BeginsWithNoText bytes.now)
        (λ taken. BeginsWithText bytes.now (string_bytes taken.text) taken.used)) }
{
    if let Some((short, used)) = short_text(bytes) {
        let text = String::from_str(alloc, short)?;
        return Ok(Some(TakenText { text, used }));
    }
    long_text(alloc, bytes)
}

/// What `take_text` answers, lent where the text has no escape. Takes memory for one that has.
pub(crate) fn lent_text(
    alloc: Global,
    bytes: &[u8],
) -> Result<Option<(CowStr<'_>, usize)>, AllocError>
    ensures text { IfOk result (λ answer. MatchOption answer
        (BeginsWithNoText bytes.now)
        (λ taken. BeginsWithText bytes.now (cow_str_bytes taken.0) taken.1)) }
    ensures free { HasNoEscape bytes.now → IsOk result }
{
    let Some(length) = plain_length(bytes) else {
        return Ok(None);
    };
    let (run, rest) = bytes.split_at(length);
    let Some((mark, _)) = rest.split_first() else {
        return Ok(None);
    };
    if *mark != b'"' {
        return owned_text(alloc, bytes);
    }
    match str::from_utf8(run) {
        Ok(text) => Ok(Some((CowStr::Borrowed(text), length + 1))),
        Err(_) => Ok(None),
    }
}

// What `long_text` answers, as a text that may be lent.
#[inline(never)]
fn owned_text(alloc: Global, bytes: &[u8]) -> Result<Option<(CowStr<'_>, usize)>, AllocError>
    ensures { IfOk result (λ answer. MatchOption answer
        (BeginsWithNoText bytes.now)
        (λ taken. BeginsWithText bytes.now (cow_str_bytes taken.0) taken.1)) }
{
    match long_text(alloc, bytes)? {
        Some(taken) => Ok(Some((CowStr::Owned(taken.text), taken.used))),
        None => Ok(None),
    }
}

// How many bytes stand before the first quote or backslash, if one is there. A search in few bytes
// ends soonest.
#[tactic(auto, unfolding(bstr::specs::Bytes::is_in))]
fn plain_length(bytes: &[u8]) -> Option<usize>
    ensures within { IfSome result (λ found. found < length bytes.now) }
    ensures plain { IfSome result
        (λ found. (k : ℕ) → k < found → IsPlain (slice_index bytes.now k)) }
    ensures ends { IfSome result (λ found. (slice_index bytes.now found ≡ 34)
        ⊎ (slice_index bytes.now found ≡ 92)) }
    ensures none { IfNone result
        ((k : ℕ) → k < length bytes.now → IsPlain (slice_index bytes.now k)) }
{
    match short_run(bytes) {
        Some(length) => Some(length),
        None => bytes.find_byteset(b"\"\\"),
    }
}

/// What `take_text` answers, of a text that is long or has an escape.
pub(crate) fn long_text(alloc: Global, bytes: &[u8]) -> Result<Option<TakenText>, AllocError>
    ensures { IfOk result (λ answer. MatchOption answer
        (BeginsWithNoText bytes.now)
        (λ taken. BeginsWithText bytes.now (string_bytes taken.text) taken.used)) }
{
    let Some((decoded, used)) = decode_text(alloc, bytes)? else {
        return Ok(None);
    };
    match String::from_utf8(decoded) {
        Ok(text) => Ok(Some(TakenText { text, used })),
        Err(_) => Ok(None),
    }
}

// How many bytes a short text has at most, its closing quote among them.
const SHORT: usize = 32;

/// The text at the front where it has no escape and at most 31 bytes, and how many bytes it takes
/// with its closing quote. It stands in the bytes as it is.
pub(crate) fn short_text(bytes: &[u8]) -> Option<(&str, usize)>
    ensures text { IfSome result (λ found. BeginsWithText bytes.now found.0.now found.1) }
    ensures short { MatchOption result
        ((t rest : List ℕ) → IsUtf8 t → IsShort t → bytes.now ≢ t ++ 34 ∷ rest)
        (λ found. IsShort found.0.now
        × (bytes.now ≡ found.0.now ++ 34 ∷ drop found.1 bytes.now)) }
{
    let length = short_run(bytes)?;
    let (run, rest) = bytes.split_at(length);
    let Some((quote, _)) = rest.split_first() else {
        return None;
    };
    if *quote != b'"' {
        return None;
    }
    match str::from_utf8(run) {
        Ok(text) => Some((text, length + 1)),
        Err(_) => None,
    }
}

/// How many bytes at the front stand for themselves, where they are few: a search in few bytes ends
/// soonest.
#[tactic(auto, unfolding(bstr::specs::Bytes::is_in))]
fn short_run(bytes: &[u8]) -> Option<usize>
    ensures within { IfSome result (λ found. found < length bytes.now) }
    ensures plain { IfSome result
        (λ found. (k : ℕ) → k < found → IsPlain (slice_index bytes.now k)) }
    ensures ends { IfSome result (λ found. (slice_index bytes.now found ≡ 34)
        ⊎ (slice_index bytes.now found ≡ 92)) }
    ensures near { MatchOption result
        ((k : ℕ) → k ≤ 31 → k < length bytes.now → IsPlain (slice_index bytes.now k))
        (λ found. found ≤ 31) }
{
    let (near, _) = bytes.split_at(bytes.len().min(SHORT));
    near.find_byteset(b"\"\\")
}

/// The bytes that the text at the front stands for, UTF-8 or not, and how many bytes it takes.
fn decode_text(alloc: Global, bytes: &[u8]) -> Result<Option<(Vec<u8>, usize)>, AllocError>
    ensures { IfOk result (λ answer. MatchOption answer
        ((text : List ℕ) (used : ℕ) → BeginsWithText bytes.now text used → ⊥)
        (λ found. BeginsWithText bytes.now found.0.items found.1)) }
{
    let mut decoded = Vec::new(alloc);
    let mut rest = bytes;
    loop {
        rest = take_run(&mut decoded, rest)?;
        let Some((byte, after)) = rest.split_first() else {
            return Ok(None);
        };
        if *byte == b'"' {
            return Ok(Some((decoded, bytes.len() - after.len())));
        }
        let Some((character, next)) = take_escape(after) else {
            return Ok(None);
        };
        let mut buffer = [0; 4];
        decoded.extend_from_slice(character.encode_utf8(&mut buffer).as_bytes())?;
        rest = next;
    }
}

/// Adds the bytes at the front that stand for themselves, and answers those that follow them.
fn take_run<'a>(decoded: &mut Vec<u8>, bytes: &'a [u8]) -> Result<&'a [u8], AllocError>
    ensures run { IfOk result (λ rest. (run : List ℕ) × BeginsWithRun bytes.now run rest.now
        × (decoded.new.items ≡ decoded.old.items ++ run)) }
    ensures shorter { IfOk result (λ rest. length rest.now ≤ length bytes.now) }
{
    let (run, rest) = bytes.split_at(run_length(bytes));
    decoded.extend_from_slice(run)?;
    Ok(rest)
}

/// How many bytes at the front stand for themselves.
#[tactic(auto, unfolding(bstr::specs::Bytes::is_in))]
pub(crate) fn run_length(bytes: &[u8]) -> usize
    ensures within { result ≤ length bytes.now }
    ensures plain { (k : ℕ) → k < result → IsPlain (slice_index bytes.now k) }
    ensures ends { result < length bytes.now → (slice_index bytes.now result ≡ 34)
        ⊎ (slice_index bytes.now result ≡ 92) }
{
    if let Some(b'"' | b'\\') = bytes.first() {
        return 0;
    }
    bytes.find_byteset(b"\"\\").unwrap_or(bytes.len())
}
