//! The characters of a text: slices of them, and their reversal.
ghost use Rattle.std.specs.Prelude.{◌≡◌, ◌≢◌, ◌⊎◌, ◌≤◌, ◌-◌, ◌||◌, false, List, ℕ, IfOk, Some};
ghost use Rattle.std.specs.Prelude.{length, take, drop, [], ◌∷◌, ◌++◌, ◌+◌, OnErr, MatchOption};
ghost use Rattle.std.specs.Prelude.{IsOk, is_ok, if◌then◌else◌, vec_len, vec_capacity};
ghost use Rattle.std.specs.Prelude.{◌<◌, reverse, pos, slice_get};
ghost use Rattle.std.specs.Char.{encode_utf8};
ghost use Rattle.std.specs.Str.{chars, encode_utf8_all, IsAscii, IsUtf8};
ghost use Rattle.std.specs.Str.Iter.{chars_rest};
ghost use Rattle.std.specs.String.{string_bytes};
ghost use Rattle.tera_meaning.specs.SliceRule.{IsSliceOf};
ghost use Rattle.tera_meaning.specs.Slice.{walked};
ghost use Rattle.tera_scalars.specs.inner.Ends.{chars_from, far, near};
ghost use Rattle.tera_scalars.specs.inner.Positions.{counts_from_afar};
ghost use Rattle.tera_scalars.specs.Positions.{turned};

use crate::Stride;
use crate::positions::needs_count;
use std::alloc::{AllocError, Global};
use std::str::Chars;
use tera_report::words::characters;

/// The characters of a text in the opposite order. Takes memory for the answer, unless the text is
/// empty; the only refusal is want of it.
pub fn reversed_text(alloc: Global, text: &str) -> Result<String, AllocError>
    ensures ok { IfOk result (λ t. string_bytes t ≡ encode_utf8_all (reverse (chars text.now))) }
    ensures succeeds { text.now ≡ [] → IsOk result }
{
    if text.is_empty() {
        return Ok(String::new(alloc));
    }
    last_turned(alloc, text, text.len())
}

// A text's last characters, so many or all, in the opposite order.
fn last_turned(alloc: Global, text: &str, count: usize) -> Result<String, AllocError>
    ensures { IfOk result (λ t. string_bytes t
        ≡ encode_utf8_all (take count (reverse (chars text.now)))) }
{
    let rest = behind(text, true, count);
    whole_turned(alloc, text.split_at(rest.len()).1)
}

// The characters of a text in the opposite order: once the bytes of each are turned where they
// stand, all the bytes are turned.
fn whole_turned(alloc: Global, text: &str) -> Result<String, AllocError>
    ensures { IfOk result (λ t. string_bytes t ≡ encode_utf8_all (reverse (chars text.now))) }
{
    let mut turned = text.as_bytes().to_vec(alloc)?;
    turn_each(&mut turned);
    turned.reverse();
    Ok(unsafe { String::from_utf8_unchecked(turned) })
}

// Turns the bytes of each character where they stand. ASCII bytes are passed over by pieces.
fn turn_each(bytes: &mut [u8])
    requires { IsUtf8 bytes.old }
    ensures { bytes.new ≡ reverse (encode_utf8_all (reverse (chars bytes.old))) }
{
    let mut at = 0;
    'pieces: while at < bytes.len() {
        let end = at + (bytes.len() - at).min(32);
        if bytes[at..end].is_ascii() {
            at = end;
        } else {
            'characters: while at < end {
                at += turn_at(bytes, at);
            }
        }
    }
}

// Turns the bytes of the character at a place, and says how many they are.
fn turn_at(bytes: &mut [u8], at: usize) -> usize
    requires within { at < length bytes.old }
    requires text { IsUtf8 (drop at bytes.old) }
    ensures turns { (c : ℕ) × (rest : List ℕ) × (drop at bytes.old ≡ encode_utf8 c ++ rest)
        × IsUtf8 rest × (result ≡ length (encode_utf8 c))
        × (bytes.new ≡ take at bytes.old ++ (reverse (encode_utf8 c) ++ rest)) }
    ensures some { 0 < result }
    ensures within { at + result ≤ length bytes.old }
{
    let width = width_at(bytes, at);
    if width == 1 {
        return 1;
    }
    bytes.swap(at, at + width - 1);
    if width == 4 {
        bytes.swap(at + 1, at + 2);
    }
    width
}

// How many bytes the character at a place has, as its first one says.
fn width_at(bytes: &[u8], at: usize) -> usize
    requires within { at < length bytes.now }
    requires text { IsUtf8 (drop at bytes.now) }
    ensures spells { (c : ℕ) × (rest : List ℕ) × (drop at bytes.now ≡ encode_utf8 c ++ rest)
        × IsUtf8 rest × (result ≡ length (encode_utf8 c)) }
    ensures within { at + result ≤ length bytes.now }
    ensures few { (0 < result) × (result ≤ 4) }
{
    let first = bytes[at];
    if first < 0x80 {
        1
    } else if first < 0xE0 {
        2
    } else if first < 0xF0 {
        3
    } else {
        4
    }
}

// The bytes of the next character from an end, which is taken off.
fn take_next<'a>(rest: &mut Chars<'a>, backwards: bool) -> Option<&'a [u8]>
    ensures { MatchOption result
        ((chars_from backwards (chars_rest rest.old) ≡ []) × (rest.new ≡ rest.old))
        (λ spelled. IsUtf8 spelled.now × (c : ℕ) × (spelled.now ≡ encode_utf8 c)
        × (chars_from backwards (chars_rest rest.old)
        ≡ c ∷ chars_from backwards (chars_rest rest.new))) }
{
    if backwards {
        take_back(rest)
    } else {
        take_front(rest)
    }
}

// The bytes of the first character that is left, which is taken off.
fn take_front<'a>(rest: &mut Chars<'a>) -> Option<&'a [u8]>
    ensures text { IsUtf8 (chars_rest rest.old) }
    ensures taken { MatchOption result
        ((length (chars_rest rest.old) ≡ 0) × (rest.new ≡ rest.old))
        (λ spelled. (c : ℕ) × (spelled.now ≡ encode_utf8 c)
        × (chars_rest rest.old ≡ encode_utf8 c ++ chars_rest rest.new)) }
{
    let whole = rest.as_str();
    rest.next()?;
    Some(&whole.as_bytes()[..whole.len() - rest.as_str().len()])
}

// The bytes of the last character that is left, which is taken off.
fn take_back<'a>(rest: &mut Chars<'a>) -> Option<&'a [u8]>
    ensures text { IsUtf8 (chars_rest rest.old) }
    ensures taken { MatchOption result
        ((length (chars_rest rest.old) ≡ 0) × (rest.new ≡ rest.old))
        (λ spelled. (c : ℕ) × (spelled.now ≡ encode_utf8 c)
        × (chars_rest rest.old ≡ chars_rest rest.new ++ encode_utf8 c)) }
{
    let whole = rest.as_str();
    rest.next_back()?;
    Some(&whole.as_bytes()[rest.as_str().len()..])
}

// Puts the bytes of a character behind those made so far, one by one: for so few a copy in one
// piece costs more. It takes memory only where there is no room for them.
fn put_bytes(made: &mut Vec<u8>, bytes: &[u8]) -> Result<(), AllocError>
    ensures items { made.new.items
        ≡ (if is_ok result then made.old.items ++ bytes.now else made.old.items) }
    ensures full { OnErr result (vec_capacity made.old < vec_len made.old + length bytes.now) }
{
    made.reserve(bytes.len())?;
    for byte in bytes {
        made.push_reserved(*byte);
    }
    Ok(())
}

// The bytes at an end of a text, so many of them.
fn bytes_near(text: &str, backwards: bool, count: usize) -> &[u8]
    requires { count ≤ length text.now }
    ensures { result.now ≡ near backwards count text.now }
{
    if backwards {
        &text.as_bytes()[text.len() - count..]
    } else {
        &text.as_bytes()[..count]
    }
}

// What is left of a text once so many bytes are off an end: ASCII ones.
fn behind_ascii(text: &str, backwards: bool, count: usize) -> &str
    requires within { count ≤ length text.now }
    requires ascii { IsAscii (near backwards count text.now) }
    ensures { result.now ≡ far backwards count text.now }
{
    if backwards {
        text.split_at(text.len() - count).0
    } else {
        text.split_at(count).1
    }
}

// What is left of a text once so many characters, or all, are off an end.
fn behind(text: &str, backwards: bool, count: usize) -> &str
    ensures { chars_from backwards result.now ≡ drop count (chars_from backwards text.now) }
{
    if text.len() <= count {
        return "";
    }
    if bytes_near(text, backwards, count).is_ascii() {
        return behind_ascii(text, backwards, count);
    }
    let mut rest = text.chars();
    for turn in 0..count {
        let Some(_) = take_next(&mut rest, backwards) else {
            break;
        };
    }
    rest.as_str()
}

// A copy of a text's first characters, so many or all.
fn first_copied(alloc: Global, text: &str, count: usize) -> Result<String, AllocError>
    ensures { IfOk result (λ t. string_bytes t ≡ encode_utf8_all (take count (chars text.now))) }
{
    let rest = behind(text, false, count);
    String::from_str(alloc, text.split_at(text.len() - rest.len()).0)
}

// Each by-th of a text's characters, so many or all, from an end on.
fn strided(
    alloc: Global,
    text: &str,
    backwards: bool,
    count: usize,
    by: usize,
) -> Result<String, AllocError>
    requires { 0 < by }
    ensures { IfOk result (λ t. string_bytes t
        ≡ encode_utf8_all (walked (by - 1) 0 (take count (chars_from backwards text.now)))) }
{
    let mut made = Vec::with_capacity(alloc, count.min(text.len()).div_ceil(by))?;
    let mut rest = text.chars();
    let mut waits = 0;
    for turn in 0..count {
        let Some(spelled) = take_next(&mut rest, backwards) else {
            break;
        };
        if waits > 0 {
            waits -= 1;
        } else {
            put_bytes(&mut made, spelled)?;
            waits = by - 1;
        }
    }
    Ok(unsafe { String::from_utf8_unchecked(made) })
}

// Each by-th of ASCII bytes, which are characters, from the first on or from the last back.
fn strided_ascii(
    alloc: Global,
    bytes: &[u8],
    backwards: bool,
    by: usize,
) -> Result<String, AllocError>
    requires moves { 0 < by }
    requires ascii { IsAscii bytes.now }
    ensures { IfOk result (λ t. string_bytes t
        ≡ encode_utf8_all (walked (by - 1) 0 (turned backwards bytes.now))) }
{
    let mut made = String::with_capacity(alloc, bytes.len().div_ceil(by))?;
    let mut at = 0;
    while at < bytes.len() {
        made.push(byte_from(bytes, backwards, at) as char)?;
        at = at.saturating_add(by);
    }
    Ok(made)
}

// The byte so many behind the first one, or before the last one.
fn byte_from(bytes: &[u8], backwards: bool, at: usize) -> u8
    requires { at < length bytes.now }
    ensures { slice_get (turned backwards bytes.now) at ≡ Some result }
{
    if backwards {
        bytes[bytes.len() - 1 - at]
    } else {
        bytes[at]
    }
}

// Each by-th of a text's characters, so many or all, from an end on, in the way that is quickest.
fn taken(
    alloc: Global,
    text: &str,
    backwards: bool,
    count: usize,
    by: usize,
) -> Result<String, AllocError>
    requires { 0 < by }
    ensures { IfOk result (λ t. string_bytes t
        ≡ encode_utf8_all (walked (by - 1) 0 (take count (chars_from backwards text.now)))) }
{
    if by == 1 {
        if backwards {
            return last_turned(alloc, text, count);
        }
        return first_copied(alloc, text, count);
    }
    let bytes = bytes_near(text, backwards, count.min(text.len()));
    if bytes.is_ascii() {
        strided_ascii(alloc, bytes, backwards, by)
    } else {
        strided(alloc, text, backwards, count, by)
    }
}

// The slice of a text's characters by a walk from an end.
fn sliced(alloc: Global, text: &str, backwards: bool, stride: Stride) -> Result<String, AllocError>
    requires { 0 < stride.by }
    ensures ok { IfOk result (λ t. string_bytes t ≡ encode_utf8_all (walked (stride.by - 1)
        stride.from (take stride.until (chars_from backwards text.now)))) }
    ensures succeeds { walked (stride.by - 1) stride.from
        (take stride.until (chars_from backwards text.now)) ≡ [] → IsOk result }
{
    let rest = behind(text, backwards, stride.from);
    let count = stride.until.saturating_sub(stride.from);
    if rest.is_empty() || count == 0 {
        return Ok(String::new(alloc));
    }
    taken(alloc, rest, backwards, count, stride.by)
}

// How many places a slice has to reckon with: as many as the text has characters, or more where no
// bound takes their count.
fn length_to_reckon_with(text: &str, start: Option<i128>, end: Option<i128>, step: i128) -> usize
    ensures enough { length (chars text.now) ≤ result }
    ensures exact { ((counts_from_afar step start || counts_from_afar step end) ≡ false)
        ⊎ (result ≡ length (chars text.now)) }
{
    if needs_count(start, end, step) {
        characters(text)
    } else {
        text.len()
    }
}

/// The slice of a text's characters between two bounds, by a step other than 0; of a step of 0
/// nothing is said.
///
/// Takes memory for the answer, unless that is empty; the only refusal is want of it.
pub fn sliced_text(
    alloc: Global,
    text: &str,
    start: Option<i128>,
    end: Option<i128>,
    step: i128,
) -> Result<String, AllocError>
    ensures ok { IfOk result (λ t. step ≢ pos 0 → (cs : List ℕ)
        × IsSliceOf (chars text.now) start end step cs × (string_bytes t ≡ encode_utf8_all cs)) }
    ensures succeeds { step ≢ pos 0 → IsSliceOf (chars text.now) start end step [] → IsOk result }
{
    let stride = Stride::new(
        length_to_reckon_with(text, start, end, step),
        start,
        end,
        step,
    );
    sliced(alloc, text, step < 0, stride)
}
