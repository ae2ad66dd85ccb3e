//! Texts in debug form: one between double quotes, and a list of them between brackets.
ghost use Rattle.std.specs.Prelude.{◌≡◌, ◌<◌, ◌≤◌, true, false, ℕ, List, [], length, slice_index};
ghost use Rattle.std.specs.Prelude.{IfSome, IfNone, IsTrue, map, string_bytes, ◌+◌, ◌∷◌};
ghost use Rattle.std.specs.Bool.{OnTrue};
ghost use Rattle.std.specs.Fmt.{debug_list, debug_str};
ghost use Rattle.tera_report.specs.Quoted.{Quotes, QuotesList, QuotesItems, Escapes, IsText};
ghost use Rattle.tera_report.specs.Quoted.{is_ascii_text, escapes, quoted, closes};
ghost use Rattle.tera_report.specs.inner.Quoted.{EscapesMarked, Cuts, SkipsPlain};
ghost use Rattle.tera_report.specs.inner.Quoted.{PlainBetween, is_marked};
ghost use Rattle.tera_report.specs.Sink.{Puts};

use crate::sink::Sink;
use std::simd::prelude::*;

/// Puts the text in debug form: between double quotes, with escapes for quotes, backslashes and
/// control characters. Each character past ASCII stands for itself or for its code, as the library
/// chooses. Answers an error only where the sink refused a piece. Takes no memory of its own.
pub fn put_quoted<S: Sink>(text: &str, out: &mut S) -> Result<(), S::Fault>
    ensures { Puts S.takes S.fails result (Quotes text.now) out.old out.new }
{
    out.put("\"")?;
    put_escaped(text, out)?;
    out.put("\"")
}

/// Puts the texts in debug form, between brackets and joined by commas. Answers an error only where
/// the sink refused a piece. Takes no memory of its own.
pub fn put_quoted_list<S: Sink>(texts: &[String], out: &mut S) -> Result<(), S::Fault>
    ensures { Puts S.takes S.fails result
        (QuotesList (map string_bytes texts.now)) out.old out.new }
{
    out.put("[")?;
    put_quoted_items(texts, out)?;
    out.put("]")
}

/// An ASCII text has one quoting, and a list of such texts one too.
pub fn one_quoting()
    ensures text { (text bytes : List ℕ) → IsTrue (is_ascii_text text) → Quotes text bytes
        → bytes ≡ quoted text }
    ensures list { (texts : List (List ℕ)) (bytes : List ℕ) → QuotesList texts bytes
        → IsText (debug_list debug_str texts) bytes }
{}

/// Each text has a quoting, whatever its bytes are, and each list of texts has one.
pub fn some_quoting()
    ensures text { (text : List ℕ) → Quotes text (quoted text) }
    ensures list { (texts : List (List ℕ)) → (bytes : List ℕ) × QuotesList texts bytes }
{}

/// A quoted text ends at the first quote behind its opening one that no backslash escapes, and
/// holds no control character.
pub fn quotes_close()
    ensures { (text bytes : List ℕ) → Quotes text bytes
        → (rest : List ℕ) × (bytes ≡ 34 ∷ rest) × IsTrue (closes false rest) }
{}

/// Bytes that quote stand for one text only.
pub fn one_original()
    ensures { (text other bytes : List ℕ) → Quotes text bytes → Quotes other bytes → text ≡ other }
{}

// Puts the texts in debug form, joined by commas.
fn put_quoted_items<S: Sink>(texts: &[String], out: &mut S) -> Result<(), S::Fault>
    ensures { Puts S.takes S.fails result
        (QuotesItems [] (map string_bytes texts.now)) out.old out.new }
{
    let mut lead = "";
    for text in texts {
        out.put(lead)?;
        put_quoted(text.as_str(), out)?;
        lead = ", ";
    }
    Ok(())
}

// What stands between the quotes. A text with no marked byte stands for itself, which most do.
fn put_escaped<S: Sink>(text: &str, out: &mut S) -> Result<(), S::Fault>
    ensures { Puts S.takes S.fails result (Escapes text.now) out.old out.new }
{
    if is_plain(text.as_bytes()) {
        return out.put(text);
    }
    put_runs(text, out)
}

// Puts what stands between the quotes, run by run: characters that stand for themselves are put in
// one piece.
fn put_runs<S: Sink>(text: &str, out: &mut S) -> Result<(), S::Fault>
    ensures { Puts S.takes S.fails result (Escapes text.now) out.old out.new }
{
    let mut rest = text;
    'runs: while let Some((run, marked, after)) = split_marked(rest) {
        out.put(run)?;
        put_marked(marked, out)?;
        rest = after;
    }
    out.put(rest)
}

// What stands for one marked character.
fn put_marked<S: Sink>(c: char, out: &mut S) -> Result<(), S::Fault>
    ensures { Puts S.takes S.fails result (EscapesMarked c) out.old out.new }
{
    let mut buffer = [0; 4];
    let mut escape = c.escape_debug();
    'parts: while let Some(part) = escape.next() {
        out.put(part.encode_utf8(&mut buffer))?;
    }
    Ok(())
}

// The text before the first marked character, that character, and the text after it. A character
// past ASCII is marked where the library has an escape for it.
fn split_marked(text: &str) -> Option<(&str, char, &str)>
    ensures cut { IfSome result (λ cut. Cuts text.now cut.0.now cut.1 cut.2.now) }
    ensures shorter { IfSome result (λ cut. length cut.2.now < length text.now) }
    ensures plain { IfNone result (escapes text.now ≡ text.now) }
{
    let mut rest = text;
    'bare: loop {
        let after = skip_plain(rest);
        let mut chars = after.chars();
        let c = chars.next()?;
        if c < '\u{80}' || c.escape_debug().next() != Some(c) {
            return Some((&text[..text.len() - after.len()], c, chars.as_str()));
        }
        rest = chars.as_str();
    }
}

// The text after the bytes that are not marked.
fn skip_plain(text: &str) -> &str
    ensures { SkipsPlain text.now result.now }
{
    let at = plain_len(text.as_bytes());
    &text[at..]
}

// How many plain bytes stand before the first marked one.
fn plain_len(bytes: &[u8]) -> usize
    ensures within { result ≤ length bytes.now }
    ensures plain { (k : ℕ) → k < result → is_marked (slice_index bytes.now k) ≡ false }
    ensures stops { result < length bytes.now → is_marked (slice_index bytes.now result) ≡ true }
{
    for at in 0..bytes.len() {
        if is_marked(bytes[at]) {
            return at;
        }
    }
    bytes.len()
}

fn is_marked(byte: u8) -> bool
    ensures { result ≡ is_marked byte }
{
    byte < b' ' || byte == b'"' || byte == b'\\' || 126 < byte
}

// Whether no byte is marked. Two looks that overlap cover a short text, and the last look at a
// long one overlaps the one before.
fn is_plain(bytes: &[u8]) -> bool
    ensures { OnTrue result (PlainBetween bytes.now 0 (length bytes.now)) }
{
    let len = bytes.len();
    if len >= 16 {
        is_plain_long(bytes)
    } else if len >= 8 {
        is_plain_8(bytes, 0) && is_plain_8(bytes, len - 8)
    } else if len >= 4 {
        is_plain_4(bytes, 0) && is_plain_4(bytes, len - 4)
    } else {
        plain_len(bytes) == len
    }
}

fn is_plain_long(bytes: &[u8]) -> bool
    requires { 16 ≤ length bytes.now }
    ensures { OnTrue result (PlainBetween bytes.now 0 (length bytes.now)) }
{
    let mut at = 0;
    while bytes.len() - at > 16 {
        if !is_plain_16(bytes, at) {
            return false;
        }
        at += 16;
    }
    is_plain_16(bytes, bytes.len() - 16)
}

#[inline(always)]
fn is_plain_16(bytes: &[u8], at: usize) -> bool
    requires { at + 16 ≤ length bytes.now }
    ensures { OnTrue result (PlainBetween bytes.now at (at + 16)) }
{
    let block = u8x16::from_slice(&bytes[at..]);
    (block.simd_lt(u8x16::splat(b' '))
        | block.simd_eq(u8x16::splat(b'"'))
        | block.simd_eq(u8x16::splat(b'\\'))
        | block.simd_gt(u8x16::splat(126))).to_bitmask()
        == 0
}

#[inline(always)]
fn is_plain_8(bytes: &[u8], at: usize) -> bool
    requires { at + 8 ≤ length bytes.now }
    ensures { OnTrue result (PlainBetween bytes.now at (at + 8)) }
{
    let block = u8x8::from_slice(&bytes[at..]);
    (block.simd_lt(u8x8::splat(b' '))
        | block.simd_eq(u8x8::splat(b'"'))
        | block.simd_eq(u8x8::splat(b'\\'))
        | block.simd_gt(u8x8::splat(126))).to_bitmask()
        == 0
}

#[inline(always)]
fn is_plain_4(bytes: &[u8], at: usize) -> bool
    requires { at + 4 ≤ length bytes.now }
    ensures { OnTrue result (PlainBetween bytes.now at (at + 4)) }
{
    let block = u8x4::from_slice(&bytes[at..]);
    (block.simd_lt(u8x4::splat(b' '))
        | block.simd_eq(u8x4::splat(b'"'))
        | block.simd_eq(u8x4::splat(b'\\'))
        | block.simd_gt(u8x4::splat(126))).to_bitmask()
        == 0
}
