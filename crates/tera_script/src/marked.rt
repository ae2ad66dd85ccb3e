//! Where the literal of a text goes on as the text does, and where it does not.
ghost use Rattle.std.specs.Prelude.{◌≡◌, ◌<◌, ◌≤◌, ◌+◌, ◌++◌, length, flat_map, IfSome, IfNone};
ghost use Rattle.std.specs.List.{position_or_len};
ghost use Rattle.std.specs.Simd.Lanes.{chunk};
ghost use Rattle.tera_script.specs.Text.{spelling};
ghost use Rattle.tera_script.specs.Written.{inside, tokens_of};
ghost use Rattle.tera_script.specs.inner.Marked.{greatest, is_marked, IsPlainLen};

use std::simd::prelude::*;

/// The text before the first character that does not stand for itself, that character, and the text
/// after it.
pub(crate) fn split_marked(text: &str, ascii: bool) -> Option<(&str, char, &str)>
    ensures cut { IfSome result (λ cut. cut.0.now
        ++ (flat_map spelling (tokens_of ascii cut.1) ++ inside ascii cut.2.now)
        ≡ inside ascii text.now) }
    ensures shorter { IfSome result (λ cut. length cut.2.now < length text.now) }
    ensures plain { IfNone result (text.now ≡ inside ascii text.now) }
{
    let (run, rest) = text.split_at(plain_len(text.as_bytes(), greatest(ascii)));
    let mut chars = rest.chars();
    let c = chars.next()?;
    Some((run, c, chars.as_str()))
}

/// The greatest byte that may stand for itself.
pub(crate) fn greatest(ascii: bool) -> u8
    ensures { result ≡ greatest ascii }
{
    if ascii { 126 } else { 255 }
}

/// How many bytes stand before the first marked one. Two looks that overlap cover few bytes.
#[inline(always)]
pub(crate) fn plain_len(bytes: &[u8], most: u8) -> usize
    ensures { IsPlainLen most bytes.now result }
{
    let len = bytes.len();
    if len >= 16 {
        long_plain_len(bytes, most)
    } else if len >= 8 {
        plain_len_8(bytes, most)
    } else if len >= 4 {
        plain_len_4(bytes, most)
    } else {
        short_plain_len(bytes, most)
    }
}

// The same of at least 16 bytes. The last look overlaps the one before.
fn long_plain_len(bytes: &[u8], most: u8) -> usize
    requires { 16 ≤ length bytes.now }
    ensures { IsPlainLen most bytes.now result }
{
    let mut at = 0;
    while bytes.len() - at > 16 {
        let run = run_16(bytes, at, most);
        if run < 16 {
            return at + run;
        }
        at += 16;
    }
    let last = bytes.len() - 16;
    last + run_16(bytes, last, most)
}

// The same of 8 to 16 bytes.
fn plain_len_8(bytes: &[u8], most: u8) -> usize
    requires least { 8 ≤ length bytes.now }
    requires most { length bytes.now ≤ 16 }
    ensures { IsPlainLen most bytes.now result }
{
    let run = run_8(bytes, 0, most);
    if run < 8 {
        return run;
    }
    let last = bytes.len() - 8;
    last + run_8(bytes, last, most)
}

// The same of 4 to 8 bytes.
fn plain_len_4(bytes: &[u8], most: u8) -> usize
    requires least { 4 ≤ length bytes.now }
    requires most { length bytes.now ≤ 8 }
    ensures { IsPlainLen most bytes.now result }
{
    let run = run_4(bytes, 0, most);
    if run < 4 {
        return run;
    }
    let last = bytes.len() - 4;
    last + run_4(bytes, last, most)
}

// The same, byte by byte.
fn short_plain_len(bytes: &[u8], most: u8) -> usize
    ensures { IsPlainLen most bytes.now result }
{
    for at in 0..bytes.len() {
        if is_marked(bytes[at], most) {
            return at;
        }
    }
    bytes.len()
}

fn is_marked(byte: u8, most: u8) -> bool
    ensures { result ≡ is_marked most byte }
{
    byte < b' ' || byte == b'"' || byte == b'\\' || byte == 127 || most < byte
}

// How many of 16 bytes stand before the first marked one.
#[inline(always)]
fn run_16(bytes: &[u8], at: usize, most: u8) -> usize
    requires { at + 16 ≤ length bytes.now }
    ensures counted { result ≡ position_or_len (is_marked most) (chunk at 16 bytes.now) }
    ensures within { result ≤ 16 }
{
    let block = u8x16::from_slice(&bytes[at..]);
    let marked = (block.simd_lt(u8x16::splat(b' '))
        | block.simd_eq(u8x16::splat(b'"'))
        | block.simd_eq(u8x16::splat(b'\\'))
        | block.simd_eq(u8x16::splat(127))
        | block.simd_gt(u8x16::splat(most))).to_bitmask();
    if marked == 0 {
        return 16;
    }
    marked.trailing_zeros() as usize
}

// How many of 8.
#[inline(always)]
fn run_8(bytes: &[u8], at: usize, most: u8) -> usize
    requires { at + 8 ≤ length bytes.now }
    ensures counted { result ≡ position_or_len (is_marked most) (chunk at 8 bytes.now) }
    ensures within { result ≤ 8 }
{
    let block = u8x8::from_slice(&bytes[at..]);
    let marked = (block.simd_lt(u8x8::splat(b' '))
        | block.simd_eq(u8x8::splat(b'"'))
        | block.simd_eq(u8x8::splat(b'\\'))
        | block.simd_eq(u8x8::splat(127))
        | block.simd_gt(u8x8::splat(most))).to_bitmask();
    if marked == 0 {
        return 8;
    }
    marked.trailing_zeros() as usize
}

// How many of 4.
#[inline(always)]
fn run_4(bytes: &[u8], at: usize, most: u8) -> usize
    requires { at + 4 ≤ length bytes.now }
    ensures counted { result ≡ position_or_len (is_marked most) (chunk at 4 bytes.now) }
    ensures within { result ≤ 4 }
{
    let block = u8x4::from_slice(&bytes[at..]);
    let marked = (block.simd_lt(u8x4::splat(b' '))
        | block.simd_eq(u8x4::splat(b'"'))
        | block.simd_eq(u8x4::splat(b'\\'))
        | block.simd_eq(u8x4::splat(127))
        | block.simd_gt(u8x4::splat(most))).to_bitmask();
    if marked == 0 {
        return 4;
    }
    marked.trailing_zeros() as usize
}
