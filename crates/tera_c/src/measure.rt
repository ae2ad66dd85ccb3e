//! How long a text is when it is escaped.
ghost use Rattle.std.specs.Prelude.{◌≡◌, ◌≤◌, ◌*◌, ◌^◌, length, MatchOption};
ghost use Rattle.tera_report.specs.Escaping.{escaped, spelling, token_of};

use std::simd::prelude::*;

/// How many bytes the text takes when it is escaped, where its own can be counted six times.
pub(crate) fn escaped_len_of(text: &str) -> Option<usize>
    ensures { MatchOption result (2 ^ 64 ≤ 6 * length text.now)
        (λ len. len ≡ length (escaped text.now)) }
{
    let bytes = text.as_bytes();
    if bytes.len() > usize::MAX / 6 {
        return None;
    }
    let mut len = 0;
    let mut at = 0;
    while bytes.len() - at >= 32 {
        len += block_len(u8x32::from_slice(&bytes[at..]));
        at += 32;
    }
    for end in at..bytes.len() {
        len += byte_len(bytes[end]);
    }
    Some(len)
}

// The same of a block: each byte takes one, and a special one more.
#[inline(always)]
fn block_len(block: u8x32) -> usize
    ensures { result ≡ length (escaped block) }
{
    let three_more = block.simd_eq(u8x32::splat(b'<')) | block.simd_eq(u8x32::splat(b'>'));
    let four_more = block.simd_eq(u8x32::splat(b'&')) | block.simd_eq(u8x32::splat(b'\''));
    let five_more = block.simd_eq(u8x32::splat(b'"'));
    32 + 3 * three_more.to_bitmask().count_ones() as usize
        + 4 * four_more.to_bitmask().count_ones() as usize
        + 5 * five_more.to_bitmask().count_ones() as usize
}

/// The same of a byte.
#[inline(always)]
pub(crate) fn byte_len(byte: u8) -> usize
    ensures { result ≡ length (spelling (token_of byte)) }
{
    match byte {
        b'<' | b'>' => 4,
        b'&' | b'\'' => 5,
        b'"' => 6,
        _ => 1,
    }
}
