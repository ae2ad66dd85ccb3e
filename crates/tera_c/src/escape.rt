//! A text put escaped into a room of its length, by 16 bytes at a time.
ghost use Rattle.std.specs.Prelude.{◌≡◌, ◌+◌, ◌<◌, ◌≤◌, length};
ghost use Rattle.std.specs.List.{position_or_len};
ghost use Rattle.tera_report.specs.Escaping.{escaped, is_special, spelling, token_of};
ghost use Rattle.tera_c.specs.inner.Escaping.{IsEscapedTo, IsPut};

use crate::measure::byte_len;
use std::simd::prelude::*;

/// Puts a text escaped into a room that is just as long as that. Of another room nothing is said.
pub(crate) fn escape_into(text: &str, room: &mut [u8])
    ensures { length room.old ≡ length (escaped text.now) → room.new ≡ escaped text.now }
{
    let bytes = text.as_bytes();
    let mut at = 0;
    let mut filled = 0;
    // an entity has at most six bytes
    while bytes.len() - at >= 16 && room.len() - filled >= 22 {
        let (next, end) = put_block(bytes, at, room, filled);
        at = next;
        filled = end;
    }
    put_rest(bytes, at, room, filled);
}

// Puts a special byte alone, or the ordinary bytes that a block begins with and the special one
// behind them.
#[inline(always)]
fn put_block(bytes: &[u8], at: usize, room: &mut [u8], filled: usize) -> (usize, usize)
    requires block { at + 16 ≤ length bytes.now }
    requires room { filled + 22 ≤ length room.old }
    requires before { IsEscapedTo bytes.now at room.old filled }
    ensures put { IsEscapedTo bytes.now result.0 room.new result.1 }
    ensures more { at < result.0 }
    ensures size { length room.new ≡ length room.old }
{
    let first = bytes[at];
    if byte_len(first) > 1 {
        let behind = put_byte(first, room, filled);
        return (at + 1, behind);
    }
    let run = put_ordinary(bytes, at, room, filled);
    if run == 16 {
        return (at + 16, filled + 16);
    }
    let end = put_byte(bytes[at + run], room, filled + run);
    (at + run + 1, end)
}

// Stores a block whole, of which the ordinary bytes that it begins with count.
#[inline(always)]
fn put_ordinary(bytes: &[u8], at: usize, room: &mut [u8], filled: usize) -> usize
    requires block { at + 16 ≤ length bytes.now }
    requires room { filled + 16 ≤ length room.old }
    requires before { IsEscapedTo bytes.now at room.old filled }
    ensures put { IsEscapedTo bytes.now (at + result) room.new (filled + result) }
    ensures within { result ≤ 16 }
    ensures size { length room.new ≡ length room.old }
{
    let block = u8x16::from_slice(&bytes[at..]);
    block.copy_to_slice(&mut room[filled..]);
    ordinary_lanes(block)
}

// How many ordinary bytes the block begins with.
#[inline(always)]
fn ordinary_lanes(block: u8x16) -> usize
    ensures { result ≡ position_or_len is_special block }
{
    let specials = (block.simd_eq(u8x16::splat(b'&'))
        | block.simd_eq(u8x16::splat(b'<'))
        | block.simd_eq(u8x16::splat(b'>'))
        | block.simd_eq(u8x16::splat(b'"'))
        | block.simd_eq(u8x16::splat(b'\''))).to_bitmask();
    if specials == 0 {
        return 16;
    }
    specials.trailing_zeros() as usize
}

// Puts the last bytes, one after another.
fn put_rest(bytes: &[u8], at: usize, room: &mut [u8], filled: usize)
    requires { IsEscapedTo bytes.now at room.old filled }
    ensures { length room.old ≡ length (escaped bytes.now) → room.new ≡ escaped bytes.now }
{
    let mut full = filled;
    for end in at..bytes.len() {
        let byte = bytes[end];
        if room.len() - full < byte_len(byte) {
            return;
        }
        full = put_byte(byte, room, full);
    }
}

// Puts what stands for a byte.
#[inline(always)]
fn put_byte(byte: u8, room: &mut [u8], filled: usize) -> usize
    requires { filled + length (spelling (token_of byte)) ≤ length room.old }
    ensures { IsPut (spelling (token_of byte)) room.old filled room.new result }
{
    match byte {
        b'&' => put(b"&amp;", room, filled),
        b'<' => put(b"&lt;", room, filled),
        b'>' => put(b"&gt;", room, filled),
        b'"' => put(b"&quot;", room, filled),
        b'\'' => put(b"&#39;", room, filled),
        _ => put(&[byte], room, filled),
    }
}

// Puts bytes behind what is filled, and tells how much is filled then.
#[inline(always)]
fn put(bytes: &[u8], room: &mut [u8], filled: usize) -> usize
    requires { filled + length bytes.now ≤ length room.old }
    ensures { IsPut bytes.now room.old filled room.new result }
{
    let end = filled + bytes.len();
    room[filled..end].copy_from_slice(bytes);
    end
}
