//! A text cut into runs of ordinary bytes and special bytes, one of these at a time.
ghost use Rattle.std.specs.Prelude.{◌≡◌, ◌++◌, ◌<◌, ◌≤◌, true, false, [], length, IfNone};
ghost use Rattle.std.specs.Prelude.{IfSome, slice_index};
ghost use Rattle.std.specs.List.{position_or_len};
ghost use Rattle.tera_report.specs.Escaping.{is_special, escaped, spelling, token_of};
ghost use Rattle.tera_report.specs.inner.Pieces.{IsPlain, written};

use std::simd::prelude::*;

/// What a text begins with: ordinary bytes up to the first special one, or one special byte.
#[derive(Drop)]
pub(crate) enum Piece<'a> {
    Run(&'a str),
    Ampersand,
    LessThan,
    GreaterThan,
    DoubleQuote,
    SingleQuote,
}

/// The piece that the text begins with, and the text after it. None of an empty text.
#[inline(always)]
pub(crate) fn first_piece(text: &str) -> Option<(Piece<'_>, &str)>
    ensures cut { IfSome result (λ cut. escaped text.now ≡ written cut.0 ++ escaped cut.1.now) }
    ensures shorter { IfSome result (λ cut. length cut.1.now < length text.now) }
    ensures ended { IfNone result (text.now ≡ []) }
{
    let bytes = text.as_bytes();
    let first = *bytes.first()?;
    match special_piece(first) {
        Some(piece) => Some((piece, &text[1..])),
        None => {
            let (run, after) = text.split_at(ordinary_len(bytes));
            Some((Piece::Run(run), after))
        }
    }
}

// The piece of a special byte.
fn special_piece(byte: u8) -> Option<Piece<'static>>
    ensures special { IfSome result (λ _. is_special byte ≡ true) }
    ensures entity { IfSome result (λ piece. written piece ≡ spelling (token_of byte)) }
    ensures plain { IfNone result (is_special byte ≡ false) }
{
    match byte {
        b'&' => Some(Piece::Ampersand),
        b'<' => Some(Piece::LessThan),
        b'>' => Some(Piece::GreaterThan),
        b'"' => Some(Piece::DoubleQuote),
        b'\'' => Some(Piece::SingleQuote),
        _ => None,
    }
}

// How many ordinary bytes stand before the first special one.
fn ordinary_len(bytes: &[u8]) -> usize
    ensures within { result ≤ length bytes.now }
    ensures plain { IsPlain bytes.now 0 result }
    ensures stops { result < length bytes.now → is_special (slice_index bytes.now result) ≡ true }
{
    let mut at = 0;
    while bytes.len() - at >= 32 {
        let run = ordinary_lanes(u8x32::from_slice(&bytes[at..]));
        at += run;
        if run < 32 {
            return at;
        }
    }
    for end in at..bytes.len() {
        if is_special(bytes[end]) {
            return end;
        }
    }
    bytes.len()
}

// How many ordinary bytes the block begins with.
#[inline(always)]
fn ordinary_lanes(block: u8x32) -> usize
    ensures within { result ≤ 32 }
    ensures counted { result ≡ position_or_len is_special block }
{
    let specials = (block.simd_eq(u8x32::splat(b'&'))
        | block.simd_eq(u8x32::splat(b'<'))
        | block.simd_eq(u8x32::splat(b'>'))
        | block.simd_eq(u8x32::splat(b'"'))
        | block.simd_eq(u8x32::splat(b'\''))).to_bitmask();
    if specials == 0 {
        return 32;
    }
    specials.trailing_zeros() as usize
}

fn is_special(byte: u8) -> bool
    ensures { result ≡ is_special byte }
{
    byte == b'&' || byte == b'<' || byte == b'>' || byte == b'"' || byte == b'\''
}
