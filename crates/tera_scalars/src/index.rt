//! Which part of several an index names.
ghost use Rattle.std.specs.Prelude.{◌≡◌, slice_get};
ghost use Rattle.std.specs.Str.{chars};
ghost use Rattle.tera_meaning.specs.Lookup.{place_of, part_at};
ghost use Rattle.tera_scalars.specs.inner.Ends.{chars_from};
ghost use Rattle.tera_scalars.specs.inner.Index.{index_value};
ghost use Rattle.tera_scalars.specs.Whole.{whole_value};

use crate::Whole;

/// How many parts stand before the one that is named, or behind it.
pub(crate) enum Index {
    FromFront(u128),
    FromBack(u128),
}

// The index that a number is.
fn as_index(number: Whole) -> Index
    ensures { index_value result ≡ whole_value number }
{
    match number {
        Whole::Unsigned(n) => Index::FromFront(n),
        Whole::Signed(z) => {
            if z < 0 {
                Index::FromBack((-1 - z) as u128)
            } else {
                Index::FromFront(z as u128)
            }
        }
    }
}

/// The place that an index names among so many parts, one below 0 being counted from the end;
/// nothing where it names none. Takes no memory.
pub fn place(number: Whole, count: usize) -> Option<usize>
    ensures { result ≡ place_of count (whole_value number) }
{
    match as_index(number) {
        Index::FromFront(n) if n < count as u128 => Some(n as usize),
        Index::FromBack(n) if n < count as u128 => Some(count - 1 - n as usize),
        Index::FromFront(_) | Index::FromBack(_) => None,
    }
}

/// The character of a text at an index, one below 0 being counted from the end; nothing where it
/// names none. Takes no memory.
pub fn character(text: &str, number: Whole) -> Option<char>
    ensures { result ≡ part_at (chars text.now) (whole_value number) }
{
    match as_index(number) {
        Index::FromFront(n) => character_from(text, false, n),
        Index::FromBack(n) => character_from(text, true, n),
    }
}

// The character behind so many from an end.
fn character_from(text: &str, backwards: bool, n: u128) -> Option<char>
    ensures { result ≡ slice_get (chars_from backwards text.now) n }
{
    if n >= text.len() as u128 {
        None
    } else if backwards {
        text.chars().nth_back(n as usize)
    } else {
        text.chars().nth(n as usize)
    }
}
