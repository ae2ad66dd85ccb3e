//! The bounds of a slice.
ghost use Rattle.std.specs.Prelude.{◌≡◌};
ghost use Rattle.std.specs.Option.{option_map};
ghost use Rattle.tera_script.specs.Readers.{bound_in, bound_at, bounds_at, small_in, with_rest};

use crate::number::{signed, take_digits};
use crate::word::{past_gap, split_word};

/// Where a slice starts and ends, and its step, as far as they are given.
#[derive(Clone, Copy)]
pub(crate) struct Bounds {
    pub(crate) start: Option<i128>,
    pub(crate) end: Option<i128>,
    pub(crate) step: Option<i128>,
}

/// Three bounds behind one another, and the bytes behind them. Takes no memory.
#[tactic(auto, unfolding(crate::specs::Readers::bounds_at))]
pub(crate) fn take_bounds(bytes: &[u8]) -> Option<(Bounds, &[u8])>
    ensures { option_map with_rest result ≡ bounds_at bytes.now }
{
    let (start, behind) = take_bound(bytes)?;
    let (end, behind) = take_bound(behind)?;
    let (step, rest) = take_bound(behind)?;
    Some((Bounds { start, end, step }, rest))
}

/// The bound behind a gap, and the bytes behind it. Takes no memory.
#[tactic(auto, unfolding(crate::specs::Readers::bound_at))]
pub(crate) fn take_bound(bytes: &[u8]) -> Option<(Option<i128>, &[u8])>
    ensures { option_map with_rest result ≡ bound_at bytes.now }
{
    let (word, rest) = split_word(past_gap(bytes)?);
    let bound = bound_in(word)?;
    Some((bound, rest))
}

// The bound that a word spells.
#[tactic(auto, unfolding(crate::specs::Readers::bound_in))]
fn bound_in(word: &[u8]) -> Option<Option<i128>>
    ensures { result ≡ bound_in word.now }
{
    match word {
        [] => None,
        [b'_'] => Some(None),
        [b'-', digits @ ..] => Some(Some(small_in(true, digits)?)),
        _ => Some(Some(small_in(false, word)?)),
    }
}

// The number that a sign and digits spell, if nothing else stands there.
#[tactic(auto, unfolding(crate::specs::Readers::small_in))]
fn small_in(minus: bool, bytes: &[u8]) -> Option<i128>
    ensures { result ≡ small_in minus bytes.now }
{
    let (magnitude, rest) = take_digits(bytes)?;
    if rest.is_empty() {
        signed(minus, magnitude)
    } else {
        None
    }
}
