//! Where a slice goes: its bounds and its step as places in the direction of the step.
ghost use Rattle.std.specs.Prelude.{◌≡◌, ◌<◌, ◌≤◌, ◌-◌, ◌^◌, suc, min, ◌||◌};
ghost use Rattle.std.specs.Int.{div_ceil};
ghost use Rattle.tera_meaning.specs.SliceRule.{start_place, end_place, place_of_bound};
ghost use Rattle.tera_meaning.specs.Slice.{pause, place_behind};
ghost use Rattle.tera_scalars.specs.inner.Positions.{counts_from_afar};

/// A walk over items in the direction of a step: each `by`-th of them, from one up to another, both
/// counted from where the step begins.
#[derive(Clone, Copy, Debug)]
pub struct Stride {
    pub from: usize,
    pub until: usize,
    pub by: usize,
}

impl Stride {
    /// The walk that takes the slice of so many items between two bounds. A bound below 0 counts
    /// from the end, and one past an end is clamped to it. A step of 0 goes as one of 1 does. Takes
    /// no memory.
    pub fn new(length: usize, start: Option<i128>, end: Option<i128>, step: i128) -> Stride
        ensures from { place_behind step length result.from ≡ start_place step length start }
        ensures until { place_behind step length result.until ≡ end_place step length end }
        ensures by { result.by ≡ min (suc (pause step)) (2 ^ 64 - 1) }
        ensures from_within { result.from ≤ length }
        ensures until_within { result.until ≤ length }
    {
        Stride {
            from: match start {
                Some(bound) => distance(length, bound, step),
                None => 0,
            },
            until: match end {
                Some(bound) => distance(length, bound, step),
                None => length,
            },
            by: pace(step),
        }
    }

    /// How many items it takes: of a `by` of 0 none. Takes no memory.
    pub fn count(self) -> usize
        ensures some { 0 < self.by → result ≡ div_ceil (self.until - self.from) self.by }
        ensures none { self.by ≡ 0 → result ≡ 0 }
    {
        if self.by == 0 {
            return 0;
        }
        self.until.saturating_sub(self.from).div_ceil(self.by)
    }
}

/// Whether some bound counts from the other end than the one at which the step begins, so that how
/// many items there are is to be known. Takes no memory.
pub(crate) fn needs_count(start: Option<i128>, end: Option<i128>, step: i128) -> bool
    ensures { result ≡ (counts_from_afar step start || counts_from_afar step end) }
{
    is_afar(start, step) || is_afar(end, step)
}

// Whether the bound counts from the other end than the one at which the step begins.
fn is_afar(bound: Option<i128>, step: i128) -> bool
    ensures { result ≡ counts_from_afar step bound }
{
    match bound {
        Some(bound) => (bound < 0) != (step < 0),
        None => false,
    }
}

// How many items stand before the place of a bound in the direction of the step.
fn distance(length: usize, bound: i128, step: i128) -> usize
    ensures place { place_behind step length result ≡ place_of_bound step length bound }
    ensures within { result ≤ length }
{
    let toward = if step < 0 { -1 - bound } else { bound };
    if toward < 0 {
        length - at_most(length, toward.unsigned_abs())
    } else {
        at_most(length, toward as u128)
    }
}

// The lesser of a length and a count.
fn at_most(length: usize, count: u128) -> usize
    ensures { result ≡ min length count }
{
    if count < length as u128 {
        count as usize
    } else {
        length
    }
}

// How far the step goes, where it goes as far as a machine integer says.
fn pace(step: i128) -> usize
    ensures { result ≡ min (suc (pause step)) (2 ^ 64 - 1) }
{
    let size = step.unsigned_abs();
    if size == 0 {
        return 1;
    }
    at_most(usize::MAX, size)
}
