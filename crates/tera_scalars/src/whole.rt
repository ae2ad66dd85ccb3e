//! Whole numbers of any kind, by their value alone, and how they are put.
ghost use Rattle.std.specs.Prelude.{◌≡◌, pos};
ghost use Rattle.std.specs.Ordering.{int_cmp};
ghost use Rattle.tera_report.specs.Sink.{PutsThese};
ghost use Rattle.tera_scalars.specs.Whole.{whole_value};

use itoa::{Buffer, Integer};
use std::cmp::Ordering;
use tera_report::sink::Sink;

/// A number that some kind of integer holds.
#[derive(Clone, Copy, Debug)]
pub enum Whole {
    Signed(i128),
    Unsigned(u128),
}

impl Whole {
    /// By number, whatever holds it. Takes no memory.
    pub fn order(self, other: Whole) -> Ordering
        ensures { result ≡ int_cmp (whole_value self) (whole_value other) }
    {
        match self {
            Whole::Signed(y) => match other {
                Whole::Signed(z) => y.cmp(&z),
                Whole::Unsigned(n) => signed_to_unsigned(y, n),
            },
            Whole::Unsigned(m) => match other {
                Whole::Signed(z) => signed_to_unsigned(z, m).reverse(),
                Whole::Unsigned(n) => m.cmp(&n),
            },
        }
    }
}

// The order of a signed number and an unsigned one.
fn signed_to_unsigned(z: i128, n: u128) -> Ordering
    ensures { result ≡ int_cmp z (pos n) }
{
    if z < 0 {
        Ordering::Less
    } else {
        (z as u128).cmp(&n)
    }
}

/// Puts an integer as the text of its type: of Rust's own in decimal, a minus where it is below 0
/// and its digits. Answers an error only where the sink refused it. Takes no memory.
pub fn put_integer<I: Integer, S: Sink>(n: I, out: &mut S) -> Result<(), S::Fault>
    ensures { PutsThese S.takes S.fails result (I.text n) out.old out.new }
{
    out.put(Buffer::new().format(n))
}
