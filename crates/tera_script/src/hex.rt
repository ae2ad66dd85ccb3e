//! Byte strings by their hexadecimal digits.
ghost use Rattle.std.specs.Prelude.{◌≡◌, ◌<◌, ◌+◌, ◌*◌, ℕ, List, IfOk, SomeIff};
ghost use Rattle.std.specs.Char.{digit_value};
ghost use Rattle.std.specs.Option.{option_map};
ghost use Rattle.tera_script.specs.Readers.{hex_at, bytes_rest};

use std::alloc::{AllocError, Global};

/// The bytes that the digits behind an opening quote spell, and what stands behind the closing
/// quote. `None` where no such digits stand there. Takes memory for the bytes, and fails for want
/// of it alone.
#[tactic(auto, unfolding(crate::specs::Readers::hex_at))]
pub(crate) fn take_hex(alloc: Global, bytes: &[u8]) -> Result<Option<(Vec<u8>, &[u8])>, AllocError>
    ensures { IfOk result (λ answer. option_map bytes_rest answer ≡ hex_at bytes.now) }
{
    let mut taken = Vec::new(alloc);
    let mut rest = bytes;
    loop {
        let Some((high, behind)) = rest.split_first() else {
            return Ok(None);
        };
        if *high == b'"' {
            return Ok(Some((taken, behind)));
        }
        let Some((low, others)) = behind.split_first() else {
            return Ok(None);
        };
        let Some(byte) = byte_of(*high, *low) else {
            return Ok(None);
        };
        taken.push(byte)?;
        rest = others;
    }
}

/// The byte of two digits. `None` where one of them is none.
pub(crate) fn byte_of(high: u8, low: u8) -> Option<u8>
    ensures { SomeIff result ((digit_value high < 16) × (digit_value low < 16))
        (digit_value high * 16 + digit_value low) }
{
    let high = hex_digit(high)?;
    let low = hex_digit(low)?;
    Some(high * 16 + low)
}

// The number of a hexadecimal digit, of either case.
fn hex_digit(byte: u8) -> Option<u8>
    ensures { SomeIff result (digit_value byte < 16) (digit_value byte) }
{
    let digit = char::from(byte).to_digit(16)?;
    u8::try_from(digit).ok()
}
