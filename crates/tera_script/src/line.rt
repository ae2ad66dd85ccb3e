//! Whole lines.
ghost use Rattle.std.specs.Prelude.{◌≡◌, ◌⊎◌, IfOk, IsOk, IsUtf8};
ghost use Rattle.std.specs.Bool.{MatchBool};
ghost use Rattle.tera_script.specs.Line.{IsSkipped, IsBare, SaysLent};
ghost use Rattle.tera_script.specs.Readers.{is_end_or_comment};
ghost use Rattle.tera_script.specs.Said.{IsReadingOf};

use crate::command::read_command;
use crate::word::past_blanks;
use std::alloc::{AllocError, Global};
use std::str;
use tera_context::Command;
use tera_values::HashState;

/// What a line of a script says.
#[derive(Debug, Drop)]
pub enum Reading<'a> {
    /// Nothing: it is blanks alone, or a comment.
    Skipped,
    /// Nothing: it is not skipped, and no call.
    Bad,
    /// A command, whose names and texts the line lends.
    Says(Command<'a>),
}

/// What a line says. The line comes without its end of line. The maps of its literals, and the
/// context of `extend`, are hashed under the state.
///
/// Takes memory for what `set` and `extend` bring and for a text with an escape; the only refusal
/// is want of it. So a line takes none that is skipped or is no UTF-8, that has no quote, bracket
/// or brace, or that says another call by texts without an escape.
pub fn read_line<'a>(
    alloc: Global,
    state: HashState,
    line: &'a [u8],
) -> Result<Reading<'a>, AllocError>
    ensures reading { IfOk result (IsReadingOf line.now) }
    ensures free { IsSkipped line.now ⊎ ((¬ IsUtf8 line.now) ⊎ (IsBare line.now
        ⊎ SaysLent line.now)) → IsOk result }
{
    let bytes = past_blanks(line);
    if is_end_or_comment(bytes) {
        return Ok(Reading::Skipped);
    }
    if !is_utf8(line) {
        return Ok(Reading::Bad);
    }
    match read_command(alloc, state, bytes)? {
        Some(command) => Ok(Reading::Says(command)),
        None => Ok(Reading::Bad),
    }
}

/// Whether the bytes are UTF-8. Most lines are ASCII, which is told eight bytes at a time.
#[inline(always)]
#[tactic(auto, using(crate::proofs::Utf8::ascii_texts))]
pub(crate) fn is_utf8(bytes: &[u8]) -> bool
    ensures { MatchBool result (IsUtf8 bytes.now) (¬ IsUtf8 bytes.now) }
{
    bytes.is_ascii() || str::from_utf8(bytes).is_ok()
}

/// Whether there are no bytes, or the first begins a comment.
pub(crate) fn is_end_or_comment(bytes: &[u8]) -> bool
    ensures { result ≡ is_end_or_comment bytes.now }
{
    match bytes {
        [] => true,
        [first, ..] => *first == b'#',
    }
}
