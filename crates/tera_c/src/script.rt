//! A whole script.
ghost use Rattle.std.specs.Prelude.{◌⊎◌, ℕ, IfOk, List, string_bytes};
ghost use Rattle.tera_c.specs.Scripts.{Comes, FoundNoMemory, IsReplayed};

use crate::fallible_text::FallibleText;
use crate::status::{NO_MEMORY, SMALL};
use std::alloc::{AllocError, Global};
use tera_replies::{InputPieces, replay_from};
use tera_values::HashState;

/// What a script comes to.
#[derive(Drop)]
pub(crate) struct Replayed {
    answers: String,
    report: String,
    status: u8,
}

/// Replays a script into two rooms, and says how long what belongs there is.
pub(crate) fn replay_into(
    alloc: Global,
    state: HashState,
    script: &[u8],
    out: &mut [u8],
    out_len: &mut usize,
    err: &mut [u8],
    err_len: &mut usize,
) -> u8
    ensures { IsReplayed script.now out.old out.new err.old err.new out_len.new err_len.new
        result
        ⊎ FoundNoMemory out.old out.new err.old err.new out_len.new err_len.new result }
{
    *out_len = 0;
    *err_len = 0;
    match replay_text(alloc, state, script) {
        Ok(replayed) => put_into(&replayed, out, out_len, err, err_len),
        Err(_) => NO_MEMORY,
    }
}

// Puts what a script comes to into two rooms, where it fits, and says how long it is.
#[inline(always)]
fn put_into(
    replayed: &Replayed,
    out: &mut [u8],
    out_len: &mut usize,
    err: &mut [u8],
    err_len: &mut usize,
) -> u8
    ensures { (script : List ℕ)
        → Comes script (string_bytes replayed.now.answers) (string_bytes replayed.now.report)
        replayed.now.status
        → IsReplayed script out.old out.new err.old err.new out_len.new err_len.new result }
{
    let answers = replayed.answers.as_bytes();
    let report = replayed.report.as_bytes();
    *out_len = answers.len();
    *err_len = report.len();
    if out.len() < answers.len() || err.len() < report.len() {
        return SMALL;
    }
    out[..answers.len()].copy_from_slice(answers);
    err[..report.len()].copy_from_slice(report);
    replayed.status
}

// Replays a script into two texts; or memory for one of these was refused.
fn replay_text(alloc: Global, state: HashState, script: &[u8]) -> Result<Replayed, AllocError>
    ensures { IfOk result (λ replayed. Comes script.now (string_bytes replayed.answers)
        (string_bytes replayed.report) replayed.status) }
{
    let pieces = [script];
    let mut input = InputPieces::new(&pieces, false);
    let mut answers = FallibleText::new(alloc);
    let mut report = FallibleText::new(alloc);
    let status = replay_from(alloc, state, &mut input, &mut answers, &mut report);
    let answers = answers.whole()?;
    let report = report.whole()?;
    Ok(Replayed {
        answers,
        report,
        status,
    })
}
