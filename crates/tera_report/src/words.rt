//! Text put in several pieces, how many characters it has, and a text of one's own.
ghost use Rattle.std.specs.Prelude.{◌≡◌, [], length, IfOk, IsOk, string_bytes};
ghost use Rattle.std.specs.List.{flat_map};
ghost use Rattle.std.specs.Str.{chars};
ghost use Rattle.tera_report.specs.Sink.{PutsThese};

use crate::sink::Sink;
use std::alloc::{AllocError, Global};

/// Puts the pieces, one after another. Answers an error only where the sink refused one. Takes no
/// memory of its own.
pub fn put_all<S: Sink>(pieces: &[&str], out: &mut S) -> Result<(), S::Fault>
    ensures { PutsThese S.takes S.fails result (flat_map (λ piece. piece.now) pieces.now)
        out.old out.new }
{
    for at in 0..pieces.len() {
        out.put(pieces[at])?;
    }
    Ok(())
}

/// How many characters a text has. Takes no memory.
#[tactic(auto, using(crate::proofs::ReportLemmas::same_count))]
pub fn characters(text: &str) -> usize
    ensures { result ≡ length (chars text.now) }
{
    if text.is_ascii() {
        text.len()
    } else {
        text.chars().count()
    }
}

/// A text of its own. The empty one takes no memory.
pub(crate) fn text_of(alloc: Global, text: &str) -> Result<String, AllocError>
    ensures ok { IfOk result (λ made. string_bytes made ≡ text.now) }
    ensures succeeds { text.now ≡ [] → IsOk result }
{
    if text.is_empty() {
        return Ok(String::new(alloc));
    }
    String::from_str(alloc, text)
}
