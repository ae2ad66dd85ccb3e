//! From a text to HTML: five bytes become entities, every other byte stays.
ghost use Rattle.std.specs.Prelude.{◌≡◌, ℕ, List, [], IsOk, IfOk, IfErr, OnOk, OnErr, string_bytes};
ghost use Rattle.tera_report.specs.Errors.{IsOutOfMemory};
ghost use Rattle.tera_report.specs.Escaping.{Spells, escaped, WritesEscaped, PassesEscaped};
ghost use Rattle.tera_report.specs.Escaping.{BreaksEscaped};
ghost use Rattle.tera_report.specs.inner.Pieces.{written};
ghost use Rattle.tera_report.specs.Room.{RoomTakes, RoomFails, IsDecided};
ghost use Rattle.tera_report.specs.Sink.{Puts, PutsThese};
ghost use Rattle.tera_report.specs.Watch.{WatchedTakes, WatchedFails};

use crate::errors::TeraResult;
use crate::growing::Growing;
use crate::pieces::{Piece, first_piece};
use crate::room::{Full, Room};
use crate::sink::Sink;
use crate::watch::Watched;
use crate::writer::Writer;
use std::alloc::Global;
use std::io;

/// Writes the text with `&`, `<`, `>`, `"` and `'` as `&amp;`, `&lt;`, `&gt;`, `&quot;` and
/// `&#39;`, and does not flush. A write that is interrupted is tried again. Answers an error only
/// where a write of the writer, during the call, answered one or took no byte; then a beginning may
/// be written, and not all. Takes no memory. Mirrors `tera::escape_html`.
pub fn escape_html<W: Writer>(text: &str, writer: &mut W) -> io::Result<()>
    ensures written { OnOk result
        (WritesEscaped (W.contents writer.old) (W.contents writer.new) text.now) }
    ensures passed { OnOk result (PassesEscaped W.wrote writer.old writer.new text.now) }
    ensures told { OnErr result (BreaksEscaped W.wrote writer.old writer.new text.now) }
{
    let mut watched = Watched::new(writer);
    escape_watched(text, &mut watched)
}

/// Writes the text escaped, as `escape_html` does, to a writer that is watched. Answers an error
/// only where `escape_html` would. Takes no memory.
pub fn escape_watched<W: Writer>(text: &str, writer: &mut Watched<'_, W>) -> io::Result<()>
    ensures { Puts (WatchedTakes W.contents W.wrote) (WatchedFails W.contents W.wrote) result
        (λ bytes. Spells bytes text.now) writer.old writer.new }
{
    escape_to(text, writer)
}

/// The text that `escape_html` writes. The only refusal is want of memory for it, `Out of
/// memory`; an empty text takes none.
pub fn escape_text(alloc: Global, text: &str) -> TeraResult<String>
    ensures ok { IfOk result (λ made. Spells (string_bytes made) text.now) }
    ensures err { IfErr result IsOutOfMemory }
    ensures free { text.now ≡ [] → IsOk result }
{
    let mut made = Growing::with_capacity(alloc, text.len())?;
    escape_to(text, &mut made)?;
    Ok(made.into_text())
}

/// Puts what `escape_html` writes into a room, where it fits. Else the room holds a beginning of
/// it besides what it held. Takes no memory.
pub fn escape_into_room(text: &str, room: &mut Room) -> Result<(), Full>
    ensures puts { Puts RoomTakes RoomFails result
        (λ bytes. Spells bytes text.now) room.old room.new }
    ensures decided { (bytes : List ℕ) → Spells bytes text.now
        → IsDecided result room.old bytes room.new }
{
    escape_to(text, room)
}

/// Puts what `escape_html` writes, piece by piece. Answers an error only where the sink refused a
/// piece. Takes no memory of its own.
pub fn escape_to<S: Sink>(text: &str, out: &mut S) -> Result<(), S::Fault>
    ensures { Puts S.takes S.fails result (λ bytes. Spells bytes text.now) out.old out.new }
{
    let mut rest = text;
    while let Some((piece, after)) = first_piece(rest) {
        put_piece(&piece, out)?;
        rest = after;
    }
    Ok(())
}

/// Each text has exactly one spelling: each of its five special bytes as an entity, and every other
/// byte as it is.
pub fn one_spelling()
    ensures spelled { (text : List ℕ) → Spells (escaped text) text }
    ensures word { (bytes text : List ℕ) → Spells bytes text → bytes ≡ escaped text }
    ensures unique { (v w text : List ℕ) → Spells v text → Spells w text → v ≡ w }
{}

/// Bytes that spell stand for one text only.
pub fn one_decoding()
    ensures { (bytes s t : List ℕ) → Spells bytes s → Spells bytes t → s ≡ t }
{}

// Puts what is written for the piece. Each entity has a call of its own, so that it is a constant
// where it is copied.
#[inline(always)]
fn put_piece<S: Sink>(piece: &Piece<'_>, out: &mut S) -> Result<(), S::Fault>
    ensures { PutsThese S.takes S.fails result (written piece.now) out.old out.new }
{
    match piece {
        Piece::Run(run) => out.put(run),
        Piece::Ampersand => out.put("&amp;"),
        Piece::LessThan => out.put("&lt;"),
        Piece::GreaterThan => out.put("&gt;"),
        Piece::DoubleQuote => out.put("&quot;"),
        Piece::SingleQuote => out.put("&#39;"),
    }
}
