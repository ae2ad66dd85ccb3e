//! Bytes as text, with U+FFFD for what is no character.
ghost use Rattle.std.specs.Prelude.{◌≡◌};
ghost use Rattle.std.specs.Str.Lossy.{utf8_lossy};
ghost use Rattle.tera_report.specs.Sink.{PutsThese};
ghost use Rattle.tera_scalars.specs.inner.Lossy.{stand_in};

use bstr::ByteSlice;
use tera_report::sink::Sink;

/// Puts the bytes as UTF-8 text. One U+FFFD stands for each longest piece that begins a character's
/// bytes and is not whole, and for each byte that begins none. Answers an error only where the sink
/// refused a piece. Takes no memory of its own.
pub fn put_lossy<S: Sink>(bytes: &[u8], out: &mut S) -> Result<(), S::Fault>
    ensures { PutsThese S.takes S.fails result (utf8_lossy bytes.now) out.old out.new }
{
    let mut chunks = ByteSlice::utf8_chunks(&bytes);
    'chunks: while let Some(chunk) = chunks.next() {
        out.put(chunk.valid())?;
        out.put(stand_in(chunk.invalid()))?;
    }
    Ok(())
}

// What stands for a piece that is no character: nothing where no byte is in it.
fn stand_in(piece: &[u8]) -> &'static str
    ensures { result.now ≡ stand_in piece.now }
{
    if piece.is_empty() { "" } else { "\u{FFFD}" }
}
