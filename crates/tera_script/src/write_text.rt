//! Texts as literals, put into any sink.
ghost use Rattle.std.specs.Prelude.{◌≡◌, false, flat_map};
ghost use Rattle.std.specs.Fmt.{digits};
ghost use Rattle.tera_report.specs.Sink.{PutsThese};
ghost use Rattle.tera_script.specs.Text.{spelling, character};
ghost use Rattle.tera_script.specs.Written.{inside, quoted_literal, text_literal, tokens_of};
ghost use Rattle.tera_script.specs.Written.{is_numbered};

use crate::marked::{greatest, plain_len, split_marked};
use tera_report::sink::Sink;

/// Puts a text between quotes, behind an s where it is marked safe.
pub(crate) fn put_marked<S: Sink>(
    text: &str,
    safe: bool,
    ascii: bool,
    out: &mut S,
) -> Result<(), S::Fault>
    ensures { PutsThese S.takes S.fails result
        (text_literal ascii (record { spelled = text.now; safe = safe })) out.old out.new }
{
    if safe {
        out.put("s")?;
    }
    put_text(text, ascii, out)
}

/// Puts a text between quotes.
pub(crate) fn put_text<S: Sink>(text: &str, ascii: bool, out: &mut S) -> Result<(), S::Fault>
    ensures { PutsThese S.takes S.fails result (quoted_literal ascii text.now) out.old out.new }
{
    out.put("\"")?;
    put_inside(text, ascii, out)?;
    out.put("\"")
}

// Puts what stands between the quotes. Most texts stand for themselves.
fn put_inside<S: Sink>(text: &str, ascii: bool, out: &mut S) -> Result<(), S::Fault>
    ensures { PutsThese S.takes S.fails result (inside ascii text.now) out.old out.new }
{
    let run = plain_len(text.as_bytes(), greatest(ascii));
    if run < text.len() {
        return put_runs(text, ascii, out);
    }
    out.put(text)
}

// Puts what stands between the quotes, run by run: bytes that stand for themselves are put in one
// piece. It is not copied into `put_inside`, so that a short text costs no registers that only this
// saves.
#[inline(never)]
fn put_runs<S: Sink>(text: &str, ascii: bool, out: &mut S) -> Result<(), S::Fault>
    ensures { PutsThese S.takes S.fails result (inside ascii text.now) out.old out.new }
{
    let mut rest = text;
    'runs: while let Some((run, c, after)) = split_marked(rest, ascii) {
        out.put(run)?;
        put_character(c, ascii, out)?;
        rest = after;
    }
    out.put(rest)
}

// Puts what stands for a character.
fn put_character<S: Sink>(c: char, ascii: bool, out: &mut S) -> Result<(), S::Fault>
    ensures { PutsThese S.takes S.fails result (flat_map spelling (tokens_of ascii c))
        out.old out.new }
{
    match c {
        '"' => out.put("\\\""),
        '\\' => out.put("\\\\"),
        '\n' => out.put("\\n"),
        '\r' => out.put("\\r"),
        '\t' => out.put("\\t"),
        '\0' => out.put("\\0"),
        _ if is_numbered(c, ascii) => put_code(c, out),
        _ => out.put(c.encode_utf8(&mut [0; 4])),
    }
}

// Whether a character is put by its number, where it has no escape of one letter.
fn is_numbered(c: char, ascii: bool) -> bool
    ensures { result ≡ is_numbered ascii c }
{
    c < ' ' || c == '\u{7f}' || (ascii && c > '\u{7f}')
}

// Puts a character by the hexadecimal digits of its number.
fn put_code<S: Sink>(c: char, out: &mut S) -> Result<(), S::Fault>
    ensures { PutsThese S.takes S.fails result (spelling (character (digits 16 false c)))
        out.old out.new }
{
    let mut buffer = [0; 4];
    let mut escape = c.escape_unicode();
    'parts: while let Some(part) = escape.next() {
        out.put(part.encode_utf8(&mut buffer))?;
    }
    Ok(())
}
