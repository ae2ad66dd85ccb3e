//! The text of a report, put piece by piece.
ghost use Rattle.std.specs.Prelude.{◌≡◌, ◌≤◌, ◌++◌, [], ◌∷◌, length, map, replicate};
ghost use Rattle.std.specs.Prelude.{take};
ghost use Rattle.std.specs.List.{flat_map};
ghost use Rattle.std.specs.Str.{chars};
ghost use Rattle.tera_report.specs.Errors.{note_of, report_of};
ghost use Rattle.tera_report.specs.Report.{caret, line_of, note_text, report_text, space, under};
ghost use Rattle.tera_report.specs.Report.{underline, width};
ghost use Rattle.tera_report.specs.inner.Report.{frame_text, shown_place};
ghost use Rattle.tera_report.specs.Sink.{PutsThese};

use super::source::numbered_line;
use super::{Note, ReportError};
use crate::sink::Sink;
use crate::span::Span;
use crate::words::put_all;
use itoa::Buffer;

/// As many spaces as a number has digits, and more.
const SPACES: &str = "                                        ";

/// As many carets as are put at once.
const CARETS: &str = "^^^^^^^^^^^^^^^^^^^^^^^^^^^^^^^^^^^^^^^^^^^^^^^^^^^^^^^^^^^^^^^^";

impl ReportError {
    /// Puts the whole report. Answers an error only where the sink refused a piece. Takes no memory
    /// of its own.
    pub fn tell_to<S: Sink>(&self, out: &mut S) -> Result<(), S::Fault>
        ensures { PutsThese S.takes S.fails result (report_text (report_of self.now))
            out.old out.new }
    {
        self.tell_with(self.line(), out)
    }

    /// The line of its source that the report shows.
    pub(super) fn line(&self) -> &str
        ensures { result.now ≡ line_of (report_of self.now) }
    {
        numbered_line(self.source.as_str(), self.span.start_line)
    }

    /// Puts the whole report, whose line is given.
    pub(super) fn tell_with<S: Sink>(&self, line: &str, out: &mut S) -> Result<(), S::Fault>
        requires { line.now ≡ line_of (report_of self.now) }
        ensures { PutsThese S.takes S.fails result (report_text (report_of self.now))
            out.old out.new }
    {
        put_all(
            &[
                "error: ",
                self.message.as_str(),
                "\n",
                margin(Buffer::new().format(self.span.start_line)),
                "--> ",
            ],
            out,
        )?;
        put_place(self.filename.as_str(), line, &self.span, out)?;
        put_notes(self.notes.as_slice(), out)
    }
}

// Puts the notes, one after another.
fn put_notes<S: Sink>(notes: &[Note], out: &mut S) -> Result<(), S::Fault>
    ensures { PutsThese S.takes S.fails result (flat_map note_text (map note_of notes.now))
        out.old out.new }
{
    for note in notes {
        put_note(note, out)?;
    }
    Ok(())
}

fn put_note<S: Sink>(note: &Note, out: &mut S) -> Result<(), S::Fault>
    ensures { PutsThese S.takes S.fails result (note_text (note_of note.now)) out.old out.new }
{
    put_all(&["\n\nnote: ", note.label.as_str(), " "], out)?;
    let line = numbered_line(note.source.as_str(), note.span.start_line);
    put_place(note.filename.as_str(), line, &note.span, out)
}

// Puts where it is, and below it its line.
fn put_place<S: Sink>(file: &str, line: &str, span: &Span, out: &mut S) -> Result<(), S::Fault>
    ensures { PutsThese S.takes S.fails result (shown_place file.now line.now span.now)
        out.old out.new }
{
    put_frame(
        file,
        Buffer::new().format(span.start_line),
        Buffer::new().format(span.start_col as u128 + 1),
        line,
        out,
    )?;
    put_underline(line, span, out)
}

// Puts all of that up to what stands under the line.
fn put_frame<'x, S: Sink>(
    file: &'x str,
    number: &'x str,
    column: &'x str,
    line: &'x str,
    out: &mut S,
) -> Result<(), S::Fault>
    requires { length number.now ≤ 40 }
    ensures { PutsThese S.takes S.fails result
        (frame_text file.now number.now column.now line.now) out.old out.new }
{
    put_all(
        &[
            file,
            ":",
            number,
            ":",
            column,
            "\n",
            margin(number),
            " |\n",
            number,
            " | ",
            line,
            "\n",
            margin(number),
            " | ",
        ],
        out,
    )
}

// As many spaces as a number has digits.
fn margin<'x>(number: &'x str) -> &'x str
    requires { length number.now ≤ 40 }
    ensures { result.now ≡ replicate (length number.now) space }
{
    &SPACES[..number.len()]
}

// Puts what stands under a line.
fn put_underline<S: Sink>(line: &str, span: &Span, out: &mut S) -> Result<(), S::Fault>
    ensures { PutsThese S.takes S.fails result (underline line.now span.now) out.old out.new }
{
    put_columns(line, span.start_col, out)?;
    put_carets(width(span), out)
}

// Puts a tab for each tab and a space for any other of so many first characters.
fn put_columns<S: Sink>(line: &str, count: usize, out: &mut S) -> Result<(), S::Fault>
    ensures { PutsThese S.takes S.fails result (map under (take count (chars line.now)))
        out.old out.new }
{
    let mut rest = line.chars();
    for column in 0..count {
        let Some(c) = rest.next() else {
            break;
        };
        out.put(mark(c))?;
    }
    Ok(())
}

// What stands under a character.
fn mark(c: char) -> &'static str
    ensures { result.now ≡ under c ∷ [] }
{
    if c == '\t' { "\t" } else { " " }
}

// Puts so many carets.
fn put_carets<S: Sink>(count: usize, out: &mut S) -> Result<(), S::Fault>
    ensures { PutsThese S.takes S.fails result (replicate count caret) out.old out.new }
{
    let mut left = count;
    'chunks: while left > CARETS.len() {
        out.put(CARETS)?;
        left -= CARETS.len();
    }
    out.put(&CARETS[..left])
}

/// How many carets there are: as many as the span has columns, and one where it has none.
pub(super) fn width(span: &Span) -> usize
    ensures { result ≡ width span.now }
{
    if span.start_col < span.end_col {
        span.end_col - span.start_col
    } else {
        1
    }
}
