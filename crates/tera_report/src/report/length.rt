//! How long the text of a report is.
ghost use Rattle.std.specs.Prelude.{◌≡◌, length, map};
ghost use Rattle.std.specs.List.{flat_map, sum};
ghost use Rattle.tera_report.specs.Errors.{note_of, report_of};
ghost use Rattle.tera_report.specs.Report.{line_of, note_text, report_text};
ghost use Rattle.tera_report.specs.inner.Report.{capped, shown_place};

use super::source::numbered_line;
use super::text::width;
use super::{Note, ReportError};
use crate::span::Span;
use crate::words::characters;
use itoa::Buffer;

impl ReportError {
    /// How many bytes the report is long, whose line is given, or usize's greatest where it is
    /// longer.
    #[tactic(auto, using(crate::proofs::ReportLemmas::head_length))]
    pub(super) fn report_len(&self, line: &str) -> usize
        requires { line.now ≡ line_of (report_of self.now) }
        ensures { result ≡ capped (length (report_text (report_of self.now))) }
    {
        let place = place_len(self.filename.as_str(), line, &self.span);
        let words = "error: \n--> ".len();
        let number = Buffer::new().format(self.span.start_line).len();
        let head = capped_sum(&[words, self.message.as_str().len(), number, place]);
        head.saturating_add(notes_len(self.notes.as_slice()))
    }
}

#[tactic(auto, using(std::proofs::lemmas::List::map_more))]
fn notes_len(notes: &[Note]) -> usize
    ensures { result ≡ capped (length (flat_map note_text (map note_of notes.now))) }
{
    let mut total: usize = 0;
    for note in notes {
        total = total.saturating_add(note_len(note));
    }
    total
}

#[tactic(auto, using(crate::proofs::ReportLemmas::note_length))]
fn note_len(note: &Note) -> usize
    ensures { result ≡ capped (length (note_text (note_of note.now))) }
{
    let line = numbered_line(note.source.as_str(), note.span.start_line);
    let place = place_len(note.filename.as_str(), line, &note.span);
    capped_sum(&["\n\nnote:  ".len(), note.label.as_str().len(), place])
}

#[tactic(auto, using(crate::proofs::ReportLemmas::place_length))]
fn place_len(file: &str, line: &str, span: &Span) -> usize
    ensures { result ≡ capped (length (shown_place file.now line.now span.now)) }
{
    let number = Buffer::new().format(span.start_line).len();
    let column = Buffer::new().format(span.start_col as u128 + 1).len();
    let words = "::\n |\n | \n | ".len();
    let under = span.start_col.min(characters(line));
    capped_sum(&[
        words,
        file.len(),
        number,
        column,
        number,
        number,
        line.len(),
        number,
        under,
        width(span),
    ])
}

// The sum, or usize's greatest where it is more.
fn capped_sum(numbers: &[usize]) -> usize
    ensures { result ≡ capped (sum numbers.now) }
{
    let mut total: usize = 0;
    for at in 0..numbers.len() {
        total = total.saturating_add(numbers[at]);
    }
    total
}
