//! Reports at a place in a text.
ghost use Rattle.std.specs.Prelude.{◌≡◌, ◌≤◌, IfOk, IfErr, length};
ghost use Rattle.std.specs.String.{string_bytes};
ghost use Rattle.tera.specs.Errors.{IsOutOfMemory, report_of};
ghost use Rattle.tera_page.specs.Places.{BeginsAt, IsReportAt, StandsAt, column_behind};
ghost use Rattle.tera_page.specs.Places.{line_behind};

use crate::word::past_blanks;
use std::alloc::Global;
use tera::{ReportError, Span, TeraResult};

/// The report of a message at the rest of the source of that file.
pub(crate) fn report_at(
    alloc: Global,
    message: String,
    file: &str,
    source: &str,
    rest: &str,
) -> TeraResult<ReportError>
    ensures ok { IfOk result (λ made.
        IsReportAt (string_bytes message) file.now source.now rest.now (report_of made)) }
    ensures err { IfErr result IsOutOfMemory }
{
    ReportError::new(alloc, message, file, source, &span(source, rest))
}

// Where the rest of a source begins, behind blanks that its mark leaves out: its line, counted from
// 1, its column in characters, counted from 0, and two bytes, or what is left.
fn span(source: &str, rest: &str) -> Span
    ensures { BeginsAt source.now rest.now result }
{
    let (_, left) = past_blanks(rest);
    span_of(source, left)
}

// The first two bytes of what is left of a source, or all of it.
fn span_of(source: &str, left: &str) -> Span
    ensures { StandsAt source.now left.now result }
{
    let start = source.len().saturating_sub(left.len());
    let end = source.len().min(start.saturating_add(2));
    let (line, column) = line_and_column(source.get(..start).unwrap_or(""));
    Span {
        start_line: line,
        start_col: column,
        end_line: line,
        end_col: column + (end - start),
        range: start..end,
    }
}

// The line and the column behind a text.
fn line_and_column(before: &str) -> (usize, usize)
    ensures line { result.0 ≡ line_behind before.now }
    ensures column { result.1 ≡ column_behind before.now }
    ensures within { result.1 ≤ length before.now }
{
    let mut line = 1usize;
    let mut column = 0usize;
    for character in before.chars() {
        if character == '\n' {
            line += 1;
            column = 0;
        } else {
            column += 1;
        }
    }
    (line, column)
}
