//! What a session is given as a line, and what is said where a line feed stands inside it.
ghost use Rattle.std.specs.Prelude.{◌≡◌, ◌++◌, IfErr, IfNone, IfOk, IfSome, MatchResult};
ghost use Rattle.tera_report.specs.Errors.{IsOutOfMemory, report_of};
ghost use Rattle.tera_replies.specs.Replay.{source_of};
ghost use Rattle.tera_replies.specs.Script.{HasNoLineFeed, ended, without_return};
ghost use Rattle.tera_c.specs.Lines.{BreaksBehind, IsLineOf, feed_report, line_end};

use memchr::memchr;
use std::alloc::Global;
use std::str::from_utf8;
use tera_replies::laws::bytes_are_lines;
use tera_report::words::characters;
use tera_report::{ReportError, Span, TeraResult};

/// The line that these bytes are, with one end of line behind it or none. An error is what stands
/// before the first of the line feeds, where one stands inside.
pub(crate) fn line_of(given: &[u8]) -> Result<&[u8], &[u8]>
    ensures { MatchResult result (λ line. IsLineOf given.now line.now)
        (λ first. BreaksBehind given.now first.now) }
{
    bytes_are_lines();
    match split_line(given) {
        Some((first, later)) => {
            if later.is_empty() {
                Ok(trimmed(first))
            } else {
                Err(first)
            }
        }
        None => Ok(given),
    }
}

// What stands before the first line feed, and after it.
fn split_line(bytes: &[u8]) -> Option<(&[u8], &[u8])>
    ensures found { IfSome result
        (λ parts. HasNoLineFeed parts.0.now × (bytes.now ≡ ended parts.0.now ++ parts.1.now)) }
    ensures none { IfNone result (HasNoLineFeed bytes.now) }
{
    let at = memchr(b'\n', bytes)?;
    Some((&bytes[..at], &bytes[at + 1..]))
}

// A line without the carriage return at its end, if it has one.
fn trimmed(line: &[u8]) -> &[u8]
    ensures { result.now ≡ without_return line.now }
{
    let len = line.len();
    if len > 0 && line[len - 1] == b'\r' {
        &line[..len - 1]
    } else {
        line
    }
}

/// The report of a line feed inside a line, where the first one stands behind these bytes.
pub(crate) fn feed_report(alloc: Global, first: &[u8]) -> TeraResult<ReportError>
    ensures ok { IfOk result (λ report. report_of report ≡ feed_report first.now) }
    ensures err { IfErr result IsOutOfMemory }
{
    let source = shown_source(first);
    let span = line_end(source);
    let message = String::from_str(alloc, "bad line: a line feed stands inside it")?;
    ReportError::new(alloc, message, "line 1", source, &span)
}

// What of a line its report shows.
fn shown_source(line: &[u8]) -> &str
    ensures { result.now ≡ source_of line.now }
{
    match from_utf8(line) {
        Ok(text) => text,
        Err(_) => "",
    }
}

// Where the report's one line ends.
fn line_end(source: &str) -> Span
    ensures { result ≡ line_end source.now }
{
    let column = characters(source);
    Span {
        start_line: 1,
        start_col: column,
        end_line: 1,
        end_col: column,
        range: source.len()..source.len(),
    }
}
