//! Where a node stands in the source of its template.
ghost use Rattle.std.specs.Prelude.{◌≡◌, ◌↔◌, Some, IsTrue};
ghost use Rattle.std.specs.Fmt.{DisplaysOnOk, DisplaysStyledOnOk};
ghost use Rattle.tera_report.specs.Span.{span_text, span_debug_text, expanded, zeros};
ghost use Rattle.tera_report.specs.declared.span.Span.{Span};

use crate::words::put_all;
use itoa::Buffer;
use std::fmt;
use std::ops::Range;

/// The position of a node in the source of its template. Mirrors `tera::Span`.
#[derive(Clone, PartialEq, Eq, Default, Drop)]
pub struct Span {
    /// The line that it starts on, counted from 1.
    pub start_line: usize,
    /// The column that it starts on, counted from 0.
    pub start_col: usize,
    /// The line that it ends on, counted from 1.
    pub end_line: usize,
    /// The column that it ends on, counted from 0.
    pub end_col: usize,
    /// Its bytes in the source.
    pub range: Range<usize>,
}

impl Span {
    /// Ends it where the other ends. Takes no memory. Mirrors `Span::expand`.
    pub fn expand(&mut self, other: &Span)
        ensures { self.new ≡ expanded self.old other.now }
    {
        self.end_line = other.end_line;
        self.end_col = other.end_col;
        self.range.end = other.range.end;
    }

    // The same span. A clone answers a `Result`, though it takes no memory.
    pub(crate) fn copy(&self) -> Span
        ensures { result ≡ self.now }
    {
        Span {
            range: self.range.start..self.range.end,
            ..*self
        }
    }
}

/// Two spans are `==` exactly where their numbers are, a default span is all zeros, and a clone is
/// the span itself, which takes no memory.
pub fn spans_equal_by_numbers()
    ensures same { (a b : Span) → IsTrue (⟦<Span as PartialEq>⟧.eq a b) ↔ (a ≡ b) }
    ensures zeros { (span : Span) → ⟦<Span as Default>⟧.is_default span → span ≡ zeros }
    ensures cloned { (a b : Span) → ⟦<Span as Clone>⟧.is_clone a b → a ≡ b }
    ensures free { (span : Span) → ⟦<Span as Clone>⟧.is_infallible span }
{}

/// ` @ 1:0-1:5`. A width or a fill of the format changes nothing. Takes no memory.
impl fmt::Display for Span {
    ghost output = { λ span. Some (span_text span) };

    ghost styled_output = { λ span _. Some (span_text span) };

    fn fmt<W: fmt::Write>(&self, f: &mut fmt::Formatter<W>) -> fmt::Result {
        put_all(
            &[
                " @ ",
                Buffer::new().format(self.start_line),
                ":",
                Buffer::new().format(self.start_col),
                "-",
                Buffer::new().format(self.end_line),
                ":",
                Buffer::new().format(self.end_col),
            ],
            f,
        )
    }
}

/// ` @ 1:0-1:5 (3..8)`. No option of the format changes it. Takes no memory.
impl fmt::Debug for Span {
    ghost debug_output = { λ span. Some (span_debug_text span) };

    fn fmt<W: fmt::Write>(&self, f: &mut fmt::Formatter<W>) -> fmt::Result
        ensures writes { DisplaysOnOk W.write_str_gives f.old result
            (Some (span_debug_text self.now)) f.new }
        ensures styled { DisplaysStyledOnOk W.write_str_gives f.old result
            (Some (span_debug_text self.now)) f.new }
    {
        put_all(
            &[
                " @ ",
                Buffer::new().format(self.start_line),
                ":",
                Buffer::new().format(self.start_col),
                "-",
                Buffer::new().format(self.end_line),
                ":",
                Buffer::new().format(self.end_col),
                " (",
                Buffer::new().format(self.range.start),
                "..",
                Buffer::new().format(self.range.end),
                ")",
            ],
            f,
        )
    }
}
