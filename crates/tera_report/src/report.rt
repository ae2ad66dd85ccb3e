//! An error with its place in a source, and notes on other places.
ghost use Rattle.std.specs.Prelude.{◌≡◌, ◌↔◌, [], ◌++◌, ◌∷◌, IfOk, IfErr, OnOk, OnErr, IsTrue, map};
ghost use Rattle.std.specs.Prelude.{IsOk, codes, string_bytes};
ghost use Rattle.tera_report.specs.Errors.{IsOutOfMemory, report_of, note_of};
ghost use Rattle.tera_report.specs.EmptyReport.{IsEmptyReport};
ghost use Rattle.tera_report.specs.Report.{report_text};
ghost use Rattle.tera_report.specs.declared.report.ReportError.{ReportError};

pub mod laws;
mod length;
mod source;
mod text;

use crate::errors::TeraResult;
use crate::growing::Growing;
use crate::span::Span;
use crate::words::text_of;
pub use source::from_line;
use std::alloc::{AllocError, Global};

/// An error that shows its place in a source, and notes on other places. Mirrors
/// `tera::ReportError`.
#[derive(Debug, PartialEq, Eq)]
pub struct ReportError {
    message: String,
    filename: String,
    source: String,
    span: Span,
    notes: Vec<Note>,
}

/// All that it holds ends with it. Where a report ends, this is called, and not written out there.
impl Drop for ReportError {
    fn drop(self) {
        let ReportError {
            message: _,
            filename: _,
            source: _,
            span: _,
            notes: _,
        } = self;
    }
}

/// Another place, and what it is to the error.
#[derive(Debug, PartialEq, Eq, Drop)]
struct Note {
    label: String,
    filename: String,
    source: String,
    span: Span,
}

impl ReportError {
    /// A report without notes. `Out of memory` where the name and the source find none; empty ones
    /// take none. Mirrors `ReportError::new`.
    pub fn new(
        alloc: Global,
        message: String,
        filename: &str,
        source: &str,
        span: &Span,
    ) -> TeraResult<ReportError>
        ensures ok { IfOk result (λ made. report_of made ≡ record {
          message = string_bytes message;
          file = filename.now;
          source = source.now;
          span = span.now;
          notes = [];
        }) }
        ensures err { IfErr result IsOutOfMemory }
        ensures succeeds { filename.now ≡ [] → source.now ≡ [] → IsOk result }
    {
        let mut made = ReportError::new_without_source(alloc, message, span);
        made.set_source(alloc, filename, source)?;
        Ok(made)
    }

    /// A report without notes, file name and source. Takes no memory. Mirrors
    /// `ReportError::new_without_source`.
    pub fn new_without_source(alloc: Global, message: String, span: &Span) -> ReportError
        ensures { report_of result ≡ record {
          message = string_bytes message;
          file = [];
          source = [];
          span = span.now;
          notes = [];
        } }
    {
        ReportError {
            message,
            filename: String::new(alloc),
            source: String::new(alloc),
            span: span.copy(),
            notes: Vec::new(alloc),
        }
    }

    /// That the input ended too soon. `Out of memory` where the message finds none. Mirrors
    /// `ReportError::unexpected_end_of_input`.
    pub fn unexpected_end_of_input(alloc: Global, span: &Span) -> TeraResult<ReportError>
        ensures ok { IfOk result (λ made. report_of made ≡ record {
          message = codes "Unexpected end of input";
          file = [];
          source = [];
          span = span.now;
          notes = [];
        }) }
        ensures err { IfErr result IsOutOfMemory }
    {
        let message = String::from_str(alloc, "Unexpected end of input")?;
        Ok(ReportError::new_without_source(alloc, message, span))
    }

    /// Puts the file name and the source in the place of those that it has. `Out of memory` where
    /// they find none, and the report is then as it was; empty ones take none. Mirrors
    /// `ReportError::set_source`.
    pub fn set_source(&mut self, alloc: Global, filename: &str, source: &str) -> TeraResult<()>
        ensures ok { OnOk result (report_of self.new
            ≡ record (report_of self.old) { file = filename.now; source = source.now }) }
        ensures unchanged { OnErr result (self.new ≡ self.old) }
        ensures err { IfErr result IsOutOfMemory }
        ensures succeeds { filename.now ≡ [] → source.now ≡ [] → IsOk result }
    {
        let filename = text_of(alloc, filename)?;
        let source = text_of(alloc, source)?;
        self.filename = filename;
        self.source = source;
        Ok(())
    }

    /// Adds a note behind those that it has. `Out of memory` where the note finds none; the report
    /// is then as it was. Mirrors `ReportError::add_note`.
    pub fn add_note(
        &mut self,
        alloc: Global,
        label: &str,
        filename: &str,
        source: &str,
        span: &Span,
    ) -> TeraResult<()>
        ensures ok { OnOk result (report_of self.new ≡ record (report_of self.old) {
          notes = (report_of self.old).notes ++ record {
            label = label.now;
            file = filename.now;
            source = source.now;
            span = span.now;
          } ∷ [];
        }) }
        ensures unchanged { OnErr result (report_of self.new ≡ report_of self.old) }
        ensures err { IfErr result IsOutOfMemory }
    {
        let note = Note::new(alloc, label, filename, source, span)?;
        self.notes.push(note)?;
        Ok(())
    }

    /// The whole report. Memory for all of it is taken before its first byte is written. `Out of
    /// memory` where there is none. Mirrors `ReportError::generate_report`.
    pub fn generate_report(&self, alloc: Global) -> TeraResult<String>
        ensures ok { IfOk result (λ text.
            string_bytes text ≡ report_text (report_of self.now)) }
        ensures err { IfErr result IsOutOfMemory }
    {
        let line = self.line();
        let mut text = Growing::with_capacity(alloc, self.report_len(line))?;
        self.tell_with(line, &mut text)?;
        Ok(text.into_text())
    }

    /// What is wrong, lent. Takes no memory. Mirrors `ReportError::message`.
    pub fn message(&self) -> &str
        ensures { result.now ≡ (report_of self.now).message }
    {
        self.message.as_str()
    }

    /// Where it is, lent. Takes no memory. Mirrors `ReportError::span`.
    pub fn span(&self) -> &Span
        ensures { result.now ≡ (report_of self.now).span }
    {
        &self.span
    }

    /// The name of the file that it is in, lent. Takes no memory. Mirrors
    /// `ReportError::filename`.
    pub fn filename(&self) -> &str
        ensures { result.now ≡ (report_of self.now).file }
    {
        self.filename.as_str()
    }

    /// The same report with texts of its own. `Out of memory` where they find none; a report whose
    /// texts are empty, and that has no notes, takes none. Stands for `clone` of Rust's `Clone`.
    pub fn clone(&self, alloc: Global) -> TeraResult<ReportError>
        ensures ok { IfOk result (λ copy. report_of copy ≡ report_of self.now) }
        ensures err { IfErr result IsOutOfMemory }
        ensures succeeds { IsEmptyReport (report_of self.now) → IsOk result }
    {
        Ok(ReportError {
            message: text_of(alloc, self.message.as_str())?,
            filename: text_of(alloc, self.filename.as_str())?,
            source: text_of(alloc, self.source.as_str())?,
            span: self.span.copy(),
            notes: copied_notes(alloc, &self.notes)?,
        })
    }
}

impl Note {
    // A note with texts of its own.
    fn new(
        alloc: Global,
        label: &str,
        filename: &str,
        source: &str,
        span: &Span,
    ) -> Result<Note, AllocError>
        ensures { IfOk result (λ made. note_of made ≡ record {
          label = label.now;
          file = filename.now;
          source = source.now;
          span = span.now;
        }) }
    {
        Ok(Note {
            label: String::from_str(alloc, label)?,
            filename: String::from_str(alloc, filename)?,
            source: String::from_str(alloc, source)?,
            span: span.copy(),
        })
    }

    // The same note with texts of its own.
    fn copied(&self, alloc: Global) -> Result<Note, AllocError>
        ensures { IfOk result (λ copy. note_of copy ≡ note_of self.now) }
    {
        Note::new(
            alloc,
            self.label.as_str(),
            self.filename.as_str(),
            self.source.as_str(),
            &self.span,
        )
    }
}

#[tactic(auto, using(std::proofs::lemmas::List::map_more, crate::proofs::ReportLemmas::no_notes))]
fn copied_notes(alloc: Global, notes: &[Note]) -> Result<Vec<Note>, AllocError>
    ensures ok { IfOk result (λ copies. map note_of copies.items ≡ map note_of notes.now) }
    ensures succeeds { map note_of notes.now ≡ [] → IsOk result }
{
    let mut copies = Vec::with_capacity(alloc, notes.len())?;
    for note in notes {
        copies.push(note.copied(alloc)?)?;
    }
    Ok(copies)
}

/// Two reports are `==` exactly where their messages, file names, sources, spans and notes are.
pub fn reports_equal_by_parts()
    ensures { (a b : ReportError) → IsTrue (⟦<ReportError as PartialEq>⟧.eq a b)
        ↔ (report_of a ≡ report_of b) }
{}
