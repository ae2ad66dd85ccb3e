//! The error type of every call, its kinds and their texts.
ghost use Rattle.std.specs.Prelude.{◌≡◌, ◌↔◌, IsTrue, OnOk, option_copied};
ghost use Rattle.std.specs.Fmt.{DisplaysOnOk, DisplaysStyledOnOk};
ghost use Rattle.tera_report.specs.Errors.{kind_of, source_of, plain_error, IsOutOfMemory};
ghost use Rattle.tera_report.specs.Errors.{refusal_of};
ghost use Rattle.tera_report.specs.Refusal.{text_of, Tells};
ghost use Rattle.tera_report.specs.Sink.{OfSome, FormatterTakes};
ghost use Rattle.tera_report.specs.declared.errors.ErrorKind.{ErrorKind};

use crate::report::ReportError;
use std::alloc::{AllocError, AllocFailed};
use std::{fmt, io};

mod constructors;
mod copies;
mod refusals;
mod texts;

pub use refusals::{
    errors_say_the_text_of_their_refusal, refusals_are_told_by_their_text,
    refusals_of_arithmetic_have_these_texts, refusals_of_conversions_have_these_texts,
    refusals_of_look_ups_have_these_texts, shapes_forget_the_kind_alone,
};

/// The answer of a call that can refuse.
pub type TeraResult<T> = Result<T, Error>;

/// Why a call refused. Mirrors `tera::ErrorKind`, with `OutOfMemory` beside its kinds.
#[derive(Debug, PartialEq, Eq, Drop)]
#[non_exhaustive]
pub enum ErrorKind {
    /// A message of its own, which is the whole text.
    Msg(String),
    /// A template is written wrong, at a place in its source.
    SyntaxError(Box<ReportError>),
    /// Rendering a template failed, at a place in its source.
    RenderingError(Box<ReportError>),
    /// A template extends itself, over the templates of the chain.
    CircularExtend {
        tpl: String,
        inheritance_chain: Vec<String>,
    },
    /// A template includes itself, over the templates of the chain.
    CircularInclude {
        tpl: String,
        include_chain: Vec<String>,
    },
    /// A template extends one that isn't there.
    MissingParent {
        current: String,
        parent: String,
    },
    /// There is no template of that name.
    TemplateNotFound(String),
    /// There is no component of that name.
    ComponentNotFound(String),
    /// A value is of another type than the one that is wanted.
    InvalidArgument {
        expected_type: String,
        actual_type: String,
    },
    /// A call lacks the argument of that name.
    MissingArgument {
        arg_name: String,
    },
    /// A number doesn't fit the type that is wanted.
    OutOfRangeArgument {
        value: String,
        target_type: String,
    },
    /// Writing what was rendered failed.
    Io(io::ErrorKind),
    /// What was rendered is no UTF-8.
    Utf8Conversion,
    /// Memory was refused. Tera ends the program in its place.
    OutOfMemory,
}

/// An error: its kind, and the error that caused it where there is one. Mirrors `tera::Error`.
#[derive(Debug)]
pub struct Error {
    kind: ErrorKind,
    source: Option<anyhow::Error>,
}

/// All that it holds ends with it. Where an error ends, this is called, and not written out there.
impl Drop for Error {
    fn drop(self) {
        let Error { kind: _, source: _ } = self;
    }
}

impl Error {
    /// An error of that kind without a cause. Takes no memory. Mirrors `Error::new`.
    pub fn new(kind: ErrorKind) -> Error
        ensures { result ≡ plain_error kind }
    {
        Error { kind, source: None }
    }

    /// The kind, lent. Takes no memory. Mirrors `Error::kind`.
    pub fn kind(&self) -> &ErrorKind
        ensures { result.now ≡ kind_of self.now }
    {
        &self.kind
    }

    /// The error that caused it, lent. Takes no memory. Stands for `source` of Rust's `Error`.
    pub fn source(&self) -> Option<&anyhow::Error>
        ensures { option_copied result ≡ source_of self.now }
    {
        self.source.as_ref()
    }
}

/// Two kinds are `==` exactly where they state the same refusal.
pub fn kinds_equal_by_refusal()
    ensures { (a b : ErrorKind) →
        IsTrue (⟦<ErrorKind as PartialEq>⟧.eq a b) ↔ (refusal_of a ≡ refusal_of b) }
{}

/// The text of the kind, which `text_of` gives. A width or a fill of the format changes nothing.
/// Takes no memory.
impl fmt::Display for ErrorKind {
    ghost output = { λ kind. text_of (refusal_of kind) };

    ghost styled_output = { λ kind _. text_of (refusal_of kind) };

    fn fmt<W: fmt::Write>(&self, f: &mut fmt::Formatter<W>) -> fmt::Result
        ensures writes { DisplaysOnOk W.write_str_gives f.old result
            (text_of (refusal_of self.now)) f.new }
        ensures styled { DisplaysStyledOnOk W.write_str_gives f.old result
            (text_of (refusal_of self.now)) f.new }
        ensures tells { OnOk result (OfSome (FormatterTakes W.write_str_gives)
            (Tells (refusal_of self.now)) f.old f.new) }
    {
        self.tell_to(f)
    }
}

/// The text of the kind, without that of the cause. A width or a fill of the format changes
/// nothing. Takes no memory.
impl fmt::Display for Error {
    ghost output = { λ e. text_of (refusal_of (kind_of e)) };

    ghost styled_output = { λ e _. text_of (refusal_of (kind_of e)) };

    fn fmt<W: fmt::Write>(&self, f: &mut fmt::Formatter<W>) -> fmt::Result
        ensures writes { DisplaysOnOk W.write_str_gives f.old result
            (text_of (refusal_of (kind_of self.now))) f.new }
        ensures styled { DisplaysStyledOnOk W.write_str_gives f.old result
            (text_of (refusal_of (kind_of self.now))) f.new }
        ensures tells { OnOk result (OfSome (FormatterTakes W.write_str_gives)
            (Tells (refusal_of (kind_of self.now))) f.old f.new) }
    {
        self.kind.tell_to(f)
    }
}

/// Want of memory. Takes no memory.
impl From<AllocError> for Error {
    ghost from_gives = { λ _ e. IsOutOfMemory e };

    fn from(_refused: AllocError) -> Error {
        Error::new(ErrorKind::OutOfMemory)
    }
}

/// Want of memory. Takes no memory.
impl<T: Drop> From<AllocFailed<T>> for Error {
    ghost from_gives = { λ _ e. IsOutOfMemory e };

    fn from(_refused: AllocFailed<T>) -> Error {
        Error::from(AllocError)
    }
}
