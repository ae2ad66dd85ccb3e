//! A constructor for each kind that holds texts, and what other errors become.
ghost use Rattle.anyhow.specs.Error.{IsMadeOf};
ghost use Rattle.std.specs.Prelude.{◌≡◌, ◌⊎◌, [], Some, None, IfOk, IsOk, IsSomeAnd, map};
ghost use Rattle.std.specs.Prelude.{string_bytes};
ghost use Rattle.std.specs.IoError.{error_kind as io_kind};
ghost use Rattle.std.specs.List.{flat_map};
ghost use Rattle.tera_report.specs.Errors.{kind_of, source_of, refusal_of, Raises};
ghost use Rattle.tera_report.specs.Errors.{States, IsOutOfMemory};
ghost use Rattle.tera_report.specs.Refusal.{message, syntax_error, circular_extend};
ghost use Rattle.tera_report.specs.Refusal.{circular_include, missing_parent, template_not_found};
ghost use Rattle.tera_report.specs.Refusal.{component_not_found, invalid_argument};
ghost use Rattle.tera_report.specs.Refusal.{missing_argument, out_of_range, writing_failed};
ghost use Rattle.tera_report.specs.Refusal.{not_utf8};

use super::{Error, ErrorKind};
use crate::report::ReportError;
use crate::span::Span;
use crate::words::text_of;
use std::alloc::{AllocError, Global};
use std::string::FromUtf8Error;
use std::{fmt, io};

impl Error {
    /// Kind `Msg` with that text. `Out of memory` where the text finds none; an empty text takes
    /// none. Mirrors `Error::message`.
    pub fn message(alloc: Global, text: &str) -> Error
        ensures raises { Raises (message text.now) result }
        ensures empty { text.now ≡ [] → States (message []) None result }
    {
        match text_of(alloc, text) {
            Ok(text) => Error::new(ErrorKind::Msg(text)),
            Err(refused) => Error::from(refused),
        }
    }

    /// Kind `Msg` with the text of these pieces, one behind another. `Out of memory` where the text
    /// finds none.
    pub fn message_of(alloc: Global, pieces: &[&str]) -> Error
        ensures { Raises (message (flat_map (λ piece. piece.now) pieces.now)) result }
    {
        match pieces.concat(alloc) {
            Ok(text) => Error::new(ErrorKind::Msg(text)),
            Err(refused) => Error::from(refused),
        }
    }

    /// Kind `Msg` with that text and that cause, whose own text `anyhow` cuts at 120 bytes. `Out of
    /// memory`, without the cause, where the text finds none; an empty text takes none. Mirrors
    /// `Error::chain`.
    pub fn chain(alloc: Global, text: &str, source: anyhow::Error) -> Error
        ensures raises { States (message text.now) (Some source) result ⊎ IsOutOfMemory result }
        ensures empty { text.now ≡ [] → States (message []) (Some source) result }
    {
        match text_of(alloc, text) {
            Ok(text) => Error {
                kind: ErrorKind::Msg(text),
                source: Some(source),
            },
            Err(refused) => Error::from(refused),
        }
    }

    /// Kind `SyntaxError`, with a report of that message at that place, without a source. `Out of
    /// memory` where the report finds none. Mirrors `Error::syntax_error`.
    pub fn syntax_error(alloc: Global, message: String, span: &Span) -> Error
        ensures { Raises (syntax_error (record {
          message = string_bytes message;
          file = [];
          source = [];
          span = span.now;
          notes = [];
        })) result }
    {
        let report = ReportError::new_without_source(alloc, message, span);
        match Box::new(alloc, report) {
            Ok(report) => Error::new(ErrorKind::SyntaxError(report)),
            Err(refused) => Error::from(refused),
        }
    }

    /// Kind `CircularExtend`. `Out of memory` where the name finds none; an empty name takes none.
    /// Mirrors `Error::circular_extend`.
    pub fn circular_extend(alloc: Global, tpl: &str, inheritance_chain: Vec<String>) -> Error
        ensures raises { Raises
            (circular_extend tpl.now (map string_bytes inheritance_chain.items)) result }
        ensures empty { tpl.now ≡ [] → States
            (circular_extend [] (map string_bytes inheritance_chain.items)) None result }
    {
        match text_of(alloc, tpl) {
            Ok(tpl) => Error::new(ErrorKind::CircularExtend {
                tpl,
                inheritance_chain,
            }),
            Err(refused) => Error::from(refused),
        }
    }

    /// Kind `CircularInclude`. `Out of memory` where the name finds none; an empty name takes none.
    /// Mirrors `Error::circular_include`.
    pub fn circular_include(alloc: Global, tpl: &str, include_chain: Vec<String>) -> Error
        ensures raises { Raises
            (circular_include tpl.now (map string_bytes include_chain.items)) result }
        ensures empty { tpl.now ≡ [] → States
            (circular_include [] (map string_bytes include_chain.items)) None result }
    {
        match text_of(alloc, tpl) {
            Ok(tpl) => Error::new(ErrorKind::CircularInclude { tpl, include_chain }),
            Err(refused) => Error::from(refused),
        }
    }

    /// Kind `MissingParent`. `Out of memory` where the names find none; empty names take none.
    /// Mirrors `Error::missing_parent`.
    pub fn missing_parent(alloc: Global, current: &str, parent: &str) -> Error
        ensures raises { Raises (missing_parent current.now parent.now) result }
        ensures empty { current.now ≡ [] → parent.now ≡ []
            → States (missing_parent [] []) None result }
    {
        match two_texts(alloc, current, parent) {
            Ok((current, parent)) => Error::new(ErrorKind::MissingParent { current, parent }),
            Err(refused) => Error::from(refused),
        }
    }

    /// Kind `TemplateNotFound`. `Out of memory` where the name finds none; an empty name takes
    /// none. Mirrors `Error::template_not_found`.
    pub fn template_not_found(alloc: Global, name: &str) -> Error
        ensures raises { Raises (template_not_found name.now) result }
        ensures empty { name.now ≡ [] → States (template_not_found []) None result }
    {
        match text_of(alloc, name) {
            Ok(name) => Error::new(ErrorKind::TemplateNotFound(name)),
            Err(refused) => Error::from(refused),
        }
    }

    /// Kind `ComponentNotFound`. `Out of memory` where the name finds none; an empty name takes
    /// none. Mirrors `Error::component_not_found`.
    pub fn component_not_found(alloc: Global, name: &str) -> Error
        ensures raises { Raises (component_not_found name.now) result }
        ensures empty { name.now ≡ [] → States (component_not_found []) None result }
    {
        match text_of(alloc, name) {
            Ok(name) => Error::new(ErrorKind::ComponentNotFound(name)),
            Err(refused) => Error::from(refused),
        }
    }

    /// Kind `InvalidArgument`. `Out of memory` where the names find none; empty names take none.
    /// Mirrors `Error::invalid_arg_type`.
    pub fn invalid_arg_type(alloc: Global, expected: &str, actual: &str) -> Error
        ensures raises { Raises (invalid_argument expected.now actual.now) result }
        ensures empty { expected.now ≡ [] → actual.now ≡ []
            → States (invalid_argument [] []) None result }
    {
        match two_texts(alloc, expected, actual) {
            Ok((expected_type, actual_type)) => Error::new(ErrorKind::InvalidArgument {
                expected_type,
                actual_type,
            }),
            Err(refused) => Error::from(refused),
        }
    }

    /// Kind `OutOfRangeArgument`. `Out of memory` where the texts find none; empty texts take none.
    /// Mirrors `Error::out_of_range_arg`.
    pub fn out_of_range_arg(alloc: Global, value: &str, target: &str) -> Error
        ensures raises { Raises (out_of_range value.now target.now) result }
        ensures empty { value.now ≡ [] → target.now ≡ []
            → States (out_of_range [] []) None result }
    {
        match two_texts(alloc, value, target) {
            Ok((value, target_type)) => {
                Error::new(ErrorKind::OutOfRangeArgument { value, target_type })
            }
            Err(refused) => Error::from(refused),
        }
    }

    /// Kind `MissingArgument`. `Out of memory` where the name finds none; an empty name takes none.
    /// Mirrors `Error::missing_arg`.
    pub fn missing_arg(alloc: Global, name: &str) -> Error
        ensures raises { Raises (missing_argument name.now) result }
        ensures empty { name.now ≡ [] → States (missing_argument []) None result }
    {
        match text_of(alloc, name) {
            Ok(arg_name) => Error::new(ErrorKind::MissingArgument { arg_name }),
            Err(refused) => Error::from(refused),
        }
    }

    /// Kind `Io` of the error's own kind, with a cause, which has none of its own. Takes no memory.
    /// Mirrors `Error::io_error`.
    pub fn io_error(error: io::Error) -> Error
        ensures kind { refusal_of (kind_of result) ≡ writing_failed (io_kind error) }
        ensures cause { IsSomeAnd (source_of result)
            (IsMadeOf (⟦<io::Error as fmt::Display>⟧.output error)) }
    {
        Error {
            kind: ErrorKind::Io(error.kind()),
            source: Some(anyhow::Error::from(error)),
        }
    }

    /// Kind `Utf8Conversion`, with a cause, which has none of its own. Takes no memory. Mirrors
    /// `Error::invalid_utf8`.
    pub fn invalid_utf8(error: FromUtf8Error) -> Error
        ensures kind { refusal_of (kind_of result) ≡ not_utf8 }
        ensures cause { IsSomeAnd (source_of result)
            (IsMadeOf (⟦<FromUtf8Error as fmt::Display>⟧.output error)) }
    {
        Error {
            kind: ErrorKind::Utf8Conversion,
            source: Some(anyhow::Error::from(error)),
        }
    }
}

/// What `io_error` answers. Takes no memory.
impl From<io::Error> for Error {
    ghost from_gives = { λ error e.
        (refusal_of (kind_of e) ≡ writing_failed (io_kind error))
        × IsSomeAnd (source_of e) (IsMadeOf (⟦<io::Error as fmt::Display>⟧.output error)) };

    fn from(error: io::Error) -> Error {
        Error::io_error(error)
    }
}

/// What `invalid_utf8` answers. Takes no memory.
impl From<FromUtf8Error> for Error {
    ghost from_gives = { λ error e. (refusal_of (kind_of e) ≡ not_utf8)
        × IsSomeAnd (source_of e) (IsMadeOf (⟦<FromUtf8Error as fmt::Display>⟧.output error)) };

    fn from(error: FromUtf8Error) -> Error {
        Error::invalid_utf8(error)
    }
}

// Two texts of their own. Empty ones take no memory.
fn two_texts(alloc: Global, first: &str, second: &str) -> Result<(String, String), AllocError>
    ensures ok { IfOk result (λ both.
        (string_bytes both.0 ≡ first.now) × (string_bytes both.1 ≡ second.now)) }
    ensures succeeds { first.now ≡ [] → second.now ≡ [] → IsOk result }
{
    Ok((text_of(alloc, first)?, text_of(alloc, second)?))
}
