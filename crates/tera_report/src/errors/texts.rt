//! What a refusal is told by, piece by piece.
ghost use Rattle.std.specs.Prelude.{map, string_bytes};
ghost use Rattle.std.specs.List.{flat_map};
ghost use Rattle.tera_report.specs.Errors.{kind_of, refusal_of};
ghost use Rattle.tera_report.specs.Refusal.{Tells, TellsChain, extend_words, include_words};
ghost use Rattle.tera_report.specs.Refusal.{missing_parent, invalid_argument, out_of_range};
ghost use Rattle.tera_report.specs.Refusal.{writing_failed};
ghost use Rattle.tera_report.specs.Sink.{Puts};

use super::{Error, ErrorKind};
use crate::quote::put_quoted_list;
use crate::sink::Sink;
use crate::words::put_all;
use std::fmt::InlineText;
use std::io;

impl ErrorKind {
    /// Puts what `{}` writes. Answers an error only where the sink refused a piece. Takes no memory
    /// of its own.
    pub fn tell_to<S: Sink>(&self, out: &mut S) -> Result<(), S::Fault>
        ensures { Puts S.takes S.fails result (Tells (refusal_of self.now)) out.old out.new }
    {
        match self {
            ErrorKind::Msg(message) => out.put(message.as_str()),
            ErrorKind::SyntaxError(report) | ErrorKind::RenderingError(report) => {
                report.tell_to(out)
            }
            ErrorKind::CircularExtend {
                tpl,
                inheritance_chain,
            } => put_extend(tpl.as_str(), inheritance_chain.as_slice(), out),
            ErrorKind::CircularInclude { tpl, include_chain } => {
                put_include(tpl.as_str(), include_chain.as_slice(), out)
            }
            ErrorKind::MissingParent { current, parent } => {
                put_missing_parent(current.as_str(), parent.as_str(), out)
            }
            ErrorKind::TemplateNotFound(name) => {
                put_all(&["Template '", name.as_str(), "' not found"], out)
            }
            ErrorKind::ComponentNotFound(name) => {
                put_all(&["Component '", name.as_str(), "' not found"], out)
            }
            ErrorKind::InvalidArgument {
                expected_type,
                actual_type,
            } => put_invalid_argument(expected_type.as_str(), actual_type.as_str(), out),
            ErrorKind::MissingArgument { arg_name } => {
                put_all(&["Missing keyword argument `", arg_name.as_str(), "`"], out)
            }
            ErrorKind::OutOfRangeArgument { value, target_type } => {
                put_out_of_range(value.as_str(), target_type.as_str(), out)
            }
            ErrorKind::Io(kind) => put_io_kind(*kind, out),
            ErrorKind::Utf8Conversion => out.put("Invalid UTF-8 characters found while rendering."),
            ErrorKind::OutOfMemory => out.put("Out of memory"),
        }
    }
}

impl Error {
    /// Puts what `{}` writes: the text of the kind. Answers an error only where the sink refused a
    /// piece. Takes no memory of its own.
    pub fn tell_to<S: Sink>(&self, out: &mut S) -> Result<(), S::Fault>
        ensures { Puts S.takes S.fails result
            (Tells (refusal_of (kind_of self.now))) out.old out.new }
    {
        self.kind().tell_to(out)
    }
}

fn put_extend<S: Sink>(tpl: &str, names: &[String], out: &mut S) -> Result<(), S::Fault>
    ensures { Puts S.takes S.fails result
        (TellsChain (extend_words tpl.now) (map string_bytes names.now)) out.old out.new }
{
    put_chain(
        &[
            "Circular extend detected for template '",
            tpl,
            "'. Inheritance chain: `",
        ],
        names,
        out,
    )
}

fn put_include<S: Sink>(tpl: &str, names: &[String], out: &mut S) -> Result<(), S::Fault>
    ensures { Puts S.takes S.fails result
        (TellsChain (include_words tpl.now) (map string_bytes names.now)) out.old out.new }
{
    put_chain(
        &[
            "Circular include detected for template '",
            tpl,
            "'. Include chain: `",
        ],
        names,
        out,
    )
}

// Puts the words before a list of names, the names in debug form, and a backquote.
fn put_chain<S: Sink>(words: &[&str], names: &[String], out: &mut S) -> Result<(), S::Fault>
    ensures { Puts S.takes S.fails result (TellsChain (flat_map (λ piece. piece.now) words.now)
        (map string_bytes names.now)) out.old out.new }
{
    put_all(words, out)?;
    put_quoted_list(names, out)?;
    out.put("`")
}

fn put_missing_parent<S: Sink>(current: &str, parent: &str, out: &mut S) -> Result<(), S::Fault>
    ensures { Puts S.takes S.fails result
        (Tells (missing_parent current.now parent.now)) out.old out.new }
{
    put_all(
        &[
            "Template '",
            current,
            "' is inheriting from '",
            parent,
            "', which doesn't exist or isn't loaded.",
        ],
        out,
    )
}

fn put_invalid_argument<S: Sink>(expected: &str, actual: &str, out: &mut S) -> Result<(), S::Fault>
    ensures { Puts S.takes S.fails result
        (Tells (invalid_argument expected.now actual.now)) out.old out.new }
{
    put_all(
        &[
            "Invalid type for the value, expected `",
            expected,
            "` but got `",
            actual,
            "`",
        ],
        out,
    )
}

fn put_out_of_range<S: Sink>(value: &str, target: &str, out: &mut S) -> Result<(), S::Fault>
    ensures { Puts S.takes S.fails result
        (Tells (out_of_range value.now target.now)) out.old out.new }
{
    put_all(
        &["Value `", value, "` is out of range for `", target, "`"],
        out,
    )
}

// Puts the words before the name of an io kind, and its debug name.
fn put_io_kind<S: Sink>(kind: io::ErrorKind, out: &mut S) -> Result<(), S::Fault>
    ensures { Puts S.takes S.fails result (Tells (writing_failed kind)) out.old out.new }
{
    let name = InlineText::<32>::of(format_args!("{kind:?}"));
    put_all(
        &[
            "Io error while writing rendered value to output: ",
            name.as_str(),
        ],
        out,
    )
}
