//! The names of a conversation and their values, saved as a script.
ghost use Rattle.tera_cli.specs.Saved.{IsErrorLine, Saves, SavesNamed, WritesOrTells};
ghost use Rattle.tera_replies.specs.Output.{TakesOrFails};
ghost use Rattle.tera_report.specs.Errors.{kind_of, refusal_of};
ghost use Rattle.tera_report.specs.Sink.{OfSome, Puts};

use crate::diagnostics::{NO_TEXT, tell, tell_cannot};
use crate::files::Files;
use std::alloc::Global;
use std::str;
use tera_context::Context;
use tera_report::Error;
use tera_report::sink::Sink;
use tera_script::script_text;

/// Writes a script that makes the names and their values to the file of that name, where it is
/// UTF-8.
///
/// Where there is no such script, no memory for it, or the file does not take it, tells that. Then
/// nothing is written, but maybe a part of the script where the file refused the rest.
pub(crate) fn save<F: Files, E: Sink>(
    alloc: Global,
    files: &mut F,
    name: &[u8],
    context: &Context,
    err: &mut E,
)
    ensures { SavesNamed F.wrote E.takes E.fails context.now name.now files.old err.old files.new
        err.new }
{
    match str::from_utf8(name) {
        Ok(name) => save_file(alloc, files, name, context, err),
        Err(_) => tell(NO_TEXT, err),
    }
}

// The same, where there is such a script.
fn save_file<F: Files, E: Sink>(
    alloc: Global,
    files: &mut F,
    name: &str,
    context: &Context,
    err: &mut E,
)
    ensures { Saves F.wrote E.takes E.fails context.now name.now files.old err.old files.new
        err.new }
{
    match script_text(alloc, context, false) {
        Ok(script) => write(files, name, script.as_str(), err),
        Err(error) => tell_error(&error, err),
    }
}

// Writes a text to the file of that name, or tells that it cannot.
fn write<F: Files, E: Sink>(files: &mut F, name: &str, text: &str, err: &mut E)
    ensures { WritesOrTells F.wrote E.takes E.fails name.now text.now files.old err.old files.new
        err.new }
{
    if !files.write(name, text) {
        tell_cannot("write", name, err);
    }
}

// Tells an error, where the sink takes it.
fn tell_error<E: Sink>(error: &Error, err: &mut E)
    ensures { OfSome (TakesOrFails E.takes E.fails) (IsErrorLine (refusal_of (kind_of error.now)))
        err.old err.new }
{
    let _ = put_error(error, err);
}

// Puts an error on a line of its own.
fn put_error<E: Sink>(error: &Error, err: &mut E) -> Result<(), E::Fault>
    ensures { Puts E.takes E.fails result (IsErrorLine (refusal_of (kind_of error.now)))
        err.old err.new }
{
    err.put("error: ")?;
    error.tell_to(err)?;
    err.put("\n")
}
