//! A context as a script that makes it.
ghost use Rattle.std.specs.Prelude.{◌≡◌, [], ◌++◌, codes, IfOk, IfErr, IsOk, MatchResult};
ghost use Rattle.std.specs.Prelude.{string_bytes};
ghost use Rattle.std.specs.Bool.{MatchBool};
ghost use Rattle.std.specs.FinMap.{empty, entries};
ghost use Rattle.tera_context.specs.Context.{lent_entries};
ghost use Rattle.tera_report.specs.Sink.{PutsThese};
ghost use Rattle.tera_script.specs.Saved.{set_line, script_of, HaveLines, TellsFirst};
ghost use Rattle.tera_script.specs.Saved.{WritesScript, RefusesScript, IsRefusalOf};
ghost use Rattle.tera_script.specs.Word.{IsName};

use crate::literal::LEVELS;
use crate::word::take_name;
use crate::write::{fits, put_literal};
use std::alloc::{AllocError, Global};
use tera_context::Context;
use tera_report::sink::{Growing, Sink};
use tera_report::{Error, TeraResult};
use tera_values::Value;

/// Why a script was not written.
#[derive(Debug, Drop)]
pub enum ScriptError<'a, F: Drop> {
    /// This is no name of the language, so no script can say it.
    BadName(&'a str),
    /// Arrays and maps nest deeper than 64 levels in the value of this name, so it has no literal.
    TooDeep(&'a str),
    /// No memory was found for the list of the names.
    OutOfMemory,
    /// The sink refused a piece.
    Refused(F),
}

/// Puts a context as a script: a line `set NAME LITERAL` for each name, in the order of the bytes
/// of the names. Where `ascii` is true it is ASCII. A replay of it from no names makes the context.
///
/// Answers `BadName` or `TooDeep` for the first name in that order that has no such line, and
/// `OutOfMemory` where the list of the names found none; then nothing is put. Every other error is
/// one of the sink, which refused a piece. Takes memory, but where no name is held.
pub fn write_script<'a, S: Sink>(
    context: &'a Context,
    ascii: bool,
    out: &mut S,
) -> Result<(), ScriptError<'a, S::Fault>>
    ensures { WritesScript S.takes S.fails context.now (script_of ascii (entries context.now))
        out.old result out.new }
{
    let Ok(entries) = context.entries() else {
        return Err(ScriptError::OutOfMemory);
    };
    check(&entries)?;
    match put_lines(&entries, ascii, out) {
        Ok(()) => Ok(()),
        Err(fault) => Err(ScriptError::Refused(fault)),
    }
}

/// A context as a script, as `write_script` puts it, in a text of its own.
///
/// Refuses the first name that is none of the language, `No script can say the name ..`, or whose
/// value nests too deep, `Values nested deeper than 64 levels have no literal: the value of ..`.
/// Takes memory for the text and for the list of the names, where there are some; want of it is
/// `Out of memory`.
pub fn script_text(alloc: Global, context: &Context, ascii: bool) -> TeraResult<String>
    ensures ok { IfOk result (λ text. HaveLines (entries context.now)
        × (string_bytes text ≡ script_of ascii (entries context.now))) }
    ensures err { IfErr result (RefusesScript (entries context.now)) }
    ensures nothing { context.now ≡ empty → IsOk result }
{
    let mut made = Growing::new(alloc);
    match write_script(context, ascii, &mut made) {
        Ok(()) => Ok(made.into_text()),
        Err(error) => Err(refusal(alloc, error)),
    }
}

// The error of a text that was to hold a script.
fn refusal(alloc: Global, error: ScriptError<'_, AllocError>) -> Error
    ensures { IsRefusalOf error.entry result }
{
    match error {
        ScriptError::BadName(name) => Error::message_of(alloc, &[BAD_NAME, name]),
        ScriptError::TooDeep(name) => Error::message_of(alloc, &[TOO_DEEP, name]),
        ScriptError::OutOfMemory => Error::from(AllocError),
        ScriptError::Refused(fault) => Error::from(fault),
    }
}

const BAD_NAME: &str = "No script can say the name ";

const TOO_DEEP: &str = "Values nested deeper than 64 levels have no literal: the value of ";

// Tells the first of the entries that has no line.
fn check<'a, F: Drop>(entries: &[(&'a str, &'a Value)]) -> Result<(), ScriptError<'a, F>>
    ensures { MatchResult result (λ _. HaveLines (lent_entries entries.now))
        (TellsFirst (lent_entries entries.now)) }
{
    for (name, value) in entries {
        if !is_name(name) {
            return Err(ScriptError::BadName(name));
        }
        if !fits(value, LEVELS) {
            return Err(ScriptError::TooDeep(name));
        }
    }
    Ok(())
}

// Whether it is a name of the language.
fn is_name(name: &str) -> bool
    ensures { MatchBool result (IsName name.now) (¬ IsName name.now) }
{
    match take_name(name.as_bytes()) {
        Some((_, rest)) => rest.is_empty(),
        None => false,
    }
}

// Puts a line for each entry.
fn put_lines<S: Sink>(entries: &[(&str, &Value)], ascii: bool, out: &mut S) -> Result<(), S::Fault>
    ensures { PutsThese S.takes S.fails result (script_of ascii (lent_entries entries.now))
        out.old out.new }
{
    for (name, value) in entries {
        put_line(name, value, ascii, out)?;
    }
    Ok(())
}

// Puts the line that sets the name to the value.
fn put_line<S: Sink>(name: &str, value: &Value, ascii: bool, out: &mut S) -> Result<(), S::Fault>
    ensures { PutsThese S.takes S.fails result
        (set_line ascii (name.now, value.now) ++ codes "\n") out.old out.new }
{
    out.put("set ")?;
    out.put(name)?;
    out.put(" ")?;
    put_literal(value, ascii, out)?;
    out.put("\n")
}
