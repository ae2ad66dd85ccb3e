//! How a session takes values, and gives them.
ghost use Rattle.std.specs.Prelude.{◌≡◌, ◌⊎◌, ◌++◌, Err, IfErr, IfOk, List, Ok, OnOk, false, map};
ghost use Rattle.std.specs.Prelude.{ℕ, string_bytes};
ghost use Rattle.std.specs.FinMap.{keys};
ghost use Rattle.std.specs.List.{find, flat_map};
ghost use Rattle.std.specs.Option.{option_map};
ghost use Rattle.tera_meaning.specs.Outcome.{is_want};
ghost use Rattle.tera_report.specs.Errors.{Refuses, kind_of, refusal_of};
ghost use Rattle.tera_report.specs.Growing.{grown_bytes};
ghost use Rattle.tera_replies.specs.Reply.{IsReplyLine};
ghost use Rattle.tera_replies.specs.Script.{ended};
ghost use Rattle.tera_values.specs.View.{marked};
ghost use Rattle.tera_c.specs.Status.{no_memory};
ghost use Rattle.tera_c.specs.Values.{Gets, Has, IsKept, IsRefused, Removes, SetsJson, SetsLiteral};
ghost use Rattle.tera_c.specs.Values.{Hands, Saves, SetsText, Stays, is_broken, names_in, text_in};

use crate::names::{name_in, value_of};
use crate::rooms::deliver;
use crate::session_state::SessionState;
use crate::status::{BAD, DONE, MISSING, NO_MEMORY, REFUSED};
use std::alloc::{AllocError, Global};
use std::str::from_utf8;
use tera_context::Context;
use tera_json::{from_json, to_json};
use tera_report::sink::{Growing, Sink};
use tera_report::{Error, ErrorKind, TeraResult};
use tera_script::{literal_text, script_text};
use tera_values::Value;

/// How a value is written.
#[derive(Clone, Copy)]
pub enum Writing {
    /// As a literal, which is ASCII.
    Literal,
    /// As JSON.
    Json,
}

impl SessionState {
    /// Sets a name to the value that a literal spells.
    pub(crate) fn set(&mut self, alloc: Global, name: &[u8], literal: &[u8]) -> u8
        ensures { SetsLiteral name.now literal.now self.old self.new result }
    {
        let Some(text) = name_in(name) else {
            return BAD;
        };
        match value_of(alloc, self.context.hasher(), name, literal) {
            Ok(Some(value)) => self.keep(text, value),
            Ok(None) => BAD,
            Err(_) => NO_MEMORY,
        }
    }

    /// Sets a name to a text.
    pub(crate) fn set_text(&mut self, alloc: Global, name: &[u8], text: &[u8], safe: bool) -> u8
        ensures { SetsText name.now text.now safe self.old self.new result }
    {
        let Some(name) = name_in(name) else {
            return BAD;
        };
        let Ok(text) = from_utf8(text) else {
            return BAD;
        };
        match text_value(alloc, text, safe) {
            Ok(value) => self.keep(name, value),
            Err(_) => NO_MEMORY,
        }
    }

    /// Sets a name to the value of a text of JSON.
    pub(crate) fn set_json(&mut self, alloc: Global, name: &[u8], json: &[u8]) -> u8
        ensures { SetsJson name.now json.now self.old self.new result }
    {
        let Some(name) = name_in(name) else {
            return BAD;
        };
        let Ok(json) = from_utf8(json) else {
            return BAD;
        };
        match from_json(alloc, self.context.hasher(), json) {
            Ok(value) => self.keep(name, value),
            Err(error) => self.refuse_by(alloc, &error),
        }
    }

    /// Delivers a text of the value of a name.
    pub(crate) fn give(
        &mut self,
        alloc: Global,
        name: &[u8],
        writing: Writing,
        room: &mut [u8],
        len: &mut usize,
    ) -> u8
        ensures { Gets (text_in writing) name.now self.old self.new room.old room.new len.new
            result }
    {
        *len = 0;
        let Ok(name) = from_utf8(name) else {
            return BAD;
        };
        let Some(value) = self.context.get(name) else {
            return MISSING;
        };
        match text_in(alloc, value, writing) {
            Ok(text) => deliver(text.as_str(), room, len),
            Err(error) => self.refuse_by(alloc, &error),
        }
    }

    /// Delivers the names, each with a line feed behind it.
    pub(crate) fn give_names(&mut self, alloc: Global, room: &mut [u8], len: &mut usize) -> u8
        ensures { Hands (names_in (keys self.old.context)) self.old self.new room.old room.new
            len.new result }
    {
        *len = 0;
        match names_text(alloc, &self.context) {
            Ok(text) => deliver(text.as_str(), room, len),
            Err(error) => self.refuse_by(alloc, &error),
        }
    }

    /// Delivers the script that makes the names and their values.
    pub(crate) fn give_script(&mut self, alloc: Global, room: &mut [u8], len: &mut usize) -> u8
        ensures { Saves self.old self.new room.old room.new len.new result }
    {
        *len = 0;
        match script_text(alloc, &self.context, true) {
            Ok(text) => deliver(text.as_str(), room, len),
            Err(error) => self.refuse_by(alloc, &error),
        }
    }

    /// Whether a name is there.
    pub(crate) fn has(&self, name: &[u8]) -> u8
        ensures { Has name.now self.now self.now result }
    {
        match from_utf8(name) {
            Ok(name) => {
                if self.context.contains_key(name) {
                    DONE
                } else {
                    MISSING
                }
            }
            Err(_) => BAD,
        }
    }

    /// Takes a name away.
    pub(crate) fn remove(&mut self, name: &[u8]) -> u8
        ensures { Removes name.now self.old self.new result }
    {
        match from_utf8(name) {
            Ok(name) => match self.context.remove(name) {
                Some(_) => DONE,
                None => MISSING,
            },
            Err(_) => BAD,
        }
    }

    // Keeps a value under a name.
    fn keep(&mut self, name: &str, value: Value) -> u8
        ensures { IsKept name.now value self.old self.new result
            ⊎ Stays no_memory self.old self.new result }
    {
        match self.context.insert_value(name, value) {
            Ok(()) => DONE,
            Err(_) => NO_MEMORY,
        }
    }

    // Keeps the line of a refusal as the reply. Want of memory is none.
    fn refuse_by(&mut self, alloc: Global, error: &Error) -> u8
        ensures { ((is_want (Err (refusal_of (kind_of error.now))) ≡ false)
            × IsRefused (refusal_of (kind_of error.now)) self.old self.new result)
            ⊎ Stays no_memory self.old self.new result }
    {
        if is_want(error) {
            return NO_MEMORY;
        }
        let mut text = Growing::new(alloc);
        match put_refusal(error, &mut text) {
            Ok(()) => {
                self.reply = text.into_text();
                REFUSED
            }
            Err(_) => NO_MEMORY,
        }
    }
}

// A text, marked safe or not.
fn text_value(alloc: Global, text: &str, safe: bool) -> TeraResult<Value>
    ensures { IfOk result (λ value. value ≡ marked text.now safe) }
{
    if safe {
        Value::safe_string(alloc, text)
    } else {
        Value::normal_string(alloc, text)
    }
}

// A value as a text.
fn text_in(alloc: Global, value: &Value, writing: Writing) -> TeraResult<String>
    ensures ok { IfOk result (λ text. text_in writing value.now ≡ Ok (string_bytes text)) }
    ensures err { IfErr result (Refuses (text_in writing value.now)) }
{
    match writing {
        Writing::Literal => literal_text(alloc, value, true),
        Writing::Json => to_json(alloc, value),
    }
}

// The names, each with a line feed behind it, in the order of their bytes.
fn names_text(alloc: Global, context: &Context) -> TeraResult<String>
    ensures ok { IfOk result (λ text. names_in (keys context.now) ≡ Ok (string_bytes text)) }
    ensures err { IfErr result (Refuses (names_in (keys context.now))) }
{
    let entries = context.entries()?;
    match first_broken(entries.as_slice()) {
        Some(name) => Err(Error::message_of(alloc, &[BROKEN_NAME, name])),
        None => Ok(lines_of(alloc, entries.as_slice())?),
    }
}

const BROKEN_NAME: &str = "A line feed stands inside the name ";

// The first name inside which a line feed stands.
fn first_broken<'a>(entries: &[(&'a str, &'a Value)]) -> Option<&'a str>
    ensures { option_map (λ name. name.now) result
        ≡ find is_broken (map (λ e. e.0.now) entries.now) }
{
    for (name, _) in entries {
        if is_broken(*name) {
            return Some(*name);
        }
    }
    None
}

fn is_broken(name: &str) -> bool
    ensures { result ≡ is_broken name.now }
{
    name.as_bytes().contains(&b'\n')
}

// A text of each name with a line feed behind it.
fn lines_of(alloc: Global, entries: &[(&str, &Value)]) -> Result<String, AllocError>
    ensures { IfOk result (λ text.
        string_bytes text ≡ flat_map ended (map (λ e. e.0.now) entries.now)) }
{
    let mut text = Growing::new(alloc);
    put_names(entries, &mut text)?;
    Ok(text.into_text())
}

// Puts each name with a line feed behind it.
fn put_names(entries: &[(&str, &Value)], text: &mut Growing) -> Result<(), AllocError>
    ensures { OnOk result (grown_bytes text.new ≡ grown_bytes text.old
        ++ flat_map ended (map (λ e. e.0.now) entries.now)) }
{
    for (name, _) in entries {
        text.put(*name)?;
        text.put("\n")?;
    }
    Ok(())
}

// Whether the error is want of memory. No other is.
fn is_want(error: &Error) -> bool
    ensures { result ≡ is_want (Err (refusal_of (kind_of error.now))) }
{
    matches!(error.kind(), ErrorKind::OutOfMemory)
}

// Puts the line of a refusal.
fn put_refusal(error: &Error, text: &mut Growing) -> Result<(), AllocError>
    ensures { OnOk result ((line : List ℕ) × IsReplyLine (Err (refusal_of (kind_of error.now))) line
        × (grown_bytes text.new ≡ grown_bytes text.old ++ line)) }
{
    text.put("error: ")?;
    error.tell_to(text)?;
    text.put("\n")?;
    Ok(())
}
