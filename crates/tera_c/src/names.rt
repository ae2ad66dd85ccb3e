//! Names and literals, as bytes of the caller.
ghost use Rattle.std.specs.Prelude.{◌≡◌, ◌≢◌, IfOk, MatchOption};
ghost use Rattle.std.specs.Bool.{MatchBool};
ghost use Rattle.std.specs.List.{list_all};
ghost use Rattle.tera_context.specs.Request.{command_form};
ghost use Rattle.tera_meaning.specs.Form.{Form};
ghost use Rattle.tera_meaning.specs.Request.{asking, set};
ghost use Rattle.tera_script.specs.Word.{IsName, is_name_byte, is_name_start};
ghost use Rattle.tera_c.specs.Values.{SpellsSet, set_line};

use std::alloc::{AllocError, Global};
use std::str::from_utf8;
use tera_context::{Command, Request};
use tera_script::{Reading, one_command, read_line, skipped_says_nothing};
use tera_values::{HashState, Value};

/// The name that these bytes are, if they are one. Names are ASCII.
pub(crate) fn name_in(bytes: &[u8]) -> Option<&str>
    ensures { MatchOption result (¬ IsName bytes.now)
        (λ name. IsName bytes.now × (name.now ≡ bytes.now)) }
{
    if !is_name(bytes) {
        return None;
    }
    match from_utf8(bytes) {
        Ok(name) => Some(name),
        Err(_) => None,
    }
}

// Whether they are a letter or `_`, and then letters, digits and `_`.
fn is_name(bytes: &[u8]) -> bool
    ensures { MatchBool result (IsName bytes.now) (¬ IsName bytes.now) }
{
    match bytes.split_first() {
        Some((first, others)) => is_name_start(*first) && are_name_bytes(others),
        None => false,
    }
}

fn are_name_bytes(bytes: &[u8]) -> bool
    ensures { result ≡ list_all is_name_byte bytes.now }
{
    bytes.iter().all(|byte| is_name_byte(*byte))
}

fn is_name_start(byte: u8) -> bool
    ensures { result ≡ is_name_start byte }
{
    byte.is_ascii_alphabetic() || byte == b'_'
}

fn is_name_byte(byte: u8) -> bool
    ensures { result ≡ is_name_byte byte }
{
    byte.is_ascii_alphanumeric() || byte == b'_'
}

/// The value that the line `set NAME LITERAL` gives to this name, if it says so.
pub(crate) fn value_of(
    alloc: Global,
    state: HashState,
    name: &[u8],
    literal: &[u8],
) -> Result<Option<Value>, AllocError>
    ensures { IfOk result (λ found.
        MatchOption found (¬ ((value : Form) × SpellsSet name.now literal.now value))
        (SpellsSet name.now literal.now)) }
{
    one_command();
    skipped_says_nothing();
    let line = set_line(alloc, name, literal)?;
    match read_line(alloc, state, line.as_slice())? {
        Reading::Says(command) => Ok(value_set(command, name)),
        Reading::Skipped => Ok(None),
        Reading::Bad => Ok(None),
    }
}

// The line of `set` with this name and this literal.
fn set_line(alloc: Global, name: &[u8], literal: &[u8]) -> Result<Vec<u8>, AllocError>
    ensures { IfOk result (λ line. line.items ≡ set_line name.now literal.now) }
{
    let mut line = Vec::new(alloc);
    line.extend_from_slice(b"set ")?;
    line.extend_from_slice(name)?;
    line.extend_from_slice(b" ")?;
    line.extend_from_slice(literal)?;
    Ok(line)
}

// The value that a command sets this name to, if it does.
fn value_set(command: Command<'_>, name: &[u8]) -> Option<Value>
    ensures { MatchOption result
        ((value : Form) → command_form command.entry ≢ asking (set name.now value))
        (λ value. command_form command.entry ≡ asking (set name.now value)) }
{
    let Command { request, into } = command;
    if into.is_some() {
        return None;
    }
    match request {
        Request::Set { name: of, value } => {
            if of.as_bytes() == name {
                Some(value)
            } else {
                None
            }
        }
        Request::Extend { source: _ } => None,
        Request::Remove { name: _ } => None,
        Request::MarkSafe { name: _ } => None,
        Request::Ask {
            question: _,
            name: _,
        } => None,
        Request::Weigh {
            weighing: _,
            left: _,
            right: _,
        } => None,
        Request::Find(_) => None,
    }
}
