//! The exports for values of a session.
ghost use Rattle.std.specs.Prelude.{◌==◌, IfNone, not};
ghost use Rattle.std.specs.FinMap.{keys};
ghost use Rattle.tera_c.specs.Sessions.{Goes};
ghost use Rattle.tera_c.specs.Values.{Gets, Hands, Has, IsShut, IsUntouched, Removes, Saves};
ghost use Rattle.tera_c.specs.Values.{SetsJson, SetsLiteral, SetsText, json_in, literal_in};
ghost use Rattle.tera_c.specs.Values.{names_in};

use crate::session::Session;
use crate::session_values::Writing;
use crate::status::CLOSED;
use std::alloc::Global;
use std::mem;

/// Sets a name to the value that a literal spells.
#[unsafe(no_mangle)]
pub extern "C" fn tera_set(alloc: Global, session: &mut Session, name: &[u8], literal: &[u8]) -> u8
    ensures opened { Goes session.old.inner
        (λ old new. SetsLiteral name.now literal.now old new result) session.new.inner }
    ensures closed { IfNone session.old.inner (IsShut session.new.inner result) }
{
    match mem::replace(session, Session::closed()).into_box(alloc) {
        Some(mut inner) => {
            let status = inner.set(alloc, name, literal);
            *session = Session::of(inner);
            status
        }
        None => CLOSED,
    }
}

/// Sets a name to a text, which is marked safe or not.
#[unsafe(no_mangle)]
pub extern "C" fn tera_set_text(
    alloc: Global,
    session: &mut Session,
    name: &[u8],
    text: &[u8],
    safe: u8,
) -> u8
    ensures opened { Goes session.old.inner
        (λ old new. SetsText name.now text.now (not (safe == 0)) old new result)
        session.new.inner }
    ensures closed { IfNone session.old.inner (IsShut session.new.inner result) }
{
    match mem::replace(session, Session::closed()).into_box(alloc) {
        Some(mut inner) => {
            let status = inner.set_text(alloc, name, text, safe != 0);
            *session = Session::of(inner);
            status
        }
        None => CLOSED,
    }
}

/// Sets a name to the value of a text of JSON.
#[unsafe(no_mangle)]
pub extern "C" fn tera_set_json(
    alloc: Global,
    session: &mut Session,
    name: &[u8],
    json: &[u8],
) -> u8
    ensures opened { Goes session.old.inner
        (λ old new. SetsJson name.now json.now old new result) session.new.inner }
    ensures closed { IfNone session.old.inner (IsShut session.new.inner result) }
{
    match mem::replace(session, Session::closed()).into_box(alloc) {
        Some(mut inner) => {
            let status = inner.set_json(alloc, name, json);
            *session = Session::of(inner);
            status
        }
        None => CLOSED,
    }
}

/// Writes the literal of the value of a name.
#[unsafe(no_mangle)]
pub extern "C" fn tera_get(
    alloc: Global,
    session: &mut Session,
    name: &[u8],
    room: &mut [u8],
    len: &mut usize,
) -> u8
    ensures opened { Goes session.old.inner
        (λ old new. Gets literal_in name.now old new room.old room.new len.new result)
        session.new.inner }
    ensures closed { IfNone session.old.inner
        (IsShut session.new.inner result × IsUntouched room.old room.new len.new) }
{
    match mem::replace(session, Session::closed()).into_box(alloc) {
        Some(mut inner) => {
            let status = inner.give(alloc, name, Writing::Literal, room, len);
            *session = Session::of(inner);
            status
        }
        None => {
            *len = 0;
            CLOSED
        }
    }
}

/// Writes the value of a name as JSON.
#[unsafe(no_mangle)]
pub extern "C" fn tera_get_json(
    alloc: Global,
    session: &mut Session,
    name: &[u8],
    room: &mut [u8],
    len: &mut usize,
) -> u8
    ensures opened { Goes session.old.inner
        (λ old new. Gets json_in name.now old new room.old room.new len.new result)
        session.new.inner }
    ensures closed { IfNone session.old.inner
        (IsShut session.new.inner result × IsUntouched room.old room.new len.new) }
{
    match mem::replace(session, Session::closed()).into_box(alloc) {
        Some(mut inner) => {
            let status = inner.give(alloc, name, Writing::Json, room, len);
            *session = Session::of(inner);
            status
        }
        None => {
            *len = 0;
            CLOSED
        }
    }
}

/// Tells whether a name is there.
#[unsafe(no_mangle)]
pub extern "C" fn tera_has(alloc: Global, session: &mut Session, name: &[u8]) -> u8
    ensures opened { Goes session.old.inner (λ old new. Has name.now old new result)
        session.new.inner }
    ensures closed { IfNone session.old.inner (IsShut session.new.inner result) }
{
    match mem::replace(session, Session::closed()).into_box(alloc) {
        Some(inner) => {
            let status = inner.has(name);
            *session = Session::of(inner);
            status
        }
        None => CLOSED,
    }
}

/// Takes a name away.
#[unsafe(no_mangle)]
pub extern "C" fn tera_remove(alloc: Global, session: &mut Session, name: &[u8]) -> u8
    ensures opened { Goes session.old.inner (λ old new. Removes name.now old new result)
        session.new.inner }
    ensures closed { IfNone session.old.inner (IsShut session.new.inner result) }
{
    match mem::replace(session, Session::closed()).into_box(alloc) {
        Some(mut inner) => {
            let status = inner.remove(name);
            *session = Session::of(inner);
            status
        }
        None => CLOSED,
    }
}

/// Writes each name with a line feed behind it, in the order of their bytes.
#[unsafe(no_mangle)]
pub extern "C" fn tera_names(
    alloc: Global,
    session: &mut Session,
    room: &mut [u8],
    len: &mut usize,
) -> u8
    ensures opened { Goes session.old.inner
        (λ old new. Hands (names_in (keys old.context)) old new room.old room.new len.new result)
        session.new.inner }
    ensures closed { IfNone session.old.inner
        (IsShut session.new.inner result × IsUntouched room.old room.new len.new) }
{
    match mem::replace(session, Session::closed()).into_box(alloc) {
        Some(mut inner) => {
            let status = inner.give_names(alloc, room, len);
            *session = Session::of(inner);
            status
        }
        None => {
            *len = 0;
            CLOSED
        }
    }
}

/// Writes the session as a script.
#[unsafe(no_mangle)]
pub extern "C" fn tera_save(
    alloc: Global,
    session: &mut Session,
    room: &mut [u8],
    len: &mut usize,
) -> u8
    ensures opened { Goes session.old.inner
        (λ old new. Saves old new room.old room.new len.new result) session.new.inner }
    ensures closed { IfNone session.old.inner
        (IsShut session.new.inner result × IsUntouched room.old room.new len.new) }
{
    match mem::replace(session, Session::closed()).into_box(alloc) {
        Some(mut inner) => {
            let status = inner.give_script(alloc, room, len);
            *session = Session::of(inner);
            status
        }
        None => {
            *len = 0;
            CLOSED
        }
    }
}
