//! The library for C: a whole script, a session line by line, and escaping, into rooms that the
//! caller gives. include/tera.h says what each export is for, and what C has to uphold.
#![tactic(auto)]

ghost use Rattle.std.specs.Prelude.{◌≡◌, ◌≢◌, ◌⊎◌, List, ℕ, [], length, None, IsUtf8};
ghost use Rattle.std.specs.Prelude.{IfNone, IfSome, OnSome};
ghost use Rattle.tera_report.specs.Escaping.{Spells};
ghost use Rattle.tera_c.specs.Rooms.{IsDelivered};
ghost use Rattle.tera_c.specs.Scripts.{FoundNoMemory, IsReplayed};
ghost use Rattle.tera_c.specs.Status.{bad, closed, is_open, no_memory};
ghost use Rattle.tera_c.specs.Sessions.{Goes, Hears, Opens, reply_of};
ghost use Rattle.tera_c.specs.Version.{version_number};

mod escape;
mod fallible_text;
mod line;
mod measure;
mod names;
mod parts;
mod rooms;
mod script;
mod session;
mod session_state;
mod session_values;
mod status;
mod values;
mod version;

use escape::escape_into;
use measure::escaped_len_of;
use rooms::deliver;
use script::replay_into;
use session::Session;
use session_state::SessionState;
use simdutf8::basic::from_utf8;
use status::{BAD, CLOSED, DONE, NO_MEMORY, OPEN, SMALL};
use std::alloc::Global;
use std::mem;
use tera_values::HashState;
use version::{MAJOR, MINOR, PATCH};

/// The version of the library as one number: that of 0.2.0.
#[unsafe(no_mangle)]
pub extern "C" fn tera_version() -> u32
    ensures { result ≡ version_number 0 2 0 }
{
    MAJOR * 65536 + MINOR * 256 + PATCH
}

/// Replays a whole script, hashed under the fixed state.
#[unsafe(no_mangle)]
pub extern "C" fn tera_replay(
    alloc: Global,
    script: &[u8],
    answers: &mut [u8],
    answers_len: &mut usize,
    report: &mut [u8],
    report_len: &mut usize,
) -> u8
    ensures { IsReplayed script.now answers.old answers.new report.old report.new
        answers_len.new report_len.new result
        ⊎ FoundNoMemory answers.old answers.new report.old report.new
        answers_len.new report_len.new result }
{
    let state = HashState::fixed();
    replay_into(
        alloc,
        state,
        script,
        answers,
        answers_len,
        report,
        report_len,
    )
}

/// Replays a whole script, hashed under a seed.
#[unsafe(no_mangle)]
pub extern "C" fn tera_replay_seeded(
    alloc: Global,
    script: &[u8],
    seed: &[u8; 16],
    answers: &mut [u8],
    answers_len: &mut usize,
    report: &mut [u8],
    report_len: &mut usize,
) -> u8
    ensures { IsReplayed script.now answers.old answers.new report.old report.new
        answers_len.new report_len.new result
        ⊎ FoundNoMemory answers.old answers.new report.old report.new
        answers_len.new report_len.new result }
{
    let state = HashState::from_bytes(seed);
    replay_into(
        alloc,
        state,
        script,
        answers,
        answers_len,
        report,
        report_len,
    )
}

/// Opens a session, hashed under the fixed state.
#[unsafe(no_mangle)]
pub extern "C" fn tera_open(alloc: Global, session: &mut Session) -> u8
    ensures fresh { IfNone session.old.inner (Opens session.new.inner result) }
    ensures opened { OnSome session.old.inner
        ((result ≡ is_open) × (session.new.inner ≡ session.old.inner)) }
{
    open_session(alloc, HashState::fixed(), session)
}

/// Opens a session, hashed under a seed.
#[unsafe(no_mangle)]
pub extern "C" fn tera_open_seeded(alloc: Global, session: &mut Session, seed: &[u8; 16]) -> u8
    ensures fresh { IfNone session.old.inner (Opens session.new.inner result) }
    ensures opened { OnSome session.old.inner
        ((result ≡ is_open) × (session.new.inner ≡ session.old.inner)) }
{
    open_session(alloc, HashState::from_bytes(seed), session)
}

// Opens a session that is closed.
fn open_session(alloc: Global, state: HashState, session: &mut Session) -> u8
    ensures fresh { IfNone session.old.inner (Opens session.new.inner result) }
    ensures opened { OnSome session.old.inner
        ((result ≡ is_open) × (session.new.inner ≡ session.old.inner)) }
{
    match mem::replace(session, Session::closed()).into_box(alloc) {
        Some(inner) => {
            *session = Session::of(inner);
            OPEN
        }
        None => match Box::new(alloc, SessionState::new(alloc, state)) {
            Ok(inner) => {
                *session = Session::of(inner);
                DONE
            }
            Err(_) => NO_MEMORY,
        },
    }
}

/// Takes what is given as a line, and says how long its reply is.
#[unsafe(no_mangle)]
pub extern "C" fn tera_line(
    alloc: Global,
    session: &mut Session,
    line: &[u8],
    reply_len: &mut usize,
) -> u8
    ensures opened { Goes session.old.inner
        (λ old new. Hears old line.now new result × (reply_len.new ≡ length (reply_of new)))
        session.new.inner }
    ensures closed { IfNone session.old.inner
        ((session.new.inner ≡ None) × (result ≡ closed) × (reply_len.new ≡ 0)) }
{
    match mem::replace(session, Session::closed()).into_box(alloc) {
        Some(mut inner) => {
            let status = inner.take(alloc, line);
            *reply_len = inner.reply.len();
            *session = Session::of(inner);
            status
        }
        None => {
            *reply_len = 0;
            CLOSED
        }
    }
}

/// Copies the reply to the last line into a room.
#[unsafe(no_mangle)]
pub extern "C" fn tera_reply(
    alloc: Global,
    session: &mut Session,
    reply: &mut [u8],
    reply_len: &mut usize,
) -> u8
    ensures same { session.new.inner ≡ session.old.inner }
    ensures opened { IfSome session.old.inner
        (λ inner. IsDelivered (reply_of inner) reply.old reply.new reply_len.new result) }
    ensures closed { IfNone session.old.inner
        ((result ≡ closed) × (reply_len.new ≡ 0) × (reply.new ≡ reply.old)) }
{
    match mem::replace(session, Session::closed()).into_box(alloc) {
        Some(inner) => {
            let status = deliver(inner.reply.as_str(), reply, reply_len);
            *session = Session::of(inner);
            status
        }
        None => {
            *reply_len = 0;
            CLOSED
        }
    }
}

/// Closes a session, if it is open.
#[unsafe(no_mangle)]
pub extern "C" fn tera_close(alloc: Global, session: &mut Session)
    ensures { session.new.inner ≡ None }
{
    drop(mem::replace(session, Session::closed()).into_box(alloc));
}

/// Escapes a text for HTML.
#[unsafe(no_mangle)]
pub extern "C" fn tera_escape(text: &[u8], escaped: &mut [u8], escaped_len: &mut usize) -> u8
    ensures { (IsUtf8 text.now × ((bytes : List ℕ) × Spells bytes text.now
        × IsDelivered bytes escaped.old escaped.new escaped_len.new result))
        ⊎ ((escaped.new ≡ escaped.old) × (escaped_len.new ≡ 0)
        × (((result ≡ bad) × ¬ IsUtf8 text.now)
        ⊎ ((result ≡ no_memory) × IsUtf8 text.now × (text.now ≢ [])))) }
{
    *escaped_len = 0;
    let Ok(text) = from_utf8(text) else {
        return BAD;
    };
    let Some(len) = escaped_len_of(text) else {
        return NO_MEMORY;
    };
    *escaped_len = len;
    if escaped.len() < len {
        return SMALL;
    }
    escape_into(text, &mut escaped[..len]);
    DONE
}
