//! Why there is no page, and what is told of it.
ghost use Rattle.std.specs.Prelude.{◌≡◌, true, false};
ghost use Rattle.tera.specs.Sink.{Puts};
ghost use Rattle.tera_render.specs.Faults.{IsLine, IsNamedLine, IsTold, wants};
ghost use Rattle.tera_render.specs.declared.fault.Fault.TheVariants.{NoMemory, NoPage, Refused};

use tera::sink::Sink;
use tera::words::put_all;
use tera::{Error, ErrorKind};

/// Why a text is not read.
#[derive(Clone, Copy)]
pub(crate) enum Unread {
    /// It is not there, is no UTF-8, or its reading failed.
    Failed,
    /// No memory was found for it.
    NoMemory,
}

/// Why there is no page.
#[derive(Drop)]
pub(crate) enum Fault<'a> {
    /// The text of that name is not read.
    Unread(&'a str),
    /// No memory was found.
    NoMemory,
    /// The text is no template, or that has no page; the error has a report of the place.
    NoPage(Error),
    /// What stands in the document of that name is refused.
    Refused(&'a str, Error),
}

/// Why a template is none, or has no page: this error, or that no memory was found.
pub(crate) fn no_page<'a>(error: Error) -> Fault<'a>
    ensures want { wants error ≡ true → result ≡ NoMemory }
    ensures other { wants error ≡ false → result ≡ NoPage error }
{
    if is_want(&error) {
        Fault::NoMemory
    } else {
        Fault::NoPage(error)
    }
}

/// Why there is no page where the document of a name is refused: this error, or that no memory was
/// found.
pub(crate) fn refused<'a>(name: &'a str, error: Error) -> Fault<'a>
    ensures want { wants error ≡ true → result ≡ NoMemory }
    ensures other { wants error ≡ false → result ≡ Refused name.entry error }
{
    if is_want(&error) {
        Fault::NoMemory
    } else {
        Fault::Refused(name, error)
    }
}

// Whether the error is want of memory. No other is.
fn is_want(error: &Error) -> bool
    ensures { result ≡ wants error.now }
{
    matches!(error.kind(), ErrorKind::OutOfMemory)
}

/// Puts what is told of a fault. Takes no memory.
pub(crate) fn put_fault<E: Sink>(fault: &Fault<'_>, err: &mut E) -> Result<(), E::Fault>
    ensures { Puts E.takes E.fails result (IsTold fault.now) err.old err.new }
{
    match fault {
        Fault::Unread(name) => put_all(&["error: cannot read ", *name, "\n"], err),
        Fault::NoMemory => err.put("error: Out of memory\n"),
        Fault::NoPage(error) => put_line(error, err),
        Fault::Refused(name, error) => put_named(*name, error, err),
    }
}

// Puts whose text is refused, and why.
fn put_named<E: Sink>(name: &str, error: &Error, err: &mut E) -> Result<(), E::Fault>
    ensures { Puts E.takes E.fails result (IsNamedLine name.now error.now) err.old err.new }
{
    put_all(&["error: ", name, ": "], err)?;
    put_line(error, err)
}

// Puts the text of an error, and a line feed.
fn put_line<E: Sink>(error: &Error, err: &mut E) -> Result<(), E::Fault>
    ensures { Puts E.takes E.fails result (IsLine error.now) err.old err.new }
{
    error.tell_to(err)?;
    err.put("\n")
}
