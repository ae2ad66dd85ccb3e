//! Why there is no page, and the report of it.
ghost use Rattle.std.specs.Prelude.{◌≡◌, true, IfOk, IfErr};
ghost use Rattle.tera.specs.Errors.{IsOutOfMemory, kind_of, refusal_of};
ghost use Rattle.tera_page.specs.Failures.{Fails, Reports, ReportsAt};
ghost use Rattle.tera_page.specs.Rendering.{Pieces};

use crate::place::report_at;
use std::alloc::{AllocError, AllocFailed, Global};
use tera::sink::Growing;
use tera::{Error, ErrorKind, TeraResult};

/// Why there is no page: the error, and the template from the tag on for which it is due. Want of
/// memory is due for none.
#[derive(Drop)]
pub(crate) struct Failure<'a> {
    pub(crate) error: Error,
    pub(crate) from: &'a str,
}

impl From<Error> for Failure<'_> {
    ghost use Rattle.std.specs.Prelude.{◌≡◌};

    ghost from_gives = { λ e s. s.error ≡ e };

    fn from(error: Error) -> Self {
        Failure { error, from: "" }
    }
}

impl From<AllocError> for Failure<'_> {
    ghost use Rattle.tera.specs.Errors.{IsOutOfMemory};

    ghost from_gives = { λ _ s. IsOutOfMemory s.error };

    fn from(refused: AllocError) -> Self {
        Failure::from(Error::from(refused))
    }
}

impl<T: Drop> From<AllocFailed<T>> for Failure<'_> {
    ghost use Rattle.tera.specs.Errors.{IsOutOfMemory};

    ghost from_gives = { λ _ s. IsOutOfMemory s.error };

    fn from(_refused: AllocFailed<T>) -> Self {
        Failure::from(Error::from(AllocError))
    }
}

impl Failure<'_> {
    /// The error as a report that shows the place in the source of that file. Want of memory stays
    /// what it is.
    pub(crate) fn into_report(self, alloc: Global, file: &str, source: &str) -> Error
        ensures { (pieces : Pieces) → Fails pieces self.entry
            → Reports file.now source.now pieces result }
    {
        if is_want(&self.error) {
            return Error::from(AllocError);
        }
        match report(alloc, &self.error, file, source, self.from) {
            Ok(error) => error,
            Err(error) => error,
        }
    }
}

// Whether an error is want of memory.
fn is_want(error: &Error) -> bool
    ensures { IsOutOfMemory error.now → result ≡ true }
{
    matches!(error.kind(), ErrorKind::OutOfMemory)
}

// The report of an error at the rest of a source.
fn report(alloc: Global, error: &Error, file: &str, source: &str, rest: &str) -> TeraResult<Error>
    ensures ok { IfOk result
        (ReportsAt file.now source.now rest.now (refusal_of (kind_of error.now))) }
    ensures err { IfErr result IsOutOfMemory }
{
    let mut words = Growing::new(alloc);
    error.tell_to(&mut words)?;
    let report = report_at(alloc, words.into_text(), file, source, rest)?;
    Ok(Error::new(ErrorKind::RenderingError(Box::new(alloc, report)?)))
}
