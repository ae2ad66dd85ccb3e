//! Why a text is no template.
ghost use Rattle.std.specs.Prelude.{◌≡◌, IfOk, IfErr};
ghost use Rattle.tera.specs.Errors.{IsOutOfMemory};
ghost use Rattle.tera_page.specs.Reading.{ShowsAt, Tells};
ghost use Rattle.tera_page.specs.declared.fault.Fault.TheVariants.{Memory};

use crate::place::report_at;
use std::alloc::{AllocError, AllocFailed, Global};
use tera::{Error, ErrorKind, TeraResult};

/// Why a text is no template, with the text from there on.
#[derive(Drop)]
pub(crate) enum Fault<'a> {
    /// Memory was refused.
    Memory,
    /// What stands there is not read.
    Bad(&'a str),
    /// A tag inside as many others as there may be.
    Deep(&'a str),
    /// An expression of more words and signs than there may be.
    Long(&'a str),
    /// An expression that names a filter that there is not.
    Unnamed(&'a str),
}

impl From<AllocError> for Fault<'_> {
    ghost use Rattle.std.specs.Prelude.{◌≡◌};
    ghost use Rattle.tera_page.specs.declared.fault.Fault.TheVariants.{Memory};

    ghost from_gives = { λ _ s. s ≡ Memory };

    fn from(_refused: AllocError) -> Self {
        Fault::Memory
    }
}

impl<T: Drop> From<AllocFailed<T>> for Fault<'_> {
    ghost use Rattle.std.specs.Prelude.{◌≡◌};
    ghost use Rattle.tera_page.specs.declared.fault.Fault.TheVariants.{Memory};

    ghost from_gives = { λ _ s. s ≡ Memory };

    fn from(_refused: AllocFailed<T>) -> Self {
        Fault::Memory
    }
}

impl Fault<'_> {
    /// The error of a text of that file that is no template, with a report that shows the place.
    pub(crate) fn into_error(self, alloc: Global, file: &str, source: &str) -> Error
        ensures tells { Tells self.entry file.now source.now result }
        ensures memory { self.entry ≡ Memory → IsOutOfMemory result }
    {
        match self {
            Fault::Memory => out_of_memory(),
            Fault::Bad(at) => told(alloc, "This is not read", file, source, at),
            Fault::Deep(at) => told(alloc, "More than 64 levels", file, source, at),
            Fault::Long(at) => told(alloc, "More than 128 words and signs", file, source, at),
            Fault::Unnamed(at) => told(alloc, "There is no such filter", file, source, at),
        }
    }
}

// The error that shows a message at the rest of a source.
fn told(alloc: Global, message: &'static str, file: &str, source: &str, at: &str) -> Error
    ensures { ShowsAt message.now file.now source.now at.now result }
{
    match report(alloc, message, file, source, at) {
        Ok(error) => error,
        Err(error) => error,
    }
}

fn report(
    alloc: Global,
    message: &'static str,
    file: &str,
    source: &str,
    at: &str,
) -> TeraResult<Error>
    ensures ok { IfOk result (ShowsAt message.now file.now source.now at.now) }
    ensures err { IfErr result IsOutOfMemory }
{
    let message = String::from_str(alloc, message)?;
    let report = report_at(alloc, message, file, source, at)?;
    Ok(Error::new(ErrorKind::SyntaxError(Box::new(alloc, report)?)))
}

fn out_of_memory() -> Error
    ensures { IsOutOfMemory result }
{
    Error::from(AllocError)
}
