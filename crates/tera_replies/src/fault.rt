//! Why a line, or a replay, is not answered to its end.
ghost use Rattle.std.specs.Prelude.{◌≡◌, Ok, Err, MatchResult};
ghost use Rattle.tera_report.specs.Sink.{PutsThese};
ghost use Rattle.tera_replies.specs.declared.fault.Fault.TheVariants.{ReadFailed, WriteFailed};
ghost use Rattle.tera_replies.specs.declared.fault.Fault.TheVariants.{OutOfMemory};

use std::alloc::{AllocError, AllocFailed};
use tera_report::ReportError;
use tera_report::sink::Sink;

/// Why a line, or a replay, is not answered to its end.
#[derive(Debug, Drop)]
pub enum Fault {
    /// A line is bad, and this is its report.
    BadLine(Box<ReportError>),
    /// A read failed. Of one line this is never said.
    ReadFailed,
    /// A write of an answer failed, or a flush behind it.
    WriteFailed,
    /// The program itself found no memory.
    OutOfMemory,
}

/// A write failed. It is as small as can be, since each reply is put in several parts.
#[derive(Drop)]
pub(crate) struct WriteError;

/// Want of memory.
impl From<AllocError> for Fault {
    ghost from_gives = { λ _ fault. fault ≡ OutOfMemory };

    fn from(_refused: AllocError) -> Fault {
        Fault::OutOfMemory
    }
}

/// Want of memory.
impl<T: Drop> From<AllocFailed<T>> for Fault {
    ghost from_gives = { λ _ fault. fault ≡ OutOfMemory };

    fn from(_refused: AllocFailed<T>) -> Fault {
        Fault::OutOfMemory
    }
}

/// A failed read.
impl From<crate::source::ReadError> for Fault {
    ghost from_gives = { λ _ fault. fault ≡ ReadFailed };

    fn from(_failed: crate::source::ReadError) -> Fault {
        Fault::ReadFailed
    }
}

/// What was put, or that a write failed.
pub(crate) fn written<E: Drop>(put: Result<(), E>) -> Result<(), Fault>
    ensures { MatchResult put (λ _. result ≡ Ok tt) (λ _. result ≡ Err WriteFailed) }
{
    match put {
        Ok(()) => Ok(()),
        Err(_) => Err(Fault::WriteFailed),
    }
}

/// Puts a text.
#[inline(always)]
pub(crate) fn put<W: Sink>(text: &str, out: &mut W) -> Result<(), WriteError>
    ensures { PutsThese W.takes W.fails result text.now out.old out.new }
{
    match out.put(text) {
        Ok(()) => Ok(()),
        Err(_) => Err(WriteError),
    }
}
