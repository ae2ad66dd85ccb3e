//! What is told on standard error.
ghost use Rattle.std.specs.Prelude.{◌++◌, codes};
ghost use Rattle.tera_cli.specs.Faults.{cannot, told_of};
ghost use Rattle.tera_cli.specs.Why.{IsWhy, TellsWhy, why_text};
ghost use Rattle.tera_replies.specs.Output.{TakesOrFails};
ghost use Rattle.tera_replies.specs.Script.{ended};
ghost use Rattle.tera_report.specs.Errors.{report_of};
ghost use Rattle.tera_report.specs.Report.{report_text};
ghost use Rattle.tera_report.specs.Sink.{PutsThese};
ghost use Rattle.tera_script.specs.Expected.{told_expected};

use tera_replies::Fault;
use tera_report::ReportError;
use tera_report::sink::Sink;
use tera_script::{Expected, expected};

/// Tells the report of a bad line, and where it is asked for what was expected, where the sink
/// takes it.
pub(crate) fn tell_bad_line<E: Sink>(report: &ReportError, why: bool, line: &[u8], err: &mut E)
    ensures { TellsWhy (TakesOrFails E.takes E.fails) why line.now
        (ended (report_text (report_of report.now))) err.old err.new }
{
    let found = reason(why, line);
    let _ = put_bad_line(report, found, err);
}

// What was expected of a line, where that is asked for.
fn reason(why: bool, line: &[u8]) -> Option<Expected>
    ensures { IsWhy why line.now (why_text result) }
{
    if why { expected(line) } else { None }
}

// Puts a report, and what was expected, each with a line feed.
fn put_bad_line<E: Sink>(
    report: &ReportError,
    found: Option<Expected>,
    err: &mut E,
) -> Result<(), E::Fault>
    ensures { PutsThese E.takes E.fails result
        (ended (report_text (report_of report.now)) ++ why_text found) err.old err.new }
{
    put_report(report, err)?;
    match found {
        Some(found) => put_expected(found, err),
        None => Ok(()),
    }
}

// Puts what was expected, and a line feed.
fn put_expected<E: Sink>(found: Expected, err: &mut E) -> Result<(), E::Fault>
    ensures { PutsThese E.takes E.fails result (ended (told_expected found)) err.old err.new }
{
    found.tell_to(err)?;
    err.put("\n")
}

/// Puts what is to be said of a fault.
pub(crate) fn put_fault<E: Sink>(fault: &Fault, err: &mut E) -> Result<(), E::Fault>
    ensures { PutsThese E.takes E.fails result (told_of fault.now) err.old err.new }
{
    match fault {
        Fault::BadLine(report) => put_report(report, err),
        Fault::ReadFailed => err.put("error: reading failed\n"),
        Fault::WriteFailed => err.put("error: writing failed\n"),
        Fault::OutOfMemory => err.put("error: Out of memory\n"),
    }
}

// Puts a report, and a line feed.
fn put_report<E: Sink>(report: &ReportError, err: &mut E) -> Result<(), E::Fault>
    ensures { PutsThese E.takes E.fails result (ended (report_text (report_of report.now)))
        err.old err.new }
{
    report.tell_to(err)?;
    err.put("\n")
}

/// What is told of a file's name that is no text.
pub(crate) const NO_TEXT: &str = "error: the name of the file is no UTF-8\n";

/// Tells a text, where the sink takes it.
pub(crate) fn tell<E: Sink>(text: &str, err: &mut E)
    ensures { TakesOrFails E.takes E.fails err.old text.now err.new }
{
    let _ = err.put(text);
}

/// Tells that no memory was found, where the sink takes it.
pub(crate) fn tell_no_memory<E: Sink>(err: &mut E)
    ensures { TakesOrFails E.takes E.fails err.old (codes "error: Out of memory\n") err.new }
{
    tell("error: Out of memory\n", err);
}

/// Tells that a file cannot be read or written, where the sink takes it.
pub(crate) fn tell_cannot<E: Sink>(verb: &str, name: &str, err: &mut E)
    ensures { TakesOrFails E.takes E.fails err.old (cannot verb.now name.now) err.new }
{
    let _ = put_cannot(verb, name, err);
}

// Puts that a file cannot be read or written.
fn put_cannot<E: Sink>(verb: &str, name: &str, err: &mut E) -> Result<(), E::Fault>
    ensures { PutsThese E.takes E.fails result (cannot verb.now name.now) err.old err.new }
{
    err.put("error: cannot ")?;
    err.put(verb)?;
    err.put(" ")?;
    err.put(name)?;
    err.put("\n")
}
