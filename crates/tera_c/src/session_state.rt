//! What a session holds, and how it takes a line.
ghost use Rattle.std.specs.Prelude.{◌≡◌, ◌⊎◌, ◌++◌, [], OnOk};
ghost use Rattle.tera_report.specs.Errors.{report_of};
ghost use Rattle.tera_report.specs.Growing.{grown_bytes};
ghost use Rattle.tera_report.specs.Report.{report_text};
ghost use Rattle.tera_script.specs.Line.{IsSkipped};
ghost use Rattle.tera_replies.specs.Script.{ended};
ghost use Rattle.tera_c.specs.Lines.{feed_report};
ghost use Rattle.tera_c.specs.Status.{done, no_reply};
ghost use Rattle.tera_c.specs.Sessions.{ComesOf, FindsLent, Hears, IsFresh, IsPutOff, IsReported};

use crate::line::{feed_report, line_of};
use crate::status::{BAD, DONE, NO_MEMORY, NO_REPLY, WANTED};
use std::alloc::{AllocError, Global};
use tera_context::Context;
use tera_replies::{Fault, answer_line};
use tera_report::ReportError;
use tera_report::sink::{Growing, Sink};
use tera_script::skipped_says_nothing;
use tera_values::HashState;

/// What the names of a session mean, and the reply to its last line.
#[derive(Drop)]
pub struct SessionState {
    pub(crate) context: Context,
    pub(crate) reply: String,
}

impl SessionState {
    /// No names, and no reply. Takes no memory.
    pub(crate) fn new(alloc: Global, state: HashState) -> SessionState
        ensures { IsFresh result }
    {
        SessionState {
            context: Context::with_hasher(alloc, state),
            reply: String::new(alloc),
        }
    }

    /// Takes what is given as a line, and keeps the reply.
    pub(crate) fn take(&mut self, alloc: Global, given: &[u8]) -> u8
        ensures { Hears self.old given.now self.new result }
    {
        match line_of(given) {
            Ok(line) => self.take_line(alloc, line),
            Err(first) => self.refuse(alloc, first),
        }
    }

    // Takes a line, and keeps its reply.
    fn take_line(&mut self, alloc: Global, line: &[u8]) -> u8
        ensures comes { ComesOf self.old line.now self.new result }
        ensures skipped { IsSkipped line.now → result ≡ done }
        ensures lent { FindsLent self.old line.now → (result ≡ done) ⊎ (result ≡ no_reply) }
    {
        skipped_says_nothing();
        let mut reply = Growing::new(alloc);
        let answered = answer_line(alloc, 1, line, &mut self.context, &mut reply);
        match answered {
            Ok(wanted) => {
                self.reply = reply.into_text();
                if wanted { WANTED } else { DONE }
            }
            Err(Fault::BadLine(report)) => self.keep_report(alloc, &report),
            Err(Fault::WriteFailed) => {
                self.reply = String::new(alloc);
                NO_REPLY
            }
            Err(_) => {
                self.reply = String::new(alloc);
                NO_MEMORY
            }
        }
    }

    // Keeps the report of a line feed inside a line as the reply.
    fn refuse(&mut self, alloc: Global, first: &[u8]) -> u8
        ensures { IsReported (feed_report first.now) self.old self.new result
            ⊎ IsPutOff self.old self.new result }
    {
        match feed_report(alloc, first) {
            Ok(report) => self.keep_report(alloc, &report),
            Err(_) => {
                self.reply = String::new(alloc);
                NO_MEMORY
            }
        }
    }

    // Keeps the report of a bad line as the reply.
    fn keep_report(&mut self, alloc: Global, report: &ReportError) -> u8
        ensures { IsReported (report_of report.now) self.old self.new result
            ⊎ IsPutOff self.old self.new result }
    {
        let mut text = Growing::new(alloc);
        match put_report(report, &mut text) {
            Ok(()) => {
                self.reply = text.into_text();
                BAD
            }
            Err(_) => {
                self.reply = String::new(alloc);
                NO_MEMORY
            }
        }
    }
}

// Puts a report, and a line feed.
fn put_report(report: &ReportError, text: &mut Growing) -> Result<(), AllocError>
    ensures { OnOk result (grown_bytes text.new
        ≡ grown_bytes text.old ++ ended (report_text (report_of report.now))) }
{
    report.tell_to(text)?;
    text.put("\n")?;
    Ok(())
}
