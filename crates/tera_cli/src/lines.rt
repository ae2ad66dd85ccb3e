//! The lines of an input in turn.
ghost use Rattle.std.specs.Prelude.{◌≡◌, ◌≢◌, ◌⊎◌, [], false, true, IfErr, Ok, OnOk};
ghost use Rattle.std.specs.Io.{StopsAt};
ghost use Rattle.std.specs.Io.KnownBytes.{Consumes, IsAtEnd};
ghost use Rattle.tera_cli.specs.Conversation.{IsLine};
ghost use Rattle.tera_replies.specs.Script.{line_feed, without_return};
ghost use Rattle.tera_replies.specs.declared.fault.Fault.TheVariants.{OutOfMemory, ReadFailed};
ghost use Rattle.tera_replies.specs.declared.fault.Fault.TheVariants.{WriteFailed};

use std::alloc::Global;
use std::io::{BufRead, ErrorKind};
use tera_context::Context;
use tera_replies::{Fault, answer_line};
use tera_report::sink::Sink;

/// Answers the lines of an input in turn, up to its end or the first fault, and says whether an
/// answer was want of memory. Where a line is bad it is what was heard last.
pub(crate) fn answer_lines<I: BufRead, W: Sink>(
    alloc: Global,
    heard: &mut Vec<u8>,
    context: &mut Context,
    input: &mut I,
    out: &mut W,
) -> Result<bool, Fault> {
    let mut wanted = false;
    'lines: for done in 0..u64::MAX {
        heard.clear();
        let came = hear(input, heard)?;
        if !came {
            return Ok(wanted);
        }
        let line = line_of(heard.as_slice());
        let wants = answer_line(alloc, u128::from(done) + 1, line, context, out)?;
        pass_on(out)?;
        wanted = wanted || wants;
    }
    // there is no number for this line
    Err(Fault::OutOfMemory)
}

/// Reads a line with its end behind what was heard, and says whether there is one.
pub(crate) fn hear<I: BufRead>(input: &mut I, heard: &mut Vec<u8>) -> Result<bool, Fault>
    requires { heard.old.items ≡ [] }
    ensures bytes { Consumes (I.remaining input.old) (I.remaining input.new) heard.new.items }
    ensures stops { StopsAt heard.new.items line_feed }
    ensures some { result ≡ Ok true → heard.new.items ≢ [] }
    ensures end { result ≡ Ok false → IsAtEnd (I.remaining input.old) }
    ensures err { IfErr result (λ fault. (fault ≡ OutOfMemory) ⊎ (fault ≡ ReadFailed)) }
{
    match input.read_until(b'\n', heard) {
        Ok(count) => Ok(count > 0),
        Err(error) => match error.kind() {
            ErrorKind::OutOfMemory => Err(Fault::OutOfMemory),
            _ => Err(Fault::ReadFailed),
        },
    }
}

/// Passes on the answer.
pub(crate) fn pass_on<W: Sink>(out: &mut W) -> Result<(), Fault>
    ensures ok { OnOk result (W.flushes out.old out.new) }
    ensures err { IfErr result
        (λ fault. (fault ≡ WriteFailed) × W.flush_fails out.old out.new) }
{
    match out.flush() {
        Ok(()) => Ok(()),
        Err(_) => Err(Fault::WriteFailed),
    }
}

/// A line without its end: a line feed, and a carriage return just before that.
pub(crate) fn line_of(heard: &[u8]) -> &[u8]
    ensures { IsLine heard.now result.now }
{
    let len = heard.len();
    if len > 0 && heard[len - 1] == b'\n' {
        trimmed(&heard[..len - 1])
    } else {
        heard
    }
}

// A line without the carriage return at its end, if it has one.
fn trimmed(line: &[u8]) -> &[u8]
    ensures { result.now ≡ without_return line.now }
{
    let len = line.len();
    if len > 0 && line[len - 1] == b'\r' {
        &line[..len - 1]
    } else {
        line
    }
}
