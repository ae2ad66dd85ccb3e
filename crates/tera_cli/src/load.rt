//! Scripts of files in a conversation.
ghost use Rattle.std.specs.Prelude.{◌≡◌, IfErr};
ghost use Rattle.tera_replies.specs.declared.fault.Fault.TheVariants.{WriteFailed};

use crate::diagnostics::{NO_TEXT, put_fault, tell, tell_bad_line, tell_cannot};
use crate::files::Files;
use crate::lines::{answer_lines, line_of};
use std::alloc::Global;
use std::io::BufRead;
use std::str;
use tera_context::Context;
use tera_replies::Fault;
use tera_report::sink::Sink;

/// Answers the lines of the file of that name, where it is UTF-8. A fault is a write that failed.
pub(crate) fn load<F: Files, W: Sink, E: Sink>(
    alloc: Global,
    files: &F,
    why: bool,
    name: &[u8],
    context: &mut Context,
    out: &mut W,
    err: &mut E,
) -> Result<(), Fault>
    ensures err { IfErr result (λ fault. (fault ≡ WriteFailed) × (err.new ≡ err.old)) }
{
    match str::from_utf8(name) {
        Ok(name) => load_file(alloc, files, why, name, context, out, err),
        Err(_) => {
            tell(NO_TEXT, err);
            Ok(())
        }
    }
}

// The same, where it can be read.
fn load_file<F: Files, W: Sink, E: Sink>(
    alloc: Global,
    files: &F,
    why: bool,
    name: &str,
    context: &mut Context,
    out: &mut W,
    err: &mut E,
) -> Result<(), Fault>
    ensures err { IfErr result (λ fault. (fault ≡ WriteFailed) × (err.new ≡ err.old)) }
{
    match files.open_lines(name) {
        Some(lines) => load_open(alloc, why, lines, context, out, err),
        None => {
            tell_cannot("read", name, err);
            Ok(())
        }
    }
}

// Answers lines in turn, or tells what ended that.
fn load_open<I: BufRead + Drop, W: Sink, E: Sink>(
    alloc: Global,
    why: bool,
    mut lines: I,
    context: &mut Context,
    out: &mut W,
    err: &mut E,
) -> Result<(), Fault>
    ensures err { IfErr result (λ fault. (fault ≡ WriteFailed) × (err.new ≡ err.old)) }
{
    let mut heard = Vec::new(alloc);
    match answer_lines(alloc, &mut heard, context, &mut lines, out) {
        Ok(_wanted) => Ok(()),
        Err(Fault::BadLine(report)) => {
            tell_bad_line(&report, why, line_of(heard.as_slice()), err);
            Ok(())
        }
        Err(Fault::WriteFailed) => Err(Fault::WriteFailed),
        Err(fault) => {
            let _ = put_fault(&fault, err);
            Ok(())
        }
    }
}
