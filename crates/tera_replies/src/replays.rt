//! From a script's bytes to the bytes of its answers.
ghost use Rattle.std.specs.Prelude.{◌≡◌, ◌≤◌, IfErr, IsOk, OnOk};
ghost use Rattle.tera_report.specs.Sink.{PutsThese};
ghost use Rattle.tera_replies.specs.declared.fault.Fault.TheVariants.{WriteFailed};
ghost use Rattle.tera_replies.specs.Output.{Broke, Sent, TakesOrFails};
ghost use Rattle.tera_report.specs.Errors.{report_of};
ghost use Rattle.tera_report.specs.Report.{report_text};
ghost use Rattle.tera_replies.specs.Replay.{ReplaysGiven, ReplaysKnown};
ghost use Rattle.tera_replies.specs.Script.{ended};
ghost use Rattle.tera_replies.specs.Streams.{reads, reads_dropped, streams, streams_beside};
ghost use Rattle.tera_replies.specs.Streams.{writer_streams};
ghost use Rattle.tera_replies.specs.Stretch.{start};
ghost use Rattle.tera_replies.specs.inner.Endings.{EndsFlushed, EndsGiven, EndsKnown, status_at};
ghost use Rattle.tera_replies.specs.inner.Endings.{told};

use crate::error_sink::ErrorSink;
use crate::fault::{Fault, WriteError, put, written};
use crate::replayer::Replayer;
use crate::source::Source;
use std::alloc::Global;
use tera_report::ReportError;
use tera_report::sink::Sink;
use tera_report::watch::{Watched, Writer};
use tera_values::HashState;

/// How much is read at once.
const PIECE: usize = 8192;

/// Reads a script from `input`, and writes what its calls answer to `out`, each answer before more
/// is read. What ended it early is told to `err`.
///
/// Answers the exit status. It is 0 where each line is answered and none of the answers is want of
/// memory, 1 where one is, and 2 at a bad line, whose report is told. Else it is 1, and told is one
/// of these texts. A report that cannot be written changes nothing.
///
/// - `error: reading failed` where a read answers any error, an interrupted one too, or
///   2^64 - 1 reads told no end.
/// - `error: writing failed` where a write to `out` fails, or a flush of it does. A write that was
///   interrupted is tried again.
/// - `error: Out of memory` where the replay itself finds none.
///
/// Names and the keys of maps are hashed under the state. No answer hangs on it.
///
/// Takes memory for the line at hand, for what the names hold, for one answer or the text of its
/// refusal, and for the report of a bad line.
pub fn replay<S: Source + Drop, W: Writer, E: Writer>(
    alloc: Global,
    state: HashState,
    mut input: S,
    out: &mut W,
    err: &mut E,
) -> u8
    ensures known { ReplaysKnown S.Source input (reads_dropped S.gave input)
        (writer_streams W.Writer out.old out.new E.Writer err.old err.new) result }
    ensures given { (last : S) × ReplaysGiven S.Source input last
        (writer_streams W.Writer out.old out.new E.Writer err.old err.new) result }
    ensures status { result ≤ 2 }
    ensures silent { result ≡ 0 → err.new ≡ err.old }
{
    let mut watched_out = Watched::new(out);
    let mut watched_err = Watched::new(err);
    replay_from(alloc, state, &mut input, &mut watched_out, &mut watched_err)
}

/// Answers the script that a source gives, as `replay` does that of a reader; answers and reports
/// go to any sinks.
pub fn replay_from<S: Source, W: Sink, E: Sink>(
    alloc: Global,
    state: HashState,
    input: &mut S,
    out: &mut W,
    err: &mut E,
) -> u8
    ensures known { ReplaysKnown S.Source input.old (reads S.gave input.old input.new)
        (streams W.Sink out.old out.new E.Sink err.old err.new) result }
    ensures given { ReplaysGiven S.Source input.old input.new
        (streams W.Sink out.old out.new E.Sink err.old err.new) result }
    ensures status { result ≤ 2 }
    ensures silent { result ≡ 0 → err.new ≡ err.old }
{
    let ending = answer_to_end(alloc, state, input, out);
    end_by(&ending, err)
}

// Answers line after line, and passes on the last answers before the end is told.
#[inline(always)]
fn answer_to_end<S: Source, W: Sink>(
    alloc: Global,
    state: HashState,
    input: &mut S,
    out: &mut W,
) -> Result<bool, Fault>
    ensures known { ReplaysKnown S.Source input.old (reads S.gave input.old input.new)
        (streams_beside W.Sink out.old out.new (λ text. text ≡ told result)) (status_at result) }
    ensures given { ReplaysGiven S.Source input.old input.new
        (streams_beside W.Sink out.old out.new (λ text. text ≡ told result)) (status_at result) }
{
    let answered = answer_all(alloc, state, input, out);
    flush_last(answered, out)
}

// Tells the end, and answers the exit status.
#[inline(always)]
fn end_by<E: Sink>(ending: &Result<bool, Fault>, err: &mut E) -> u8
    ensures told { TakesOrFails E.takes E.fails err.old (told ending.now) err.new }
    ensures value { result ≡ status_at ending.now }
    ensures status { result ≤ 2 }
    ensures silent { result ≡ 0 → err.new ≡ err.old }
{
    let _ = tell(ending, err);
    status(ending)
}

// Answers line after line, and says whether an answer was want of memory.
fn answer_all<S: Source, W: Sink>(
    alloc: Global,
    state: HashState,
    input: &mut S,
    out: &mut W,
) -> Result<bool, Fault>
    ensures known { EndsKnown S.Source input.old input.new (Sent W.Sink out.old out.new)
        (Broke W.Sink out.old out.new) result }
    ensures given { EndsGiven S.Source input.old input.new (Sent W.Sink out.old out.new)
        (Broke W.Sink out.old out.new) result }
{
    let mut replayer = Replayer::new(alloc, state);
    answer_pieces(alloc, &mut replayer, input, out)
}

// The same, where the replayer stands before the first byte.
#[inline(always)]
fn answer_pieces<S: Source, W: Sink>(
    alloc: Global,
    replayer: &mut Replayer,
    input: &mut S,
    out: &mut W,
) -> Result<bool, Fault>
    requires { replayer.old ≡ start }
    ensures known { EndsKnown S.Source input.old input.new (Sent W.Sink out.old out.new)
        (Broke W.Sink out.old out.new) result }
    ensures given { EndsGiven S.Source input.old input.new (Sent W.Sink out.old out.new)
        (Broke W.Sink out.old out.new) result }
{
    let mut piece = [0; PIECE];
    'pieces: for _turn in 0..u64::MAX {
        flush(out)?;
        let count = input.read_piece(&mut piece)?;
        if count == 0 {
            return replayer.finish(alloc, out);
        }
        replayer.take(alloc, &piece[..count], out)?;
    }
    Err(Fault::ReadFailed)
}

// Passes on the answers so far.
fn flush<W: Sink>(out: &mut W) -> Result<(), Fault>
    ensures ok { OnOk result (W.flushes out.old out.new) }
    ensures err { IfErr result
        (λ fault. (fault ≡ WriteFailed) × W.flush_fails out.old out.new) }
{
    written(out.flush())
}

// Passes on the last answers before the end is told, unless writing has failed.
fn flush_last<W: Sink>(answered: Result<bool, Fault>, out: &mut W) -> Result<bool, Fault>
    ensures { EndsFlushed W.flushes W.flush_fails answered result out.old out.new }
{
    if matches!(answered, Err(Fault::WriteFailed)) {
        return answered;
    }
    flush(out)?;
    answered
}

// Puts what is to be said about the end.
fn tell<E: Sink>(ending: &Result<bool, Fault>, err: &mut E) -> Result<(), WriteError>
    ensures puts { PutsThese E.takes E.fails result (told ending.now) err.old err.new }
    ensures silent { IsOk ending.now → err.new ≡ err.old }
{
    match ending {
        Ok(_) => Ok(()),
        Err(Fault::BadLine(report)) => tell_bad_line(report, err),
        Err(Fault::ReadFailed) => put("error: reading failed\n", err),
        Err(Fault::WriteFailed) => put("error: writing failed\n", err),
        Err(Fault::OutOfMemory) => put("error: Out of memory\n", err),
    }
}

// Puts the report of a bad line, and a line feed.
fn tell_bad_line<E: Sink>(report: &ReportError, err: &mut E) -> Result<(), WriteError>
    ensures { PutsThese E.takes E.fails result (ended (report_text (report_of report.now)))
        err.old err.new }
{
    put_report(report, err)?;
    put("\n", err)
}

fn put_report<E: Sink>(report: &ReportError, err: &mut E) -> Result<(), WriteError>
    ensures { PutsThese E.takes E.fails result (report_text (report_of report.now))
        err.old err.new }
{
    report.tell_to(&mut ErrorSink::new(err))
}

// The exit status.
fn status(ending: &Result<bool, Fault>) -> u8
    ensures value { result ≡ status_at ending.now }
    ensures bound { result ≤ 2 }
{
    match ending {
        Ok(false) => 0,
        Ok(true) => 1,
        Err(Fault::BadLine(_)) => 2,
        Err(_) => 1,
    }
}
