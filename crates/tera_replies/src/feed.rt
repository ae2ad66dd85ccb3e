//! From pieces of a script to its lines, each answered once it is whole.
ghost use Rattle.std.specs.Prelude.{◌≡◌, ◌≢◌, ◌+◌, ◌^◌, ◌<◌, ℕ, Bool, ◌||◌, List, [], ◌∷◌};
ghost use Rattle.std.specs.Prelude.{◌++◌};
ghost use Rattle.std.specs.Prelude.{IfOk, OnOk, IfErr, IfSome, IfNone, IsOk, IsSome, length};
ghost use Rattle.std.specs.Prelude.{IsTrue, MatchResult, codes, decimal, false, string_bytes};
ghost use Rattle.tera_report.specs.Errors.{report_of};
ghost use Rattle.tera_meaning.specs.Request.{Command as CommandOf};
ghost use Rattle.tera_context.specs.Lent.{lent_at};
ghost use Rattle.tera_context.specs.Request.{command_form};
ghost use Rattle.tera_script.specs.Line.{HasNoEscape, IsSkipped, Says};
ghost use Rattle.tera_replies.specs.declared.fault.Fault.TheVariants.{OutOfMemory, WriteFailed};
ghost use Rattle.tera_replies.specs.Output.{Broke, Sent};
ghost use Rattle.tera_replies.specs.Replay.{line_report, source_of, whole_line};
ghost use Rattle.tera_replies.specs.Script.{HasNoLineFeed, without_return, last_line, ended};
ghost use Rattle.tera_replies.specs.Stretch.{bad_at, Runs, LineStops};
ghost use Rattle.tera_replies.specs.inner.Endings.{AnswersCall, IsBadLineFault, ReplyStops};
ghost use Rattle.tera_replies.specs.Stretch.{Goes, Stops, start};

use crate::answer::{write_answer, write_lent};
use crate::fault::Fault;
use itoa::Buffer;
use memchr::memchr;
use std::alloc::{AllocError, Global};
use std::str::from_utf8;
use tera_context::{Command, Context, answer, lend};
use tera_report::sink::Sink;
use tera_report::words::characters;
use tera_report::{ReportError, Span};
use tera_script::{Reading, read_line};
use tera_values::HashState;

/// What a replay keeps between two pieces of its script.
#[derive(Drop)]
pub(crate) struct Feed {
    /// The number of the line at hand.
    number: u128,
    /// What was read of that line.
    part: Vec<u8>,
    context: Context,
    /// Whether an answer was want of memory.
    wanted_memory: bool,
}

impl Feed {
    ghost use Rattle.tera_replies.specs.inner.Place.{place_of};

    /// Before the first byte; names and the keys of maps are hashed under the state. Takes no
    /// memory.
    pub fn new(alloc: Global, state: HashState) -> Feed
        ensures { place_of result ≡ start }
    {
        Feed {
            number: 1,
            part: Vec::new(alloc),
            context: Context::with_hasher(alloc, state),
            wanted_memory: false,
        }
    }

    /// What was read of the line at hand.
    pub fn part(&self) -> &[u8]
        ensures { result.now ≡ self.now.part.items }
    {
        self.part.as_slice()
    }

    pub fn context(&self) -> &Context
        ensures { result.now ≡ self.now.context }
    {
        &self.context
    }

    /// Whether there is a number for each line that the piece may hold.
    pub fn has_numbers_for(&self, piece: &[u8]) -> bool
        ensures numbers { IsTrue result → self.now.number + length piece.now < 2 ^ 128 }
        ensures empty { piece.now ≡ [] → IsTrue result }
    {
        self.number.checked_add(piece.len() as u128).is_some()
    }

    /// Takes a piece of the script, and answers each line that is whole now.
    pub fn take_piece<W: Sink>(
        &mut self,
        alloc: Global,
        piece: &[u8],
        out: &mut W,
    ) -> Result<(), Fault>
        requires room { self.old.number + length piece.now < 2 ^ 128 }
        requires part { HasNoLineFeed self.old.part.items }
        ensures ok { OnOk result ((text : List ℕ)
            × Goes (place_of self.old) piece.now text (place_of self.new)
            × Sent W.Sink out.old out.new text) }
        ensures part { HasNoLineFeed self.new.part.items }
        ensures err { IfErr result
            (Stops (place_of self.old) piece.now
            (Sent W.Sink out.old out.new) (Broke W.Sink out.old out.new)) }
        ensures empty { piece.now ≡ [] → IsOk result }
    {
        if piece.is_empty() {
            return Ok(());
        }
        let mut rest = piece;
        'lines: while let Some((line, later)) = split_line(rest) {
            self.end_line(alloc, line, out)?;
            rest = later;
        }
        self.part.extend_from_slice(rest)?;
        Ok(())
    }

    // Takes the rest of the line at hand, which a line feed ends.
    fn end_line<W: Sink>(&mut self, alloc: Global, rest: &[u8], out: &mut W) -> Result<(), Fault>
        requires room { self.old.number + 1 < 2 ^ 128 }
        requires part { HasNoLineFeed self.old.part.items }
        requires rest { HasNoLineFeed rest.now }
        ensures ok { OnOk result ((text : List ℕ)
            × Goes (place_of self.old) (ended rest.now) text (place_of self.new)
            × Sent W.Sink out.old out.new text) }
        ensures number { OnOk result (self.new.number ≡ self.old.number + 1) }
        ensures part { HasNoLineFeed self.new.part.items }
        ensures err { IfErr result
            (LineStops self.old.number self.old.context
            (without_return (self.old.part.items ++ rest.now)) self.new.context
            (Sent W.Sink out.old out.new []) (Broke W.Sink out.old out.new)) }
    {
        let wanted = self.answer_at_hand(alloc, rest, out)?;
        self.part.clear();
        self.number += 1;
        self.wanted_memory = self.wanted_memory || wanted;
        Ok(())
    }

    // Answers the line at hand. Where all of it lies in `rest` it isn't copied.
    fn answer_at_hand<W: Sink>(
        &mut self,
        alloc: Global,
        rest: &[u8],
        out: &mut W,
    ) -> Result<bool, Fault>
        requires part { HasNoLineFeed self.old.part.items }
        requires rest { HasNoLineFeed rest.now }
        ensures ok { IfOk result (λ wanted. (text : List ℕ)
            × Runs self.old.number self.old.context
            (without_return (self.old.part.items ++ rest.now) ∷ []) text wanted self.new.context
            × Sent W.Sink out.old out.new text) }
        ensures err { IfErr result
            (LineStops self.old.number self.old.context
            (without_return (self.old.part.items ++ rest.now)) self.new.context
            (Sent W.Sink out.old out.new []) (Broke W.Sink out.old out.new)) }
        ensures number { self.new.number ≡ self.old.number }
        ensures wanted { self.new.wanted_memory ≡ self.old.wanted_memory }
        ensures part { HasNoLineFeed self.new.part.items }
    {
        if self.part.is_empty() {
            answer_line(alloc, self.number, trimmed(rest), &mut self.context, out)
        } else {
            self.part.extend_from_slice(rest)?;
            let line = trimmed(self.part.as_slice());
            answer_line(alloc, self.number, line, &mut self.context, out)
        }
    }

    /// Answers what follows the last line feed, if it is a line. Says whether any answer was want
    /// of memory.
    pub fn finish<W: Sink>(&mut self, alloc: Global, out: &mut W) -> Result<bool, Fault>
        ensures ok { IfOk result (λ wanted. (text : List ℕ) × (last : Bool)
            × Runs self.old.number self.old.context (last_line self.old.part.items)
            text last self.new.context
            × (wanted ≡ (self.old.wanted_memory || last))
            × Sent W.Sink out.old out.new text) }
        ensures err { IfErr result
            (λ fault. (last_line self.old.part.items ≡ self.old.part.items ∷ [])
            × LineStops self.old.number self.old.context self.old.part.items self.new.context
            (Sent W.Sink out.old out.new []) (Broke W.Sink out.old out.new) fault) }
        ensures number { self.new.number ≡ self.old.number }
        ensures wanted { self.new.wanted_memory ≡ self.old.wanted_memory }
        ensures part { self.new.part.items ≡ self.old.part.items }
    {
        if self.part.is_empty() {
            return Ok(self.wanted_memory);
        }
        let line = self.part.as_slice();
        let wanted = answer_line(alloc, self.number, line, &mut self.context, out)?;
        Ok(self.wanted_memory || wanted)
    }
}

/// Answers one line, which comes without its end of line, and says whether the answer was want of
/// memory. The report of a bad line calls it by the number.
///
/// `BadLine` where the line is bad, `OutOfMemory` where no memory is found to read it or to report
/// it: then nothing has changed. `WriteFailed` where the sink refused a part of the reply: then
/// the line was run, and the context is as that run left it. Never `ReadFailed`.
///
/// Takes memory for what the line brings, for what its command takes, and for its report. A line
/// that is skipped takes none, nor does one without an escape for which `lend` lends its answer.
pub fn answer_line<W: Sink>(
    alloc: Global,
    number: u128,
    line: &[u8],
    context: &mut Context,
    out: &mut W,
) -> Result<bool, Fault>
    ensures ok { IfOk result (λ wanted. (text : List ℕ)
        × Runs number context.old (line.now ∷ []) text wanted context.new
        × Sent W.Sink out.old out.new text) }
    ensures err { IfErr result (LineStops number context.old line.now context.new
        (Sent W.Sink out.old out.new []) (Broke W.Sink out.old out.new)) }
    ensures skipped { IsSkipped line.now → IsOk result }
    ensures lent { (command : CommandOf) → Says line.now command → HasNoEscape line.now
        → IsSome (lent_at context.old command)
        → MatchResult result (λ wanted. wanted ≡ false) (λ fault. fault ≡ WriteFailed) }
    ensures unchanged { IfErr result (λ fault. fault ≢ WriteFailed → context.new ≡ context.old) }
{
    match read_line(alloc, context.hasher(), line)? {
        Reading::Skipped => Ok(false),
        Reading::Bad => Err(bad_line_fault(alloc, number, line)),
        Reading::Says(command) => answer_command(command, context, out),
    }
}

// Answers a command: by what the context lends, where it lends something.
#[inline(always)]
fn answer_command<W: Sink>(
    command: Command<'_>,
    context: &mut Context,
    out: &mut W,
) -> Result<bool, Fault>
    ensures ok { IfOk result (λ wanted. (reply : List ℕ)
        × AnswersCall (command_form command.entry) context.old context.new reply wanted
        × Sent W.Sink out.old out.new reply) }
    ensures err { IfErr result (ReplyStops
        (λ reply. (wanted : Bool)
        × AnswersCall (command_form command.entry) context.old context.new reply wanted)
        (Broke W.Sink out.old out.new)) }
    ensures lent { IsSome (lent_at context.old (command_form command.entry))
        → MatchResult result (λ wanted. wanted ≡ false) (λ fault. fault ≡ WriteFailed) }
{
    match lend(context, &command) {
        Some(lent) => {
            let answered = write_lent(lent, out);
            drop(command);
            answered
        }
        None => answer_and_write(command, context, out),
    }
}

// Answers a command for which the context lends nothing.
#[inline(always)]
fn answer_and_write<W: Sink>(
    command: Command<'_>,
    context: &mut Context,
    out: &mut W,
) -> Result<bool, Fault>
    ensures ok { IfOk result (λ wanted. (reply : List ℕ)
        × AnswersCall (command_form command.entry) context.old context.new reply wanted
        × Sent W.Sink out.old out.new reply) }
    ensures err { IfErr result (ReplyStops
        (λ reply. (wanted : Bool)
        × AnswersCall (command_form command.entry) context.old context.new reply wanted)
        (Broke W.Sink out.old out.new)) }
{
    let answer = answer(context, command);
    let answered = write_answer(&answer, out);
    drop(answer);
    answered
}

// Why a bad line is not answered: it is bad, or its report wants memory.
fn bad_line_fault(alloc: Global, number: u128, line: &[u8]) -> Fault
    ensures { IsBadLineFault number line.now result }
{
    match bad_line(alloc, number, line) {
        Ok(report) => Fault::BadLine(report),
        Err(_) => Fault::OutOfMemory,
    }
}

// The report of a bad line. A line that is no UTF-8 shows nothing.
fn bad_line(alloc: Global, number: u128, line: &[u8]) -> Result<Box<ReportError>, Fault>
    ensures same { IfOk result (λ report.
        report_of report.value ≡ line_report (bad_at number line.now)) }
    ensures refused { IfErr result (λ fault. fault ≡ OutOfMemory) }
{
    let source = shown_source(line);
    let span = whole_line(source);
    let message = String::from_str(alloc, "bad line")?;
    let filename = line_name(alloc, number)?;
    match ReportError::new(alloc, message, filename.as_str(), source, &span) {
        Ok(report) => Ok(Box::new(alloc, report)?),
        Err(_) => Err(Fault::OutOfMemory),
    }
}

// What the report of a bad line calls the line.
fn line_name(alloc: Global, number: u128) -> Result<String, AllocError>
    ensures { IfOk result (λ name. string_bytes name ≡ codes "line " ++ decimal number) }
{
    ["line ", Buffer::new().format(number)].concat(alloc)
}

// What of a bad line its report shows.
fn shown_source(line: &[u8]) -> &str
    ensures { result.now ≡ source_of line.now }
{
    match from_utf8(line) {
        Ok(text) => text,
        Err(_) => "",
    }
}

// From the first character of the report's one line to its end.
fn whole_line(source: &str) -> Span
    ensures { result ≡ whole_line source.now }
{
    Span {
        start_line: 1,
        start_col: 0,
        end_line: 1,
        end_col: characters(source),
        range: 0..source.len(),
    }
}

// What stands before the first line feed, and after it.
fn split_line(bytes: &[u8]) -> Option<(&[u8], &[u8])>
    ensures found { IfSome result
        (λ parts. HasNoLineFeed parts.0.now × (bytes.now ≡ ended parts.0.now ++ parts.1.now)) }
    ensures none { IfNone result (HasNoLineFeed bytes.now) }
{
    let at = memchr(b'\n', bytes)?;
    Some((&bytes[..at], &bytes[at + 1..]))
}

// A line without the carriage return at its end, if it has one.
fn trimmed(line: &[u8]) -> &[u8]
    ensures { result.now ≡ without_return line.now }
{
    let len = line.len();
    if len > 0 && line[len - 1] == b'\r' {
        &line[..len - 1]
    } else {
        line
    }
}
