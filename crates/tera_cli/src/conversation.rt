//! A conversation: lines are asked for, and a bad one does not end it.
ghost use Rattle.std.specs.Prelude.{◌≡◌, ◌≤◌, IfOk, OnErr, OnOk};
ghost use Rattle.std.specs.Io.{StopsAt};
ghost use Rattle.std.specs.Io.KnownBytes.{Consumes, IsAtEnd};
ghost use Rattle.tera_cli.specs.Obeyed.{IsTurn, Obeys, goes_on_behind};
ghost use Rattle.tera_cli.specs.Conversation.{Leaves};
ghost use Rattle.tera_replies.specs.Output.{TakesOrFails};
ghost use Rattle.tera_replies.specs.Script.{line_feed};

use crate::diagnostics::put_fault;
use crate::files::Files;
use crate::lines::{hear, line_of};
use crate::obey::obey;
use crate::order::{Order, order_of};
use std::alloc::Global;
use std::io::BufRead;
use tera_context::Context;
use tera_replies::Fault;
use tera_report::sink::Sink;
use tera_values::HashState;

/// How a conversation is held.
#[derive(Clone, Copy)]
pub(crate) struct Manner<'a> {
    /// What asks for a line.
    pub(crate) prompt: &'a str,
    /// Whether it tells of a bad line what was expected.
    pub(crate) why: bool,
}

/// Asks for lines by the prompt, and answers each from what those before it have named, up to the
/// line `:quit` or the end of the input. A bad line has its report, and changes nothing. Answers
/// the exit status: 0, or 1 where a read or a write of an answer fails or no memory is found for
/// the line itself, which is told.
pub(crate) fn converse<F: Files, I: BufRead, W: Sink, E: Sink>(
    alloc: Global,
    state: HashState,
    manner: Manner<'_>,
    files: &mut F,
    input: &mut I,
    out: &mut W,
    err: &mut E,
) -> u8
    ensures status { result ≤ 1 }
{
    let mut context = Context::with_hasher(alloc, state);
    match take_turns(alloc, manner, files, &mut context, input, out, err) {
        Ok(()) => 0,
        Err(fault) => {
            let _ = put_fault(&fault, err);
            1
        }
    }
}

// Takes turn after turn.
fn take_turns<F: Files, I: BufRead, W: Sink, E: Sink>(
    alloc: Global,
    manner: Manner<'_>,
    files: &mut F,
    context: &mut Context,
    input: &mut I,
    out: &mut W,
    err: &mut E,
) -> Result<(), Fault> {
    let mut heard = Vec::new(alloc);
    'lines: for done in 0..u64::MAX {
        let number = u128::from(done) + 1;
        ask(manner.prompt, err);
        let goes_on = turn(
            alloc, number, manner, &mut heard, files, context, input, out, err,
        )?;
        if !goes_on {
            return Ok(());
        }
    }
    // there is no number for this line
    ask(manner.prompt, err);
    Err(Fault::OutOfMemory)
}

// Hears a line, and does what it asks for or tells why not. Says whether the conversation goes on.
fn turn<F: Files, I: BufRead, W: Sink, E: Sink>(
    alloc: Global,
    number: u128,
    manner: Manner<'_>,
    heard: &mut Vec<u8>,
    files: &mut F,
    context: &mut Context,
    input: &mut I,
    out: &mut W,
    err: &mut E,
) -> Result<bool, Fault>
    ensures heard { OnOk result (Consumes (I.remaining input.old) (I.remaining input.new)
        heard.new.items × StopsAt heard.new.items line_feed) }
    ensures ok { IfOk result (λ goes_on. IsTurn (TakesOrFails E.takes E.fails)
        (Obeys F.wrote W.takes W.flushes E.takes E.fails manner.entry.why number)
        manner.entry.prompt.now (IsAtEnd (I.remaining input.old)) heard.new.items goes_on
        (record { files = files.old; out = out.old; err = err.old; names = context.old })
        (record { files = files.new; out = out.new; err = err.new; names = context.new })) }
    ensures err { OnErr result ((files.new ≡ files.old) × (err.new ≡ err.old)) }
{
    heard.clear();
    let came = hear(input, heard)?;
    if !came {
        leave(manner.prompt, err);
        return Ok(false);
    }
    let line = line_of(heard.as_slice());
    let order = order_of(line);
    obey(
        alloc, number, manner.why, line, order, files, context, out, err,
    )?;
    Ok(goes_on_behind(order))
}

// Whether a conversation goes on behind an order.
fn goes_on_behind(order: Order<'_>) -> bool
    ensures { result ≡ goes_on_behind order.entry }
{
    match order {
        Order::Quit => false,
        Order::Answer
        | Order::Help
        | Order::Names
        | Order::Load(_)
        | Order::LoadNone
        | Order::Save(_)
        | Order::SaveNone
        | Order::Unknown => true,
    }
}

// Puts the prompt, where the sink takes it.
fn ask<E: Sink>(prompt: &str, err: &mut E)
    ensures { TakesOrFails E.takes E.fails err.old prompt.now err.new }
{
    let _ = err.put(prompt);
}

// Ends the line of a prompt behind which no line came.
fn leave<E: Sink>(prompt: &str, err: &mut E)
    ensures { Leaves (TakesOrFails E.takes E.fails) prompt.now err.old err.new }
{
    if prompt.is_empty() {
        return;
    }
    let _ = err.put("\n");
}
