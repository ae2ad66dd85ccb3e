//! What a line of a conversation asks for is done.
ghost use Rattle.std.specs.Prelude.{◌≡◌, ◌⊎◌, IfErr, Ok, OnOk};
ghost use Rattle.tera_cli.specs.Obeyed.{Obeys};
ghost use Rattle.tera_cli.specs.Conversation.{IsTold, Replies};
ghost use Rattle.tera_replies.specs.Output.{BrokeOn, TakesOrFails};
ghost use Rattle.tera_replies.specs.declared.fault.Fault.TheVariants.{WriteFailed};
ghost use Rattle.tera_report.specs.Sink.{Delivers, Sends};

use crate::diagnostics::{tell, tell_bad_line, tell_no_memory};
use crate::files::Files;
use crate::lines::pass_on;
use crate::load::load;
use crate::names::show_names;
use crate::order::Order;
use crate::saved::save;
use std::alloc::Global;
use tera_context::Context;
use tera_replies::{Fault, answer_line};
use tera_report::sink::Sink;

/// Does what a line asks for, or tells why not. A fault is a write that failed.
pub(crate) fn obey<F: Files, W: Sink, E: Sink>(
    alloc: Global,
    number: u128,
    why: bool,
    line: &[u8],
    order: Order<'_>,
    files: &mut F,
    context: &mut Context,
    out: &mut W,
    err: &mut E,
) -> Result<(), Fault>
    ensures ok { OnOk result
        (Obeys F.wrote W.takes W.flushes E.takes E.fails why number line.now order.entry
        (record { files = files.old; out = out.old; err = err.old; names = context.old })
        (record { files = files.new; out = out.new; err = err.new; names = context.new })) }
    ensures err { IfErr result (λ fault. (fault ≡ WriteFailed) × (files.new ≡ files.old)
        × (err.new ≡ err.old)) }
{
    match order {
        Order::Answer => answer(alloc, number, why, line, context, out, err),
        Order::Quit => Ok(()),
        Order::Help => show(HELP, out),
        Order::Names => show_names(context, out, err),
        Order::Load(name) => load(alloc, files, why, name, context, out, err),
        Order::LoadNone => refuse(LOAD_NONE, err),
        Order::Save(name) => {
            save(alloc, files, name, context, err);
            Ok(())
        }
        Order::SaveNone => refuse(SAVE_NONE, err),
        Order::Unknown => refuse(UNKNOWN, err),
    }
}

// What `:help` shows.
const HELP: &str = "\
:help       shows these words
:load FILE  answers the script in a file, up to the first bad line
:names      shows the names, one a line and in order
:quit       ends the conversation
:save FILE  writes a script that makes the names and their values
";

// What is told of another word, and of one behind which no file is named.
const UNKNOWN: &str =
    "error: no such word; there are :help, :load FILE, :names, :quit and :save FILE\n";

const LOAD_NONE: &str = "error: no file is named; it is :load FILE\n";

const SAVE_NONE: &str = "error: no file is named; it is :save FILE\n";

// Tells why a line is not obeyed, where the sink takes it.
fn refuse<E: Sink>(text: &str, err: &mut E) -> Result<(), Fault>
    ensures told { TakesOrFails E.takes E.fails err.old text.now err.new }
    ensures ok { result ≡ Ok tt }
{
    tell(text, err);
    Ok(())
}

// Answers one line, or tells why not.
fn answer<W: Sink, E: Sink>(
    alloc: Global,
    number: u128,
    why: bool,
    line: &[u8],
    context: &mut Context,
    out: &mut W,
    err: &mut E,
) -> Result<(), Fault>
    ensures ok { OnOk result
        ((Replies (Delivers W.takes W.flushes) number context.old line.now out.old out.new
        context.new × (err.new ≡ err.old))
        ⊎ IsTold (Sends W.takes W.flushes) (TakesOrFails E.takes E.fails) why number context.old
        line.now out.old out.new err.old err.new context.new) }
    ensures err { IfErr result (λ fault. (fault ≡ WriteFailed) × (err.new ≡ err.old)
        × Replies (BrokeOn W.takes W.fails W.flushes W.flush_fails) number context.old line.now
        out.old out.new context.new) }
{
    match answer_line(alloc, number, line, context, out) {
        Ok(_wanted) => pass_on(out),
        Err(Fault::BadLine(report)) => {
            tell_bad_line(&report, why, line, err);
            Ok(())
        }
        Err(Fault::WriteFailed) => Err(Fault::WriteFailed),
        Err(_) => {
            tell_no_memory(err);
            Ok(())
        }
    }
}

// Shows a text as an answer.
fn show<W: Sink>(text: &str, out: &mut W) -> Result<(), Fault>
    ensures ok { OnOk result (Delivers W.takes W.flushes out.old text.now out.new) }
    ensures err { IfErr result (λ fault. fault ≡ WriteFailed) }
{
    let Ok(()) = out.put(text) else {
        return Err(Fault::WriteFailed);
    };
    pass_on(out)
}
