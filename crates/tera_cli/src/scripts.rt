//! Scripts in turn.
ghost use Rattle.std.specs.Prelude.{◌≡◌, ◌≤◌, codes, map};
ghost use Rattle.tera_cli.specs.Faults.{cannot};
ghost use Rattle.tera_cli.specs.Scripts.{ReplaysNamed, ReplaysScript};
ghost use Rattle.tera_cli.specs.Turns.{UpToAFault};
ghost use Rattle.tera_replies.specs.Output.{TakesOrFails};

use crate::diagnostics::{put_fault, tell_bad_line, tell_cannot};
use crate::files::Files;
use crate::lines::{answer_lines, line_of};
use std::alloc::Global;
use std::io::BufRead;
use tera_context::Context;
use tera_replies::{Fault, Source, replay_from};
use tera_report::sink::Sink;
use tera_values::HashState;

/// Replays the scripts of these names in turn, each from no names, up to the first whose status is
/// not 0, and answers that status. A script that cannot be read has `error: cannot read NAME` and
/// status 1.
pub(crate) fn replay_each<F: Files, W: Sink, E: Sink>(
    alloc: Global,
    state: HashState,
    files: &F,
    names: &[&str],
    out: &mut W,
    err: &mut E,
) -> u8
    ensures each { UpToAFault (ReplaysNamed (F.opened files.now)
        (ReplaysScript F.Script.Source W.Sink E.Sink) E.takes E.fails)
        (map (λ name. name.now) names.now) (out.old, err.old) result (out.new, err.new) }
    ensures status { result ≤ 2 }
{
    for name in names {
        let status = replay_named(alloc, state, files, name, out, err);
        if status != 0 {
            return status;
        }
    }
    0
}

/// The same, line by line, where the report of a bad line has what was expected beside it.
pub(crate) fn explain_each<F: Files, W: Sink, E: Sink>(
    alloc: Global,
    state: HashState,
    files: &F,
    names: &[&str],
    out: &mut W,
    err: &mut E,
) -> u8
    ensures each { UpToAFault (ReplaysNamed (F.opened_lines files.now)
        (λ _ _ status _. status ≤ 2) E.takes E.fails) (map (λ name. name.now) names.now)
        (out.old, err.old) result (out.new, err.new) }
    ensures status { result ≤ 2 }
{
    for name in names {
        let status = explain_named(alloc, state, files, name, out, err);
        if status != 0 {
            return status;
        }
    }
    0
}

// Replays the script of that name.
fn replay_named<F: Files, W: Sink, E: Sink>(
    alloc: Global,
    state: HashState,
    files: &F,
    name: &str,
    out: &mut W,
    err: &mut E,
) -> u8
    ensures named { ReplaysNamed (F.opened files.now)
        (ReplaysScript F.Script.Source W.Sink E.Sink) E.takes E.fails name.now
        (out.old, err.old) result (out.new, err.new) }
    ensures status { result ≤ 2 }
{
    match files.open(name) {
        Some(script) => replay_open(alloc, state, script, out, err),
        None => tell_unread(name, err),
    }
}

// Replays a script that is open.
fn replay_open<S: Source + Drop, W: Sink, E: Sink>(
    alloc: Global,
    state: HashState,
    mut script: S,
    out: &mut W,
    err: &mut E,
) -> u8
    ensures replays { ReplaysScript S.Source W.Sink E.Sink script (out.old, err.old) result
        (out.new, err.new) }
    ensures status { result ≤ 2 }
{
    replay_from(alloc, state, &mut script, out, err)
}

// Tells that a script cannot be read, where the sink takes it, and answers the status.
fn tell_unread<E: Sink>(name: &str, err: &mut E) -> u8
    ensures told { TakesOrFails E.takes E.fails err.old (cannot (codes "read") name.now) err.new }
    ensures status { result ≡ 1 }
{
    tell_cannot("read", name, err);
    1
}

// Replays the script of that name line by line, and tells of a bad line what was expected.
fn explain_named<F: Files, W: Sink, E: Sink>(
    alloc: Global,
    state: HashState,
    files: &F,
    name: &str,
    out: &mut W,
    err: &mut E,
) -> u8
    ensures named { ReplaysNamed (F.opened_lines files.now)
        (λ _ _ status _. status ≤ 2) E.takes E.fails name.now (out.old, err.old) result
        (out.new, err.new) }
    ensures status { result ≤ 2 }
{
    match files.open_lines(name) {
        Some(lines) => explain_open(alloc, state, lines, out, err),
        None => tell_unread(name, err),
    }
}

// Replays a script that is open, line by line.
fn explain_open<I: BufRead + Drop, W: Sink, E: Sink>(
    alloc: Global,
    state: HashState,
    mut lines: I,
    out: &mut W,
    err: &mut E,
) -> u8
    ensures status { result ≤ 2 }
{
    let mut context = Context::with_hasher(alloc, state);
    let mut heard = Vec::new(alloc);
    match answer_lines(alloc, &mut heard, &mut context, &mut lines, out) {
        Ok(wanted) => u8::from(wanted),
        Err(Fault::BadLine(report)) => {
            tell_bad_line(&report, true, line_of(heard.as_slice()), err);
            2
        }
        Err(fault) => {
            let _ = put_fault(&fault, err);
            1
        }
    }
}
