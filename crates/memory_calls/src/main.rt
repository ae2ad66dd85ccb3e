//! Public calls in hostile surroundings: standard input says what is done, and
//! tests/test_hostile.py what is to come of it.
//!
//! - A number, and 2 where nothing is said: each call that takes memory, on operands of so many
//!   parts. A line for each has its name, its answer, and what is still held of what it may change.
//! - `free`, and a number in the next line: the calls that take no memory, on operands of so many
//!   parts, a line for each.
//! - `growth`, and a number in the next line: so many pairs are put into a map, and so many names
//!   into a context, with a line before and behind each.
//! - `kept`, and a number in the next line: the calls that change a report, a map or a context of
//!   so many parts, as in the first form.
//! - `run`: lists of steps, with lines `--` between them, each of which is run over one context.
//! - `read`: what each line of a script says, by its Debug.
//! - `write`: each value that a line sets is written, in each way that a text goes to a writer, to
//!   writers that fail at each place, that take a byte at a time, are interrupted or take nothing.
#![tactic(auto)]

mod answers;
mod arguments;
mod contexts;
mod errors;
mod free;
mod given;
mod grown;
mod made;
mod named;
mod numbers;
mod paper;
mod reports;
mod runs;
mod shelf;
mod values;
mod writes;

use made::Made;
use std::io;
use std::process::ExitCode;
use tera_report::{Error, TeraResult};

fn main(rt: HostRuntime) -> ExitCode {
    match started(&rt) {
        Ok(()) => ExitCode::from(0),
        Err(error) => ended(&rt, error),
    }
}

// What ended it early, which is want of memory for an operand, or a script that is none.
fn ended(rt: &HostRuntime, error: Error) -> ExitCode {
    let _ = eprintln!(rt; "error: {error}");
    drop(error);
    ExitCode::from(1)
}

fn started(rt: &HostRuntime) -> TeraResult<()> {
    let given = io::read_to_string(rt.alloc(), rt.stdin())?;
    let told = tell_asked(rt, given.as_str());
    drop(given);
    told
}

fn tell_asked(rt: &HostRuntime, given: &str) -> TeraResult<()> {
    let (what, rest) = given.split_once("\n").unwrap_or(("", ""));
    if what == "run" {
        return runs::tell_runs(rt, rest);
    }
    if what == "free" {
        return free::tell_free(rt, number_in(rest));
    }
    if what == "growth" {
        return grown::tell_growth(rt, number_in(rest));
    }
    if what == "kept" {
        return grown::tell_kept(rt, number_in(rest));
    }
    if what == "read" {
        runs::tell_readings(rt, rest);
        return Ok(());
    }
    if what == "write" {
        return writes::tell_writes(rt, rest);
    }
    tell_calls(rt, what.parse::<usize>().unwrap_or(2))
}

// The number that the line is.
fn number_in(rest: &str) -> usize {
    rest.trim_end().parse::<usize>().unwrap_or(2)
}

fn tell_calls(rt: &HostRuntime, count: usize) -> TeraResult<()> {
    let mut made = Made::bare(rt.alloc(), count);
    let told = tell_each(rt, &mut made);
    drop(made);
    told
}

fn tell_each(rt: &HostRuntime, made: &mut Made) -> TeraResult<()> {
    made.fill(rt.alloc())?;
    tell_reports(rt, made)?;
    tell_values(rt, made)?;
    tell_given(rt, made)?;
    tell_script(rt, made)
}

fn tell_reports(rt: &HostRuntime, made: &Made) -> TeraResult<()> {
    errors::tell_refusals(rt, made)?;
    errors::tell_templates(rt, made)?;
    errors::tell_copies(rt, made)?;
    reports::tell_reports(rt, made)?;
    reports::tell_changes(rt, made)
}

fn tell_values(rt: &HostRuntime, made: &Made) -> TeraResult<()> {
    paper::tell_papers(rt, made);
    values::tell_makers(rt, made)?;
    values::tell_copies(rt, made);
    values::tell_maps(rt, made)?;
    numbers::tell_refusals(rt, made);
    Ok(())
}

fn tell_given(rt: &HostRuntime, made: &Made) -> TeraResult<()> {
    given::tell_values(rt, made)?;
    given::tell_collections(rt, made)?;
    given::tell_keys(rt, made)?;
    arguments::tell_taken(rt, made);
    arguments::tell_refused(rt, made);
    arguments::tell_integers(rt, made);
    Ok(())
}

fn tell_script(rt: &HostRuntime, made: &Made) -> TeraResult<()> {
    named::tell_named(rt, made)?;
    named::tell_inputs(rt, made)?;
    contexts::tell_contexts(rt, made)?;
    contexts::tell_lines(rt, made)
}
