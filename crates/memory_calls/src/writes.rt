//! What goes to a writer, to writers that fail.
use crate::made::{changed, push, span};
use crate::runs::steps_of;
use crate::shelf::Shelf;
use std::alloc::Global;
use std::fmt::Display;
use std::io::Write;
use std::{io, str};
use tera_context::{Context, run};
use tera_report::{Error, ErrorKind, ReportError, TeraResult, escape_html};
use tera_values::{ConversionRefused, Key, Number, Value};

// What is written in one way.
trait Put {
    fn put(&self, out: &mut Shelf) -> io::Result<()>;
}

#[derive(Drop)]
struct Shown<'a, D> {
    it: &'a D,
}

impl<D: Display> Put for Shown<'_, D> {
    fn put(&self, out: &mut Shelf) -> io::Result<()> {
        write!(out, "{}", self.it)
    }
}

#[derive(Drop)]
struct Formatted<'a> {
    it: &'a Value,
}

impl Put for Formatted<'_> {
    fn put(&self, out: &mut Shelf) -> io::Result<()> {
        self.it.format(out)
    }
}

#[derive(Drop)]
struct Inside<'a> {
    it: &'a Value,
}

impl Put for Inside<'_> {
    fn put(&self, out: &mut Shelf) -> io::Result<()> {
        self.it.format_inside(out)
    }
}

#[derive(Drop)]
struct FormattedKey<'a> {
    it: &'a Key<'static>,
}

impl Put for FormattedKey<'_> {
    fn put(&self, out: &mut Shelf) -> io::Result<()> {
        self.it.format(out)
    }
}

#[derive(Drop)]
struct Escaped<'a> {
    it: &'a str,
}

impl Put for Escaped<'_> {
    fn put(&self, out: &mut Shelf) -> io::Result<()> {
        escape_html(self.it, out)
    }
}

// Writers that take all at once, one byte at a time, three with interruptions, and none.
fn tell_put<P: Put>(rt: &(impl Print + AllocGlobal), name: &str, it: &P) {
    tell_rooms(rt, name, it, usize::MAX, false);
    tell_rooms(rt, name, it, 1, false);
    tell_rooms(rt, name, it, 3, true);
    let _ = print!(rt; "{name} by 0: ");
    tell_once(rt, it, Shelf::new(rt.alloc(), 5, 0, false));
}

// The next room: that for one byte more, and behind 200 for as many as makes the rooms of a long
// text few.
fn next_room(room: usize) -> usize {
    room.saturating_add(if room < 200 { 1 } else { 61 })
}

// Writers with room for no byte, for one, .., until what is written has room.
fn tell_rooms<P: Put>(
    rt: &(impl Print + AllocGlobal),
    name: &str,
    it: &P,
    step: usize,
    interrupts: bool,
) {
    let mut room = 0;
    for _ in 0..usize::MAX {
        let _ = print!(rt; "{name} by {step} in {room}: ");
        if tell_once(rt, it, Shelf::new(rt.alloc(), room, step, interrupts)) {
            return;
        }
        room = next_room(room);
    }
}

// Whether it was written.
fn tell_once<P: Put>(rt: &impl Print, it: &P, out: Shelf) -> bool {
    let mut out = out;
    match it.put(&mut out) {
        Ok(()) => tell_taken(rt, out),
        Err(fault) => tell_fault(rt, out, fault),
    }
}

fn tell_taken(rt: &impl Print, out: Shelf) -> bool {
    let text = str::from_utf8(out.taken.as_slice()).unwrap_or("no text");
    let _ = println!(rt; "ok {text:?}");
    drop(out);
    true
}

fn tell_fault(rt: &impl Print, out: Shelf, fault: io::Error) -> bool {
    let _ = println!(rt; "{:?}, {fault:?}", out.taken.as_slice());
    drop(out);
    drop(fault);
    false
}

/// Writes each value that a line of the script sets as `a`, and some errors.
pub fn tell_writes(rt: &(impl Print + AllocGlobal), script: &str) -> TeraResult<()> {
    tell_script(rt, script)?;
    tell_numbers(rt);
    tell_errors(rt)
}

fn tell_script(rt: &(impl Print + AllocGlobal), script: &str) -> TeraResult<()> {
    let mut context = Context::new(rt.alloc());
    let told = tell_lines(rt, &mut context, script);
    drop(context);
    told
}

fn tell_lines(
    rt: &(impl Print + AllocGlobal),
    context: &mut Context,
    script: &str,
) -> TeraResult<()> {
    for line in script.lines() {
        tell_line(rt, context, line)?;
    }
    Ok(())
}

fn tell_line(rt: &(impl Print + AllocGlobal), context: &mut Context, line: &str) -> TeraResult<()> {
    let steps = steps_of(rt.alloc(), line)?;
    drop(run(context, steps));
    tell_held(rt, context.get("a"));
    Ok(())
}

fn tell_held(rt: &(impl Print + AllocGlobal), found: Option<&Value>) {
    if let Some(value) = found {
        tell_value(rt, value);
    }
}

fn tell_value(rt: &(impl Print + AllocGlobal), value: &Value) {
    tell_put(rt, "Value::format", &Formatted { it: value });
    tell_put(rt, "Value::format_inside", &Inside { it: value });
    tell_put(rt, "Value", &Shown { it: value });
    tell_text(rt, value);
    match value.as_key(rt.alloc()) {
        Ok(key) => tell_key(rt, key),
        Err(no_key) => tell_error(rt, no_key),
    }
}

fn tell_text(rt: &(impl Print + AllocGlobal), value: &Value) {
    if let Some(text) = value.as_str() {
        tell_put(rt, "escape_html", &Escaped { it: text });
    }
}

fn tell_key(rt: &(impl Print + AllocGlobal), key: Key<'static>) {
    tell_put(rt, "Key::format", &FormattedKey { it: &key });
    tell_put(rt, "Key", &Shown { it: &key });
    drop(key);
}

fn tell_error(rt: &(impl Print + AllocGlobal), error: Error) {
    tell_put(rt, "Error", &Shown { it: &error });
    tell_put(rt, "ErrorKind", &Shown { it: error.kind() });
    drop(error);
}

fn tell_numbers(rt: &(impl Print + AllocGlobal)) {
    tell_put(rt, "Span", &Shown { it: &span() });
    let number = Number::Integer(-75);
    tell_put(rt, "Number", &Shown { it: &number });
    let past = ConversionRefused::OutOfRange {
        value: Value::from(300u16),
        target: "u8",
    };
    tell_put(rt, "ConversionRefused", &Shown { it: &past });
    drop(past);
}

fn tell_errors(rt: &(impl Print + AllocGlobal)) -> TeraResult<()> {
    let alloc = rt.alloc();
    tell_error(rt, Error::circular_extend(alloc, "t", chain(alloc)?));
    tell_error(rt, Error::from(io::Error::from(io::ErrorKind::NotFound)));
    tell_error(rt, reported(alloc)?);
    Ok(())
}

fn chain(alloc: Global) -> TeraResult<Vec<String>> {
    let name = String::from_str(alloc, "a\né")?;
    let mut chain = Vec::new(alloc);
    let answer = push(&mut chain, name);
    changed(chain, answer)
}

fn reported(alloc: Global) -> TeraResult<Error> {
    let message = String::from_str(alloc, "bad")?;
    let report = ReportError::new(alloc, message, "a.html", "\t{{ y", &span())?;
    Ok(rendering(Box::new(alloc, noted(alloc, report)?)?))
}

fn rendering(report: Box<ReportError>) -> Error {
    Error::new(ErrorKind::RenderingError(report))
}

fn noted(alloc: Global, report: ReportError) -> TeraResult<ReportError> {
    let mut report = report;
    let answer = report.add_note(alloc, "é", "b.html", "z", &span());
    changed(report, answer)
}
