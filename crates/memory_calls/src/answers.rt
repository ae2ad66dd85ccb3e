//! What a call answers, as a line. A fault of standard output goes unsaid: what is missing there
//! says it.
use std::alloc::AllocError;
use std::fmt::Debug;
use tera_report::{Error, TeraResult};

/// Writes what is answered, or why nothing is.
pub fn tell<T: Debug + Drop>(rt: &impl Print, name: &str, answer: TeraResult<T>) {
    match answer {
        Ok(given) => tell_given(rt, name, given),
        Err(refused) => tell_error(rt, name, refused),
    }
}

fn tell_given<T: Debug + Drop>(rt: &impl Print, name: &str, given: T) {
    let _ = println!(rt; "{name}: ok {given:?}");
    drop(given);
}

/// The answer, with any want of memory as an error of these calls.
pub fn widened<T: Drop>(answer: Result<T, AllocError>) -> TeraResult<T> {
    Ok(answer?)
}

/// Writes why nothing is answered.
pub fn tell_error(rt: &impl Print, name: &str, refused: Error) {
    let _ = println!(rt; "{name}: error: {refused}");
    drop(refused);
}

/// Writes whether a change was made, and what is held behind it.
pub fn tell_change<H: Debug + Drop>(rt: &impl Print, name: &str, answer: TeraResult<()>, held: H) {
    tell_start(rt, name, answer);
    let _ = println!(rt; "{held:?}");
    drop(held);
}

// Writes whether a change was made, and no end of the line.
fn tell_start(rt: &impl Print, name: &str, answer: TeraResult<()>) {
    match answer {
        Ok(()) => tell_made(rt, name),
        Err(refused) => tell_refused(rt, name, refused),
    }
}

fn tell_made(rt: &impl Print, name: &str) {
    let _ = print!(rt; "{name}: ok, held ");
}

fn tell_refused(rt: &impl Print, name: &str, refused: Error) {
    let _ = print!(rt; "{name}: error: {refused}, held ");
    drop(refused);
}

/// Writes what a call answers that is never refused.
pub fn tell_debug<D: Debug>(rt: &impl Print, name: &str, it: &D) {
    let _ = println!(rt; "{name}: {it:?}");
}
