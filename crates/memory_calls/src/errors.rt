//! Errors that hold texts, their kinds, and texts that are escaped.
use crate::answers::{tell, tell_error};
use crate::made::{Fill, Made, filled, names, push, span};
use std::alloc::Global;
use tera_report::{Error, ErrorKind, TeraResult, escape_text};

/// Refusals of values and arguments.
pub fn tell_refusals(rt: &(impl Print + AllocGlobal), made: &Made) -> TeraResult<()> {
    let (alloc, text) = (rt.alloc(), made.text.as_str());
    tell_error(rt, "Error::message", Error::message(alloc, text));
    tell_error(rt, "Error::message_of", pieced(alloc, made.count)?);
    tell_chain(rt, text);
    tell_arguments(rt, text);
    tell(rt, "escape_text", escape_text(alloc, text));
    Ok(())
}

fn tell_chain(rt: &(impl Print + AllocGlobal), text: &str) {
    let cause = anyhow::Error::msg("a cause");
    let chain = Error::chain(rt.alloc(), text, cause);
    tell(rt, "Error::chain", caused(chain));
}

fn tell_arguments(rt: &(impl Print + AllocGlobal), text: &str) {
    let alloc = rt.alloc();
    tell_error(
        rt,
        "Error::invalid_arg_type",
        Error::invalid_arg_type(alloc, text, text),
    );
    tell_error(
        rt,
        "Error::out_of_range_arg",
        Error::out_of_range_arg(alloc, text, text),
    );
    tell_error(rt, "Error::missing_arg", Error::missing_arg(alloc, text));
}

// An error of so many pieces.
fn pieced(alloc: Global, count: usize) -> TeraResult<Error> {
    let pieces: Vec<&str> = filled(alloc, Vec::new(alloc), count)?;
    let error = Error::message_of(alloc, pieces.as_slice());
    drop(pieces);
    Ok(error)
}

impl Fill for Vec<&str> {
    fn put(&mut self, _: Global, _: usize) -> TeraResult<()> {
        push(self, "é<")
    }
}

// The error itself, where there was no memory for it.
fn caused(error: Error) -> TeraResult<Error> {
    if is_want(&error) {
        Err(error)
    } else {
        Ok(error)
    }
}

/// Whether it tells that there is no memory.
pub fn is_want(error: &Error) -> bool {
    matches!(error.kind(), ErrorKind::OutOfMemory)
}

/// Refusals of templates.
pub fn tell_templates(rt: &(impl Print + AllocGlobal), made: &Made) -> TeraResult<()> {
    let (alloc, text) = (rt.alloc(), made.text.as_str());
    tell_made(rt, "Error::circular_extend", chained(alloc, made))?;
    tell_made(rt, "Error::circular_include", included(alloc, made))?;
    tell_missing(rt, text);
    tell(rt, "Error::syntax_error", caused(syntax(alloc, made)?));
    Ok(())
}

fn tell_made(rt: &impl Print, name: &str, error: TeraResult<Error>) -> TeraResult<()> {
    tell_error(rt, name, error?);
    Ok(())
}

fn tell_missing(rt: &(impl Print + AllocGlobal), text: &str) {
    let alloc = rt.alloc();
    tell_error(
        rt,
        "Error::missing_parent",
        Error::missing_parent(alloc, text, text),
    );
    tell_error(
        rt,
        "Error::template_not_found",
        Error::template_not_found(alloc, text),
    );
    tell_error(
        rt,
        "Error::component_not_found",
        Error::component_not_found(alloc, text),
    );
}

fn chained(alloc: Global, made: &Made) -> TeraResult<Error> {
    let chain = names(alloc, made.count)?;
    Ok(Error::circular_extend(alloc, made.text.as_str(), chain))
}

fn included(alloc: Global, made: &Made) -> TeraResult<Error> {
    let chain = names(alloc, made.count)?;
    Ok(Error::circular_include(alloc, made.text.as_str(), chain))
}

fn syntax(alloc: Global, made: &Made) -> TeraResult<Error> {
    let message = String::from_str(alloc, made.text.as_str())?;
    Ok(Error::syntax_error(alloc, message, &span()))
}

/// Kinds that are copied.
pub fn tell_copies(rt: &(impl Print + AllocGlobal), made: &Made) -> TeraResult<()> {
    let (alloc, text) = (rt.alloc(), made.text.as_str());
    tell_copy(rt, "ErrorKind::clone of a chain", chained(alloc, made))?;
    tell_copy(rt, "ErrorKind::clone of a report", syntax(alloc, made))?;
    let two = Error::out_of_range_arg(alloc, text, text);
    tell_copy(rt, "ErrorKind::clone of two texts", Ok(two))
}

// What could not be made is told as an operand that could not.
fn tell_copy(
    rt: &(impl Print + AllocGlobal),
    name: &str,
    error: TeraResult<Error>,
) -> TeraResult<()> {
    tell_kind(rt, name, caused(error?)?);
    Ok(())
}

fn tell_kind(rt: &(impl Print + AllocGlobal), name: &str, error: Error) {
    let copy = error.kind().clone(rt.alloc());
    drop(error);
    tell(rt, name, copy);
}
