//! Kinds of errors, which are their copies and no other kinds, and their Debug, as a derived Debug
//! of Rust has it. What owns an error hands it to `drop`, so that no function writes out how it
//! ends.
use crate::held::hold;
use crate::made::{names, or_empty, shows};
use crate::texts::is_said;
use std::alloc::{AllocError, AllocFailed, Global};
use std::io;
use tera_report::{Error, ErrorKind};

// The kind of the error is its clone, and is not the other.
fn is_its_clone(alloc: Global, error: Error, other: &ErrorKind) -> bool {
    let is_so = is_cloned(alloc, error.kind(), other);
    drop(error);
    is_so
}

// The kind is its clone, and is not the other.
fn is_cloned(alloc: Global, kind: &ErrorKind, other: &ErrorKind) -> bool {
    match kind.clone(alloc).ok() {
        Some(copy) => is_that(copy, kind) && *kind != *other,
        None => false,
    }
}

// The copy is that kind.
fn is_that(copy: ErrorKind, kind: &ErrorKind) -> bool {
    let is_so = copy == *kind;
    drop(copy);
    is_so
}

// The kind of an error without a cause shows that, and so does the error around it; the kind is its
// clone, and is not the other.
fn tells(alloc: Global, error: Error, wanted: &str, other: &ErrorKind) -> bool {
    let is_told = shows(alloc, error.kind(), wanted) && shows_around(alloc, &error, wanted);
    is_its_clone(alloc, error, other) && is_told
}

// The error around a kind that shows that has no cause.
fn shows_around(alloc: Global, error: &Error, kind: &str) -> bool {
    let whole = or_empty(
        alloc,
        format!(in alloc; "Error {{ kind: {kind}, source: None }}"),
    );
    let is_so = shows(alloc, error, whole.as_str());
    drop(whole);
    is_so
}

// It tells that, and is no extension over these templates.
fn tells_no_chain(alloc: Global, error: Error, wanted: &str) -> bool {
    let chain = Error::circular_extend(alloc, "a", names(alloc, &["a", "b"]));
    let is_so = tells(alloc, error, wanted, chain.kind());
    drop(chain);
    is_so
}

#[test]
fn kinds_of_chains(rt: HostRuntime) {
    let alloc = rt.alloc();
    let extend = Error::circular_extend(alloc, "a", names(alloc, &["a", "é"]));
    let chain = "CircularExtend { tpl: \"a\", inheritance_chain: [\"a\", \"é\"] }";
    let include = Error::circular_include(alloc, "a", names(alloc, &["a", "b"]));
    let same = "CircularInclude { tpl: \"a\", include_chain: [\"a\", \"b\"] }";
    let none = Error::circular_include(alloc, "a", Vec::new(alloc));
    let empty = "CircularInclude { tpl: \"a\", include_chain: [] }";
    hold!(
        &rt,
        [
            tells_no_chain(alloc, extend, chain),
            tells_no_chain(alloc, include, same),
            tells_no_chain(alloc, none, empty),
        ],
    );
}

#[test]
fn kinds_of_templates(rt: HostRuntime) {
    let alloc = rt.alloc();
    let message = "Msg(\"it's \\\"so\\\"\\n\")";
    let parent = "MissingParent { current: \"a\", parent: \"b\" }";
    let template = "TemplateNotFound(\"a\")";
    let component = "ComponentNotFound(\"a\")";
    hold!(
        &rt,
        [
            tells_no_chain(alloc, Error::message(alloc, "it's \"so\"\n"), message),
            tells_no_chain(alloc, Error::missing_parent(alloc, "a", "b"), parent),
            tells_no_chain(alloc, Error::template_not_found(alloc, "a"), template),
            tells_no_chain(alloc, Error::component_not_found(alloc, "a"), component),
        ],
    );
}

// It tells that, and is not that no file was found.
fn tells_no_io(alloc: Global, error: Error, wanted: &str) -> bool {
    let not_found = ErrorKind::Io(io::ErrorKind::NotFound);
    let is_so = tells(alloc, error, wanted, &not_found);
    drop(not_found);
    is_so
}

// It tells that and says that.
fn tells_and_says(alloc: Global, error: Error, wanted: &str, said: &str) -> bool {
    let is_said = is_said(alloc, &error, said);
    tells_no_io(alloc, error, wanted) && is_said
}

#[test]
fn kinds_of_arguments(rt: HostRuntime) {
    let alloc = rt.alloc();
    let of_type = "InvalidArgument { expected_type: \"u8\", actual_type: \"string\" }";
    let missing = "MissingArgument { arg_name: \"n\" }";
    let of_range = "OutOfRangeArgument { value: \"300\", target_type: \"u8\" }";
    hold!(
        &rt,
        [
            tells_and_says(
                alloc,
                Error::invalid_arg_type(alloc, "u8", "string"),
                of_type,
                "Invalid type for the value, expected `u8` but got `string`",
            ),
            tells_and_says(
                alloc,
                Error::missing_arg(alloc, "n"),
                missing,
                "Missing keyword argument `n`",
            ),
            tells_and_says(
                alloc,
                Error::out_of_range_arg(alloc, "300", "u8"),
                of_range,
                "Value `300` is out of range for `u8`",
            ),
        ],
    );
}

// It tells and says that there is no memory.
fn is_want_of_memory(alloc: Global, error: Error) -> bool {
    tells_and_says(alloc, error, "OutOfMemory", "Out of memory")
}

#[test]
fn kinds_that_hold_no_text(rt: HostRuntime) {
    let alloc = rt.alloc();
    let broken = ErrorKind::Io(io::ErrorKind::BrokenPipe);
    let broken_pipe = "Io error while writing rendered value to output: BrokenPipe";
    let no_text = "Invalid UTF-8 characters found while rendering.";
    hold!(
        &rt,
        [
            tells_and_says(alloc, Error::new(broken), "Io(BrokenPipe)", broken_pipe),
            tells_and_says(
                alloc,
                Error::new(ErrorKind::Utf8Conversion),
                "Utf8Conversion",
                no_text,
            ),
            is_want_of_memory(alloc, Error::new(ErrorKind::OutOfMemory)),
            is_want_of_memory(alloc, Error::from(AllocError)),
            is_want_of_memory(alloc, Error::from(AllocFailed { value: 1u8 })),
        ],
    );
}

// The whole error.
fn tells_whole(alloc: Global, error: Error, wanted: &str) -> bool {
    let is_so = shows(alloc, &error, wanted);
    drop(error);
    is_so
}

#[test]
fn an_error_with_its_cause(rt: HostRuntime) {
    let alloc = rt.alloc();
    let wanted = "Error { kind: Msg(\"outer\"), source: Some(inner) }";
    let chained = Error::chain(alloc, "outer", anyhow::Error::msg("inner"));
    assert!(rt; tells_whole(alloc, chained, wanted));
}
