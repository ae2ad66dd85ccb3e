//! What errors display and tell, and their causes.
use crate::held::hold;
use crate::made::{displays, is_text, names, or_empty};
use crate::told::tells;
use std::alloc::Global;
use std::io;
use tera_report::Error;

// It says that.
fn says(alloc: Global, error: Error, wanted: &str) -> bool {
    let is_so = is_said(alloc, &error, wanted);
    drop(error);
    is_so
}

/// It displays that, where a width and a fill change nothing, and is told so piece by piece.
pub fn is_said(alloc: Global, error: &Error, wanted: &str) -> bool {
    displays(alloc, error, wanted)
        && displays_wide(alloc, error, wanted)
        && tells(alloc, error, wanted)
}

fn displays_wide(alloc: Global, error: &Error, wanted: &str) -> bool {
    is_text(format!(in alloc; "{error:*>200}"), wanted)
}

// The refusal of an extension of that template over these says that.
fn extend_says(alloc: Global, name: &str, chain: &[&str], wanted: &str) -> bool {
    let error = Error::circular_extend(alloc, name, names(alloc, chain));
    says(alloc, error, wanted)
}

// The refusal of an inclusion of that template over these says that.
fn include_says(alloc: Global, name: &str, chain: &[&str], wanted: &str) -> bool {
    let error = Error::circular_include(alloc, name, names(alloc, chain));
    says(alloc, error, wanted)
}

#[test]
fn texts_of_chains(rt: HostRuntime) {
    let alloc = rt.alloc();
    let extend = "Circular extend detected for template 'a'. Inheritance chain: `[\"a\", \"b\"]`";
    let quoted =
        "Circular include detected for template 'é'. Include chain: `[\"é\\\"\", \"\\u{7f}\"]`";
    let empty = "Circular include detected for template 'a'. Include chain: `[]`";
    let three =
        "Circular extend detected for template 'é'. Inheritance chain: `[\"é\\\"\", \"'\", \"\"]`";
    hold!(
        &rt,
        [
            extend_says(alloc, "a", &["a", "b"], extend),
            extend_says(alloc, "é", &["é\"", "'", ""], three),
            include_says(alloc, "é", &["é\"", "\u{7f}"], quoted),
            include_says(alloc, "a", &[], empty),
        ],
    );
}

#[test]
fn texts_of_names(rt: HostRuntime) {
    let alloc = rt.alloc();
    let parent = "Template 'a' is inheriting from 'b', which doesn't exist or isn't loaded.";
    let template = "Template 'é' not found";
    let component = "Component 'a' not found";
    hold!(
        &rt,
        [
            says(alloc, Error::message(alloc, "it's \"so\""), "it's \"so\""),
            says(alloc, Error::missing_parent(alloc, "a", "b"), parent),
            says(alloc, Error::template_not_found(alloc, "é"), template),
            says(alloc, Error::component_not_found(alloc, "a"), component),
        ],
    );
}

// Each kind of a fault, and its name.
const IO_KINDS: [(io::ErrorKind, &str); 42] = [
    (io::ErrorKind::NotFound, "NotFound"),
    (io::ErrorKind::PermissionDenied, "PermissionDenied"),
    (io::ErrorKind::ConnectionRefused, "ConnectionRefused"),
    (io::ErrorKind::ConnectionReset, "ConnectionReset"),
    (io::ErrorKind::HostUnreachable, "HostUnreachable"),
    (io::ErrorKind::NetworkUnreachable, "NetworkUnreachable"),
    (io::ErrorKind::ConnectionAborted, "ConnectionAborted"),
    (io::ErrorKind::NotConnected, "NotConnected"),
    (io::ErrorKind::AddrInUse, "AddrInUse"),
    (io::ErrorKind::AddrNotAvailable, "AddrNotAvailable"),
    (io::ErrorKind::NetworkDown, "NetworkDown"),
    (io::ErrorKind::BrokenPipe, "BrokenPipe"),
    (io::ErrorKind::AlreadyExists, "AlreadyExists"),
    (io::ErrorKind::WouldBlock, "WouldBlock"),
    (io::ErrorKind::NotADirectory, "NotADirectory"),
    (io::ErrorKind::IsADirectory, "IsADirectory"),
    (io::ErrorKind::DirectoryNotEmpty, "DirectoryNotEmpty"),
    (io::ErrorKind::ReadOnlyFilesystem, "ReadOnlyFilesystem"),
    (io::ErrorKind::FilesystemLoop, "FilesystemLoop"),
    (
        io::ErrorKind::StaleNetworkFileHandle,
        "StaleNetworkFileHandle",
    ),
    (io::ErrorKind::InvalidInput, "InvalidInput"),
    (io::ErrorKind::InvalidData, "InvalidData"),
    (io::ErrorKind::TimedOut, "TimedOut"),
    (io::ErrorKind::WriteZero, "WriteZero"),
    (io::ErrorKind::StorageFull, "StorageFull"),
    (io::ErrorKind::NotSeekable, "NotSeekable"),
    (io::ErrorKind::QuotaExceeded, "QuotaExceeded"),
    (io::ErrorKind::FileTooLarge, "FileTooLarge"),
    (io::ErrorKind::ResourceBusy, "ResourceBusy"),
    (io::ErrorKind::ExecutableFileBusy, "ExecutableFileBusy"),
    (io::ErrorKind::Deadlock, "Deadlock"),
    (io::ErrorKind::CrossesDevices, "CrossesDevices"),
    (io::ErrorKind::TooManyLinks, "TooManyLinks"),
    (io::ErrorKind::InvalidFilename, "InvalidFilename"),
    (io::ErrorKind::ArgumentListTooLong, "ArgumentListTooLong"),
    (io::ErrorKind::Interrupted, "Interrupted"),
    (io::ErrorKind::Unsupported, "Unsupported"),
    (io::ErrorKind::UnexpectedEof, "UnexpectedEof"),
    (io::ErrorKind::OutOfMemory, "OutOfMemory"),
    (io::ErrorKind::InProgress, "InProgress"),
    (io::ErrorKind::Other, "Other"),
    (io::ErrorKind::Uncategorized, "Uncategorized"),
];

// An error of that kind says that name behind its words.
fn says_kind(alloc: Global, kind: io::ErrorKind, name: &str) -> bool {
    let text = format!(in alloc; "Io error while writing rendered value to output: {name}");
    let wanted = or_empty(alloc, text);
    let is_so = says(alloc, Error::from(io::Error::from(kind)), wanted.as_str());
    drop(wanted);
    is_so
}

#[test]
fn io_kinds_by_name(rt: HostRuntime) {
    for (kind, name) in IO_KINDS {
        assert!(rt; says_kind(rt.alloc(), kind, name), "{name}");
    }
}

// Its cause displays that.
fn has_cause(alloc: Global, error: Error, wanted: &str) -> bool {
    let is_so = match error.source() {
        Some(cause) => displays(alloc, cause, wanted),
        None => false,
    };
    drop(error);
    is_so
}

// It has no cause.
fn has_none(error: Error) -> bool {
    let is_so = error.source().is_none();
    drop(error);
    is_so
}

// The error of bytes that are no text.
fn of_bytes(alloc: Global, bytes: &[u8]) -> Error {
    let bytes = bytes.to_vec(alloc).unwrap_or(Vec::new(alloc));
    match String::from_utf8(bytes) {
        Ok(text) => Error::message(alloc, text.as_str()),
        Err(wrong) => Error::from(wrong),
    }
}

#[test]
fn causes(rt: HostRuntime) {
    let alloc = rt.alloc();
    let chained = Error::chain(alloc, "outer", anyhow::Error::msg("inner"));
    let no_text = "invalid utf-8 sequence of 1 bytes from index 1";
    let not_found = Error::from(io::Error::from(io::ErrorKind::NotFound));
    let of_its_own = Error::io_error(io::Error::other("the disk is gone"));
    let of_the_system = Error::io_error(io::Error::from_raw_os_error(28));
    hold!(
        &rt,
        [
            displays(alloc, &chained, "outer"),
            has_cause(alloc, chained, "inner"),
            has_cause(alloc, not_found, "entity not found"),
            has_cause(alloc, of_its_own, "the disk is gone"),
            has_cause(
                alloc,
                of_the_system,
                "No space left on device (os error 28)",
            ),
            has_cause(alloc, of_bytes(alloc, b"a\xff"), no_text),
            has_none(Error::message(alloc, "a")),
        ],
    );
}
