//! Replays to writers that break: what is read behind that, and which write is tried again.
use crate::replays::{
    Ended, FIRST, FIRST_ANSWERS, Shelf, Slow, WRITING, empty_shelf, in_pieces, roomy, unflushed,
};
use std::alloc::Global;
use std::io::{Error, ErrorKind, Result, Write};
use tera_replies::{replay, replay_from};
use tera_report::sink::Growing;
use tera_report::watch::Watched;
use tera_values::HashState;

// The replay of that input to `out` ends for a failed write, after so many reads.
fn breaks_after(alloc: Global, input: Slow<'_>, out: Shelf, reads: usize) -> bool {
    let (mut input, mut out) = (input, out);
    let mut err = Growing::new(alloc);
    let status = replay_from(
        alloc,
        HashState::fixed(),
        &mut input,
        &mut Watched::new(&mut out),
        &mut err,
    );
    let is_so = status == 1 && input.reads == reads && err.as_str().as_bytes() == WRITING;
    drop(out);
    drop(err);
    is_so
}

#[test]
fn nothing_is_read_once_a_flush_failed(rt: HostRuntime) {
    let alloc = rt.alloc();
    for (script, size, held, reads) in [
        (b"eq a b\neq a b\n".as_slice(), 7, 0, 0),
        (b"eq a b\neq a b\n", 7, 5, 1),
        (b"eq a b\neq a b\n", 7, 10, 2),
        (b"eq a b\neq a b", 7, 10, 3),
        (b"eq a b\nfrob\nhas a\n", 4096, 5, 1),
    ] {
        let out = unflushed(alloc, held);
        assert!(rt;
            breaks_after(alloc, in_pieces(script, size), out, reads),
            "{script:?} by {size}, {held}"
        );
    }
}

#[test]
fn nothing_is_read_once_a_write_failed(rt: HostRuntime) {
    let alloc = rt.alloc();
    let script = b"eq a b\neq a b\neq a b\n".as_slice();
    for (size, room, reads) in [(7, 0, 1), (7, 5, 2), (3, 0, 3), (3, 5, 5)] {
        let out = empty_shelf(alloc, room);
        assert!(rt;
            breaks_after(alloc, in_pieces(script, size), out, reads),
            "by {size}, {room}"
        );
    }
}

// Takes all that it is given, but for its first write, which answers an error of that kind.
#[derive(Drop)]
struct FailsOnce {
    held: Vec<u8>,
    first: Option<ErrorKind>,
}

impl Write for FailsOnce {
    fn write(&mut self, buf: &[u8]) -> Result<usize> {
        if let Some(kind) = self.first.take() {
            return Err(Error::from(kind));
        }
        self.held.extend_from_slice(buf)?;
        Ok(buf.len())
    }

    fn flush(&mut self) -> Result<()> {
        Ok(())
    }
}

// The replay to a writer whose first write fails so ends with that status, these answers and that
// report.
fn ends_once_failed(alloc: Global, kind: ErrorKind, wanted: Ended<'_>) -> bool {
    let mut out = FailsOnce {
        held: Vec::new(alloc),
        first: Some(kind),
    };
    let mut err = roomy(alloc);
    let status = replay(
        alloc,
        HashState::fixed(),
        in_pieces(FIRST, 4096),
        &mut out,
        &mut err,
    );
    let (ended, answers, report) = wanted;
    let is_so = status == ended && out.held.as_slice() == answers && err.held.as_slice() == report;
    drop(out);
    drop(err);
    is_so
}

#[test]
fn a_write_is_tried_again_where_it_was_interrupted_alone(rt: HostRuntime) {
    let alloc = rt.alloc();
    let again: Ended<'_> = (0, FIRST_ANSWERS, b"");
    let broken: Ended<'_> = (1, b"", WRITING);
    assert!(rt; ends_once_failed(alloc, ErrorKind::Interrupted, again));
    assert!(rt; ends_once_failed(alloc, ErrorKind::Other, broken));
    assert!(rt; ends_once_failed(alloc, ErrorKind::StorageFull, broken));
    assert!(rt; ends_once_failed(alloc, ErrorKind::WouldBlock, broken));
}
