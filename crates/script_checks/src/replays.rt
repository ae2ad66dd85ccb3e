//! Replays of scripts, in any pieces, and with reads, writes and flushes that fail.
use std::alloc::Global;
use std::io::{BufWriter, Error, ErrorKind, Read, Result, Write};
use tera_replies::{InputPieces, replay, replay_from};
use tera_report::sink::Growing;
use tera_values::HashState;

// Gives these bytes, at most `size` at a read, and then ends. Where there are later bytes, one read
// between these and those is interrupted. Counts its reads.
#[derive(Drop)]
pub(crate) struct Slow<'a> {
    bytes: &'a [u8],
    size: usize,
    later: Option<&'a [u8]>,
    pub(crate) reads: usize,
}

impl Read for Slow<'_> {
    fn read(&mut self, buf: &mut [u8]) -> Result<usize> {
        self.reads = self.reads.saturating_add(1);
        if self.bytes.is_empty() {
            if let Some(later) = self.later.take() {
                self.bytes = later;
                return Err(Error::from(ErrorKind::Interrupted));
            }
        }
        let count = self.size.min(self.bytes.len()).min(buf.len());
        let (front, rest) = self.bytes.split_at(count);
        buf[..count].copy_from_slice(front);
        self.bytes = rest;
        Ok(count)
    }
}

// Holds up to `room` bytes, and fails at the next, or at a flush where it holds `unflushed` bytes.
#[derive(Drop)]
pub(crate) struct Shelf {
    pub(crate) held: Vec<u8>,
    room: usize,
    unflushed: usize,
}

impl Write for Shelf {
    fn write(&mut self, buf: &[u8]) -> Result<usize> {
        let count = buf.len().min(self.room);
        if count == 0 && !buf.is_empty() {
            return Err(Error::from(ErrorKind::StorageFull));
        }
        self.held.extend_from_slice(&buf[..count])?;
        self.room -= count;
        Ok(count)
    }

    fn flush(&mut self) -> Result<()> {
        if self.held.len() == self.unflushed {
            return Err(Error::from(ErrorKind::Other));
        }
        Ok(())
    }
}

pub(crate) fn empty_shelf(alloc: Global, room: usize) -> Shelf {
    Shelf {
        held: Vec::new(alloc),
        room,
        unflushed: usize::MAX,
    }
}

// Gives these bytes, as many at a read, and then ends.
pub(crate) fn in_pieces(bytes: &[u8], size: usize) -> Slow<'_> {
    Slow {
        bytes,
        size,
        later: None,
        reads: 0,
    }
}

// Gives these bytes, as many at a read, is interrupted once, and would then give a line.
fn interrupted(bytes: &[u8], size: usize) -> Slow<'_> {
    Slow {
        bytes,
        size,
        later: Some(b"\nhas a\n"),
        reads: 0,
    }
}

pub(crate) fn roomy(alloc: Global) -> Shelf {
    empty_shelf(alloc, 4096)
}

// A status, and what is written to either writer.
pub(crate) type Ended<'a> = (u8, &'a [u8], &'a [u8]);

// The replay of that input to these writers ends so.
fn ends(alloc: Global, input: Slow<'_>, out: Shelf, err: Shelf, wanted: Ended<'_>) -> bool {
    let (mut out, mut err) = (out, err);
    let status = replay(alloc, HashState::fixed(), input, &mut out, &mut err);
    let (ended, answers, report) = wanted;
    let is_so = status == ended && out.held.as_slice() == answers && err.held.as_slice() == report;
    drop(out);
    drop(err);
    is_so
}

const READING: &[u8] = b"error: reading failed\n";

pub(crate) const WRITING: &[u8] = b"error: writing failed\n";

// The reports of `frob` as the second and as the third line.
const SECOND: &[u8] = b"error: bad line\n --> line 2:1:1\n  |\n1 | frob\n  | ^^^^\n";

const THIRD: &str = "error: bad line\n --> line 3:1:1\n  |\n1 | frob\n  | ^^^^\n";

const THE_2001ST: &str = "error: bad line\n --> line 2001:1:1\n  |\n1 | frob\n  | ^^^^\n";

pub(crate) const FIRST: &[u8] =
    b"set a 1u64\nset b 1i128\neq a b\ncmp a b\nset c s\"<x>\"\nprint c\ncmp b c\n";

pub(crate) const FIRST_ANSWERS: &[u8] = b"ok\nok\ntrue\nequal\nok\ntext <x>\nless\n";

const WORKED: &[u8] = b"set t s\"a\\nb\"\nget t\nset b x\"6869\"\nprint b\n\
slice t _ _ -1\nlen t\nkind b\nread u8 t\nset n 300\nread u8 n\n\
fields n\ntry_cmp n t\nnegate n -> n\nget n\n";

const WORKED_ANSWERS: &[u8] =
    b"ok\nvalue \"a\\nb\"\nok\ntext hi\nvalue \"b\\na\"\nsize 3\nkind bytes\n\
error: Invalid type for the value, expected `u8` but got `string`\nok\n\
error: Value `300` is out of range for `u8`\nfields []\nundecided\nok\nvalue -300\n";

const INSERTED: &[u8] = b"set a {\"other\": 2, \"hello\": \"world\"}\nprint a\n\
set b {\"hello\": \"world\", \"other\": 2}\neq a b\ncmp a b\n\
set k {\"1\": 3, 1: 2, true: 1}\nprint k\nwalk k\nfields k\n\
set e {\"b\": 1, \"a\": 2, \"b\": 3}\nprint e\nwalk e\nwalk nope\n\
set x {\"b\": 0, \"a\": 2}\nset y {\"a\": 1, \"c\": 0}\ncmp x y\n";

const INSERTED_ANSWERS: &[u8] = b"ok\ntext {\"other\": 2, \"hello\": \"world\"}\n\
ok\ntrue\nequal\n\
ok\ntext {\"1\": 3, 1: 2, true: 1}\nwalk [\"1\", \"1\", \"true\"]\nfields [\"1\", \"true\"]\n\
ok\ntext {\"b\": 3, \"a\": 2}\nwalk [\"b\", \"a\"]\nwalk []\n\
ok\nok\ngreater\n";

#[test]
fn scripts_are_answered_in_any_pieces(rt: HostRuntime) {
    let alloc = rt.alloc();
    for (script, answers, report, want) in [
        (FIRST, FIRST_ANSWERS, b"".as_slice(), 0),
        (WORKED, WORKED_ANSWERS, b"", 0),
        (INSERTED, INSERTED_ANSWERS, b"", 0),
        (b"", b"", b"", 0),
        (b"# note", b"", b"", 0),
        (b"# \xff\n \t \n", b"", b"", 0),
        (b"eq a b\nfrob", b"true\n", SECOND, 2),
        (b"eq a b\nfrob\neq a b\n", b"true\n", SECOND, 2),
        (
            b"\n\n\xff\n",
            b"",
            b"error: bad line\n --> line 3:1:1\n  |\n1 | \n  | ^\n",
            2,
        ),
        (b"eq a b\r\ncmp a b\r\n", b"true\nequal\n", b"", 0),
        (b"eq a b", b"true\n", b"", 0),
        (
            b"eq a b\r",
            b"",
            b"error: bad line\n --> line 1:1:1\n  |\n1 | eq a b\r\n  | ^^^^^^^\n",
            2,
        ),
        (
            b"\tfrob \xc3\xa9\r\n",
            b"",
            b"error: bad line\n --> line 1:1:1\n  |\n1 | \tfrob \xc3\xa9\n  | ^^^^^^^\n",
            2,
        ),
        (b"set t \"a\\nb\"\nprint t\n", b"ok\ntext a\nb\n", b"", 0),
        (
            b"set m {1u64: \"a\", true: [{}], 1: s\"b\"}\nprint m\n",
            b"ok\ntext {1: \"b\", true: [{}]}\n",
            b"",
            0,
        ),
        (
            b"set m {\"a\": 1,}\n",
            b"",
            b"error: bad line\n --> line 1:1:1\n  |\n1 | set m {\"a\": 1,}\n  | ^^^^^^^^^^^^^^^\n",
            2,
        ),
    ] {
        for size in [1, 2, 7, 4096] {
            let wanted = (want, answers, report);
            assert!(rt;
                ends(
                    alloc,
                    in_pieces(script, size),
                    roomy(alloc),
                    roomy(alloc),
                    wanted
                ),
                "{script:?} by {size}"
            );
        }
    }
}

#[test]
fn an_interrupted_read_is_a_failed_one(rt: HostRuntime) {
    let alloc = rt.alloc();
    for (script, answers) in [
        (b"eq a b\neq a".as_slice(), b"true\n".as_slice()),
        (b"eq a b\nhas a\ncm", b"true\nfalse\n"),
        (b"eq a b\nhas a", b"true\n"),
        (b"has a", b""),
        (b"eq a b\nfrob", b"true\n"),
        (b"", b""),
    ] {
        let wanted = (1, answers, READING);
        assert!(rt;
            ends(
                alloc,
                interrupted(script, 5),
                roomy(alloc),
                roomy(alloc),
                wanted
            ),
            "{script:?}"
        );
    }
}

#[test]
fn a_failed_write_ends_the_replay(rt: HostRuntime) {
    let alloc = rt.alloc();
    for room in 0..FIRST_ANSWERS.len() {
        let out = empty_shelf(alloc, room);
        let wanted = (1, &FIRST_ANSWERS[..room], WRITING);
        assert!(rt;
            ends(alloc, in_pieces(FIRST, 4096), out, roomy(alloc), wanted),
            "{room}"
        );
    }
}

#[test]
fn a_report_that_is_not_written_changes_nothing(rt: HostRuntime) {
    let alloc = rt.alloc();
    for room in 0..SECOND.len() {
        let err = empty_shelf(alloc, room);
        let wanted = (2, b"true\n".as_slice(), &SECOND[..room]);
        assert!(rt;
            ends(
                alloc,
                in_pieces(b"eq a b\nfrob\n", 4096),
                roomy(alloc),
                err,
                wanted
            ),
            "{room}"
        );
    }
}

// A replay of these pieces writes that to `out` and to `err`, and ends with that status.
fn pieces_end(alloc: Global, pieces: &[&[u8]], fails: bool, wanted: Ended<'_>) -> bool {
    let mut out = Growing::new(alloc);
    let mut err = Growing::new(alloc);
    let mut input = InputPieces::new(pieces, fails);
    let status = replay_from(alloc, HashState::fixed(), &mut input, &mut out, &mut err);
    let (ended, answers, report) = wanted;
    let is_answered = status == ended && out.as_str().as_bytes() == answers;
    let is_reported = err.as_str().as_bytes() == report;
    drop(out);
    drop(err);
    is_answered && is_reported
}

#[test]
fn pieces_that_end_are_answered(rt: HostRuntime) {
    let alloc = rt.alloc();
    let cut: [&[u8]; 5] = [b"set a 1u64\nset b", b"", b" 1i128\neq a", b" b", b"\n"];
    let answered: Ended<'_> = (0, b"ok\nok\ntrue\n", b"");
    assert!(rt; pieces_end(alloc, &cut, false, answered));
    let bad: [&[u8]; 2] = [b"\n\n", b"frob"];
    assert!(rt; pieces_end(alloc, &bad, false, (2, b"", THIRD.as_bytes())));
}

#[test]
fn pieces_that_fail_are_answered_up_to_the_last_whole_line(rt: HostRuntime) {
    let alloc = rt.alloc();
    let cut: [&[u8]; 3] = [b"eq a b\ncm", b"p a b\nfr", b"ob"];
    assert!(rt; pieces_end(alloc, &cut, true, (1, b"true\nequal\n", READING)));
    let bad: [&[u8]; 2] = [b"eq a b\nfr", b"ob\n"];
    assert!(rt; pieces_end(alloc, &bad, true, (2, b"true\n", SECOND)));
    let good: [&[u8]; 2] = [b"eq a b\nha", b"s a"];
    assert!(rt; pieces_end(alloc, &good, true, (1, b"true\n", READING)));
    assert!(rt; pieces_end(alloc, &[b"has a"], true, (1, b"", READING)));
    assert!(rt; pieces_end(alloc, &[], true, (1, b"", READING)));
}

// That line as many times.
fn repeated(alloc: Global, line: &[u8], count: usize) -> Vec<u8> {
    let mut lines = Vec::new(alloc);
    for _ in 0..count {
        let _ = lines.extend_from_slice(line);
    }
    lines
}

#[test]
fn a_piece_that_finds_no_room_is_given_in_parts(rt: HostRuntime) {
    let alloc = rt.alloc();
    let script = repeated(alloc, b"eq a b\n", 2000);
    let answers = repeated(alloc, b"true\n", 2000);
    let pieces: [&[u8]; 2] = [script.as_slice(), b"frob"];
    let wanted = (2, answers.as_slice(), THE_2001ST.as_bytes());
    assert!(rt; answers.len() == 10000 && pieces_end(alloc, &pieces, false, wanted));
}

#[test]
fn a_bad_line_before_a_failed_read_is_told_alone(rt: HostRuntime) {
    let alloc = rt.alloc();
    let wanted: Ended<'_> = (2, b"true\n", SECOND);
    let input = interrupted(b"eq a b\nfrob\n", 4096);
    assert!(rt; ends(alloc, input, roomy(alloc), roomy(alloc), wanted));
}

// Fails at a flush where it holds so many bytes.
pub(crate) fn unflushed(alloc: Global, unflushed: usize) -> Shelf {
    Shelf {
        unflushed,
        ..roomy(alloc)
    }
}

#[test]
fn a_failed_flush_is_a_failed_write(rt: HostRuntime) {
    let alloc = rt.alloc();
    for (script, size, answers) in [
        (b"eq a b\neq a b\n".as_slice(), 0, b"".as_slice()),
        (b"eq a b\neq a b\n", 10, b"true\ntrue\n"),
        (b"eq a b\neq a b", 10, b"true\ntrue\n"),
        (b"eq a b\nfrob\n", 5, b"true\n"),
    ] {
        let out = unflushed(alloc, size);
        let wanted = (1, answers, WRITING);
        assert!(rt;
            ends(alloc, in_pieces(script, 4096), out, roomy(alloc), wanted),
            "{script:?}"
        );
    }
}

// The replay to a writer behind a buffer ends with that status, and has put these answers into it.
fn is_flushed(alloc: Global, script: &[u8], answers: &[u8], ended: u8) -> Result<bool> {
    let mut out = BufWriter::new(alloc, roomy(alloc))?;
    let mut err = roomy(alloc);
    let status = replay(
        alloc,
        HashState::fixed(),
        in_pieces(script, 4096),
        &mut out,
        &mut err,
    );
    Ok(status == ended && out.get_ref().held.as_slice() == answers)
}

#[test]
fn the_last_answers_are_flushed(rt: HostRuntime) {
    let alloc = rt.alloc();
    for (script, answers, want) in [
        (b"eq a b\neq a b".as_slice(), b"true\ntrue\n".as_slice(), 0),
        (b"eq a b\nfrob\n", b"true\n", 2),
    ] {
        assert!(rt;
            is_flushed(alloc, script, answers, want).unwrap_or(false),
            "{script:?}"
        );
    }
}
