//! Escaped texts, and writers that fail.
use crate::failing::{Failing, fails_after, fails_once, kind_of};
use crate::held::hold;
use crate::made::{is_answer, many, or_empty};
use std::alloc::Global;
use std::io::{ErrorKind, Write};
use tera_report::sink::{Growing, Room};
use tera_report::watch::Watched;
use tera_report::{escape_html, escape_into_room, escape_text, escape_to, escape_watched};

const PAGE: &str = "<a href='x'>&amp;\"/";

const ESCAPED_PAGE: &str = "&lt;a href=&#39;x&#39;&gt;&amp;amp;&quot;/";

// It is escaped as that, into a text of its own.
fn escapes(alloc: Global, text: &str, wanted: &str) -> bool {
    is_answer(escape_text(alloc, text), wanted)
}

// It is written as that, behind what was there.
fn writes(alloc: Global, text: &str, wanted: &str) -> bool {
    let mut written = b"> ".to_vec(alloc).unwrap_or(Vec::new(alloc));
    let is_told = escape_html(text, &mut written).is_ok();
    let is_written = written.as_slice().strip_prefix(b"> ") == Some(wanted.as_bytes());
    is_told && is_written
}

#[test]
fn escaped_texts(rt: HostRuntime) {
    let alloc = rt.alloc();
    hold!(
        &rt,
        [
            escapes(alloc, "", ""),
            escapes(alloc, "a", "a"),
            escapes(alloc, PAGE, ESCAPED_PAGE),
            escapes(alloc, "é'€", "é&#39;€"),
            escapes(alloc, "<<>>", "&lt;&lt;&gt;&gt;"),
        ],
    );
}

#[test]
fn written_texts(rt: HostRuntime) {
    let alloc = rt.alloc();
    hold!(
        &rt,
        [
            writes(alloc, "", ""),
            writes(alloc, "a", "a"),
            writes(alloc, PAGE, ESCAPED_PAGE),
            writes(alloc, "é'€", "é&#39;€"),
            writes(alloc, "<<>>", "&lt;&lt;&gt;&gt;"),
        ],
    );
}

// It is put as that behind what a growing text holds.
fn puts(alloc: Global, text: &str, wanted: &str) -> bool {
    let mut made = Growing::new(alloc);
    let is_told = escape_to("<", &mut made).is_ok() && escape_to(text, &mut made).is_ok();
    is_told && made.as_str().strip_prefix("&lt;") == Some(wanted)
}

#[test]
fn texts_that_are_put(rt: HostRuntime) {
    let alloc = rt.alloc();
    hold!(
        &rt,
        [
            puts(alloc, "", ""),
            puts(alloc, "a", "a"),
            puts(alloc, PAGE, ESCAPED_PAGE),
        ],
    );
}

// It is put as that into a room of that size, behind a first byte, and then so many bytes are left.
fn fits(alloc: Global, text: &str, size: usize, left: usize, wanted: &str) -> bool {
    match Room::new(alloc, size).ok() {
        Some(room) => fits_behind(text, room, left, wanted),
        None => false,
    }
}

fn fits_behind(text: &str, room: Room, left: usize, wanted: &str) -> bool {
    let mut room = room;
    let is_told = escape_into_room("-", &mut room).is_ok()
        && escape_into_room(text, &mut room).is_ok();
    is_told && room.left() == left && room.as_str().strip_prefix("-") == Some(wanted)
}

// A room of that size, which is one byte too small for it behind a first one, is full, and holds a
// beginning of it.
fn overflows(alloc: Global, text: &str, size: usize, wanted: &str) -> bool {
    match Room::new(alloc, size).ok() {
        Some(room) => overflows_behind(text, room, wanted),
        None => false,
    }
}

fn overflows_behind(text: &str, room: Room, wanted: &str) -> bool {
    let mut room = room;
    let is_refused = escape_into_room("-", &mut room).is_ok()
        && escape_into_room(text, &mut room).is_err();
    is_refused && room.as_str().strip_prefix("-") == Some(wanted)
}

#[test]
fn rooms_for_escaped_texts(rt: HostRuntime) {
    let alloc = rt.alloc();
    hold!(
        &rt,
        [
            fits(alloc, "", 1, 0, ""),
            fits(alloc, "a", 5, 3, "a"),
            fits(alloc, PAGE, 1 + ESCAPED_PAGE.len(), 0, ESCAPED_PAGE),
            fits(alloc, PAGE, 9 + ESCAPED_PAGE.len(), 8, ESCAPED_PAGE),
            overflows(alloc, "a", 1, ""),
            overflows(alloc, "a<", 5, "a"),
            overflows(alloc, "<'>", 13, "&lt;&#39;"),
        ],
    );
}

// That text behind so many others and before the rest of 72.
fn among_others(alloc: Global, place: usize, text: &str) -> String {
    let before = many(alloc, '%', place);
    let after = many(alloc, '=', 72usize.saturating_sub(place));
    let made = or_empty(alloc, format!(in alloc; "{before}{text}{after}"));
    drop(before);
    drop(after);
    made
}

// That special byte among others is escaped as that.
fn is_escaped_at(alloc: Global, place: usize, special: &str, entity: &str) -> bool {
    let text = among_others(alloc, place, special);
    let wanted = among_others(alloc, place, entity);
    let is_so = escapes(alloc, text.as_str(), wanted.as_str());
    let is_made = !text.is_empty();
    drop(text);
    drop(wanted);
    is_so && is_made
}

// Long texts are looked through by blocks, and what is left of them byte by byte.
#[test]
fn special_bytes_at_each_place(rt: HostRuntime) {
    let alloc = rt.alloc();
    for place in 0..72 {
        hold!(
            &rt,
            [
                is_escaped_at(alloc, place, "&", "&amp;"),
                is_escaped_at(alloc, place, "<", "&lt;"),
                is_escaped_at(alloc, place, ">", "&gt;"),
                is_escaped_at(alloc, place, "\"", "&quot;"),
                is_escaped_at(alloc, place, "'", "&#39;"),
            ],
        );
    }
}

// The watched call to that writer answers this. An interrupted write is a fault that was told, and
// no reason to end.
fn watched_answers(writer: Failing, wanted: Option<ErrorKind>) -> bool {
    let mut writer = writer;
    let is_broken = writer.interrupts || wanted.is_some();
    let mut watched = Watched::new(&mut writer);
    let answer = escape_watched(PAGE, &mut watched);
    kind_of(answer) == wanted && watched.has_failed() == is_broken
}

// The plain call to that writer answers this, and fills it.
fn plain_answers(writer: Failing, wanted: Option<ErrorKind>) -> bool {
    let mut writer = writer;
    let answer = escape_html(PAGE, &mut writer);
    kind_of(answer) == wanted && writer.left == 0
}

fn both_answer(left: usize, step: usize, interrupts: bool, wanted: Option<ErrorKind>) -> bool {
    watched_answers(fails_after(left, step, interrupts), wanted)
        && plain_answers(fails_after(left, step, interrupts), wanted)
}

// So do writers that take the text at once, byte by byte and interrupted.
fn all_answer(left: usize, wanted: Option<ErrorKind>) -> bool {
    both_answer(left, 100, false, wanted)
        && both_answer(left, 1, false, wanted)
        && both_answer(left, 3, true, wanted)
}

#[test]
fn writers_that_fail(rt: HostRuntime) {
    for left in 0..ESCAPED_PAGE.len() {
        assert!(rt;
            all_answer(left, Some(ErrorKind::StorageFull)),
            "room for {left}"
        );
    }
    assert!(rt; all_answer(ESCAPED_PAGE.len(), None));
}

// A writer that answers one error and then takes all is answered that error, behind a beginning of
// the page. The page is written piece by piece.
fn answers_once(before: usize, kind: ErrorKind) -> bool {
    let mut writer = fails_once(before, kind);
    let answer = escape_html(PAGE, &mut writer);
    kind_of(answer) == Some(kind) && writer.taken < ESCAPED_PAGE.len()
}

// After an interruption the rest is written.
fn goes_on(before: usize) -> bool {
    let mut writer = fails_once(before, ErrorKind::Interrupted);
    escape_html(PAGE, &mut writer).is_ok() && writer.taken == ESCAPED_PAGE.len()
}

#[test]
fn writers_that_fail_once(rt: HostRuntime) {
    for before in 0..10 {
        assert!(rt;
            answers_once(before, ErrorKind::StorageFull)
                && answers_once(before, ErrorKind::WouldBlock)
                && answers_once(before, ErrorKind::BrokenPipe)
                && goes_on(before),
            "behind {before} writes"
        );
    }
}

// A text to that writer is answered by this.
fn answers(text: &str, writer: Failing, wanted: Option<ErrorKind>) -> bool {
    let mut writer = writer;
    kind_of(escape_html(text, &mut writer)) == wanted
}

#[test]
fn writers_that_take_nothing(rt: HostRuntime) {
    let no_byte = Some(ErrorKind::WriteZero);
    hold!(
        &rt,
        [
            answers("a", fails_after(5, 0, false), no_byte),
            answers("", fails_after(0, 1, false), None),
        ],
    );
}

// A flush of a watched writer answers this.
fn flush_answers(writer: Failing, wanted: Option<ErrorKind>) -> bool {
    let mut writer = writer;
    kind_of(Watched::new(&mut writer).flush()) == wanted
}

#[test]
fn flushes_of_a_watched_writer(rt: HostRuntime) {
    let full = Some(ErrorKind::StorageFull);
    hold!(
        &rt,
        [
            flush_answers(fails_after(0, 1, false), full),
            flush_answers(fails_after(1, 1, false), None),
        ],
    );
}
