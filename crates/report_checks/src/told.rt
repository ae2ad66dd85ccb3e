//! What is told piece by piece, into a text that grows and into a room.
use crate::held::hold;
use crate::made::names;
use std::alloc::Global;
use tera_report::Error;
use tera_report::quote::{put_quoted, put_quoted_list};
use tera_report::sink::{Growing, Room};

// It is told as that into a text that grows.
fn grows(alloc: Global, error: &Error, wanted: &str) -> bool {
    let mut made = Growing::new(alloc);
    let is_told = error.tell_to(&mut made).is_ok();
    is_told && made.as_str() == wanted
}

// Its kind is told as that into a room of just that size, which then has none for more.
fn fills(alloc: Global, error: &Error, wanted: &str) -> bool {
    match Room::new(alloc, wanted.len()).ok() {
        Some(room) => fills_room(error, wanted, room),
        None => false,
    }
}

fn fills_room(error: &Error, wanted: &str, room: Room) -> bool {
    let mut room = room;
    let is_told = error.kind().tell_to(&mut room).is_ok();
    is_told && room.as_str() == wanted && error.tell_to(&mut room).is_err()
}

/// It is told as that, into a text that grows and into a room.
pub fn tells(alloc: Global, error: &Error, wanted: &str) -> bool {
    grows(alloc, error, wanted) && fills(alloc, error, wanted)
}

// A text is put in debug form as that.
fn quotes(alloc: Global, text: &str, wanted: &str) -> bool {
    let mut made = Growing::new(alloc);
    put_quoted(text, &mut made).is_ok() && made.as_str() == wanted
}

// Texts are put in debug form as that.
fn quotes_list(alloc: Global, texts: &[&str], wanted: &str) -> bool {
    let mut made = Growing::new(alloc);
    let texts = names(alloc, texts);
    put_quoted_list(texts.as_slice(), &mut made).is_ok() && made.as_str() == wanted
}

#[test]
fn texts_that_are_quoted(rt: HostRuntime) {
    let alloc = rt.alloc();
    let text = "a\\\u{7f}é\u{301}\u{200b}";
    let quoted = "\"a\\\\\\u{7f}é\\u{301}\\u{200b}\"";
    hold!(
        &rt,
        [
            quotes(alloc, text, quoted),
            quotes_list(alloc, &["a", "b"], "[\"a\", \"b\"]"),
        ],
    );
}
