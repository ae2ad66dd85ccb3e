//! What values print: to a text, to a writer, and where a width and a fill are asked for.
use crate::held::{Seen, both, hold, is_so, same, unwanted};
use made_values::{
    at_texts, bytes, no_items, no_pairs, one_item, printed, safe, text, two_items, with, with_item,
};
use std::alloc::Global;
use std::fmt::Display;
use tera_report::sink::Room;
use tera_values::{Key, Map, Value};

/// `{}` makes that of it, whatever width and fill it has.
pub fn displays<D: Display>(alloc: Global, it: &D, wanted: &str) -> Seen {
    let shown = format!(in alloc; "{it:#<60}").unwrap_or(String::new(alloc));
    same(alloc, &shown.as_str(), &wanted)
}

// It displays that, and is let go.
fn prints(alloc: Global, value: Value, wanted: &str) -> Seen {
    let row = displays(alloc, &value, wanted);
    drop(value);
    row
}

#[test]
fn a_width_changes_nothing(rt: HostRuntime) {
    let alloc = rt.alloc();
    let numbers = two_items(alloc, Value::from(1i64), Value::undefined());
    let twice = at_texts(alloc, &[("b", 1), ("a", 2), ("b", 3)]);
    hold!(
        &rt,
        [
            prints(alloc, Value::from(true), "true"),
            prints(alloc, Value::from(-12i64), "-12"),
            prints(alloc, safe(alloc, "<é>"), "<é>"),
            prints(alloc, numbers, "[1, ]"),
            prints(alloc, no_pairs(alloc), "{}"),
            prints(alloc, twice, "{\"b\": 3, \"a\": 2}"),
        ],
    );
}

// It writes that to a text and to a writer, and is let go.
fn writes(alloc: Global, value: Value, wanted: &str) -> Seen {
    let text = printed(alloc, &value);
    let mut out = Vec::new(alloc);
    let is_put = value.format(&mut out).is_ok();
    drop(value);
    let holds = is_put && out.as_slice() == wanted.as_bytes();
    let is_out = is_so(alloc, holds, &str::from_utf8(out.as_slice()), &wanted);
    both(is_out, same(alloc, &text.as_str(), &wanted))
}

#[test]
fn items_are_printed_in_their_order(rt: HostRuntime) {
    let alloc = rt.alloc();
    let items = with_item(Vec::new(alloc), Value::from(1u8));
    let items = with_item(with_item(items, Value::none()), Value::from(2u8));
    let kinds = with_item(Vec::new(alloc), safe(alloc, "a"));
    let kinds = with_item(with_item(kinds, bytes(alloc, b"hi")), no_items(alloc));
    let quoted = text(alloc, "a\"\u{1f}\u{7f}'");
    let cut = bytes(alloc, b"\xe2\x82A\xf0\x80\x80");
    hold!(
        &rt,
        [
            writes(alloc, one_item(alloc, Value::none()), "[]"),
            writes(alloc, Value::of_array(items), "[1, , 2]"),
            writes(alloc, Value::of_array(kinds), "[\"a\", hi, []]"),
            writes(alloc, one_item(alloc, quoted), "[\"a\\\"\\u{1f}\\u{7f}'\"]"),
            writes(
                alloc,
                one_item(alloc, cut),
                "[\u{fffd}A\u{fffd}\u{fffd}\u{fffd}]",
            ),
        ],
    );
}

#[test]
fn pairs_are_printed_in_their_order(rt: HostRuntime) {
    let alloc = rt.alloc();
    let named = with(Map::new(alloc), Key::Str("other"), Value::from(2u8));
    let named = with(named, Key::Str("hello"), text(alloc, "world"));
    let pairs = with(Map::new(alloc), Key::Str("1"), Value::from(3u8));
    let pairs = with(pairs, Key::U64(1), Value::from(2u8));
    let pairs = with(pairs, Key::Bool(true), Value::from(1u8));
    hold!(
        &rt,
        [
            writes(
                alloc,
                Value::of_map(named),
                "{\"other\": 2, \"hello\": \"world\"}",
            ),
            writes(alloc, Value::of_map(pairs), "{\"1\": 3, 1: 2, true: 1}"),
        ],
    );
}

// A room of so many bytes takes that text of it.
fn fits(alloc: Global, value: &Value, wanted: &str, size: usize) -> Seen {
    match Room::new(alloc, size) {
        Ok(room) => fits_room(alloc, value, wanted, room),
        Err(refused) => unwanted(alloc, refused, wanted),
    }
}

fn fits_room(alloc: Global, value: &Value, wanted: &str, room: Room) -> Seen {
    let mut room = room;
    let is_put = value.print_into_room(&mut room).is_ok();
    let holds = is_put && room.as_str() == wanted;
    is_so(alloc, holds, &room.as_str(), &wanted)
}

// It fits into a room of just as many bytes, and not into one of a byte less. It is let go.
fn just_fits(alloc: Global, value: Value, wanted: &str) -> Seen {
    let size = wanted.len();
    let row = fits(alloc, &value, wanted, size);
    let is_cut = fits(alloc, &value, wanted, size.saturating_sub(1)).is_err();
    drop(value);
    let is_past = is_so(alloc, is_cut, &wanted, &"no room in a byte less");
    both(row, is_past)
}

#[test]
fn a_room_takes_what_fits(rt: HostRuntime) {
    let alloc = rt.alloc();
    let pairs = with(Map::new(alloc), Key::Str("ü"), text(alloc, "\u{7f}…"));
    hold!(
        &rt,
        [
            just_fits(alloc, text(alloc, "é"), "é"),
            just_fits(alloc, one_item(alloc, text(alloc, "é")), "[\"é\"]"),
            just_fits(alloc, Value::of_map(pairs), "{\"ü\": \"\\u{7f}…\"}"),
        ],
    );
}
