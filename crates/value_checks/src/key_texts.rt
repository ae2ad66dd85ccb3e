//! What keys print.
use crate::held::{Seen, hold};
use crate::keys::{in_place, owned, tells};
use crate::printed::displays;
use std::alloc::Global;
use tera_values::Key;

// The key prints that, by `{}` at a width and with a fill.
fn prints(alloc: Global, key: Key<'static>, wanted: &str) -> Seen {
    let row = displays(alloc, &key, wanted);
    drop(key);
    row
}

#[test]
fn printed_keys(rt: HostRuntime) {
    let alloc = rt.alloc();
    let greatest = "340282366920938463463374607431768211455";
    let least = "-170141183460469231731687303715884105728";
    hold!(
        &rt,
        [
            prints(alloc, Key::Bool(true), "true"),
            prints(alloc, Key::Bool(false), "false"),
            prints(alloc, Key::U64(u64::MAX), "18446744073709551615"),
            prints(alloc, Key::I64(i64::MIN), "-9223372036854775808"),
            prints(alloc, Key::U128(u128::MAX), greatest),
            prints(alloc, Key::I128(i128::MIN), least),
            prints(alloc, Key::Str("a \"é\"\n日本"), "a \"é\"\n日本"),
            prints(alloc, owned(alloc, "e\u{301}🦀"), "e\u{301}🦀"),
            prints(alloc, in_place(alloc, "e\u{301}🦀"), "e\u{301}🦀"),
            tells(alloc, Key::Bool(true), "Bool(true)"),
            tells(alloc, Key::I64(-7), "I64(-7)"),
            tells(alloc, Key::Str("a"), "Str(\"a\")"),
            tells(alloc, owned(alloc, "a"), "String(\"a\")"),
            tells(alloc, in_place(alloc, "a"), "String(\"a\")"),
        ],
    );
}
