//! Which keys are given, and in which form.
use crate::arguments::given::text_key;
use crate::arguments::made::owned;
use crate::held::{Seen, hold, shows, unwanted};
use std::alloc::Global;
use std::borrow::CowStr;
use tera_conversions::ToKey;
use tera_values::Key;

// It gives a key that is held so, in the words of Debug.
fn gives_key<K: ToKey>(alloc: Global, source: K, wanted: &str) -> Seen {
    match source.to_key(alloc) {
        Ok(key) => is_key(alloc, key, wanted),
        Err(refused) => unwanted(alloc, refused, wanted),
    }
}

fn is_key(alloc: Global, key: Key<'static>, wanted: &str) -> Seen {
    let row = shows(alloc, &key, wanted);
    drop(key);
    row
}

#[test]
fn keys_are_given(rt: HostRuntime) {
    let alloc = rt.alloc();
    hold!(
        &rt,
        [
            gives_key(alloc, "é", "Str(\"é\")"),
            gives_key(alloc, owned(alloc, "é"), "String(\"é\")"),
            gives_key(alloc, CowStr::Borrowed("é"), "String(\"é\")"),
            gives_key(alloc, CowStr::Owned(owned(alloc, "é")), "String(\"é\")"),
            gives_key(alloc, "", "Str(\"\")"),
            gives_key(alloc, String::new(alloc), "String(\"\")"),
            gives_key(alloc, 7u128, "U128(7)"),
            gives_key(alloc, 7i128, "I128(7)"),
            gives_key(alloc, -7i128, "I128(-7)"),
            gives_key(alloc, Key::Bool(true), "Bool(true)"),
            gives_key(alloc, Key::U64(7), "U64(7)"),
            gives_key(alloc, Key::I64(7), "I64(7)"),
            gives_key(alloc, Key::Str("é"), "Str(\"é\")"),
            gives_key(alloc, text_key(alloc, "é"), "String(\"é\")"),
        ],
    );
}
