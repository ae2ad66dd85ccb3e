//! Keys of every kind beside one another: what is equal, what hashes alike, what is copied.
use crate::arguments::given::is_given;
use crate::held::{Seen, both, hold, is_so, same, shows};
use crate::order::{are_equal, rise};
use std::alloc::Global;
use std::fmt::Debug;
use std::hash::{DefaultHasher, Hash, Hasher};
use std::rc::RcStr;
use tera_values::Key;

/// A key that owns that text, or one of another kind where memory is wanting.
pub fn owned(alloc: Global, text: &str) -> Key<'static> {
    match RcStr::from_str(alloc, text) {
        Ok(text) => Key::String(text),
        Err(_) => Key::Bool(false),
    }
}

/// A key that owns that text, in place where it fits.
pub fn in_place(alloc: Global, text: &str) -> Key<'static> {
    Key::of_text(alloc, text).unwrap_or(Key::Bool(false))
}

// A key made of a text that is handed over.
fn handed_over(alloc: Global, text: &str) -> Key<'static> {
    let text = String::from_str(alloc, text).unwrap_or(String::new(alloc));
    Key::of_string(text).unwrap_or(Key::Bool(false))
}

// Whether the key holds its text in place.
fn is_inline(key: &Key<'static>) -> bool {
    match key {
        Key::Inline(_) => true,
        _ => false,
    }
}

// The key holds its text in place.
fn is_in_place(alloc: Global, key: Key<'static>) -> Seen {
    let row = is_so(alloc, is_inline(&key), &key, &"a text in place");
    drop(key);
    row
}

// The key does not hold its text in place.
fn is_elsewhere(alloc: Global, key: Key<'static>) -> Seen {
    let row = is_so(alloc, !is_inline(&key), &key, &"a text elsewhere");
    drop(key);
    row
}

#[test]
fn texts_that_fit_stand_in_place(rt: HostRuntime) {
    let alloc = rt.alloc();
    hold!(
        &rt,
        [
            is_in_place(alloc, in_place(alloc, "")),
            is_in_place(alloc, in_place(alloc, "0123456789abcd\u{e9}")),
            is_elsewhere(alloc, in_place(alloc, "0123456789abcde\u{e9}")),
            is_in_place(alloc, handed_over(alloc, "")),
            is_in_place(alloc, handed_over(alloc, "0123456789abcd\u{e9}")),
            is_elsewhere(alloc, handed_over(alloc, "0123456789abcde\u{e9}")),
            are_equal(alloc, in_place(alloc, "é"), owned(alloc, "é")),
            are_equal(alloc, Key::Str("é"), in_place(alloc, "é")),
        ],
    );
}

#[test]
fn one_number_is_one_key(rt: HostRuntime) {
    let alloc = rt.alloc();
    hold!(
        &rt,
        [
            are_equal(alloc, Key::U64(1), Key::I64(1)),
            are_equal(alloc, Key::I64(1), Key::U128(1)),
            are_equal(alloc, Key::U128(1), Key::I128(1)),
            are_equal(alloc, Key::I128(1), Key::U64(1)),
            are_equal(alloc, Key::U64(u64::MAX), Key::U128(18446744073709551615)),
            are_equal(alloc, Key::I64(-1), Key::I128(-1)),
        ],
    );
}

// What std's hasher answers once it is fed the value.
fn hash_of<T: Hash>(value: &T) -> u64 {
    let mut state = DefaultHasher::new();
    value.hash(&mut state);
    state.finish()
}

// The key feeds a hasher what feeds it to that hash.
fn feeds(alloc: Global, key: Key<'static>, wanted: u64) -> Seen {
    let hash = hash_of(&key);
    drop(key);
    same(alloc, &hash, &wanted)
}

// The key feeds a hasher something else.
fn feeds_other(alloc: Global, key: Key<'static>, other: u64) -> Seen {
    let hash = hash_of(&key);
    drop(key);
    is_so(alloc, hash != other, &hash, &"another hash")
}

fn fed_natural(n: u128) -> u64 {
    hash_of(&(0u8, n))
}

fn fed_negative(z: i128) -> u64 {
    hash_of(&(1u8, z))
}

// The writes that a hasher is fed, named by what else makes them.
#[test]
fn hashes_go_by_meaning(rt: HostRuntime) {
    let alloc = rt.alloc();
    hold!(
        &rt,
        [
            feeds(alloc, Key::U64(1), fed_natural(1)),
            feeds(alloc, Key::I64(1), fed_natural(1)),
            feeds(alloc, Key::U128(1), fed_natural(1)),
            feeds(alloc, Key::I128(1), fed_natural(1)),
            feeds(alloc, Key::I64(-1), fed_negative(-1)),
            feeds(alloc, Key::I128(-1), fed_negative(-1)),
            feeds(alloc, Key::I64(-2), fed_negative(-2)),
            feeds(alloc, Key::I128(i128::MIN), fed_negative(i128::MIN)),
            feeds(alloc, Key::U128(u128::MAX), fed_natural(u128::MAX)),
            feeds(alloc, Key::Bool(true), hash_of(&true)),
            feeds(alloc, Key::Str("é"), hash_of(&"é")),
            feeds(alloc, owned(alloc, "é"), hash_of(&"é")),
            feeds(alloc, in_place(alloc, "é"), hash_of(&"é")),
            feeds_other(alloc, Key::Str("1"), fed_natural(1)),
        ],
    );
}

#[test]
fn keys_in_order(rt: HostRuntime) {
    let rising = [
        Key::Bool(false),
        Key::Bool(true),
        Key::I128(i128::MIN),
        Key::I64(-1),
        Key::U64(0),
        Key::U128(1),
        Key::I64(2),
        Key::U128(u128::MAX),
        Key::Str(""),
        Key::Str("1"),
        owned(rt.alloc(), "a"),
        Key::Str("aa"),
        in_place(rt.alloc(), "ab"),
        Key::Str("b"),
        Key::Str("é"),
    ];
    rise(&rt, rt.alloc(), &rising);
    drop(rising);
}

/// Its debug text is that.
pub fn tells<D: Debug + Drop>(alloc: Global, it: D, wanted: &str) -> Seen {
    let row = shows(alloc, &it, wanted);
    drop(it);
    row
}

// The debug text of its value, which tells the kind and the flag, is that.
fn has_value(alloc: Global, key: Key<'static>, wanted: &str) -> Seen {
    let made = key.as_value(alloc);
    drop(key);
    is_given(alloc, made, wanted)
}

#[test]
fn values_of_keys(rt: HostRuntime) {
    let alloc = rt.alloc();
    let text = "String(false, \"a\")";
    hold!(
        &rt,
        [
            has_value(alloc, Key::Bool(true), "Bool(true)"),
            has_value(alloc, Key::U64(1), "U64(1)"),
            has_value(alloc, Key::I64(1), "I64(1)"),
            has_value(alloc, Key::from(1u128), "U128(1)"),
            has_value(alloc, Key::from(1i128), "I128(1)"),
            has_value(alloc, Key::from("a"), text),
            has_value(alloc, owned(alloc, "a"), text),
            has_value(alloc, in_place(alloc, "a"), text),
        ],
    );
}

// Its copy is equal, and of the kind that its debug text tells.
fn is_copied(alloc: Global, key: Key<'static>, wanted: &str) -> Seen {
    let copy = key.clone(alloc).unwrap_or(Key::Str("none"));
    let is_told = shows(alloc, &copy, wanted);
    both(are_equal(alloc, copy, key), is_told)
}

#[test]
fn copies_of_keys(rt: HostRuntime) {
    let alloc = rt.alloc();
    hold!(
        &rt,
        [
            is_copied(alloc, Key::Bool(true), "Bool(true)"),
            is_copied(alloc, Key::U64(1), "U64(1)"),
            is_copied(alloc, Key::I64(1), "I64(1)"),
            is_copied(alloc, Key::from(1u128), "U128(1)"),
            is_copied(alloc, Key::from(1i128), "I128(1)"),
            is_copied(alloc, Key::from("a"), "Str(\"a\")"),
            is_copied(alloc, owned(alloc, "a"), "String(\"a\")"),
            is_copied(alloc, in_place(alloc, "a"), "String(\"a\")"),
        ],
    );
}
