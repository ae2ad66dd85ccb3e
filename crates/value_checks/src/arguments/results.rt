//! What functions of templates answer.
use crate::arguments::given::is_given;
use crate::arguments::made::{displays, one_of, owned, row_of, set_of, table_of, tree_of};
use crate::held::{Seen, both, hold, is_so, unwanted};
use made_values::{safe, with};
use std::alloc::Global;
use std::borrow::CowStr;
use tera_conversions::FunctionResult;
use tera_report::{Error, TeraResult};
use tera_values::{Key, Map, Number, Value};

// It answers a value that is held so.
fn answers<F: FunctionResult>(alloc: Global, answer: F, wanted: &str) -> Seen {
    is_given(alloc, answer.into_result(alloc), wanted)
}

#[test]
fn single_values_and_what_succeeds_are_answered(rt: HostRuntime) {
    let alloc = rt.alloc();
    let number: TeraResult<u8> = Ok(7);
    let list: TeraResult<Vec<u8>> = Ok(one_of(alloc, 1u8));
    let value: TeraResult<Value> = Ok(safe(alloc, "<"));
    hold!(
        &rt,
        [
            answers(alloc, number, "U64(7)"),
            answers(alloc, list, "Array([Value { inner: U64(1) }])"),
            answers(alloc, value, "String(true, \"<\")"),
            answers(alloc, true, "Bool(true)"),
            answers(alloc, 'é', "String(false, \"é\")"),
            answers(alloc, (), "None"),
            answers(alloc, 7u8, "U64(7)"),
            answers(alloc, -7isize, "I64(-7)"),
            answers(alloc, 7u128, "U128(7)"),
            answers(alloc, Number::Integer(7), "I128(7)"),
            answers(alloc, Key::U64(7), "U64(7)"),
            answers(alloc, safe(alloc, "<"), "String(true, \"<\")"),
            answers(alloc, None::<u8>, "None"),
            answers(alloc, Some(7u8), "U64(7)"),
            answers(alloc, "é", "String(false, \"é\")"),
            answers(alloc, owned(alloc, "é"), "String(false, \"é\")"),
            answers(alloc, CowStr::Borrowed("é"), "String(false, \"é\")"),
            answers(
                alloc,
                CowStr::Owned(owned(alloc, "é")),
                "String(false, \"é\")",
            ),
        ],
    );
}

#[test]
fn collections_are_answered(rt: HostRuntime) {
    let alloc = rt.alloc();
    let one = "Array([Value { inner: U64(1) }])";
    let pair = "Map({Str(\"a\"): Value { inner: U64(1) }})";
    let values = one_of(alloc, Value::from(1u8));
    hold!(
        &rt,
        [
            answers(alloc, one_of(alloc, 1u8), one),
            answers(alloc, set_of(alloc, 1u8, 1u8), one),
            answers(alloc, values.as_slice(), one),
            answers(alloc, b"a".as_slice(), "Bytes([97])"),
            answers(alloc, table_of(alloc, "a", 1u8), pair),
            answers(alloc, tree_of(alloc, "a", 1u8), pair),
            answers(alloc, row_of(alloc, ("a", 0u8), ("a", 1u8)), pair),
            answers(
                alloc,
                with(Map::new(alloc), Key::Str("a"), Value::from(1u8)),
                pair,
            ),
        ],
    );
    drop(values);
}

// The answer is an error of that text, and its cause is one of that.
fn fails_with(alloc: Global, answer: TeraResult<Value>, text: &str, cause: &str) -> Seen {
    match answer {
        Err(error) => is_of_cause(alloc, error, text, cause),
        Ok(made) => unwanted(alloc, made, text),
    }
}

// The error is one of that text, and its cause is one of that.
fn is_of_cause(alloc: Global, error: Error, text: &str, cause: &str) -> Seen {
    let row = displays(alloc, &error, text);
    let is_caused = is_caused_by(alloc, &error, cause);
    drop(error);
    both(row, is_caused)
}

fn is_caused_by(alloc: Global, error: &Error, cause: &str) -> Seen {
    match error.source() {
        Some(source) => displays(alloc, source, cause),
        None => is_so(alloc, false, error, &cause),
    }
}

#[test]
fn errors_are_answered_as_they_are(rt: HostRuntime) {
    let alloc = rt.alloc();
    let cause = anyhow::anyhow!("the cause");
    let failed: TeraResult<u8> = Err(Error::chain(alloc, "no such é", cause));
    let answer = failed.into_result(alloc);
    hold!(&rt, [fails_with(alloc, answer, "no such é", "the cause")]);
}
