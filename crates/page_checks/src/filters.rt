//! What filters answer and refuse, of values and arguments that are written in JSON.
use crate::held::{Seen, hold, same};
use std::alloc::Global;
use tera::value::HashState;
use tera::{Error, Kwargs, TeraResult, Value};
use tera_filters::Filter;
use tera_json::from_json;

// What the filter of that word makes.
fn applied(alloc: Global, word: &str, value: &Value, arguments: &str) -> TeraResult<Value> {
    let Some(filter) = Filter::named(word) else {
        return Err(Error::message_of(alloc, &["no filter"]));
    };
    let Some(arguments) = from_json(alloc, HashState::fixed(), arguments)?.into_map() else {
        return Err(Error::message_of(alloc, &["no arguments"]));
    };
    filter.apply(alloc, value, &Kwargs::new(arguments))
}

// The same of a value that is written in JSON.
fn filtered(alloc: Global, word: &str, value: &str, arguments: &str) -> TeraResult<Value> {
    let value = from_json(alloc, HashState::fixed(), value)?;
    applied(alloc, word, &value, arguments)
}

// The text of that, or what its refusal says behind a mark.
fn told(alloc: Global, made: TeraResult<Value>) -> String {
    match made {
        Ok(made) => made.to_text(alloc).unwrap_or(String::new(alloc)),
        Err(error) => { format!(in alloc; "refused: {error}").unwrap_or(String::new(alloc)) }
    }
}

fn gives(alloc: Global, word: &str, value: &str, arguments: &str, wanted: &str) -> Seen {
    let found = told(alloc, filtered(alloc, word, value, arguments));
    same(alloc, found.as_str(), wanted)
}

// The same of the undefined value, which JSON cannot write.
fn gives_of_undefined(alloc: Global, word: &str, arguments: &str, wanted: &str) -> Seen {
    let found = told(alloc, applied(alloc, word, &Value::undefined(), arguments));
    same(alloc, found.as_str(), wanted)
}

#[test]
fn filters_give(rt: HostRuntime) {
    let alloc = rt.alloc();
    hold!(
        &rt,
        [
            gives(alloc, "length", "\"h\u{e9}\"", "{}", "2"),
            gives(alloc, "first", "[7, 8, 9]", "{}", "7"),
            gives(alloc, "last", "[7, 8, 9]", "{}", "9"),
            gives(alloc, "nth", "[7, 8, 9]", "{\"n\": 1}", "8"),
            gives(alloc, "reverse", "[7, 8, 9]", "{}", "[9, 8, 7]"),
            gives(alloc, "slice", "[7, 8, 9]", "{\"end\": -1}", "[7, 8]"),
            gives(alloc, "get", "{\"a\": 1}", "{\"key\": \"a\"}", "1"),
            gives(
                alloc,
                "get",
                "{\"a\": 1}",
                "{\"key\": \"b\", \"default\": 2}",
                "2"
            ),
            gives(alloc, "abs", "-3", "{}", "3"),
            gives(alloc, "upper", "\"h\u{e9}\"", "{}", "H\u{c9}"),
            gives(alloc, "lower", "\"HO\"", "{}", "ho"),
            gives(alloc, "trim", "\" a b \"", "{}", "a b"),
            gives(
                alloc,
                "join",
                "[\"a\", 1, true]",
                "{\"sep\": \"-\"}",
                "a-1-true"
            ),
            gives(
                alloc,
                "sort",
                "[3, \"a\", 1, true]",
                "{}",
                "[true, 1, 3, \"a\"]"
            ),
            gives(alloc, "unique", "[3, 1, 3, 1, 2]", "{}", "[3, 1, 2]"),
            gives(alloc, "int", "\"12\"", "{}", "12"),
            gives_of_undefined(alloc, "default", "{\"value\": 8}", "8"),
            gives(alloc, "default", "7", "{\"value\": 8}", "7"),
            gives(alloc, "default", "null", "{\"value\": 8}", ""),
            gives(
                alloc,
                "replace",
                "\"a-b-c\"",
                "{\"from\": \"-\", \"to\": \"+\"}",
                "a+b+c"
            ),
            gives(
                alloc,
                "replace",
                "\"h\u{e9}\"",
                "{\"from\": \"\", \"to\": \"-\"}",
                "-h-\u{e9}-"
            ),
            gives(
                alloc,
                "truncate",
                "\"h\u{e9}llo\"",
                "{\"length\": 2}",
                "h\u{e9}\u{2026}"
            ),
            gives(
                alloc,
                "truncate",
                "\"h\u{e9}llo\"",
                "{\"length\": 5, \"end\": \"!\"}",
                "h\u{e9}llo"
            ),
        ],
    );
}

#[test]
fn filters_refuse(rt: HostRuntime) {
    let alloc = rt.alloc();
    hold!(
        &rt,
        [
            gives(
                alloc,
                "length",
                "7",
                "{}",
                "refused: Value of type i64 has no length"
            ),
            gives(
                alloc,
                "first",
                "7",
                "{}",
                "refused: Invalid type for the value, expected `&[Value]` but got `i64`",
            ),
            gives(
                alloc,
                "nth",
                "[]",
                "{}",
                "refused: Missing keyword argument `n`"
            ),
            gives(
                alloc,
                "get",
                "{}",
                "{\"key\": \"a\"}",
                "refused: The map has no key `a`",
            ),
            gives(
                alloc,
                "join",
                "[[]]",
                "{}",
                "refused: Only strings, numbers and bools can be joined. This is a `array`",
            ),
            gives(alloc, "int", "\"1x\"", "{}", "refused: `1x` is no integer"),
            gives_of_undefined(
                alloc,
                "default",
                "{}",
                "refused: Missing keyword argument `value`"
            ),
            gives(
                alloc,
                "default",
                "7",
                "{}",
                "refused: Missing keyword argument `value`"
            ),
            gives(
                alloc,
                "replace",
                "7",
                "{}",
                "refused: Invalid type for the value, expected `&str` but got `i64`",
            ),
            gives(
                alloc,
                "replace",
                "\"a\"",
                "{\"from\": \"a\"}",
                "refused: Missing keyword argument `to`"
            ),
            gives(
                alloc,
                "truncate",
                "\"a\"",
                "{\"length\": -1}",
                "refused: Value `-1` is out of range for `usize`"
            ),
            gives(
                alloc,
                "truncate",
                "\"a\"",
                "{\"end\": 1}",
                "refused: Invalid type for the value, expected `&str` but got `i64`",
            ),
            gives(
                alloc,
                "abs",
                "true",
                "{}",
                "refused: Only numbers can be used in arithmetic. This is a `bool`",
            ),
        ],
    );
}
