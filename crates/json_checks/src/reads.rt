//! What texts of JSON are read as, and what is written of these values again.
use crate::held::hold;
use std::alloc::Global;
use tera_json::{from_json, to_json};
use tera_report::Error;
use tera_values::{HashState, Value};

// What is written of the value of a text, or what its refusal says.
fn told(alloc: Global, text: &str) -> Option<String> {
    match from_json(alloc, HashState::fixed(), text) {
        Ok(value) => written(alloc, &value),
        Err(refused) => said(alloc, &refused),
    }
}

fn written(alloc: Global, value: &Value) -> Option<String> {
    match to_json(alloc, value) {
        Ok(text) => Some(text),
        Err(refused) => said(alloc, &refused),
    }
}

fn said(alloc: Global, refused: &Error) -> Option<String> {
    refused.to_string(alloc).ok()
}

// Whether that is told of the text.
fn tells(alloc: Global, text: &str, wanted: &str) -> bool {
    match told(alloc, text) {
        Some(found) => found.as_str() == wanted,
        None => false,
    }
}

// Each document as Python's `json` wrote it, and as it writes it without blanks.
#[test]
fn numbers_of_python_come_back(rt: HostRuntime) {
    let alloc = rt.alloc();
    hold!(
        &rt,
        [
            tells(alloc, "0", "0"),
            tells(alloc, "-1", "-1"),
            tells(alloc, "9223372036854775807", "9223372036854775807"),
            tells(alloc, "9223372036854775808", "9223372036854775808"),
            tells(alloc, "-9223372036854775808", "-9223372036854775808"),
            tells(alloc, "-9223372036854775809", "-9223372036854775809"),
            tells(alloc, "18446744073709551616", "18446744073709551616"),
            tells(
                alloc,
                "170141183460469231731687303715884105728",
                "170141183460469231731687303715884105728",
            ),
            tells(
                alloc,
                "340282366920938463463374607431768211455",
                "340282366920938463463374607431768211455",
            ),
            tells(
                alloc,
                "-170141183460469231731687303715884105728",
                "-170141183460469231731687303715884105728",
            ),
        ],
    );
}

// Each document as Python's `json` wrote it, and as it writes it without blanks.
#[test]
fn shapes_of_python_come_back(rt: HostRuntime) {
    let alloc = rt.alloc();
    hold!(
        &rt,
        [
            tells(alloc, "null", "null"),
            tells(alloc, "true", "true"),
            tells(alloc, "[]", "[]"),
            tells(alloc, "{}", "{}"),
            tells(
                alloc,
                "[[], [{}], {\"\": [null]}]",
                "[[],[{}],{\"\":[null]}]",
            ),
            tells(
                alloc,
                "[\n [],\n [\n  {}\n ],\n {\n  \"\": [\n   null\n  ]\n }\n]",
                "[[],[{}],{\"\":[null]}]",
            ),
            tells(
                alloc,
                "{\"b\": 1, \"a\": {\"d\": false, \"c\": [1, 2, 3]}}",
                "{\"b\":1,\"a\":{\"d\":false,\"c\":[1,2,3]}}",
            ),
        ],
    );
}

// Each document as Python's `json` wrote it, and as it writes it without blanks.
#[test]
fn texts_of_python_come_back(rt: HostRuntime) {
    let alloc = rt.alloc();
    hold!(
        &rt,
        [
            tells(alloc, "\"\"", "\"\""),
            tells(
                alloc,
                "\"\\\"\\\\/\\b\\f\\n\\r\\t\\u0000\\u001f\\u007f\"",
                "\"\\\"\\\\/\\b\\f\\n\\r\\t\\u0000\\u001f\u{7f}\"",
            ),
            tells(
                alloc,
                "\"a\\u00df\\u20ac\\ud83d\\ude00\\u2028\"",
                "\"aß€😀\u{2028}\"",
            ),
            tells(
                alloc,
                "[\"\\ud83d\\ude00\\ud83d\\ude00\\ud83d\\ude00\", {\"\\u00e9\": \"\\u00e8\"}]",
                "[\"😀😀😀\",{\"é\":\"è\"}]",
            ),
        ],
    );
}

#[test]
fn of_equal_names_the_last_value_stands_at_the_first(rt: HostRuntime) {
    let alloc = rt.alloc();
    hold!(
        &rt,
        [
            tells(
                alloc,
                "{\"a\":1,\"b\":2,\"\\u0061\":3}",
                "{\"a\":3,\"b\":2}",
            ),
            tells(alloc, "[-0]", "[0]"),
        ],
    );
}

const BEHIND: &str = "` is not an integer from -2^127 to 2^128 - 1";

// Whether the number of that text at that place is refused.
fn refuses(alloc: Global, text: &str, number: &str, place: &str) -> bool {
    match ["Number `", number, "` at `", place, BEHIND].concat(alloc) {
        Ok(wanted) => tells(alloc, text, wanted.as_str()),
        Err(_) => false,
    }
}

#[test]
fn what_is_no_integer_is_refused_at_its_place(rt: HostRuntime) {
    let alloc = rt.alloc();
    hold!(
        &rt,
        [
            refuses(alloc, "1.0", "1.0", ""),
            refuses(alloc, "{\"a\":[1.5]}", "1.5", "/a/0"),
            refuses(alloc, "[0, {\"a~/é\": [[], 1E5]}]", "1E5", "/1/a~0~1é/1"),
            refuses(
                alloc,
                "[340282366920938463463374607431768211456]",
                "340282366920938463463374607431768211456",
                "/0",
            ),
            refuses(
                alloc,
                "[-170141183460469231731687303715884105729]",
                "-170141183460469231731687303715884105729",
                "/0",
            ),
            refuses(alloc, "{\"\":0.5,\"b\":0.25}", "0.5", "/"),
            refuses(alloc, "{\"a\":0e0,\"a\":1}", "0e0", "/a"),
        ],
    );
}

#[test]
fn what_python_does_not_read_is_no_json(rt: HostRuntime) {
    let alloc = rt.alloc();
    let no = "The text is not JSON";
    hold!(
        &rt,
        [
            tells(alloc, "", no),
            tells(alloc, "[1,]", no),
            tells(alloc, "{\"a\"}", no),
            tells(alloc, "{1:2}", no),
            tells(alloc, "01", no),
            tells(alloc, "+1", no),
            tells(alloc, "[1] 2", no),
            tells(alloc, "'a'", no),
            tells(alloc, "\"\t\"", no),
            tells(alloc, "\"\\ud800\"", no),
            tells(alloc, "[.5]", no),
            tells(alloc, "nul", no),
            tells(alloc, "[1e400", no),
        ],
    );
}

// So many brackets, and as many that close them.
fn nested(alloc: Global, levels: usize) -> String {
    let mut made = String::new(alloc);
    for _ in 0..levels {
        let _ = made.push_str("[");
    }
    for _ in 0..levels {
        let _ = made.push_str("]");
    }
    made
}

// Whether that is told of so many levels.
fn levels_tell(alloc: Global, levels: usize, wanted: &str) -> bool {
    let text = nested(alloc, levels);
    let so = tells(alloc, text.as_str(), wanted);
    drop(text);
    so
}

// Whether so many levels are read and written again.
fn levels_come_back(alloc: Global, levels: usize) -> bool {
    let text = nested(alloc, levels);
    let so = tells(alloc, text.as_str(), text.as_str());
    drop(text);
    so
}

// The place of the level below so many arrays.
fn deep_refusal(alloc: Global) -> String {
    let mut made = String::new(alloc);
    let _ = made.push_str("More than 64 levels at `");
    for _ in 0..64 {
        let _ = made.push_str("/0");
    }
    let _ = made.push_str("`");
    made
}

#[test]
fn at_most_64_levels_are_read(rt: HostRuntime) {
    let alloc = rt.alloc();
    let refusal = deep_refusal(alloc);
    hold!(
        &rt,
        [
            levels_come_back(alloc, 64),
            levels_tell(alloc, 65, refusal.as_str()),
            levels_tell(alloc, 128, refusal.as_str()),
            levels_tell(alloc, 129, "The text is not JSON"),
        ],
    );
    drop(refusal);
}
