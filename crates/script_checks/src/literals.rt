//! Literals that are written: that memory is found for them, and that they are read again.
use std::alloc::Global;
use std::test::Fail;
use tera_context::Request;
use tera_report::TeraResult;
use tera_script::{Reading, literal_text, read_line};
use tera_values::{HashState, Value};

// The value that a line sets a name to.
fn value_in(alloc: Global, line: &str) -> Option<Value> {
    match read_line(alloc, HashState::fixed(), line.as_bytes()).ok()? {
        Reading::Says(said) => match said.request {
            Request::Set { name: _, value } => Some(value),
            _ => None,
        },
        _ => None,
    }
}

// The value that a literal spells.
fn value_of(alloc: Global, literal: &str) -> Option<Value> {
    let line = format!(in alloc; "set a {literal}").ok()?;
    value_in(alloc, line.as_str())
}

fn is_text(written: TeraResult<String>, wanted: &str) -> bool {
    match written {
        Ok(text) => text.as_str() == wanted,
        Err(_) => false,
    }
}

// Whether the value of a literal is written as wanted, and what is written as itself.
fn is_written(alloc: Global, literal: &str, ascii: bool, wanted: &str) -> bool {
    let (Some(value), Some(again)) = (value_of(alloc, literal), value_of(alloc, wanted)) else {
        return false;
    };
    is_text(literal_text(alloc, &value, ascii), wanted)
        && is_text(literal_text(alloc, &again, ascii), wanted)
}

#[test]
fn literals_are_written(rt: HostRuntime) -> Result<(), Fail> {
    let rows = [
        ("undefined", "undefined"),
        ("none", "none"),
        ("true", "true"),
        ("-0", "0"),
        ("1i64", "1"),
        ("1u64", "1u64"),
        ("9223372036854775807u64", "9223372036854775807u64"),
        ("9223372036854775808u64", "9223372036854775808"),
        ("9223372036854775808i128", "9223372036854775808i128"),
        ("18446744073709551616i128", "18446744073709551616"),
        ("-9223372036854775809", "-9223372036854775809"),
        ("-9223372036854775808i128", "-9223372036854775808i128"),
        ("18446744073709551616u128", "18446744073709551616u128"),
        (
            "340282366920938463463374607431768211455",
            "340282366920938463463374607431768211455",
        ),
        ("x\"6aFF\"", "x\"6aff\""),
        ("s\"<\\u{e9}>\"", "s\"<é>\""),
        (
            "\"'\\n\\r\\t\\0\\\"\\\\\\u{7f}\"",
            "\"'\\n\\r\\t\\0\\\"\\\\\\u{7f}\"",
        ),
        (
            "\"é'\\n\\r\\t\\0\\\"\\\\\\u{7f}\"",
            "\"é'\\n\\r\\t\\0\\\"\\\\\\u{7f}\"",
        ),
        ("[1,[2 , \"a\"]]", "[1, [2, \"a\"]]"),
        (
            "{1u64:{},true : 2 ,\"k\":[]}",
            "{1u64: {}, true: 2, \"k\": []}",
        ),
    ];
    for (literal, wanted) in rows {
        assert!(rt; is_written(rt.alloc(), literal, false, wanted));
    }
    Ok(())
}

#[test]
fn literals_are_ascii_where_asked(rt: HostRuntime) -> Result<(), Fail> {
    let rows = [
        ("\"é\"", "\"\\u{e9}\""),
        (
            "{\"\\u{10ffff}a\": s\"日\\n\"}",
            "{\"\\u{10ffff}a\": s\"\\u{65e5}\\n\"}",
        ),
    ];
    for (literal, wanted) in rows {
        assert!(rt; is_written(rt.alloc(), literal, true, wanted));
    }
    Ok(())
}
