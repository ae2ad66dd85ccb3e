//! Contexts as scripts: that memory is found for them, what is refused, and that they are read
//! again.
use made_values::{one_item, shows};
use std::alloc::{AllocError, Global};
use std::test::Fail;
use tera_context::{Context, Request};
use tera_report::TeraResult;
use tera_report::sink::Room;
use tera_script::{Reading, read_line, script_text, write_script};
use tera_values::{HashState, Value};

// Keeps what the line sets.
fn keep(alloc: Global, context: &mut Context, line: &str) -> bool {
    match read_line(alloc, HashState::fixed(), line.as_bytes()) {
        Ok(Reading::Says(said)) => match said.request {
            Request::Set { name, value } => context.insert_value(name, value).is_ok(),
            _ => false,
        },
        _ => false,
    }
}

// The context that these lines make.
fn made_by(alloc: Global, lines: &str) -> Context {
    let mut context = Context::new(alloc);
    for line in lines.lines() {
        if !keep(alloc, &mut context, line) {
            return Context::new(alloc);
        }
    }
    context
}

// A context of one name.
fn of_one(alloc: Global, name: &str, value: Value) -> Context {
    let mut context = Context::new(alloc);
    drop(context.insert_value(name, value));
    context
}

fn is_text(written: TeraResult<String>, wanted: &str) -> bool {
    match written {
        Ok(text) => text.as_str() == wanted,
        Err(_) => false,
    }
}

// What these lines make is written as wanted, and what is written makes it again.
fn is_saved(alloc: Global, lines: &str, ascii: bool, wanted: &str) -> bool {
    let (first, again) = (made_by(alloc, lines), made_by(alloc, wanted));
    let is_so = is_text(script_text(alloc, &first, ascii), wanted)
        && is_text(script_text(alloc, &again, ascii), wanted)
        && first == again;
    drop(first);
    drop(again);
    is_so
}

#[test]
fn contexts_are_written(rt: HostRuntime) -> Result<(), Fail> {
    let rows = [
        ("", ""),
        (
            "set b 1u64\nset a s\"<é>\"\nset aa [none, \"\"]\nset _ {1: 2}\nset B x\"ff\"",
            "set B x\"ff\"\nset _ {1: 2}\nset a s\"<é>\"\nset aa [none, \"\"]\nset b 1u64\n",
        ),
    ];
    for (lines, wanted) in rows {
        assert!(rt; is_saved(rt.alloc(), lines, false, wanted));
    }
    assert!(rt; is_saved(rt.alloc(), "set a \"é\"", true, "set a \"\\u{e9}\"\n"));
    Ok(())
}

// In a room of so many bytes it is answered and written so.
fn fills(alloc: Global, context: Context, size: usize, answer: &str, written: &str) -> bool {
    let Ok(mut room) = Room::new(alloc, size) else {
        return false;
    };
    let is_so = shows(alloc, &write_script(&context, false, &mut room), answer);
    drop(context);
    is_so && room.as_str() == written
}

#[test]
fn a_script_is_put_where_it_fits(rt: HostRuntime) -> Result<(), Fail> {
    let rows = [
        (11, "Ok(())", "set a none\n"),
        (10, "Err(Refused(Full))", "set a none"),
    ];
    for (size, answer, written) in rows {
        let context = of_one(rt.alloc(), "a", Value::none());
        assert!(rt; fills(rt.alloc(), context, size, answer, written));
    }
    Ok(())
}

#[test]
fn a_name_that_no_script_can_say_is_refused(rt: HostRuntime) -> Result<(), Fail> {
    let rows = [
        ("a-b", "Err(BadName(\"a-b\"))"),
        ("", "Err(BadName(\"\"))"),
        ("1a", "Err(BadName(\"1a\"))"),
        ("a b", "Err(BadName(\"a b\"))"),
        ("\u{e9}", "Err(BadName(\"\u{e9}\"))"),
    ];
    for (name, answer) in rows {
        let context = of_one(rt.alloc(), name, Value::none());
        assert!(rt; fills(rt.alloc(), context, 100, answer, ""));
    }
    Ok(())
}

// A value that nests so deep.
fn nested(alloc: Global, levels: usize) -> Value {
    let mut value = Value::none();
    for _ in 0..levels {
        value = one_item(alloc, value);
    }
    value
}

fn is_told(told: Result<String, AllocError>, wanted: &str) -> bool {
    match told {
        Ok(text) => text.as_str() == wanted,
        Err(_) => false,
    }
}

// It is refused with that text.
fn is_refused(alloc: Global, context: Context, wanted: &str) -> bool {
    let is_so = match script_text(alloc, &context, false) {
        Err(error) => is_told(format!(in alloc; "{error}"), wanted),
        Ok(_) => false,
    };
    drop(context);
    is_so
}

#[test]
fn what_is_refused_is_told(rt: HostRuntime) -> Result<(), Fail> {
    let alloc = rt.alloc();
    let deep = "Values nested deeper than 64 levels have no literal: the value of a";
    let bad = "No script can say the name a-b";
    assert!(rt; is_refused(alloc, of_one(alloc, "a", nested(alloc, 65)), deep));
    assert!(rt; is_refused(alloc, of_one(alloc, "a-b", nested(alloc, 65)), bad));
    Ok(())
}
