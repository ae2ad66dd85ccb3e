//! Texts as a filter takes them, and how they are shown.
ghost use Rattle.tera_report.specs.Errors.{IsOutOfMemory};

use crate::arguments::given::is_given;
use crate::arguments::made::owned;
use crate::arguments::taken::{is_lent, is_owned, taken};
use crate::held::{Seen, both, hold, shows, unwanted};
use made_values::{safe, text};
use std::alloc::Global;
use std::borrow::CowStr;
use tera_arguments::{Autoescape, StringInput};
use tera_report::{TeraResult, escape_text, one_spelling};
use tera_values::Value;

// A page, on which texts are escaped or are not.
#[derive(Drop)]
pub struct Page {
    escaping: bool,
}

impl Autoescape for Page {
    ghost use Rattle.tera_report.specs.Escaping.{escaped as escaped_text};

    ghost escapes = { λ page. page.escaping };

    ghost escaped = { λ _ text. escaped_text text };

    ghost refuses = { λ _ _ e. IsOutOfMemory e };

    fn autoescaping_enabled(&self) -> bool {
        self.escaping
    }

    fn escape(&self, alloc: Global, text: &str) -> TeraResult<String> {
        one_spelling();
        escape_text(alloc, text)
    }
}

// How the text is shown where texts are escaped, or are not.
pub fn rendered<'a>(alloc: Global, value: &'a Value, escaping: bool) -> TeraResult<CowStr<'a>> {
    let input: StringInput<'a> = taken(alloc, value)?;
    input.rendered(alloc, &Page { escaping })
}

// It is shown as it stands, lent.
fn stands(alloc: Global, value: Value, escaping: bool, wanted: &str) -> Seen {
    let row = is_lent(alloc, rendered(alloc, &value, escaping), wanted);
    drop(value);
    row
}

// Where texts are escaped, it is shown as a text of its own.
fn is_escaped(alloc: Global, value: Value, wanted: &str) -> Seen {
    let row = is_owned(alloc, rendered(alloc, &value, true), wanted);
    drop(value);
    row
}

#[test]
fn only_unsafe_texts_are_escaped(rt: HostRuntime) {
    let alloc = rt.alloc();
    hold!(
        &rt,
        [
            stands(alloc, safe(alloc, "<"), true, "<"),
            stands(alloc, safe(alloc, "<"), false, "<"),
            is_escaped(alloc, text(alloc, "<"), "&lt;"),
            stands(alloc, text(alloc, "<"), false, "<"),
            is_escaped(alloc, text(alloc, "é"), "é"),
            is_escaped(alloc, text(alloc, ""), ""),
        ],
    );
}

// Its text and its flag are these.
fn is_input(alloc: Global, value: Value, text: &str, is_safe: bool) -> Seen {
    let row = match taken::<Value, StringInput<'_>>(alloc, &value) {
        Ok(input) => {
            if input.as_str() == text && input.is_safe() == is_safe {
                Ok(())
            } else {
                unwanted(alloc, input, text)
            }
        }
        Err(refused) => unwanted(alloc, refused, text),
    };
    drop(value);
    row
}

#[test]
fn texts_come_with_their_flag(rt: HostRuntime) {
    let alloc = rt.alloc();
    hold!(
        &rt,
        [
            is_input(alloc, safe(alloc, "é<"), "é<", true),
            is_input(alloc, text(alloc, "é<"), "é<", false),
            is_input(alloc, text(alloc, ""), "", false),
        ],
    );
}

// Another text with the flag of that one.
fn inherited(alloc: Global, value: &Value, output: &str) -> TeraResult<Value> {
    let input: StringInput<'_> = taken(alloc, value)?;
    Ok(input.inherit_safety(owned(alloc, output)))
}

// A copy of the text.
fn copied(alloc: Global, value: &Value) -> TeraResult<Value> {
    let input: StringInput<'_> = taken(alloc, value)?;
    input.into_value(alloc)
}

// The copy of the text, and another one with its flag, are held so.
fn keeps_flag(alloc: Global, value: Value, copy: &str, other: &str) -> Seen {
    let made = copied(alloc, &value);
    let inheriting = inherited(alloc, &value, "é");
    drop(value);
    let is_copied = is_given(alloc, made, copy);
    both(is_copied, is_given(alloc, inheriting, other))
}

#[test]
fn flags_are_kept(rt: HostRuntime) {
    let alloc = rt.alloc();
    let (marked, plain) = (safe(alloc, "<"), text(alloc, "<"));
    let (copy, other) = ("String(true, \"<\")", "String(true, \"é\")");
    let (plain_copy, plain_other) = ("String(false, \"<\")", "String(false, \"é\")");
    hold!(
        &rt,
        [
            keeps_flag(alloc, marked, copy, other),
            keeps_flag(alloc, plain, plain_copy, plain_other),
        ],
    );
}

// Its debug text is that.
fn input_shows(alloc: Global, value: Value, wanted: &str) -> Seen {
    let row = match taken::<Value, StringInput<'_>>(alloc, &value) {
        Ok(input) => shows(alloc, &input, wanted),
        Err(refused) => unwanted(alloc, refused, wanted),
    };
    drop(value);
    row
}

#[test]
fn what_inputs_show(rt: HostRuntime) {
    let alloc = rt.alloc();
    let marked = "StringInput { text: \"é\\n<\", safe: true }";
    let plain = "StringInput { text: \"\", safe: false }";
    hold!(
        &rt,
        [
            input_shows(alloc, safe(alloc, "é\n<"), marked),
            input_shows(alloc, text(alloc, ""), plain),
        ],
    );
}
