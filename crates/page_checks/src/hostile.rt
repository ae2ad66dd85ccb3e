//! Hostile texts, in text and in attributes of both quotes: none brings a tag or ends a quote.
use crate::held::{Seen, hold, is_so};
use std::alloc::Global;
use tera::{Context, Key, Map, TeraResult, Value};
use tera_page::{parse, render};

const TEMPLATE: &str = "<p title=\"{{ x }}\" class='{{ x }}'>{{ x | escape }}</p>";

fn page_of(alloc: Global, value: Value) -> TeraResult<String> {
    let mut context = Context::new(alloc);
    context.insert_value("x", value)?;
    let template = parse(alloc, TEMPLATE)?;
    render(alloc, &template, &context)
}

// The tag, its two attributes and its end are all that stands there, whatever the value is.
fn keeps(alloc: Global, value: TeraResult<Value>) -> Seen {
    let Ok(value) = value else {
        return is_so(alloc, false, "no value", "a value");
    };
    let Ok(page) = page_of(alloc, value) else {
        return is_so(alloc, false, "no page", "a page");
    };
    let page = page.as_str();
    let holds = count(page, b'<') == 2
        && count(page, b'>') == 2
        && count(page, b'"') == 2
        && count(page, b'\'') == 2;
    is_so(
        alloc,
        holds,
        page,
        "one tag with two attributes, and its end",
    )
}

fn count(page: &str, wanted: u8) -> usize {
    page.as_bytes()
        .iter()
        .filter(|byte| **byte == wanted)
        .count()
}

fn text(alloc: Global, text: &str) -> TeraResult<Value> {
    Value::normal_string(alloc, text)
}

fn array(alloc: Global, held: &str) -> TeraResult<Value> {
    let mut items = Vec::new(alloc);
    items.push(text(alloc, held)?)?;
    items.push(Value::safe_string(alloc, held)?)?;
    Ok(Value::of_array(items))
}

fn map(alloc: Global, held: &str) -> TeraResult<Value> {
    let mut pairs = Map::new(alloc);
    pairs.insert(Key::of_text(alloc, held)?, text(alloc, held)?)?;
    Ok(Value::of_map(pairs))
}

fn bytes(alloc: Global, held: &str) -> TeraResult<Value> {
    Ok(Value::bytes(held.as_bytes().to_vec(alloc)?))
}

const HOSTILE: [&str; 5] = [
    "<script>alert(1)</script>",
    "\" onmouseover=\"alert(1)",
    "' onmouseover='alert(1)",
    "&lt;b&gt; &#39; & {{ x }} {% if x %}",
    "é<\u{2028}>\"'",
];

#[test]
fn no_value_brings_a_tag(rt: HostRuntime) {
    let alloc = rt.alloc();
    for held in HOSTILE {
        hold!(
            &rt,
            [
                keeps(alloc, text(alloc, held)),
                keeps(alloc, array(alloc, held)),
                keeps(alloc, map(alloc, held)),
                keeps(alloc, bytes(alloc, held)),
            ],
        );
    }
}
