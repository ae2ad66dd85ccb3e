//! A shop, over which templates are shown.
use crate::held::{Seen, is_so, same};
use std::alloc::Global;
use tera::{Context, Key, Map, TeraResult, Value};
use tera_page::{parse, render};

/// A shop: a name, a map with a map in it, two arrays, and values that are false.
pub fn shop(alloc: Global) -> TeraResult<Context> {
    let mut context = Context::new(alloc);
    context.insert("title", "Tea & <Cakes>")?;
    context.insert_value("markup", Value::safe_string(alloc, "<b>")?)?;
    context.insert_value("count", Value::from(3u64))?;
    context.insert_value("zero", Value::from(0u64))?;
    context.insert_value("nothing", Value::none())?;
    context.insert_value("missing", Value::undefined())?;
    let mut inner = Map::new(alloc);
    inner.insert(Key::Str("b"), words(alloc)?)?;
    context.insert_value("a", Value::of_map(inner))?;
    context.insert_value("words", words(alloc)?)?;
    context.insert_value("empty", Value::of_array(Vec::new(alloc)))?;
    context.insert_value("prices", prices(alloc)?)?;
    context.insert_value("no_prices", Value::of_map(Map::new(alloc)))?;
    Ok(context)
}

// A map with keys of each kind.
fn prices(alloc: Global) -> TeraResult<Value> {
    let mut pairs = Map::new(alloc);
    pairs.insert(Key::Str("<tea>"), Value::from(2u64))?;
    pairs.insert(Key::I64(-7), Value::normal_string(alloc, "&")?)?;
    pairs.insert(Key::Bool(true), Value::none())?;
    Ok(Value::of_map(pairs))
}

fn words(alloc: Global) -> TeraResult<Value> {
    let mut items = Vec::new(alloc);
    items.push(Value::normal_string(alloc, "x")?)?;
    items.push(Value::normal_string(alloc, "y")?)?;
    Ok(Value::of_array(items))
}

// The page of a template.
fn page_of(alloc: Global, text: &str) -> TeraResult<String> {
    let template = parse(alloc, text)?;
    render(alloc, &template, &shop(alloc)?)
}

/// The page of a template, or what its refusal says behind a mark.
pub fn told(alloc: Global, text: &str) -> String {
    match page_of(alloc, text) {
        Ok(page) => page,
        Err(error) => { format!(in alloc; "refused: {error}").unwrap_or(String::new(alloc)) }
    }
}

/// The template shows that.
pub fn shows(alloc: Global, text: &str, wanted: &str) -> Seen {
    let found = told(alloc, text);
    same(alloc, found.as_str(), wanted)
}

/// The template is refused with these words.
pub fn refused(alloc: Global, text: &str, wanted: &str) -> Seen {
    let found = told(alloc, text);
    let holds = found.as_str().starts_with("refused: ") && found.as_str().contains(wanted);
    is_so(alloc, holds, found.as_str(), wanted)
}
