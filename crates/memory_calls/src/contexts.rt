//! Contexts, and the lines of scripts.
use crate::answers::{tell, tell_change, tell_debug, widened};
use crate::made::{Fill, Made, filled, item, name};
use std::alloc::{AllocError, Global};
use tera_context::{Command, Context, Request, Search, context, lend};
use tera_report::TeraResult;
use tera_script::{literal_text, read_line, script_text, take_text};
use tera_values::{HashState, Value};

// The items under so many names.
fn of_items(alloc: Global, count: usize) -> TeraResult<Context> {
    filled(alloc, Context::new(alloc), count)
}

impl Fill for Context {
    fn put(&mut self, alloc: Global, number: usize) -> TeraResult<()> {
        let item = item(alloc, number)?;
        put_at(self, name(alloc, number)?, item)
    }
}

fn put_at(context: &mut Context, name: String, item: Value) -> TeraResult<()> {
    let answer = context.insert_value(name.as_str(), item);
    drop(name);
    answer
}

/// Contexts that are made, changed and copied.
pub fn tell_contexts(rt: &(impl Print + AllocGlobal), made: &Made) -> TeraResult<()> {
    let (alloc, text) = (rt.alloc(), made.text.as_str());
    tell(rt, "Context::new", Ok(Context::new(alloc)));
    let hashed = Context::with_hasher(alloc, HashState::fixed());
    tell(rt, "Context::with_hasher", Ok(hashed));
    tell(rt, "context!", of_macro(alloc, text));
    tell_changes(rt, made)?;
    tell_entries(rt, of_items(alloc, made.count)?);
    Ok(())
}

/// Contexts that are copied and changed.
pub fn tell_changes(rt: &(impl Print + AllocGlobal), made: &Made) -> TeraResult<()> {
    let (alloc, text) = (rt.alloc(), made.text.as_str());
    tell_copy(rt, of_items(alloc, made.count)?);
    tell_insert(rt, of_items(alloc, made.count)?, text);
    tell_replace(rt, of_items(alloc, 1)?, text);
    Ok(())
}

fn of_macro(alloc: Global, text: &str) -> TeraResult<Context> {
    let bare = 69i64;
    Ok(context! { alloc; given => text, bare })
}

fn tell_copy(rt: &impl Print, context: Context) {
    let copy = context.clone();
    drop(context);
    tell(rt, "Context::clone", copy);
}

fn tell_insert(rt: &impl Print, context: Context, text: &str) {
    let mut context = context;
    let answer = context.insert("new", text);
    tell_change(rt, "Context::insert", answer, context);
}

fn tell_replace(rt: &impl Print, context: Context, text: &str) {
    let mut context = context;
    let answer = context.insert("k1000", text);
    tell_change(
        rt,
        "Context::insert of a name that is there",
        answer,
        context,
    );
}

fn tell_entries(rt: &(impl Print + AllocGlobal), context: Context) {
    tell(rt, "Context::entries", context.entries());
    tell(rt, "script_text", script_text(rt.alloc(), &context, false));
    drop(context);
}

/// Lines and texts of scripts.
pub fn tell_lines(rt: &(impl Print + AllocGlobal), made: &Made) -> TeraResult<()> {
    let (alloc, text) = (rt.alloc(), made.text.as_str());
    tell_line(rt, format!(in alloc; "set a [\"{text}\"]"))?;
    tell_text(rt, format!(in alloc; "{text}\" rest"))?;
    tell(rt, "literal_text", literal_text(alloc, &made.plain, false));
    Ok(())
}

fn tell_line(rt: &(impl Print + AllocGlobal), line: Result<String, AllocError>) -> TeraResult<()> {
    let line = line?;
    let reading = read_line(rt.alloc(), HashState::fixed(), line.as_bytes());
    tell(rt, "read_line", widened(reading));
    drop(line);
    Ok(())
}

fn tell_text(
    rt: &(impl Print + AllocGlobal),
    quoted: Result<String, AllocError>,
) -> TeraResult<()> {
    let quoted = quoted?;
    let text = unquoted(rt.alloc(), quoted.as_bytes());
    drop(quoted);
    tell(rt, "take_text", text);
    Ok(())
}

// The text, and how many bytes it took.
fn unquoted(alloc: Global, bytes: &[u8]) -> TeraResult<Option<(String, usize)>> {
    match take_text(alloc, bytes)? {
        Some(taken) => Ok(Some((taken.text, taken.used))),
        None => Ok(None),
    }
}

/// What a context lends for `get`.
pub fn tell_lent(rt: &impl Print, context: &Context, name: &str) {
    let get = Command {
        request: Request::Find(Search::Get { name }),
        into: None,
    };
    tell_debug(rt, "lend", &lend(context, &get));
    drop(get);
}
