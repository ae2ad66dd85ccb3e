//! Where a map and a context ask for memory, and what changes what a caller keeps.
use crate::contexts::tell_changes;
use crate::made::{Made, name};
use crate::reports;
use crate::values::tell_maps;
use tera_context::Context;
use tera_report::TeraResult;
use tera_values::{Key, Map, Value};

/// A map and a context that grow: a line before and behind each pair and name that is put.
pub fn tell_growth(rt: &(impl Print + AllocGlobal), count: usize) -> TeraResult<()> {
    let mut map = Map::new(rt.alloc());
    let told = tell_each_pair(rt, &mut map, count);
    drop(map);
    told?;
    let mut context = Context::new(rt.alloc());
    let told = tell_each_name(rt, &mut context, count);
    drop(context);
    told
}

fn tell_each_pair(rt: &(impl Print + AllocGlobal), map: &mut Map, count: usize) -> TeraResult<()> {
    for number in 0..count {
        let _ = println!(rt; "map {number}");
        drop(map.insert(Key::from(number as u128), Value::none())?);
        let _ = println!(rt; "put");
    }
    Ok(())
}

fn tell_each_name(
    rt: &(impl Print + AllocGlobal),
    context: &mut Context,
    count: usize,
) -> TeraResult<()> {
    for number in 0..count {
        tell_name(rt, context, name(rt.alloc(), number)?, number)?;
    }
    Ok(())
}

// A name is put, which is copied.
fn tell_name(
    rt: &impl Print,
    context: &mut Context,
    name: String,
    number: usize,
) -> TeraResult<()> {
    let _ = println!(rt; "context {number}");
    let answer = context.insert_value(name.as_str(), Value::none());
    let _ = println!(rt; "put");
    drop(name);
    answer
}

/// Calls that change a report, a map and a context of so many parts.
pub fn tell_kept(rt: &(impl Print + AllocGlobal), count: usize) -> TeraResult<()> {
    let made = Made::bare(rt.alloc(), count);
    let told = tell_each(rt, &made);
    drop(made);
    told
}

fn tell_each(rt: &(impl Print + AllocGlobal), made: &Made) -> TeraResult<()> {
    reports::tell_changes(rt, made)?;
    tell_maps(rt, made)?;
    tell_changes(rt, made)
}
