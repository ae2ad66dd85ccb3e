//! Values, keys and results that are given.
use crate::answers::tell;
use crate::made::{Fill, Made, changed, filled, item, items, name, names};
use indexmap::IndexMap;
use std::alloc::Global;
use std::borrow::CowStr;
use std::collections::{BTreeMap, BTreeSet, HashMap};
use std::rc::RcStr;
use tera_conversions::{FunctionResult, ToKey, ToValue};
use tera_report::{Error, TeraResult};
use tera_values::{Key, Value};

/// Single values that take memory.
pub fn tell_values(rt: &(impl Print + AllocGlobal), made: &Made) -> TeraResult<()> {
    let (alloc, text) = (rt.alloc(), made.text.as_str());
    tell(rt, "char::to_value", 'é'.to_value(alloc));
    tell(rt, "&str::to_value", text.to_value(alloc));
    tell(
        rt,
        "CowStr::to_value",
        CowStr::Borrowed(text).to_value(alloc),
    );
    let key = Key::String(RcStr::from_str(alloc, text)?);
    tell(rt, "Key::to_value", key.to_value(alloc));
    tell_lent(rt, made);
    Ok(())
}

// Single values that are lent.
fn tell_lent(rt: &(impl Print + AllocGlobal), made: &Made) {
    let (alloc, text) = (rt.alloc(), made.text.as_str());
    tell(rt, "&char::to_value", (&'é').to_value(alloc));
    tell(rt, "&&str::to_value", (&text).to_value(alloc));
    tell(rt, "&String::to_value", (&made.text).to_value(alloc));
    tell(rt, "&Value::to_value", (&made.list).to_value(alloc));
    tell(rt, "&[u8]::to_value", text.as_bytes().to_value(alloc));
    tell(rt, "Option::to_value", Some(text).to_value(alloc));
}

/// Collections, and results that hold them.
pub fn tell_collections(rt: &(impl Print + AllocGlobal), made: &Made) -> TeraResult<()> {
    tell_lists(rt, made.count)?;
    tell_maps(rt, made.count)?;
    tell_answers(rt, made.count)?;
    tell_failed(rt, made.text.as_str());
    Ok(())
}

fn tell_answers(rt: &(impl Print + AllocGlobal), count: usize) -> TeraResult<()> {
    let alloc = rt.alloc();
    tell(
        rt,
        "FunctionResult::into_result",
        names(alloc, count)?.into_result(alloc),
    );
    let answer: TeraResult<Vec<String>> = Ok(names(alloc, count)?);
    tell(rt, "Result::into_result", answer.into_result(alloc));
    Ok(())
}

fn tell_failed(rt: &(impl Print + AllocGlobal), text: &str) {
    let alloc = rt.alloc();
    let failed: TeraResult<u8> = Err(Error::message(alloc, text));
    tell(
        rt,
        "Result::into_result of an error",
        failed.into_result(alloc),
    );
}

// The value that a collection gives.
fn tell_value<T: ToValue>(
    rt: &(impl Print + AllocGlobal),
    name: &str,
    of: TeraResult<T>,
) -> TeraResult<()> {
    tell(rt, name, of?.to_value(rt.alloc()));
    Ok(())
}

fn tell_lists(rt: &(impl Print + AllocGlobal), count: usize) -> TeraResult<()> {
    let alloc = rt.alloc();
    tell_value(rt, "Vec::to_value", names(alloc, count))?;
    tell_value(rt, "BTreeSet::to_value", set(alloc, count))?;
    tell_slice(rt, items(alloc, count)?);
    Ok(())
}

fn tell_maps(rt: &(impl Print + AllocGlobal), count: usize) -> TeraResult<()> {
    let alloc = rt.alloc();
    tell_value(rt, "HashMap::to_value", table(alloc, count))?;
    tell_value(rt, "BTreeMap::to_value", tree(alloc, count))?;
    tell_value(rt, "IndexMap::to_value", index(alloc, count))
}

fn tell_slice(rt: &(impl Print + AllocGlobal), items: Vec<Value>) {
    let value = items.as_slice().to_value(rt.alloc());
    drop(items);
    tell(rt, "&[Value]::to_value", value);
}

fn set(alloc: Global, count: usize) -> TeraResult<BTreeSet<usize>> {
    filled(alloc, BTreeSet::new(alloc), count)
}

impl Fill for BTreeSet<usize> {
    fn put(&mut self, _: Global, number: usize) -> TeraResult<()> {
        self.insert(number)?;
        Ok(())
    }
}

fn table(alloc: Global, count: usize) -> TeraResult<HashMap<String, usize>> {
    filled(alloc, HashMap::new(alloc), count)
}

impl Fill for HashMap<String, usize> {
    fn put(&mut self, alloc: Global, number: usize) -> TeraResult<()> {
        self.insert(name(alloc, number)?, number)?;
        Ok(())
    }
}

fn tree(alloc: Global, count: usize) -> TeraResult<BTreeMap<String, Value>> {
    filled(alloc, BTreeMap::new(alloc), count)
}

impl Fill for BTreeMap<String, Value> {
    fn put(&mut self, alloc: Global, number: usize) -> TeraResult<()> {
        let item = item(alloc, number)?;
        drop(self.insert(name(alloc, number)?, item)?);
        Ok(())
    }
}

// The numbers under their names, from the last name down.
fn index(alloc: Global, count: usize) -> TeraResult<IndexMap<String, usize>> {
    let mut map = IndexMap::new(alloc);
    let answer = put_falling(&mut map, alloc, count);
    changed(map, answer)
}

fn put_falling(map: &mut IndexMap<String, usize>, alloc: Global, count: usize) -> TeraResult<()> {
    for number in (0..count).rev() {
        map.insert(name(alloc, number)?, number)?;
    }
    Ok(())
}

/// Keys.
pub fn tell_keys(rt: &(impl Print + AllocGlobal), made: &Made) -> TeraResult<()> {
    let (alloc, text) = (rt.alloc(), made.text.as_str());
    let owned = String::from_str(alloc, text)?;
    tell(rt, "String::to_key", owned.to_key(alloc));
    tell_lent_keys(rt, text)
}

fn tell_lent_keys(rt: &(impl Print + AllocGlobal), text: &str) -> TeraResult<()> {
    let alloc = rt.alloc();
    tell(rt, "CowStr::to_key", CowStr::Borrowed(text).to_key(alloc));
    let owned = CowStr::Owned(String::from_str(alloc, text)?);
    tell(rt, "CowStr::to_key of its own", owned.to_key(alloc));
    Ok(())
}
