//! The operands of the calls, of so many parts. An owner that a refusal leaves behind is handed to
//! `lost`, so that no function writes out how it ends.
use std::alloc::Global;
use std::mem;
use std::rc::RcStr;
use tera_conversions::ToValue;
use tera_report::{Error, Span, TeraResult};
use tera_values::{Key, Map, Value};

/// What the calls are given: texts, lists and maps of `count` parts, and single values.
#[derive(Drop)]
pub struct Made {
    pub count: usize,
    /// `é<é<..`
    pub text: String,
    /// That text as a value.
    pub plain: Value,
    /// Items as `item` says.
    pub list: Value,
    /// Texts.
    pub texts: Value,
    /// The items under `k1000`, `k1001`, ..
    pub map: Value,
    /// The bytes of the text, and one that is no UTF-8.
    pub raw: Value,
    pub zero: Value,
    pub none: Value,
    pub below: Value,
    /// The greatest number that a value holds.
    pub wide: Value,
}

impl Made {
    /// Those that take no memory, and none of the others.
    pub fn bare(alloc: Global, count: usize) -> Made {
        Made {
            count,
            text: String::new(alloc),
            plain: Value::none(),
            list: Value::none(),
            texts: Value::none(),
            map: Value::none(),
            raw: Value::none(),
            zero: Value::from(0u8),
            none: Value::none(),
            below: Value::from(-1i8),
            wide: Value::from(u128::MAX),
        }
    }

    /// Makes the others.
    pub fn fill(&mut self, alloc: Global) -> TeraResult<()> {
        self.fill_texts(alloc)?;
        self.fill_parts(alloc)
    }

    fn fill_texts(&mut self, alloc: Global) -> TeraResult<()> {
        replace(&mut self.text, text(alloc, self.count))?;
        let text = self.text.as_str();
        replace(&mut self.plain, Value::normal_string(alloc, text))?;
        replace(&mut self.raw, raw(alloc, text))
    }

    fn fill_parts(&mut self, alloc: Global) -> TeraResult<()> {
        replace(&mut self.list, array(items(alloc, self.count)))?;
        replace(&mut self.texts, names(alloc, self.count)?.to_value(alloc))?;
        replace(&mut self.map, as_value(map(alloc, self.count)))
    }
}

// What is made stands in that place.
fn replace<T: Drop>(place: &mut T, made: TeraResult<T>) -> TeraResult<()> {
    drop(mem::replace(place, made?));
    Ok(())
}

fn array(items: TeraResult<Vec<Value>>) -> TeraResult<Value> {
    Ok(Value::of_array(items?))
}

/// The map as a value.
pub fn as_value(map: TeraResult<Map>) -> TeraResult<Value> {
    Ok(Value::of_map(map?))
}

/// The refusal, where that is held no more.
pub fn lost<T: Drop, R>(held: T, refused: Error) -> TeraResult<R> {
    drop(held);
    Err(refused)
}

/// What is held, where the change of it was made.
pub fn changed<T: Drop>(held: T, answer: TeraResult<()>) -> TeraResult<T> {
    match answer {
        Ok(()) => Ok(held),
        Err(refused) => lost(held, refused),
    }
}

/// What parts are put into, by their numbers.
pub trait Fill {
    fn put(&mut self, alloc: Global, number: usize) -> TeraResult<()>;
}

/// What was empty, with so many parts put into it.
pub fn filled<T: Fill + Drop>(alloc: Global, empty: T, count: usize) -> TeraResult<T> {
    let mut held = empty;
    let answer = put_each(alloc, &mut held, count);
    changed(held, answer)
}

fn put_each<T: Fill>(alloc: Global, held: &mut T, count: usize) -> TeraResult<()> {
    for number in 0..count {
        held.put(alloc, number)?;
    }
    Ok(())
}

/// One more item.
pub fn push<T: Drop>(items: &mut Vec<T>, item: T) -> TeraResult<()> {
    Ok(items.push(item)?)
}

/// So many characters, by turns past ASCII and special.
pub fn text(alloc: Global, count: usize) -> TeraResult<String> {
    filled(alloc, String::new(alloc), count)
}

impl Fill for String {
    fn put(&mut self, _: Global, number: usize) -> TeraResult<()> {
        Ok(self.push(if number % 2 == 0 { 'é' } else { '<' })?)
    }
}

fn raw(alloc: Global, text: &str) -> TeraResult<Value> {
    let mut raw = text.as_bytes().to_vec(alloc)?;
    let answer = push(&mut raw, 255);
    Ok(Value::bytes(changed(raw, answer)?))
}

/// The name of that number.
pub fn name(alloc: Global, number: usize) -> TeraResult<String> {
    let number = number.saturating_add(1000);
    Ok(format!(in alloc; "k{number}")?)
}

/// So many names.
pub fn names(alloc: Global, count: usize) -> TeraResult<Vec<String>> {
    filled(alloc, Vec::new(alloc), count)
}

impl Fill for Vec<String> {
    fn put(&mut self, alloc: Global, number: usize) -> TeraResult<()> {
        push(self, name(alloc, number)?)
    }
}

/// A safe text, or a number.
pub fn item(alloc: Global, number: usize) -> TeraResult<Value> {
    if number % 2 == 0 {
        Value::safe_string(alloc, "é")
    } else {
        Ok(Value::from(number))
    }
}

/// So many items.
pub fn items(alloc: Global, count: usize) -> TeraResult<Vec<Value>> {
    filled(alloc, Vec::new(alloc), count)
}

impl Fill for Vec<Value> {
    fn put(&mut self, alloc: Global, number: usize) -> TeraResult<()> {
        push(self, item(alloc, number)?)
    }
}

/// So many pairs, in rising order of their keys.
pub fn map(alloc: Global, count: usize) -> TeraResult<Map> {
    filled(alloc, Map::new(alloc), count)
}

impl Fill for Map {
    fn put(&mut self, alloc: Global, number: usize) -> TeraResult<()> {
        let item = item(alloc, number)?;
        let key = key(alloc, number)?;
        drop(self.insert(key, item)?);
        Ok(())
    }
}

// The key of that number.
fn key(alloc: Global, number: usize) -> TeraResult<Key<'static>> {
    let name = name(alloc, number)?;
    let held = RcStr::from_str(alloc, name.as_str());
    drop(name);
    Ok(Key::String(held?))
}

/// Some columns of the first line.
pub fn span() -> Span {
    Span {
        start_line: 1,
        start_col: 0,
        end_line: 1,
        end_col: 2,
        range: 0..2,
    }
}
