//! From a text of JSON to a value.
ghost use Rattle.std.specs.Prelude.{◌≡◌, [], false, IfOk, IfErr, OnOk};
ghost use Rattle.json.specs.Json.{object as document_object};
ghost use Rattle.json.specs.Value.{value_view, items_view, members_view};
ghost use Rattle.tera_json.specs.Documents.{Documents, DocumentItems, DocumentMembers, IsRead};
ghost use Rattle.tera_json.specs.Documents.{read_refusal};
ghost use Rattle.tera_json.specs.Misfits.{misfits, item_misfits, member_misfits};
ghost use Rattle.tera_json.specs.inner.Stopped.{IsDue};
ghost use Rattle.tera_meaning.specs.Pairs.{key_form_order, put};
ghost use Rattle.tera_meaning.specs.KeyMeaning.{text_key, owned};
ghost use Rattle.tera_meaning.specs.Tree.{members, object};
ghost use Rattle.tera_report.specs.Errors.{Refuses};
ghost use Rattle.tera_values.specs.View.{marked};

use crate::misfit::{Reason, Stop};
use crate::number::integer_in;
use json::{Scratch, Value as Document};
use std::alloc::{AllocError, Global};
use tera_report::{Error, TeraResult};
use tera_values::{HashState, Key, Map, Value};

/// How deep arrays and objects may nest. The outermost is level 1.
pub(crate) const LEVELS: usize = 64;

/// The value of a text of JSON. `null` is none, a string a text that is not marked safe, and a
/// number an integer in the first of i64, u64, i128 and u128 that holds it. The members of an
/// object are the pairs of a map in their order; of equal names the first keeps its place, and the
/// last value stands. The keys of maps are hashed under the state that is given.
///
/// Refuses a text that is not JSON, or nests deeper than 128 levels, with `The text is not JSON`.
/// Refuses the first of these, with its place as a JSON pointer, `P`: a number with a fraction or
/// an exponent, or outside these kinds, with ``Number `N` at `P` is not an integer from -2^127 to
/// 2^128 - 1``; and an array or an object inside 64 others, with ``More than 64 levels at `P` ``,
/// without the last blank. Takes memory; want of it, `Out of memory`, is answered in the place of
/// all else.
pub fn from_json(alloc: Global, state: HashState, text: &str) -> TeraResult<Value>
    ensures ok { IfOk result (IsRead text.now) }
    ensures err { IfErr result (Refuses (read_refusal text.now)) }
{
    let mut scratch = Scratch::new(alloc);
    match Document::parse(alloc, text, &mut scratch) {
        Ok(document) => match value_of(alloc, state, &document, LEVELS) {
            Ok(value) => Ok(value),
            Err(stop) => Err(stop.into_error(alloc)),
        },
        Err(json::Error::Invalid) => Err(Error::message(alloc, "The text is not JSON")),
        Err(_) => Err(Error::from(AllocError)),
    }
}

// The value of a document in which arrays and objects may nest so many levels deep.
#[cycle(value_of)]
fn value_of<'a>(
    alloc: Global,
    state: HashState,
    document: &Document<'a>,
    levels: usize,
) -> Result<Value, Stop<'a>>
    ensures ok { IfOk result (Documents (value_view document.now)) }
    ensures fits { OnOk result (misfits levels (value_view document.now) ≡ []) }
    ensures err { IfErr result (IsDue (misfits levels (value_view document.now))) }
{
    match document {
        Document::Null => Ok(Value::none()),
        Document::Bool(b) => Ok(Value::from(*b)),
        Document::Number(text) => match integer_in(*text) {
            Some(number) => Ok(number),
            None => Err(Stop::here(alloc, Reason::Number(*text))),
        },
        Document::String(text) => Ok(text_of(alloc, *text)?),
        Document::Array(all) => {
            if levels == 0 {
                return Err(Stop::here(alloc, Reason::Levels));
            }
            let made = items_of(alloc, state, all.as_slice(), levels - 1)?;
            Ok(Value::of_array(made))
        }
        Document::Object(all) => {
            if levels == 0 {
                return Err(Stop::here(alloc, Reason::Levels));
            }
            let made = members_of(alloc, state, all.as_slice(), levels - 1)?;
            Ok(Value::of_map(made))
        }
    }
}

// The values of an array's items.
#[cycle(value_of)]
fn items_of<'a>(
    alloc: Global,
    state: HashState,
    all: &[Document<'a>],
    levels: usize,
) -> Result<Vec<Value>, Stop<'a>>
    ensures ok { IfOk result (λ made. DocumentItems (items_view all.now) made.items) }
    ensures fits { OnOk result (item_misfits levels 0 (items_view all.now) ≡ []) }
    ensures err { IfErr result (IsDue (item_misfits levels 0 (items_view all.now))) }
{
    let mut made = Vec::with_capacity(alloc, all.len())?;
    for at in 0..all.len() {
        match value_of(alloc, state, &all[at], levels) {
            Ok(value) => made.push(value)?,
            Err(stop) => return Err(stop.in_item(alloc, at)),
        }
    }
    Ok(made)
}

// The map of an object's members.
#[cycle(value_of)]
fn members_of<'a>(
    alloc: Global,
    state: HashState,
    all: &[(&'a str, Document<'a>)],
    levels: usize,
) -> Result<Map, Stop<'a>>
    ensures ok { IfOk result (λ made.
        Documents (document_object (members_view all.now)) (object (members made))) }
    ensures fits { OnOk result (member_misfits levels (members_view all.now) ≡ []) }
    ensures err { IfErr result (IsDue (member_misfits levels (members_view all.now))) }
{
    let mut made = Map::with_hasher(alloc, state);
    for at in 0..all.len() {
        let (name, document) = &all[at];
        match value_of(alloc, state, document, levels) {
            Ok(value) => put(alloc, &mut made, *name, value)?,
            Err(stop) => return Err(stop.in_member(alloc, *name)),
        }
    }
    Ok(made)
}

// A text that is not marked safe.
fn text_of(alloc: Global, text: &str) -> Result<Value, AllocError>
    ensures { IfOk result (λ v. v ≡ marked text.now false) }
{
    match Value::normal_string(alloc, text) {
        Ok(value) => Ok(value),
        Err(_) => Err(AllocError),
    }
}

// Puts a value at a name.
fn put(alloc: Global, made: &mut Map, name: &str, value: Value) -> Result<(), AllocError>
    ensures { OnOk result
        (made.new ≡ put key_form_order made.old (text_key (owned name.now)) value) }
{
    let key = Key::of_text(alloc, name)?;
    match made.insert(key, value) {
        Ok(_) => Ok(()),
        Err(_) => Err(AllocError),
    }
}
