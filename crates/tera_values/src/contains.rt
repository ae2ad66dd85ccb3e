//! Whether a value holds another.
ghost use Rattle.std.specs.Prelude.{◌≡◌, Ok, IfOk, IfErr, IsOk};
ghost use Rattle.tera_meaning.specs.Lookup.{holds, text_holds, occurs};
ghost use Rattle.tera_meaning.specs.Read.{text_in};
ghost use Rattle.tera_meaning.specs.Tree.{array, object, items, members};
ghost use Rattle.tera_report.specs.Errors.{Refuses};

use crate::lookup::find_value;
use crate::refused::not_a_container;
use crate::value::ValueInner;
use crate::{Map, Value};
use std::alloc::Global;
use tera_report::TeraResult;

impl Value {
    /// Whether it holds a value: an array by an item that is equal to it, a text by a part that is
    /// that text, a map by a key. No text holds what is no text, and no map what is no key. Mirrors
    /// `Value::contains`, which is private there.
    ///
    /// Refuses what is no array, text or map with `` `in` cannot be used on a container of type
    /// `N`. It can only be used on arrays, strings and map/structs``, where N is the name of its
    /// kind. Takes memory for that text alone; want of it, `Out of memory`, is answered in its
    /// place.
    pub fn contains(&self, alloc: Global, needle: &Value) -> TeraResult<bool>
        ensures ok { IfOk result (λ held. holds self.now needle.now ≡ Ok held) }
        ensures err { IfErr result (Refuses (holds self.now needle.now)) }
        ensures succeeds { IsOk (holds self.now needle.now) → IsOk result }
    {
        match &self.inner {
            ValueInner::Map(all) => Ok(has_key(all, needle)),
            ValueInner::Array(all) => Ok(has_item(all.as_slice(), needle)),
            ValueInner::String(_, text) => Ok(has_part(text.as_str(), needle)),
            _ => Err(not_a_container(alloc, self)),
        }
    }
}

// Whether a map has the key that the value is.
fn has_key(all: &Map, needle: &Value) -> bool
    ensures { holds (object (members all.now)) needle.now ≡ Ok result }
{
    find_value(all, needle).is_some()
}

// Whether an item is equal to the value.
fn has_item(all: &[Value], needle: &Value) -> bool
    ensures { holds (array (items all.now)) needle.now ≡ Ok result }
{
    all.contains(needle)
}

// Whether the value is a text that stands in this one.
fn has_part(text: &str, needle: &Value) -> bool
    ensures { result ≡ text_holds text.now (text_in needle.now) }
{
    match needle.as_str() {
        Some(part) => stands_in(part, text),
        None => false,
    }
}

// Whether a text stands somewhere in another.
#[tactic(auto, using(crate::proofs::LookupLemmas::told_occurs))]
fn stands_in(part: &str, text: &str) -> bool
    ensures { result ≡ occurs part.now text.now }
{
    text.contains(part)
}
