//! What the keys of a map print: along its pairs, and as the names of its fields.
ghost use Rattle.std.specs.Prelude.{◌≡◌, [], ◌∷◌, ◌++◌, map, IfOk, IfErr, IsOk, OnOk, string_bytes};
ghost use Rattle.tera_meaning.specs.Fields.{fields, shown_in, shown_keys, rising_texts};
ghost use Rattle.tera_meaning.specs.Fields.{AreRisingOf};
ghost use Rattle.tera_meaning.specs.Printed.{shown_key};
ghost use Rattle.tera_report.specs.Errors.{IsOutOfMemory};
ghost use Rattle.tera_values.specs.Key.{meaning_of_key};

use crate::value::ValueInner;
use crate::{Key, Map, Value};
use std::alloc::Global;
use tera_report::TeraResult;
use tera_report::sink::Growing;

impl Value {
    /// What the keys of the map print, each text once, in the order of their bytes; no texts on
    /// every other value. The number key 1 and the text key `1` are one name. Mirrors
    /// `Value::available_fields`, which is private there.
    ///
    /// Takes memory for the texts, where there are some; the only refusal is want of it, `Out of
    /// memory`.
    pub fn available_fields(&self, alloc: Global) -> TeraResult<Vec<String>>
        ensures ok { IfOk result (λ names. map string_bytes names.items ≡ fields self.now) }
        ensures err { IfErr result IsOutOfMemory }
        ensures succeeds { fields self.now ≡ [] → IsOk result }
    {
        match &self.inner {
            ValueInner::Map(all) => field_names(alloc, all),
            _ => Ok(Vec::new(alloc)),
        }
    }

    /// What the keys of the map print, one text for each pair, in their order; no texts on every
    /// other value. The project's own.
    ///
    /// Takes memory for the texts, where there are some; the only refusal is want of it, `Out of
    /// memory`.
    pub fn walk(&self, alloc: Global) -> TeraResult<Vec<String>>
        ensures ok { IfOk result (λ names. map string_bytes names.items ≡ shown_in self.now) }
        ensures err { IfErr result IsOutOfMemory }
        ensures succeeds { shown_in self.now ≡ [] → IsOk result }
    {
        match &self.inner {
            ValueInner::Map(all) => printed_keys(alloc, all),
            _ => Ok(Vec::new(alloc)),
        }
    }
}

// The names of a map's fields.
fn field_names(alloc: Global, all: &Map) -> TeraResult<Vec<String>>
    ensures ok { IfOk result (λ names.
        map string_bytes names.items ≡ rising_texts (shown_keys all.now)) }
    ensures err { IfErr result IsOutOfMemory }
    ensures succeeds { all.now ≡ [] → IsOk result }
{
    let mut names = printed_keys(alloc, all)?;
    sort_names(&mut names);
    Ok(names)
}

// Puts texts in the order of their bytes, and leaves one of those that are equal.
fn sort_names(names: &mut Vec<String>)
    ensures { AreRisingOf (map string_bytes names.old.items) (map string_bytes names.new.items) }
{
    names.sort_unstable();
    names.dedup();
}

// What each key prints, in the order of the pairs.
fn printed_keys(alloc: Global, all: &Map) -> TeraResult<Vec<String>>
    ensures ok { IfOk result (λ texts.
        map string_bytes texts.items ≡ shown_keys all.now) }
    ensures err { IfErr result IsOutOfMemory }
    ensures succeeds { all.now ≡ [] → IsOk result }
{
    let mut texts = Vec::with_capacity(alloc, all.len())?;
    for (key, _) in all.iter() {
        push_printed(alloc, &mut texts, key)?;
    }
    Ok(texts)
}

// Puts what a key prints behind other texts.
#[inline(always)]
fn push_printed(alloc: Global, texts: &mut Vec<String>, key: &Key<'static>) -> TeraResult<()>
    ensures ok { OnOk result (map string_bytes texts.new.items
        ≡ map string_bytes texts.old.items ++ shown_key (meaning_of_key key.now) ∷ []) }
    ensures err { IfErr result IsOutOfMemory }
{
    texts.push(printed(alloc, key)?)?;
    Ok(())
}

// What a key prints.
fn printed(alloc: Global, key: &Key<'static>) -> TeraResult<String>
    ensures ok { IfOk result (λ text. string_bytes text ≡ shown_key (meaning_of_key key.now)) }
    ensures err { IfErr result IsOutOfMemory }
{
    let mut made = Growing::new(alloc);
    key.print_to(&mut made)?;
    Ok(made.into_text())
}
