//! From a value to a text of JSON.
ghost use Rattle.std.specs.Prelude.{◌≡◌, ◌∷◌, ◌++◌, [], IfOk, IfErr, OnOk, Some, None, ℕ};
ghost use Rattle.std.specs.Prelude.{string_bytes, decimal};
ghost use Rattle.std.specs.Fmt.{signed_decimal};
ghost use Rattle.json.specs.Json.{document};
ghost use Rattle.json.specs.Lex.{tokens};
ghost use Rattle.json.specs.Print.{print};
ghost use Rattle.json.specs.Token.{begin_array, begin_object, key as token_key};
ghost use Rattle.json.specs.Token.{number as document_number};
ghost use Rattle.json.specs.Tree.{json_tokens, items_tokens, members_tokens};
ghost use Rattle.tera_json.specs.Documents.{refusal_of, most_levels};
ghost use Rattle.tera_json.specs.Written.{document_of, documents_of, members_of, name_of};
ghost use Rattle.tera_json.specs.Written.{value_misfits, values_misfits, pairs_misfits};
ghost use Rattle.tera_json.specs.Written.{key_misfits};
ghost use Rattle.tera_json.specs.Misfits.{under};
ghost use Rattle.tera_json.specs.Places.{name_step};
ghost use Rattle.tera_json.specs.inner.Stopped.{IsDue};
ghost use Rattle.tera_json.specs.inner.Lacking.{IsLacking};
ghost use Rattle.tera_meaning.specs.Form.{Form};
ghost use Rattle.tera_meaning.specs.Read.{items_in, members_in};
ghost use Rattle.tera_meaning.specs.Tree.{items, members};
ghost use Rattle.tera_report.specs.Errors.{Refuses, IsOutOfMemory};
ghost use Rattle.tera_values.specs.Key.{key_form};

use crate::misfit::{Reason, Stop};
use crate::read::LEVELS;
use itoa::Buffer;
use json::Writer;
use std::alloc::{AllocError, Global};
use tera_report::sink::Growing;
use tera_report::{Error, TeraResult};
use tera_values::{Key, Map, Value, is_well_made};

/// What is written of undefined and of bytes, for which JSON has no word.
#[derive(Clone, Copy, Debug, PartialEq, Eq)]
pub enum Lacking {
    /// Nothing: they are refused.
    Refused,
    /// `null`.
    Null,
}

/// The text of JSON of a value, without blanks: none is `null`, an integer stands in decimal, and
/// the pairs of a map are the members of an object in their order. A key that is no text becomes
/// the text that it prints. Kinds of integers and flags of texts are not written.
///
/// Refuses the first of these, with its place as a JSON pointer, `P`: undefined and bytes, with
/// ``Value of type `K` at `P` has no JSON``, K being the name of its kind; an array or a map inside
/// 64 others, with ``More than 64 levels at `P` ``; and a key that is no text, where the text that
/// it becomes is a key too, with ``Key at `P` is written as another key is``. The last blank is
/// left out. Takes memory; want of it, `Out of memory`, is answered in the place of all else.
pub fn to_json(alloc: Global, value: &Value) -> TeraResult<String>
    ensures ok { IfOk result (λ t. string_bytes t ≡ print (json_tokens (document_of value.now))) }
    ensures reads_back { IfOk result (λ t.
        document (string_bytes t) ≡ Some (document_of value.now)) }
    ensures fits { OnOk result (value_misfits Lacking.Refused most_levels value.now ≡ []) }
    ensures err { IfErr result
        (Refuses (refusal_of (value_misfits Lacking.Refused most_levels value.now))) }
{
    to_json_with(alloc, value, Lacking::Refused)
}

/// What `to_json` answers, but with a choice of what is written of undefined and of bytes.
///
/// Refuses as `to_json` does, but neither of these where `Lacking::Null` is given. Takes memory;
/// want of it, `Out of memory`, is answered in the place of all else.
pub fn to_json_with(alloc: Global, value: &Value, lacking: Lacking) -> TeraResult<String>
    ensures ok { IfOk result (λ t. string_bytes t ≡ print (json_tokens (document_of value.now))) }
    ensures reads_back { IfOk result (λ t.
        document (string_bytes t) ≡ Some (document_of value.now)) }
    ensures fits { OnOk result (value_misfits lacking most_levels value.now ≡ []) }
    ensures err { IfErr result
        (Refuses (refusal_of (value_misfits lacking most_levels value.now))) }
{
    let mut out = Writer::new(Vec::new(alloc));
    match put_value(alloc, value, lacking, LEVELS, &mut out) {
        Ok(()) => Ok(text_of(out)),
        Err(stop) => Err(stop.into_error(alloc)),
    }
}

// The text that was written.
fn text_of(out: Writer) -> String
    requires { out.before ≡ [] }
    ensures text { string_bytes result ≡ print out.tokens }
    ensures reads_back { tokens (print out.tokens) ≡ out.tokens }
{
    match String::from_utf8(out.into_inner()) {
        Ok(text) => text,
        Err(_) => unreachable!(),
    }
}

// Puts a value in which arrays and maps may nest so many levels deep.
#[cycle(put_value)]
fn put_value(
    alloc: Global,
    value: &Value,
    lacking: Lacking,
    levels: usize,
    out: &mut Writer,
) -> Result<(), Stop<'static>>
    ensures ok { OnOk result (out.new.tokens
        ≡ out.old.tokens ++ json_tokens (document_of value.now)) }
    ensures before { OnOk result (out.new.before ≡ out.old.before) }
    ensures fits { OnOk result (value_misfits lacking levels value.now ≡ []) }
    ensures err { IfErr result (IsDue (value_misfits lacking levels value.now)) }
{
    if let Some(all) = value.as_array() {
        if levels == 0 {
            return Err(Stop::here(alloc, Reason::Levels));
        }
        put_items(alloc, all, lacking, levels - 1, out)
    } else if let Some(all) = value.as_map() {
        if levels == 0 {
            return Err(Stop::here(alloc, Reason::Levels));
        }
        put_members(alloc, all, lacking, levels - 1, out)
    } else {
        put_plain(alloc, value, lacking, out)
    }
}

// Puts a value that is no array and no map.
fn put_plain(
    alloc: Global,
    value: &Value,
    lacking: Lacking,
    out: &mut Writer,
) -> Result<(), Stop<'static>>
    requires { (items_in value.now ≡ None) × (members_in value.now ≡ None) }
    ensures ok { OnOk result (out.new.tokens
        ≡ out.old.tokens ++ json_tokens (document_of value.now)) }
    ensures before { OnOk result (out.new.before ≡ out.old.before) }
    ensures fits { OnOk result ((levels : ℕ) → value_misfits lacking levels value.now ≡ []) }
    ensures err { IfErr result (λ stop.
        (levels : ℕ) → IsDue (value_misfits lacking levels value.now) stop) }
{
    if let Some(text) = value.as_str() {
        Ok(out.string(text)?)
    } else if let Some(truth) = value.as_bool() {
        Ok(out.boolean(truth)?)
    } else if let Some(number) = value.as_i128() {
        Ok(put_signed(number, out)?)
    } else if let Some(number) = value.as_u128() {
        Ok(put_unsigned(number, out)?)
    } else if value.is_none() {
        Ok(out.null()?)
    } else {
        is_well_made(value);
        put_lacking(alloc, value, lacking, out)
    }
}

// Puts a number.
fn put_signed(number: i128, out: &mut Writer) -> Result<(), AllocError>
    ensures ok { OnOk result (out.new.tokens
        ≡ out.old.tokens ++ document_number (signed_decimal number) ∷ []) }
    ensures before { OnOk result (out.new.before ≡ out.old.before) }
{
    out.number(Buffer::new().format(number))
}

// Puts a number.
fn put_unsigned(number: u128, out: &mut Writer) -> Result<(), AllocError>
    ensures ok { OnOk result (out.new.tokens
        ≡ out.old.tokens ++ document_number (decimal number) ∷ []) }
    ensures before { OnOk result (out.new.before ≡ out.old.before) }
{
    out.number(Buffer::new().format(number))
}

// Puts what JSON has no word for, where null is chosen for it.
fn put_lacking(
    alloc: Global,
    value: &Value,
    lacking: Lacking,
    out: &mut Writer,
) -> Result<(), Stop<'static>>
    requires { IsLacking value.now }
    ensures ok { OnOk result (out.new.tokens
        ≡ out.old.tokens ++ json_tokens (document_of value.now)) }
    ensures before { OnOk result (out.new.before ≡ out.old.before) }
    ensures fits { OnOk result ((levels : ℕ) → value_misfits lacking levels value.now ≡ []) }
    ensures err { IfErr result (λ stop.
        (levels : ℕ) → IsDue (value_misfits lacking levels value.now) stop) }
{
    match lacking {
        Lacking::Null => Ok(out.null()?),
        Lacking::Refused => Err(Stop::here(alloc, Reason::Kind(value.name()))),
    }
}

// Puts an array of these items.
#[cycle(put_value)]
fn put_items(
    alloc: Global,
    all: &[Value],
    lacking: Lacking,
    levels: usize,
    out: &mut Writer,
) -> Result<(), Stop<'static>>
    ensures ok { OnOk result (out.new.tokens ≡ out.old.tokens
        ++ begin_array ∷ items_tokens (documents_of (items all.now))) }
    ensures before { OnOk result (out.new.before ≡ out.old.before) }
    ensures fits { OnOk result (values_misfits lacking levels 0 (items all.now) ≡ []) }
    ensures err { IfErr result (IsDue (values_misfits lacking levels 0 (items all.now))) }
{
    out.begin_array()?;
    for at in 0..all.len() {
        if let Err(stop) = put_value(alloc, &all[at], lacking, levels, out) {
            return Err(stop.in_item(alloc, at));
        }
    }
    Ok(out.end_array()?)
}

// Puts an object of these pairs.
#[cycle(put_value)]
fn put_members(
    alloc: Global,
    all: &Map,
    lacking: Lacking,
    levels: usize,
    out: &mut Writer,
) -> Result<(), Stop<'static>>
    ensures ok { OnOk result (out.new.tokens ≡ out.old.tokens
        ++ begin_object ∷ members_tokens (members_of (members all.now))) }
    ensures before { OnOk result (out.new.before ≡ out.old.before) }
    ensures fits { OnOk result (pairs_misfits lacking levels all.now (members all.now) ≡ []) }
    ensures err { IfErr result (IsDue (pairs_misfits lacking levels all.now (members all.now))) }
{
    out.begin_object()?;
    for (key, value) in all.iter() {
        put_member(alloc, all, key, value, lacking, levels, out)?;
    }
    Ok(out.end_object()?)
}

// Puts a pair of a map: the key as a text, and the value.
#[cycle(put_value)]
fn put_member(
    alloc: Global,
    all: &Map,
    key: &Key<'static>,
    value: &Value,
    lacking: Lacking,
    levels: usize,
    out: &mut Writer,
) -> Result<(), Stop<'static>>
    ensures ok { OnOk result (out.new.tokens ≡ out.old.tokens
        ++ token_key (name_of (key_form key.now)) ∷ json_tokens (document_of value.now)) }
    ensures before { OnOk result (out.new.before ≡ out.old.before) }
    ensures fits { OnOk result ((key_misfits all.now (key_form key.now) ≡ [])
        × (value_misfits lacking levels value.now ≡ [])) }
    ensures err { IfErr result (IsDue (key_misfits all.now (key_form key.now)
        ++ under (name_step (name_of (key_form key.now)))
        (value_misfits lacking levels value.now))) }
{
    if let Some(name) = key.as_str() {
        return put_named(alloc, name, value, lacking, levels, out);
    }
    let made = name_of(alloc, key)?;
    let name = made.as_str();
    if all.get(&Key::Str(name)).is_some() {
        return Err(Stop::here(alloc, Reason::Key).in_member(alloc, name));
    }
    put_named(alloc, name, value, lacking, levels, out)
}

// Puts a member.
#[cycle(put_value)]
fn put_named(
    alloc: Global,
    name: &str,
    value: &Value,
    lacking: Lacking,
    levels: usize,
    out: &mut Writer,
) -> Result<(), Stop<'static>>
    ensures ok { OnOk result (out.new.tokens ≡ out.old.tokens
        ++ token_key name.now ∷ json_tokens (document_of value.now)) }
    ensures before { OnOk result (out.new.before ≡ out.old.before) }
    ensures fits { OnOk result (value_misfits lacking levels value.now ≡ []) }
    ensures err { IfErr result
        (IsDue (under (name_step name.now) (value_misfits lacking levels value.now))) }
{
    out.key(name)?;
    match put_value(alloc, value, lacking, levels, out) {
        Ok(()) => Ok(()),
        Err(stop) => Err(stop.in_member(alloc, name)),
    }
}

// What a key prints.
fn name_of(alloc: Global, key: &Key<'_>) -> Result<String, AllocError>
    ensures { IfOk result (λ t. string_bytes t ≡ name_of (key_form key.now)) }
{
    let mut made = Growing::new(alloc);
    key.print_to(&mut made)?;
    Ok(made.into_text())
}
