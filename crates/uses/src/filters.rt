//! A filter and a function of templates, as a user would write them.
ghost use Rattle.std.specs.Prelude.{◌≡◌, ◌⊎◌, ◌++◌, ◌∷◌, codes, map, IfOk, IfErr, OnOk};
ghost use Rattle.std.specs.String.{string_bytes};
ghost use Rattle.tera.specs.Errors.{IsOutOfMemory};
ghost use Rattle.tera.specs.Lookup.{attr};
ghost use Rattle.tera.specs.Rendered.{RendersNot};
ghost use Rattle.uses.specs.Filters.{IsTruncated, IsJoined, RefusesLength, joined, shown};
ghost use Rattle.uses.specs.Filters.{EscapeRefuses, RefusesJoined};
ghost use Rattle.uses.specs.Filters.{IsOrDefault, LacksDefault};

use std::alloc::Global;
use tera::{ArgFromValue, Autoescape, Kwargs, StringInput, TeraResult, Value};

/// A filter: the first characters of a text, as many as the argument `length` says. The text keeps
/// its flag.
///
/// Refuses a length that is missing or is no number of a `u64`. Takes memory for the text; want of
/// it, `Out of memory`, may be answered in its place.
pub fn truncate(alloc: Global, text: StringInput<'_>, kwargs: &Kwargs) -> TeraResult<Value>
    ensures ok { IfOk result (IsTruncated text.entry (attr kwargs.now (codes "length"))) }
    ensures err { IfErr result (λ e. IsOutOfMemory e
        ⊎ RefusesLength (attr kwargs.now (codes "length")) e) }
{
    let length = kwargs.must_get::<u64>(alloc, "length")?;
    text.into_value(alloc)?
        .slice(alloc, None, Some(i128::from(length)), None)
}

/// A filter: a value, or the argument `value` where it is undefined.
///
/// Refuses an argument that is missing where it is asked for. Takes memory for the copy; want of
/// it, `Out of memory`, may be answered in its place.
pub fn or_default(alloc: Global, value: &Value, kwargs: &Kwargs) -> TeraResult<Value>
    ensures ok { IfOk result (IsOrDefault value.now (attr kwargs.now (codes "value"))) }
    ensures err { IfErr result (λ e. IsOutOfMemory e
        ⊎ LacksDefault value.now (attr kwargs.now (codes "value")) e) }
{
    if value.is_undefined() {
        kwargs.must_get::<Value>(alloc, "value")
    } else {
        value.clone(alloc)
    }
}

/// A function: the texts of an array one after another, with the argument `sep` between them. Where
/// texts are escaped, so are these, unless they are marked safe, and the whole is marked safe.
///
/// Refuses what is no array of texts, then a separator that is missing or is no text, and then what
/// the escaping refuses of one of these texts. Takes memory for the texts; want of it, `Out of
/// memory`, may be answered in their place.
pub fn join<S: Autoescape>(
    alloc: Global,
    array: &Value,
    kwargs: &Kwargs,
    state: &S,
) -> TeraResult<Value>
    ensures ok { IfOk result (IsJoined S.escapes S.escaped state.now array.now
        (attr kwargs.now (codes "sep"))) }
    ensures err { IfErr result (RefusesJoined S.escapes S.refuses state.now array.now
        (attr kwargs.now (codes "sep"))) }
{
    let parts = Vec::<StringInput<'_>>::from_value(alloc, array)?;
    let between = kwargs.must_get::<StringInput<'_>>(alloc, "sep")?;
    let value = Value::from(joined(alloc, parts.as_slice(), &between, state)?);
    if state.autoescaping_enabled() {
        Ok(value.mark_safe())
    } else {
        Ok(value)
    }
}

// The texts as they are shown, with one between them.
fn joined<S: Autoescape>(
    alloc: Global,
    parts: &[StringInput<'_>],
    between: &StringInput<'_>,
    state: &S,
) -> TeraResult<String>
    ensures ok { IfOk result (λ t. string_bytes t
        ≡ joined (shown S.escapes S.escaped state.now between.now)
        (map (shown S.escapes S.escaped state.now) parts.now)) }
    ensures err { IfErr result
        (EscapeRefuses S.escapes S.refuses state.now (between.now ∷ parts.now)) }
{
    let mut joined = String::new(alloc);
    for (place, part) in parts.iter().enumerate() {
        if place > 0 {
            put_shown(alloc, between, state, &mut joined)?;
        }
        put_shown(alloc, part, state, &mut joined)?;
    }
    Ok(joined)
}

// Puts a text as it is shown.
#[tactic(auto, using(crate::proofs::Joined::shown_as))]
fn put_shown<S: Autoescape>(
    alloc: Global,
    text: &StringInput<'_>,
    state: &S,
    out: &mut String,
) -> TeraResult<()>
    ensures ok { OnOk result (string_bytes out.new
        ≡ string_bytes out.old ++ shown S.escapes S.escaped state.now text.now) }
    ensures err { IfErr result (λ e. IsOutOfMemory e
        ⊎ RendersNot S.escapes S.refuses state.now text.now e) }
{
    let shown = text.rendered(alloc, state)?;
    out.push_str(shown.as_str())?;
    Ok(())
}
