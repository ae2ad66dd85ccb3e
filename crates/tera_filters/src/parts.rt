//! Filters of parts of texts. What they make is not marked safe.
ghost use Rattle.std.specs.Prelude.{◌≡◌, IfOk, IfErr, Ok, drop};
ghost use Rattle.std.specs.Str.{chars};
ghost use Rattle.std.specs.String.{string_bytes};
ghost use Rattle.tera.specs.Errors.{Refuses};
ghost use Rattle.tera_filters.specs.Parts.{replace_of, replaced, truncate_of, truncated};

use crate::arguments::{needed_text, place_or, text_or};
use crate::taken::text_of;
use std::alloc::{AllocError, Global};
use tera::{Kwargs, TeraResult, Value};

/// A text with the argument `to` in the place of each argument `from`, which are found from left to
/// right. An empty one stands before each character and behind the last. The answer is not marked
/// safe.
///
/// Refuses what is no text with ``Invalid type for the value, expected `&str` but got `N` ``, N
/// being the name of its kind; then an argument `from` that is missing, with ``Missing keyword
/// argument `from` ``, or that is no text; and then such an argument `to`. The last blank of each
/// is left out. Takes memory for the answer and for the text of the refusal; want of it, `Out of
/// memory`, is answered in the place of either.
pub fn replace(alloc: Global, value: &Value, arguments: &Kwargs) -> TeraResult<Value>
    ensures ok { IfOk result (λ v. replace_of value.now arguments.now ≡ Ok v) }
    ensures err { IfErr result (Refuses (replace_of value.now arguments.now)) }
{
    let text = text_of(alloc, value)?;
    let from = needed_text(alloc, arguments, "from")?;
    let to = needed_text(alloc, arguments, "to")?;
    Ok(Value::from(replaced(alloc, text, from, to)?))
}

// A text with another in the place of each that is one.
fn replaced(alloc: Global, text: &str, from: &str, to: &str) -> Result<String, AllocError>
    ensures { IfOk result (λ made. string_bytes made ≡ replaced to.now from.now text.now) }
{
    text.replace(alloc, from, to)
}

/// A text of at most as many characters as the argument `length` says, or 255 where it is left out;
/// and of a longer one so many first characters, and behind them the argument `end`, or `…` where
/// it is left out. The answer is not marked safe.
///
/// Refuses what is no text as [`replace`] does; then an argument `length` that is no number of a
/// `usize`; and then an argument `end` that is no text. Takes memory as [`replace`] does.
pub fn truncate(alloc: Global, value: &Value, arguments: &Kwargs) -> TeraResult<Value>
    ensures ok { IfOk result (λ v. truncate_of value.now arguments.now ≡ Ok v) }
    ensures err { IfErr result (Refuses (truncate_of value.now arguments.now)) }
{
    let text = text_of(alloc, value)?;
    let length = place_or(alloc, arguments, "length", 255)?;
    let end = text_or(alloc, arguments, "end", "…")?;
    Ok(Value::from(truncated(alloc, text, length, end)?))
}

// At most so many characters of a text, and an end where there are more.
fn truncated(alloc: Global, text: &str, length: usize, end: &str) -> Result<String, AllocError>
    ensures { IfOk result (λ made. string_bytes made ≡ truncated length end.now text.now) }
{
    let rest = behind(text, length);
    if rest.is_empty() {
        return String::from_str(alloc, text);
    }
    let mut made = String::from_str(alloc, text.split_at(text.len() - rest.len()).0)?;
    made.push_str(end)?;
    Ok(made)
}

// What is left of a text once so many characters, or all, are off its front.
fn behind(text: &str, count: usize) -> &str
    ensures { chars result.now ≡ drop count (chars text.now) }
{
    let mut rest = text.chars();
    for turn in 0..count {
        let Some(_) = rest.next() else {
            break;
        };
    }
    rest.as_str()
}
