//! The operands of calls, and the name for what is found.
ghost use Rattle.std.specs.Prelude.{◌≡◌, ◌⊎◌, IfOk, IfSome, IsOk};
ghost use Rattle.std.specs.List.{list_all};
ghost use Rattle.std.specs.Option.{option_map};
ghost use Rattle.tera_script.specs.Line.{HasNoEscape, IsBare};
ghost use Rattle.tera_script.specs.Readers.{one_in, arrow_at, into_in, names_at, names_rest};
ghost use Rattle.tera_script.specs.Readers.{with_rest};
ghost use Rattle.tera_script.specs.Word.{is_blank, IsName};
ghost use Rattle.tera_script.specs.inner.Command.{IsTextAt, IsValueAt, text_rest};

use crate::literal::{LEVELS, take_literal};
use crate::text::lent_text;
use crate::word::{are_blanks, past_gap, take_operand};
use std::alloc::{AllocError, Global};
use std::borrow::CowStr;
use tera_values::{HashState, Value};

/// Two names behind one another, and the bytes behind them. Takes no memory.
#[tactic(auto, unfolding(crate::specs::Readers::names_at))]
pub(crate) fn take_names(bytes: &[u8]) -> Option<((&str, &str), &[u8])>
    ensures names { option_map names_rest result ≡ names_at bytes.now }
    ensures left { IfSome result (λ found. IsName found.0.0.now) }
    ensures right { IfSome result (λ found. IsName found.0.1.now) }
{
    let (left, behind) = take_operand(bytes)?;
    let (right, rest) = take_operand(behind)?;
    Some(((left, right), rest))
}

/// The text in quotes behind a gap, and the bytes behind it. Takes memory for one with an escape.
pub(crate) fn take_text_operand(
    alloc: Global,
    bytes: &[u8],
) -> Result<Option<(CowStr<'_>, &[u8])>, AllocError>
    ensures text { IfOk result (λ answer. IsTextAt bytes.now (option_map text_rest answer)) }
    ensures free { IsBare bytes.now ⊎ HasNoEscape bytes.now → IsOk result }
{
    let Some(literal) = past_gap(bytes) else {
        return Ok(None);
    };
    let Some(quoted) = literal.strip_prefix(b"\"".as_slice()) else {
        return Ok(None);
    };
    let Some((text, used)) = lent_text(alloc, quoted)? else {
        return Ok(None);
    };
    let (_, rest) = quoted.split_at(used);
    Ok(Some((text, rest)))
}

/// The value behind a gap, and the bytes behind it.
pub(crate) fn take_value(
    alloc: Global,
    state: HashState,
    bytes: &[u8],
) -> Result<Option<(Value, &[u8])>, AllocError>
    ensures value { IfOk result (λ answer. IsValueAt bytes.now (option_map with_rest answer)) }
    ensures free { IsBare bytes.now → IsOk result }
{
    let Some(literal) = past_gap(bytes) else {
        return Ok(None);
    };
    take_literal(alloc, state, literal, LEVELS)
}

/// The name behind a gap and an arrow, where one may be, or none where no more than blanks stand
/// there. `None` where anything else does. Takes no memory.
#[tactic(auto, unfolding(crate::specs::Readers::into_in))]
pub(crate) fn into_in(keeps: bool, bytes: &[u8]) -> Option<Option<&str>>
    ensures into { option_map (option_map (λ name. name.now)) result ≡ into_in keeps bytes.now }
    ensures named { IfSome result (λ into. IfSome into (λ name. IsName name.now)) }
{
    if are_blanks(bytes) {
        return Some(None);
    }
    if !keeps {
        return None;
    }
    let arrow = past_gap(bytes)?;
    let behind = past_arrow(arrow)?;
    let name = one_in(behind)?;
    Some(Some(name))
}

/// The bytes behind an arrow.
#[tactic(auto, unfolding(crate::specs::Readers::arrow_at))]
pub(crate) fn past_arrow(bytes: &[u8]) -> Option<&[u8]>
    ensures { option_map (λ rest. rest.now) result ≡ arrow_at bytes.now }
{
    match bytes {
        [b'-', b'>', rest @ ..] => Some(rest),
        _ => None,
    }
}

// One name, and no more than blanks behind it.
#[tactic(auto, unfolding(crate::specs::Readers::one_in))]
fn one_in(bytes: &[u8]) -> Option<&str>
    ensures one { option_map (λ name. name.now) result ≡ one_in bytes.now }
    ensures named { IfSome result (λ name. IsName name.now) }
{
    let (name, rest) = take_operand(bytes)?;
    if are_blanks(rest) { Some(name) } else { None }
}
