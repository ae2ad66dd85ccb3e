//! Where an operand is none.
ghost use Rattle.std.specs.Prelude.{◌≡◌, None, IsSome, Ok, Err, MatchResult};
ghost use Rattle.tera_script.specs.Line.{SpellsBounds};
ghost use Rattle.tera_script.specs.Readers.{into_in, operand_at};
ghost use Rattle.tera_script.specs.inner.Command.{EndsWord, IsGivenAt, IsPartAt};
ghost use Rattle.tera_script.specs.inner.Command.{IsTextAt, IsValueAt};
ghost use Rattle.tera_script.specs.inner.Passed.{Passes};
ghost use Rattle.tera_script.specs.declared.verb.Shape.TheVariants as shape;

use crate::bound::{take_bound, take_bounds};
use crate::literal::LEVELS;
use crate::operand::{into_in, past_arrow, take_names};
use crate::stop::{Expectation, Stop, stop_at};
use crate::types::type_in;
use crate::why_literal::{pass_literal, pass_text};
use crate::word::{past_blanks, past_gap, take_operand};

/// Passes a name behind a gap.
pub(crate) fn pass_name(bytes: &[u8]) -> Result<&[u8], Stop<'_>>
    ensures { Passes (λ answer. answer ≡ operand_at bytes.now) result }
{
    match take_operand(bytes) {
        Some((_, rest)) => Ok(rest),
        None => Err(stop_before(bytes, Expectation::Name)),
    }
}

/// Passes two names behind one another.
pub(crate) fn pass_names(bytes: &[u8]) -> Result<&[u8], Stop<'_>>
    ensures { Passes (IsGivenAt shape.Names bytes.now) result }
{
    match take_names(bytes) {
        Some((_, rest)) => Ok(rest),
        None => Err(stop_at_names(bytes, Expectation::Name)),
    }
}

/// Passes a text in quotes behind a gap.
pub(crate) fn pass_quoted(bytes: &[u8]) -> Result<&[u8], Stop<'_>>
    ensures { Passes (IsTextAt bytes.now) result }
{
    let Some(literal) = past_gap(bytes) else {
        return Err(stop_before(bytes, Expectation::Text));
    };
    let Some(quoted) = literal.strip_prefix(b"\"".as_slice()) else {
        return Err(stop_at(literal, Expectation::Text));
    };
    pass_text(quoted)
}

/// Passes the three bounds of a slice.
pub(crate) fn pass_bounds(bytes: &[u8]) -> Result<&[u8], Stop<'_>>
    ensures { Passes (IsPartAt SpellsBounds EndsWord bytes.now) result }
{
    match take_bounds(bytes) {
        Some((_, rest)) => Ok(rest),
        None => Err(stop_at_bounds(bytes)),
    }
}

/// Passes an integer type and a name.
pub(crate) fn pass_type(bytes: &[u8]) -> Result<&[u8], Stop<'_>>
    ensures { Passes (IsGivenAt shape.Type bytes.now) result }
{
    let Some(((word, _), rest)) = take_names(bytes) else {
        return Err(stop_at_names(bytes, Expectation::IntegerType));
    };
    match type_in(word.as_bytes()) {
        Some(_) => Ok(rest),
        None => Err(stop_before(bytes, Expectation::IntegerType)),
    }
}

/// Passes a value behind a gap.
pub(crate) fn pass_value(bytes: &[u8]) -> Result<&[u8], Stop<'_>>
    ensures { Passes (IsValueAt bytes.now) result }
{
    match past_gap(bytes) {
        Some(literal) => pass_literal(literal, LEVELS, Expectation::Value),
        None => Err(stop_before(bytes, Expectation::Value)),
    }
}

/// Passes what may stand behind the operands: a name for what is found, where one may be.
pub(crate) fn pass_into(keeps: bool, bytes: &[u8]) -> Result<(), Stop<'_>>
    ensures { MatchResult result (λ _. IsSome (into_in keeps bytes.now))
        (λ _. into_in keeps bytes.now ≡ None) }
{
    match into_in(keeps, bytes) {
        Some(_) => Ok(()),
        None => Err(stop_behind(keeps, bytes)),
    }
}

/// What is wrong before an operand: no gap is there, or not what was expected behind it.
pub(crate) fn stop_before(bytes: &[u8], what: Expectation) -> Stop<'_> {
    match past_gap(bytes) {
        Some(rest) => stop_at(rest, what),
        None if bytes.is_empty() => stop_at(bytes, what),
        None => stop_at(bytes, Expectation::Blank),
    }
}

// What is wrong with two names, of which the first may have to be another word.
fn stop_at_names(bytes: &[u8], first: Expectation) -> Stop<'_> {
    match take_operand(bytes) {
        Some((_, behind)) => stop_before(behind, Expectation::Name),
        None => stop_before(bytes, first),
    }
}

// What is wrong with the bounds of a slice.
fn stop_at_bounds(bytes: &[u8]) -> Stop<'_> {
    let Some((_, second)) = take_bound(bytes) else {
        return stop_before(bytes, Expectation::Bound);
    };
    let Some((_, third)) = take_bound(second) else {
        return stop_before(second, Expectation::Bound);
    };
    stop_before(third, Expectation::Bound)
}

// What is wrong behind the operands.
fn stop_behind(keeps: bool, bytes: &[u8]) -> Stop<'_> {
    if !keeps {
        return stop_at(past_blanks(bytes), Expectation::End);
    }
    let Some(arrow) = past_gap(bytes) else {
        return stop_at(bytes, Expectation::ArrowOrEnd);
    };
    let Some(behind) = past_arrow(arrow) else {
        return stop_at(arrow, Expectation::ArrowOrEnd);
    };
    match take_operand(behind) {
        Some((_, rest)) => stop_at(past_blanks(rest), Expectation::End),
        None => stop_before(behind, Expectation::Name),
    }
}
