//! Why a line is bad: each part is read by its own reader, and where that gives up its parts tell
//! the place.
ghost use Rattle.std.specs.Prelude.{◌≡◌, ◌≤◌, length, take};
ghost use Rattle.tera_script.specs.Expected.{IsExpectedOf, IsPlaceIn};
ghost use Rattle.tera_script.specs.inner.Command.{IsGivenAt};
ghost use Rattle.tera_script.specs.inner.Passed.{IsCommandPassed, Passes};
ghost use Rattle.tera_script.specs.declared.verb.Shape.TheVariants as shape;

use crate::line::{is_end_or_comment, is_utf8};
use crate::literal::LEVELS;
use crate::stop::{Expectation, Expected, Stop, stop_at};
use crate::verb::{Shape, verb_in};
use crate::why_literal::pass_map;
use crate::why_operand::{
    pass_bounds, pass_into, pass_name, pass_names, pass_quoted, pass_type, pass_value, stop_before,
};
use crate::word::{past_blanks, past_gap, take_name};
use std::str;
use tera_report::words::characters;

/// What was expected of a bad line, and where: the first place at which no reader goes on. `None`
/// where the line is not bad. The line comes without its end of line. Takes no memory.
pub fn expected(line: &[u8]) -> Option<Expected>
    ensures { IsExpectedOf line.now result }
{
    let bytes = past_blanks(line);
    if is_end_or_comment(bytes) {
        return None;
    }
    if !is_utf8(line) {
        return Some(place(line, line.len(), Expectation::Character));
    }
    match pass_command(bytes) {
        Ok(()) => None,
        Err(stop) => {
            let before = line.len().saturating_sub(stop.rest.len());
            Some(place(line, before, stop.what))
        }
    }
}

// That this was expected behind so many bytes of a line, as far as these are whole characters.
fn place(line: &[u8], before: usize, what: Expectation) -> Expected
    ensures { IsPlaceIn line.now result }
{
    let text = utf8_front(line);
    let (front, _) = text.split_at(text.floor_char_boundary(before));
    Expected {
        what,
        bytes: front.len(),
        characters: characters(front),
    }
}

// The longest front of a line that is UTF-8.
#[tactic(auto, using(crate::proofs::Passed::whole_front))]
fn utf8_front(line: &[u8]) -> &str
    ensures within { length result.now ≤ length line.now }
    ensures front { result.now ≡ take (length result.now) line.now }
{
    match str::from_utf8(line) {
        Ok(text) => text,
        Err(error) => {
            let (front, _) = line.split_at(error.valid_up_to());
            match str::from_utf8(front) {
                Ok(text) => text,
                Err(_) => "",
            }
        }
    }
}

// Passes a call, its operands and the name for what is found.
fn pass_command(bytes: &[u8]) -> Result<(), Stop<'_>>
    ensures { IsCommandPassed bytes.now result }
{
    let Some((word, operands)) = take_name(bytes) else {
        return Err(stop_at(bytes, Expectation::Call));
    };
    let Some(known) = verb_in(word) else {
        return Err(stop_at(bytes, Expectation::Call));
    };
    match pass_operands(known.shape, operands) {
        Ok(rest) => pass_into(known.keeps, rest),
        Err(stop) => Err(stop),
    }
}

// Passes operands of a shape.
fn pass_operands(shape: Shape, bytes: &[u8]) -> Result<&[u8], Stop<'_>>
    ensures { Passes (IsGivenAt shape bytes.now) result }
{
    match shape {
        Shape::Name => pass_name(bytes),
        Shape::Names => pass_names(bytes),
        Shape::Text => pass_quoted(pass_name(bytes)?),
        Shape::Bounds => pass_bounds(pass_name(bytes)?),
        Shape::Type => pass_type(bytes),
        Shape::Literal => pass_value(pass_name(bytes)?),
        Shape::Map => pass_source(bytes),
    }
}

// Passes a map whose keys are all texts.
fn pass_source(bytes: &[u8]) -> Result<&[u8], Stop<'_>>
    ensures { Passes (IsGivenAt shape.Map bytes.now) result }
{
    let Some(literal) = past_gap(bytes) else {
        return Err(stop_before(bytes, Expectation::Map));
    };
    let Some(inside) = literal.strip_prefix(b"{".as_slice()) else {
        return Err(stop_at(literal, Expectation::Map));
    };
    pass_map(literal, inside, LEVELS, true)
}
