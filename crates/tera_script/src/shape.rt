//! Operands of each shape, and the command that a verb makes of them.
ghost use Rattle.std.specs.Prelude.{◌≡◌, ◌⊎◌, IfOk, IsOk};
ghost use Rattle.std.specs.Option.{option_map};
ghost use Rattle.tera_context.specs.Request.{command_form, name_of, request_form};
ghost use Rattle.tera_script.specs.Line.{HasNoEscape, IsBare};
ghost use Rattle.tera_script.specs.inner.Call.{IsOfShape, with_into};
ghost use Rattle.tera_script.specs.inner.Command.{AreOperandsOf};
ghost use Rattle.tera_script.specs.Verb.{row_of};
ghost use Rattle.tera_script.specs.declared.verb.Shape.TheVariants as shape;

use crate::bound::take_bounds;
use crate::operand::{into_in, take_names, take_text_operand, take_value};
use crate::source::source_of;
use crate::types::type_in;
use crate::verb::{
    Known, request_of_bounds, request_of_literal, request_of_map, request_of_name,
    request_of_names, request_of_text, request_of_type,
};
use crate::word::take_operand;
use std::alloc::{AllocError, Global};
use tera_context::{Command, Request};
use tera_values::HashState;

/// A name. Takes no memory.
pub(crate) fn read_name<'a>(known: Known, bytes: &'a [u8]) -> Option<Command<'a>>
    requires { IsOfShape known shape.Name }
    ensures { AreOperandsOf (row_of known.verb) bytes.now (option_map command_form result) }
{
    let (name, rest) = take_operand(bytes)?;
    let into = into_in(known.keeps, rest)?;
    command_with(request_of_name(known.verb, name), into)
}

/// Two names. Takes no memory.
pub(crate) fn read_names<'a>(known: Known, bytes: &'a [u8]) -> Option<Command<'a>>
    requires { IsOfShape known shape.Names }
    ensures { AreOperandsOf (row_of known.verb) bytes.now (option_map command_form result) }
{
    let ((left, right), rest) = take_names(bytes)?;
    let into = into_in(known.keeps, rest)?;
    command_with(request_of_names(known.verb, left, right), into)
}

/// A name and a text.
pub(crate) fn read_text<'a>(
    alloc: Global,
    known: Known,
    bytes: &'a [u8],
) -> Result<Option<Command<'a>>, AllocError>
    requires { IsOfShape known shape.Text }
    ensures operands { IfOk result (λ answer.
        AreOperandsOf (row_of known.verb) bytes.now (option_map command_form answer)) }
    ensures free { IsBare bytes.now ⊎ HasNoEscape bytes.now → IsOk result }
{
    let Some((name, behind)) = take_operand(bytes) else {
        return Ok(None);
    };
    let Some((text, rest)) = take_text_operand(alloc, behind)? else {
        return Ok(None);
    };
    let Some(into) = into_in(known.keeps, rest) else {
        return Ok(None);
    };
    Ok(command_with(request_of_text(known.verb, name, text), into))
}

/// A name and three bounds. Takes no memory.
pub(crate) fn read_bounds<'a>(known: Known, bytes: &'a [u8]) -> Option<Command<'a>>
    requires { IsOfShape known shape.Bounds }
    ensures { AreOperandsOf (row_of known.verb) bytes.now (option_map command_form result) }
{
    let (name, behind) = take_operand(bytes)?;
    let (bounds, rest) = take_bounds(behind)?;
    let into = into_in(known.keeps, rest)?;
    command_with(request_of_bounds(known.verb, name, bounds), into)
}

/// An integer type and a name. Takes no memory.
pub(crate) fn read_type<'a>(known: Known, bytes: &'a [u8]) -> Option<Command<'a>>
    requires { IsOfShape known shape.Type }
    ensures { AreOperandsOf (row_of known.verb) bytes.now (option_map command_form result) }
{
    let ((word, name), rest) = take_names(bytes)?;
    let to = type_in(word.as_bytes())?;
    let into = into_in(known.keeps, rest)?;
    command_with(request_of_type(known.verb, to, name), into)
}

/// A name and a literal.
pub(crate) fn read_literal<'a>(
    alloc: Global,
    state: HashState,
    known: Known,
    bytes: &'a [u8],
) -> Result<Option<Command<'a>>, AllocError>
    requires { IsOfShape known shape.Literal }
    ensures operands { IfOk result (λ answer.
        AreOperandsOf (row_of known.verb) bytes.now (option_map command_form answer)) }
    ensures free { IsBare bytes.now → IsOk result }
{
    let Some((name, behind)) = take_operand(bytes) else {
        return Ok(None);
    };
    let Some((value, rest)) = take_value(alloc, state, behind)? else {
        return Ok(None);
    };
    let Some(into) = into_in(known.keeps, rest) else {
        return Ok(None);
    };
    Ok(command_with(request_of_literal(known.verb, name, value), into))
}

/// A map whose keys are all texts.
pub(crate) fn read_map<'a>(
    alloc: Global,
    state: HashState,
    known: Known,
    bytes: &'a [u8],
) -> Result<Option<Command<'a>>, AllocError>
    requires { IsOfShape known shape.Map }
    ensures operands { IfOk result (λ answer.
        AreOperandsOf (row_of known.verb) bytes.now (option_map command_form answer)) }
    ensures free { IsBare bytes.now → IsOk result }
{
    let Some((value, rest)) = take_value(alloc, state, bytes)? else {
        return Ok(None);
    };
    let Some(source) = source_of(alloc, state, value)? else {
        return Ok(None);
    };
    let Some(into) = into_in(known.keeps, rest) else {
        return Ok(None);
    };
    Ok(command_with(request_of_map(known.verb, source), into))
}

// A request, with the name for what is found.
#[inline(always)]
fn command_with<'a>(request: Option<Request<'a>>, into: Option<&'a str>) -> Option<Command<'a>>
    ensures { option_map command_form result
        ≡ with_into (option_map request_form request.entry) (name_of into.entry) }
{
    Some(Command {
        request: request?,
        into,
    })
}
