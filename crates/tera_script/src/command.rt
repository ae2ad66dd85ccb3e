//! Commands: a word, its operands, and the name for what is found.
ghost use Rattle.std.specs.Prelude.{IfOk, IsOk};
ghost use Rattle.std.specs.Option.{option_map};
ghost use Rattle.tera_context.specs.Request.{command_form};
ghost use Rattle.tera_script.specs.inner.Call.{IsKnown};
ghost use Rattle.tera_script.specs.inner.Command.{AreOperandsOf, IsCommandAt};
ghost use Rattle.tera_script.specs.inner.Command.{OperandsNeedNone, CommandNeedsNone};
ghost use Rattle.tera_script.specs.Verb.{row_of};

use crate::shape::{
    read_bounds, read_literal, read_map, read_name, read_names, read_text, read_type,
};
use crate::verb::{Known, Shape, verb_in};
use crate::word::take_name;
use std::alloc::{AllocError, Global};
use tera_context::Command;
use tera_values::HashState;

/// The command that the bytes say, up to blanks at their end. `None` where they say none. Takes
/// memory for what `set` and `extend` bring and for a text with an escape, and fails for want of it
/// alone.
pub(crate) fn read_command<'a>(
    alloc: Global,
    state: HashState,
    bytes: &'a [u8],
) -> Result<Option<Command<'a>>, AllocError>
    ensures command { IfOk result (λ answer.
        IsCommandAt bytes.now (option_map command_form answer)) }
    ensures free { CommandNeedsNone bytes.now → IsOk result }
{
    let Some((word, operands)) = take_name(bytes) else {
        return Ok(None);
    };
    let Some(known) = verb_in(word) else {
        return Ok(None);
    };
    read_operands(alloc, state, known, operands)
}

// What stands behind the word of a call.
fn read_operands<'a>(
    alloc: Global,
    state: HashState,
    known: Known,
    bytes: &'a [u8],
) -> Result<Option<Command<'a>>, AllocError>
    requires { IsKnown known }
    ensures operands { IfOk result (λ answer.
        AreOperandsOf (row_of known.verb) bytes.now (option_map command_form answer)) }
    ensures free { OperandsNeedNone (row_of known.verb).making bytes.now → IsOk result }
{
    match known.shape {
        Shape::Name => Ok(read_name(known, bytes)),
        Shape::Names => Ok(read_names(known, bytes)),
        Shape::Text => read_text(alloc, known, bytes),
        Shape::Bounds => Ok(read_bounds(known, bytes)),
        Shape::Type => Ok(read_type(known, bytes)),
        Shape::Literal => read_literal(alloc, state, known, bytes),
        Shape::Map => read_map(alloc, state, known, bytes),
    }
}
