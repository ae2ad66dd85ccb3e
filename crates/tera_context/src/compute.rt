//! What is computed of the numbers of a context, and may be kept there.
// Each function matches the one result that it takes, as those that find something do; `calculate`
// returns early but for the number that it answers, so that this alone is built in its place.
ghost use Rattle.std.specs.Prelude.{◌≡◌, Ok, Some, IsErrAnd};
ghost use Rattle.tera_meaning.specs.Arithmetic.{as_i128};
ghost use Rattle.tera_meaning.specs.Request.{find};
ghost use Rattle.tera_meaning.specs.Search;
ghost use Rattle.tera_meaning.specs.Search.{Search, found_at};
ghost use Rattle.tera_meaning.specs.Step.{IsStep};
ghost use Rattle.tera_scalars.specs.Operation.{operator_of};
ghost use Rattle.tera_report.specs.Errors.{Raises};
ghost use Rattle.tera_report.specs.Refusal.{stated};
ghost use Rattle.tera_values.specs.Computed.{refusal_told};
ghost use Rattle.tera_values.specs.Converted.{integer_type};
ghost use Rattle.tera_context.specs.Request.{name_of};
ghost use Rattle.tera_context.specs.Steps.{ShowsOneOf};
ghost use Rattle.tera_context.specs.inner.Finds.{Finds};

use crate::ask::{absent_value, value_at};
use crate::call::Answer;
use crate::context::Context;
use crate::find::keep_or_answer;
use std::alloc::Global;
use tera_report::TeraResult;
use tera_scalars::BinaryOp;
use tera_values::number::NotComputed;
use tera_values::{IntType, Value, number};

/// Finds what an operator computes of the values of two names.
#[inline(never)]
pub(crate) fn calculate(
    context: &mut Context,
    op: BinaryOp,
    left: &str,
    right: &str,
    into: Option<&str>,
) -> TeraResult<Answer>
    ensures { ShowsOneOf result (λ outcome. IsStep context.old
        (record {
          request = find (Search.calculate (operator_of op) left.now right.now);
          into = name_of into.entry;
        }) outcome context.new) }
{
    let absent = absent_value();
    let first = value_at(context, left, &absent);
    let second = value_at(context, right, &absent);
    let number = match number::compute(op, first, second) {
        Ok(number) => number,
        Err(why) => return refused(context.allocator(), why),
    };
    if let Some(into) = into {
        return keep_number(number, context, into);
    }
    Ok(Answer::Found(Some(Value::from(number))))
}

// Keeps a number under a name.
#[inline(always)]
fn keep_number(number: i128, context: &mut Context, into: &str) -> TeraResult<Answer>
    ensures { (search : Search) → found_at context.old search ≡ Ok (Some (as_i128 number))
        → Finds context.old search (Some into.now) result context.new }
{
    keep_or_answer(Value::from(number), context, Some(into))
}

// What shows why nothing is computed.
#[inline(always)]
fn refused(alloc: Global, why: NotComputed) -> TeraResult<Answer>
    ensures { IsErrAnd result (Raises (stated (refusal_told why))) }
{
    Err(why.into_error(alloc))
}

/// Finds the number of a name with the other sign.
#[inline(never)]
pub(crate) fn negate(context: &mut Context, of: &str, into: Option<&str>) -> TeraResult<Answer>
    ensures { ShowsOneOf result (λ outcome. IsStep context.old
        (record { request = find (Search.negate of.now); into = name_of into.entry })
        outcome context.new) }
{
    let absent = absent_value();
    match number::negate(context.allocator(), value_at(context, of, &absent)) {
        Ok(made) => keep_or_answer(made, context, into),
        Err(error) => Err(error),
    }
}

/// Finds the number of a name in the kind to which a type of Rust converts.
#[inline(never)]
pub(crate) fn read(
    context: &mut Context,
    of: &str,
    to: IntType,
    into: Option<&str>,
) -> TeraResult<Answer>
    ensures { ShowsOneOf result (λ outcome. IsStep context.old
        (record {
          request = find (Search.read (integer_type to) of.now);
          into = name_of into.entry;
        }) outcome context.new) }
{
    let absent = absent_value();
    match value_at(context, of, &absent).read_as(context.allocator(), to) {
        Ok(number) => keep_or_answer(number, context, into),
        Err(error) => Err(error),
    }
}
