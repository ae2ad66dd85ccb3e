//! How the values of two names are weighed.
ghost use Rattle.tera_meaning.specs.Request.{weigh, asking};
ghost use Rattle.tera_meaning.specs.Step.{IsStep};
ghost use Rattle.tera_meaning.specs.Weighing as weighing;
ghost use Rattle.tera_context.specs.Request.{weighing_of};
ghost use Rattle.tera_context.specs.Steps.{ShowsOneOf};

use crate::ask::{absent_value, value_at};
use crate::call::Answer;
use crate::context::Context;
use crate::known::known_of_two;
use crate::request::Weighing;
use tera_report::TeraResult;

/// Weighs the values of two names.
pub(crate) fn weigh(
    context: &Context,
    weighing: Weighing,
    left: &str,
    right: &str,
) -> TeraResult<Answer>
    ensures { ShowsOneOf result (λ outcome. IsStep context.now
        (asking (weigh (weighing_of weighing) left.now right.now)) outcome context.now) }
{
    match known_of_two(context, weighing, left, right) {
        Some(known) => Ok(known.into_answer()),
        None => contains(context, left, right),
    }
}

// Whether the value of a name holds that of another.
#[inline(never)]
fn contains(context: &Context, of: &str, needle: &str) -> TeraResult<Answer>
    ensures { ShowsOneOf result (λ outcome. IsStep context.now
        (asking (weigh weighing.contains of.now needle.now)) outcome context.now) }
{
    let absent = absent_value();
    let needle = value_at(context, needle, &absent);
    let held = value_at(context, of, &absent).contains(context.allocator(), needle)?;
    Ok(Answer::Truth(held))
}
