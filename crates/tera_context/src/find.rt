//! What is found in a context, and may be kept there.
// Each function matches the one result that it takes, since `?` would move it twice more. What is
// lent is copied by `copy`, whose result is small: an `Error` is made where it is answered.
ghost use Rattle.std.specs.Prelude.{◌≡◌, ℕ, List, Option, Ok, Some};
ghost use Rattle.tera_meaning.specs.Search as sought;
ghost use Rattle.tera_meaning.specs.Search.{Search as SearchOf, found_at, FoundTakes};
ghost use Rattle.tera_meaning.specs.State.{State};
ghost use Rattle.tera_report.specs.Errors.{Refuses};
ghost use Rattle.tera_context.specs.Request.{name_of, search_form};
ghost use Rattle.tera_context.specs.inner.Finds.{Finds};

use crate::ask::{absent_value, value_at};
use crate::call::Answer;
use crate::compute::{calculate, negate, read};
use crate::context::Context;
use crate::request::Search;
use tera_report::{Error, TeraResult};
use tera_values::Value;

/// Finds something, and keeps it under `into`, if that is given.
pub(crate) fn find(
    context: &mut Context,
    search: Search<'_>,
    into: Option<&str>,
) -> TeraResult<Answer>
    ensures { Finds context.old (search_form search.entry) (name_of into.entry) result context.new }
{
    match search {
        Search::Get { name } => get(context, name, into),
        Search::Path { of, path: to } => path(context, of, &to, into),
        Search::Attr { of, attr: name } => attr(context, of, &name, into),
        Search::Item { of, item: at } => item(context, of, at, into),
        Search::Slice {
            of,
            start,
            end,
            step,
        } => slice(context, of, start, end, step, into),
        Search::Reverse { of } => reverse(context, of, into),
        Search::Binary { op, left, right } => calculate(context, op, left, right, into),
        Search::Negate { of } => negate(context, of, into),
        Search::Read { of, to } => read(context, of, to, into),
    }
}

// Finds the value of a name.
#[inline(never)]
fn get(context: &mut Context, name: &str, into: Option<&str>) -> TeraResult<Answer>
    ensures { Finds context.old (sought.get name.now) (name_of into.entry) result
        context.new }
{
    let Some(held) = context.get(name) else {
        return Ok(Answer::Found(None));
    };
    match held.copy(context.allocator()) {
        Ok(copy) => keep_or_answer(copy, context, into),
        Err(want) => refused(Error::from(want)),
    }
}

// Finds what a path leads to.
#[inline(never)]
fn path(context: &mut Context, of: &str, path: &str, into: Option<&str>) -> TeraResult<Answer>
    ensures { Finds context.old (sought.path of.now path.now) (name_of into.entry) result
        context.new }
{
    let absent = absent_value();
    let Some(part) = value_at(context, of, &absent).get_from_path(path) else {
        return Ok(Answer::Found(None));
    };
    match part.copy(context.allocator()) {
        Ok(copy) => keep_or_answer(copy, context, into),
        Err(want) => refused(Error::from(want)),
    }
}

// Finds what a map has at a text.
#[inline(never)]
fn attr(context: &mut Context, of: &str, attr: &str, into: Option<&str>) -> TeraResult<Answer>
    ensures { Finds context.old (sought.attr of.now attr.now) (name_of into.entry) result
        context.new }
{
    let absent = absent_value();
    let Some(part) = value_at(context, of, &absent).get_attr(attr) else {
        return Ok(Answer::Found(None));
    };
    match part.copy(context.allocator()) {
        Ok(copy) => keep_or_answer(copy, context, into),
        Err(want) => refused(Error::from(want)),
    }
}

// Finds what a value has at another.
#[inline(never)]
fn item(context: &mut Context, of: &str, item: &str, into: Option<&str>) -> TeraResult<Answer>
    ensures { Finds context.old (sought.item of.now item.now) (name_of into.entry) result
        context.new }
{
    let absent = absent_value();
    let at = value_at(context, item, &absent);
    match value_at(context, of, &absent).get_item(context.allocator(), at) {
        Ok(found) => keep_or_answer(found, context, into),
        Err(error) => refused(error),
    }
}

// Finds a slice, between two bounds and by a step.
#[inline(never)]
fn slice(
    context: &mut Context,
    of: &str,
    start: Option<i128>,
    end: Option<i128>,
    step: Option<i128>,
    into: Option<&str>,
) -> TeraResult<Answer>
    ensures { Finds context.old (sought.slice of.now start end step) (name_of into.entry)
        result context.new }
{
    let absent = absent_value();
    let value = value_at(context, of, &absent);
    match value.slice(context.allocator(), start, end, step) {
        Ok(made) => keep_or_answer(made, context, into),
        Err(error) => refused(error),
    }
}

// Finds a value with its parts in the opposite order.
#[inline(never)]
fn reverse(context: &mut Context, of: &str, into: Option<&str>) -> TeraResult<Answer>
    ensures { Finds context.old (sought.reverse of.now) (name_of into.entry) result
        context.new }
{
    let absent = absent_value();
    match value_at(context, of, &absent).reverse(context.allocator()) {
        Ok(made) => keep_or_answer(made, context, into),
        Err(error) => refused(error),
    }
}

/// Keeps what was found under `into`, if that is given, and else answers it.
#[inline(always)]
pub(crate) fn keep_or_answer(
    found: Value,
    context: &mut Context,
    into: Option<&str>,
) -> TeraResult<Answer>
    ensures { (search : SearchOf) → found_at context.old search ≡ Ok (Some found)
        → Finds context.old search (name_of into.entry) result context.new }
{
    match into {
        Some(into) => match context.put_value(into, found) {
            Ok(()) => Ok(Answer::Done),
            Err(want) => Err(Error::from(want)),
        },
        None => Ok(Answer::Found(Some(found))),
    }
}

// Answers why nothing is found.
#[inline(always)]
fn refused(error: Error) -> TeraResult<Answer>
    ensures { (state : State) (search : SearchOf) (into : Option (List ℕ))
        → FoundTakes search (found_at state search) → Refuses (found_at state search) error
        → Finds state search into result state }
{
    Err(error)
}
