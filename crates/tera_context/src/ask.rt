//! What is asked of the value of a name.
ghost use Rattle.std.specs.Prelude.{◌≡◌, unwrap_or};
ghost use Rattle.std.specs.FinMap.{get};
ghost use Rattle.std.specs.Mem.{manually_drop_value};
ghost use Rattle.tera_meaning.specs.Question as asked;
ghost use Rattle.tera_meaning.specs.Request.{ask, asking};
ghost use Rattle.tera_meaning.specs.Step.{IsStep};
ghost use Rattle.tera_meaning.specs.Tree.{undefined};
ghost use Rattle.tera_context.specs.Request.{question_of};
ghost use Rattle.tera_context.specs.Steps.{ShowsOneOf};

use crate::call::Answer;
use crate::context::Context;
use crate::known::known_of;
use crate::request::Question;
use std::mem::ManuallyDrop;
use tera_report::{TeraResult, escape_text};
use tera_values::Value;

/// What a name that isn't there reads as. It holds nothing that would have to be dropped.
pub(crate) fn absent_value() -> ManuallyDrop<Value>
    ensures { manually_drop_value result ≡ undefined }
{
    ManuallyDrop::new(Value::undefined())
}

/// The value of a name, and the absent one where there is none.
pub(crate) fn value_at<'a>(context: &'a Context, name: &str, absent: &'a Value) -> &'a Value
    ensures { result.now ≡ unwrap_or (get context.now name.now) absent.now }
{
    context.get(name).unwrap_or(absent)
}

/// Asks the value of a name.
pub(crate) fn ask(context: &Context, question: Question, name: &str) -> TeraResult<Answer>
    ensures { ShowsOneOf result (λ outcome.
        IsStep context.now (asking (ask (question_of question) name.now)) outcome context.now) }
{
    if let Some(known) = known_of(context, question, name) {
        return Ok(known.into_answer());
    }
    match question {
        Question::Escape => escape(context, name),
        Question::Fields => fields(context, name),
        Question::Walk => walk(context, name),
        _ => print(context, name),
    }
}

// The printed text of the value of a name.
fn print(context: &Context, name: &str) -> TeraResult<Answer>
    ensures { ShowsOneOf result (λ outcome.
        IsStep context.now (asking (ask asked.print name.now)) outcome context.now) }
{
    let absent = absent_value();
    let value = value_at(context, name, &absent);
    Ok(Answer::Text(value.to_text(context.allocator())?))
}

// The printed text of the value of a name, escaped.
fn escape(context: &Context, name: &str) -> TeraResult<Answer>
    ensures { ShowsOneOf result (λ outcome.
        IsStep context.now (asking (ask asked.escape name.now)) outcome context.now) }
{
    let absent = absent_value();
    let text = value_at(context, name, &absent).to_text(context.allocator())?;
    Ok(Answer::Text(escape_text(context.allocator(), &text)?))
}

// What the keys of the value of a name print.
#[inline(never)]
fn fields(context: &Context, name: &str) -> TeraResult<Answer>
    ensures { ShowsOneOf result (λ outcome.
        IsStep context.now (asking (ask asked.fields name.now)) outcome context.now) }
{
    let absent = absent_value();
    let names = value_at(context, name, &absent).available_fields(context.allocator())?;
    Ok(Answer::Texts(names))
}

// What the keys of the value of a name print, pair by pair.
#[inline(never)]
fn walk(context: &Context, name: &str) -> TeraResult<Answer>
    ensures { ShowsOneOf result (λ outcome.
        IsStep context.now (asking (ask asked.walk name.now)) outcome context.now) }
{
    let absent = absent_value();
    let names = value_at(context, name, &absent).walk(context.allocator())?;
    Ok(Answer::Walked(names))
}
