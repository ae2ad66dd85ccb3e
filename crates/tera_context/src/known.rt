//! Answers that take no memory, and that nothing refuses.
ghost use Rattle.std.specs.Prelude.{◌≡◌};
ghost use Rattle.std.specs.FinMap.{get};
ghost use Rattle.std.specs.Option.{option_map};
ghost use Rattle.tera_meaning.specs.Decided.{decided};
ghost use Rattle.tera_meaning.specs.Order;
ghost use Rattle.tera_meaning.specs.Search;
ghost use Rattle.tera_meaning.specs.Search.{found_at};
ghost use Rattle.tera_meaning.specs.State.{form_at, meaning_at};
ghost use Rattle.tera_scalars.specs.Operation.{operator_of};
ghost use Rattle.tera_context.specs.Call.{answer_of};
ghost use Rattle.tera_context.specs.Known.{found_known, known_form, question_known};
ghost use Rattle.tera_context.specs.Known.{weighing_known};
ghost use Rattle.tera_context.specs.Request.{question_of, weighing_of};

use crate::ask::{absent_value, value_at};
use crate::call::Answer;
use crate::context::Context;
use crate::request::{Question, Weighing};
use std::cmp::Ordering;
use tera_scalars::BinaryOp;
use tera_values::{Value, ValueKind, number};

/// An answer that takes no memory: what `Has`, `Truthy`, `IsSafe`, `Len`, `Kind`, `Equal`,
/// `Compare` and `TryCompare` answer, of which none is ever refused, and what `Binary` finds.
#[derive(Debug, Clone, Copy)]
pub enum Known {
    /// As `Answer::Truth`.
    Truth(bool),
    /// As `Answer::Order`.
    Order(Option<Ordering>),
    /// As `Answer::Size`.
    Size(Option<usize>),
    /// As `Answer::Kind`.
    Kind(ValueKind),
    /// As `Answer::Found`, of a number that an operator computes.
    Number(i128),
}

impl Known {
    /// The same as an answer of any call. Takes no memory.
    pub fn into_answer(self) -> Answer
        ensures { answer_of result ≡ known_form self }
    {
        match self {
            Known::Truth(truth) => Answer::Truth(truth),
            Known::Order(order) => Answer::Order(order),
            Known::Size(size) => Answer::Size(size),
            Known::Kind(kind) => Answer::Kind(kind),
            Known::Number(number) => Answer::Found(Some(Value::from(number))),
        }
    }
}

/// What a question about the value of a name is answered by, if that takes no memory.
pub(crate) fn known_of(context: &Context, question: Question, name: &str) -> Option<Known>
    ensures { option_map known_form result
        ≡ question_known (question_of question) (get context.now name.now) }
{
    let absent = absent_value();
    match question {
        Question::Has => Some(Known::Truth(context.contains_key(name))),
        Question::Truthy => Some(Known::Truth(value_at(context, name, &absent).is_truthy())),
        Question::IsSafe => Some(Known::Truth(value_at(context, name, &absent).is_safe())),
        Question::Len => Some(Known::Size(value_at(context, name, &absent).len())),
        Question::Kind => Some(Known::Kind(value_at(context, name, &absent).kind())),
        _ => None,
    }
}

/// What an operator computes of the values of two names, if it computes something.
pub(crate) fn computed(context: &Context, op: BinaryOp, left: &str, right: &str) -> Option<Known>
    ensures { option_map known_form result ≡ found_known
        (found_at context.now (Search.calculate (operator_of op) left.now right.now)) }
{
    let absent = absent_value();
    let first = value_at(context, left, &absent);
    let second = value_at(context, right, &absent);
    match number::compute(op, first, second) {
        Ok(number) => Some(Known::Number(number)),
        Err(_) => None,
    }
}

/// How the values of two names weigh, if that takes no memory.
pub(crate) fn known_of_two(
    context: &Context,
    weighing: Weighing,
    left: &str,
    right: &str,
) -> Option<Known>
    ensures { option_map known_form result ≡ weighing_known (weighing_of weighing)
        (form_at context.now left.now) (form_at context.now right.now) }
{
    match weighing {
        Weighing::Equal => Some(Known::Truth(equal(context, left, right))),
        Weighing::Compare => Some(Known::Order(Some(compare(context, left, right)))),
        Weighing::TryCompare => Some(Known::Order(try_compare(context, left, right))),
        Weighing::Contains => None,
    }
}

// Whether the values of two names are equal.
fn equal(context: &Context, left: &str, right: &str) -> bool
    ensures { result
        ≡ Order.same (meaning_at context.now left.now) (meaning_at context.now right.now) }
{
    let absent = absent_value();
    value_at(context, left, &absent) == value_at(context, right, &absent)
}

// The order of the values of two names.
fn compare(context: &Context, left: &str, right: &str) -> Ordering
    ensures { result ≡ Order.compare (meaning_at context.now left.now)
        (meaning_at context.now right.now) }
{
    let absent = absent_value();
    value_at(context, left, &absent).cmp(value_at(context, right, &absent))
}

// The partial order of the values of two names.
fn try_compare(context: &Context, left: &str, right: &str) -> Option<Ordering>
    ensures { result ≡ decided (meaning_at context.now left.now)
        (meaning_at context.now right.now) }
{
    let absent = absent_value();
    value_at(context, left, &absent).try_compare(value_at(context, right, &absent))
}
