//! One step, and whole runs.
ghost use Rattle.std.specs.Prelude.{◌≡◌, List, [], map, IfOk, IfErr, OnErr, IsOk};
ghost use Rattle.std.specs.List.{AllZip};
ghost use Rattle.std.specs.Option.{option_map};
ghost use Rattle.std.specs.String.{string_bytes};
ghost use Rattle.tera_meaning.specs.Outcome.{Outcome};
ghost use Rattle.tera_meaning.specs.Request.{set, extend, mark_safe, asking};
ghost use Rattle.tera_meaning.specs.Run.{IsKeepingRun, IsRun};
ghost use Rattle.tera_meaning.specs.Step.{IsStep};
ghost use Rattle.tera_report.specs.Errors.{IsOutOfMemory};
ghost use Rattle.tera_context.specs.Call.{command_of};
ghost use Rattle.tera_context.specs.Request.{command_form, name_of};
ghost use Rattle.tera_context.specs.Steps.{ShowsOutcome, ShowsOneOf};

use crate::ask::{absent_value, ask, value_at};
use crate::call::{Answer, Call, Step};
use crate::context::Context;
use crate::find::find;
use crate::request::{Command, Question, Request, Search, Weighing};
use crate::weigh::weigh;
use std::borrow::CowStr;
use tera_report::{Error, TeraResult};
use tera_values::Value;

/// Answers a command: by its answer, with what it changes of the context; or by its refusal, and
/// then nothing has changed.
///
/// Memory is taken, and `Out of memory` may be answered: by `Set` for a name that is new, and by
/// `Extend` for a source that has such a name; by `Print`, `Escape`, `Fields` and `Walk` for the
/// texts that they answer, if there are some; by `Get` and the calls that answer as it does, and by
/// `MarkSafe` with `into`, for a copy, a slice or a reversal that is a text, bytes, an array or a
/// map, if it is not empty, for what is kept under a name that is new, and for the text of a
/// refusal. `Binary`, `Negate`, `Read` and `Contains` make none of these, and the other calls take
/// none.
#[tactic(auto, using(crate::proofs::Kept::laws))]
pub fn answer(context: &mut Context, command: Command<'_>) -> TeraResult<Answer>
    ensures outcome { ShowsOneOf result (λ outcome.
        IsStep context.old (command_form command.entry) outcome context.new) }
    ensures unchanged { OnErr result (context.new ≡ context.old) }
{
    let Command { request, into } = command;
    match request {
        Request::Set { name, value } => set(context, name, value),
        Request::Extend { source } => extend(context, source),
        Request::Remove { name } => Ok(Answer::Found(context.remove(name))),
        Request::MarkSafe { name } => mark_safe(context, name, into),
        Request::Ask { question, name } => ask(context, question, name),
        Request::Weigh {
            weighing,
            left,
            right,
        } => weigh(context, weighing, left, right),
        Request::Find(search) => find(context, search, into),
    }
}

/// One step, as `answer` answers the command that it is.
#[tactic(auto, using(crate::proofs::Kept::laws))]
pub fn step(context: &mut Context, step: Step) -> TeraResult<Answer>
    ensures outcome { ShowsOneOf result (λ outcome.
        IsStep context.old (command_of step) outcome context.new) }
    ensures unchanged { OnErr result (context.new ≡ context.old) }
{
    let Step { call, into } = step;
    let into = lent_name(&into);
    match call {
        Call::Set { name, value } => set(context, &name, value),
        Call::Extend { source } => extend(context, source),
        Call::Remove { name } => Ok(Answer::Found(context.remove(&name))),
        Call::MarkSafe { of } => mark_safe(context, &of, into),
        Call::Has { name } => ask(context, Question::Has, &name),
        Call::Truthy { of } => ask(context, Question::Truthy, &of),
        Call::IsSafe { of } => ask(context, Question::IsSafe, &of),
        Call::Len { of } => ask(context, Question::Len, &of),
        Call::Kind { of } => ask(context, Question::Kind, &of),
        Call::Print { of } => ask(context, Question::Print, &of),
        Call::Escape { of } => ask(context, Question::Escape, &of),
        Call::Fields { of } => ask(context, Question::Fields, &of),
        Call::Walk { of } => ask(context, Question::Walk, &of),
        Call::Equal { left, right } => weigh(context, Weighing::Equal, &left, &right),
        Call::Compare { left, right } => weigh(context, Weighing::Compare, &left, &right),
        Call::TryCompare { left, right } => weigh(context, Weighing::TryCompare, &left, &right),
        Call::Contains { of, needle } => weigh(context, Weighing::Contains, &of, &needle),
        Call::Get { name } => find(context, Search::Get { name: &name }, into),
        Call::Path { of, path } => {
            let path = CowStr::Borrowed(&path);
            find(context, Search::Path { of: &of, path }, into)
        }
        Call::Attr { of, attr } => {
            let attr = CowStr::Borrowed(&attr);
            find(context, Search::Attr { of: &of, attr }, into)
        }
        Call::Item { of, item } => find(
            context,
            Search::Item {
                of: &of,
                item: &item,
            },
            into,
        ),
        Call::Slice {
            of,
            start,
            end,
            step,
        } => find(
            context,
            Search::Slice {
                of: &of,
                start,
                end,
                step,
            },
            into,
        ),
        Call::Reverse { of } => find(context, Search::Reverse { of: &of }, into),
        Call::Binary { op, left, right } => find(
            context,
            Search::Binary {
                op,
                left: &left,
                right: &right,
            },
            into,
        ),
        Call::Negate { of } => find(context, Search::Negate { of: &of }, into),
        Call::Read { of, to } => find(context, Search::Read { of: &of, to }, into),
    }
}

// The name that is lent, if there is one.
fn lent_name(name: &Option<String>) -> Option<&str>
    ensures { name_of result ≡ option_map string_bytes name.now }
{
    Some(name.as_ref()?.as_str())
}

// Keeps the value under the name.
fn set(context: &mut Context, name: &str, value: Value) -> TeraResult<Answer>
    ensures outcome { ShowsOneOf result (λ outcome.
        IsStep context.old (asking (set name.now value)) outcome context.new) }
    ensures unchanged { OnErr result (context.new ≡ context.old) }
{
    match context.put_value(name, value) {
        Ok(()) => Ok(Answer::Done),
        Err(want) => Err(Error::from(want)),
    }
}

// Takes over what the source holds.
fn extend(context: &mut Context, source: Context) -> TeraResult<Answer>
    ensures outcome { ShowsOneOf result (λ outcome.
        IsStep context.old (asking (extend source)) outcome context.new) }
    ensures unchanged { OnErr result (context.new ≡ context.old) }
{
    context.extend(source)?;
    Ok(Answer::Done)
}

// Marks the value of a name safe in its place; or keeps a marked clone under `into`, if that is
// given.
fn mark_safe(context: &mut Context, name: &str, into: Option<&str>) -> TeraResult<Answer>
    ensures outcome { ShowsOneOf result (λ outcome. IsStep context.old
        (record { request = mark_safe name.now; into = name_of into.entry })
        outcome context.new) }
    ensures unchanged { OnErr result (context.new ≡ context.old) }
{
    match into {
        Some(into) => {
            let absent = absent_value();
            let value = value_at(context, name, &absent).copy(context.allocator())?;
            context.insert_value(into, value.mark_safe())?;
            Ok(Answer::Done)
        }
        None => {
            context.mark_safe(name);
            Ok(Answer::Done)
        }
    }
}

/// Runs one step after another, also behind a refused one, and keeps what each answers.
///
/// The list of answers takes its memory first: where that is refused, `Out of memory` is the answer
/// to the whole run and nothing was done. A run of no steps takes none. A step that finds no memory
/// answers so in its place. A step that is refused, for whatever cause, changes nothing.
///
/// The shapes of the answers (what is found by its meaning, a refusal without a kind's name) depend
/// on what the names mean: those of `Print`, `Escape` and `Walk` also on the order of pairs in
/// maps, and those of `Kind` and `IsSafe` on kinds of integers and safe flags.
pub fn run(context: &mut Context, steps: Vec<Step>) -> TeraResult<Vec<TeraResult<Answer>>>
    ensures run { IfOk result (λ answers. (outcomes : List Outcome)
        × AllZip ShowsOutcome answers.items outcomes
        × IsRun context.old (map command_of steps.items) outcomes context.new) }
    ensures kept { IfOk result (λ answers. (outcomes : List Outcome)
        × AllZip ShowsOutcome answers.items outcomes
        × IsKeepingRun context.old (map command_of steps.items) outcomes context.new) }
    ensures err { IfErr result IsOutOfMemory }
    ensures unchanged { OnErr result (context.new ≡ context.old) }
    ensures nothing { steps.items ≡ [] → IsOk result }
{
    let mut answers = Vec::with_capacity(context.allocator(), steps.len())?;
    for next in steps {
        answers.push_reserved(step(context, next));
    }
    Ok(answers)
}
