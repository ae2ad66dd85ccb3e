//! Lists of steps that are run.
use crate::answers::{tell, tell_error, widened};
use crate::made::{changed, lost, push};
use std::alloc::Global;
use std::cmp::Ordering;
use std::fmt::{Debug, Display};
use std::mem;
use tera_context::{Answer, Context, Step, run};
use tera_report::{Error, TeraResult};
use tera_script::{Reading, read_line};
use tera_values::{HashState, Value};

/// Tells what each line of a script says.
pub fn tell_readings(rt: &(impl Print + AllocGlobal), script: &str) {
    for line in script.lines() {
        tell_reading(rt, line);
    }
}

fn tell_reading(rt: &(impl Print + AllocGlobal), line: &str) {
    match read_line(rt.alloc(), HashState::fixed(), line.as_bytes()) {
        Ok(Reading::Says(said)) => tell(rt, "read_line", widened(said.into_step(rt.alloc()))),
        other => tell(rt, "read_line", widened(other)),
    }
}

/// Runs the lists of steps that a script holds, each in one run, over one context. Lines `--` part
/// them. A line with `@` before it keeps what its call finds under `ignored`, whatever it calls.
pub fn tell_runs(rt: &(impl Print + AllocGlobal), script: &str) -> TeraResult<()> {
    let mut context = Context::new(rt.alloc());
    let told = tell_lists(rt, &mut context, script);
    drop(context);
    told
}

fn tell_lists(
    rt: &(impl Print + AllocGlobal),
    context: &mut Context,
    script: &str,
) -> TeraResult<()> {
    for list in script.split("--\n") {
        tell_run(rt, context, list)?;
    }
    Ok(())
}

fn tell_run(rt: &(impl Print + AllocGlobal), context: &mut Context, list: &str) -> TeraResult<()> {
    let steps = steps_of(rt.alloc(), list)?;
    tell_answers(rt, run(context, steps));
    Ok(())
}

/// The steps that the lines say.
pub fn steps_of(alloc: Global, list: &str) -> TeraResult<Vec<Step>> {
    let mut steps = Vec::new(alloc);
    let answer = push_steps(alloc, &mut steps, list);
    changed(steps, answer)
}

fn push_steps(alloc: Global, steps: &mut Vec<Step>, list: &str) -> TeraResult<()> {
    for line in list.lines() {
        push(steps, step_of(alloc, line)?)?;
    }
    Ok(())
}

fn step_of(alloc: Global, line: &str) -> TeraResult<Step> {
    match line.strip_prefix("@") {
        Some(rest) => found_ignored(alloc, read(alloc, rest)?),
        None => read(alloc, line),
    }
}

// The step, which keeps what its call finds under `ignored`.
fn found_ignored(alloc: Global, step: Step) -> TeraResult<Step> {
    match String::from_str(alloc, "ignored") {
        Ok(name) => Ok(found_into(step, name)),
        Err(refused) => lost(step, Error::from(refused)),
    }
}

fn found_into(step: Step, name: String) -> Step {
    let mut step = step;
    drop(mem::replace(&mut step.into, Some(name)));
    step
}

fn read(alloc: Global, line: &str) -> TeraResult<Step> {
    match read_line(alloc, HashState::fixed(), line.as_bytes())? {
        Reading::Says(said) => Ok(said.into_step(alloc)?),
        other => lost(other, Error::message(alloc, line)),
    }
}

// What is told as replies to a script have it.
trait Tell {
    fn tell(&self, rt: &impl Print);
}

// The answers, or why there are none.
fn tell_answers<T: Tell + Drop>(rt: &impl Print, answers: TeraResult<T>) {
    match answers {
        Ok(answers) => tell_all(rt, answers),
        Err(refused) => tell_error(rt, "run", refused),
    }
}

fn tell_all<T: Tell + Drop>(rt: &impl Print, answers: T) {
    answers.tell(rt);
    drop(answers);
}

impl<T: Tell> Tell for Vec<TeraResult<T>> {
    fn tell(&self, rt: &impl Print) {
        for answer in self {
            match answer {
                Ok(answer) => answer.tell(rt),
                Err(refused) => tell_shown(rt, "error: ", refused),
            }
        }
    }
}

impl Tell for Answer {
    fn tell(&self, rt: &impl Print) {
        match self {
            Answer::Done => tell_shown(rt, "", &"ok"),
            Answer::Truth(truth) => tell_shown(rt, "", truth),
            Answer::Order(order) => tell_shown(rt, "", &order_name(*order)),
            Answer::Found(found) => tell_found(rt, found),
            Answer::Size(size) => tell_size(rt, *size),
            Answer::Kind(kind) => tell_shown(rt, "kind ", &kind.name()),
            Answer::Text(text) => tell_shown(rt, "text ", text),
            Answer::Texts(names) => tell_debug(rt, "fields ", names),
            Answer::Walked(names) => tell_debug(rt, "walk ", names),
        }
    }
}

fn tell_shown<D: Display>(rt: &impl Print, word: &str, it: &D) {
    let _ = println!(rt; "{word}{it}");
}

fn tell_debug<D: Debug>(rt: &impl Print, word: &str, it: &D) {
    let _ = println!(rt; "{word}{it:?}");
}

fn tell_size(rt: &impl Print, size: Option<usize>) {
    match size {
        Some(size) => tell_shown(rt, "size ", &size),
        None => tell_shown(rt, "", &"nothing"),
    }
}

fn order_name(order: Option<Ordering>) -> &'static str {
    match order {
        None => "undecided",
        Some(Ordering::Less) => "less",
        Some(Ordering::Equal) => "equal",
        Some(Ordering::Greater) => "greater",
    }
}

fn tell_found(rt: &impl Print, found: &Option<Value>) {
    match found {
        Some(value) => tell_value(rt, value),
        None => tell_shown(rt, "", &"nothing"),
    }
}

fn tell_value(rt: &impl Print, value: &Value) {
    match value.as_str() {
        Some(text) => tell_debug(rt, "value ", &text),
        None if value.is_undefined() => tell_shown(rt, "value ", &"undefined"),
        None if value.is_none() => tell_shown(rt, "value ", &"none"),
        None => tell_shown(rt, "value ", value),
    }
}
