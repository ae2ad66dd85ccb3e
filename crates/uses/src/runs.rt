//! Steps over contexts: one before others, and others behind a value that is kept.
ghost use Rattle.std.specs.Prelude.{◌≡◌, ◌⊎◌, List, ◌∷◌, map, IfOk, IfErr, OnErr};
ghost use Rattle.std.specs.FinMap.{insert};
ghost use Rattle.std.specs.List.{AllZip};
ghost use Rattle.tera.specs.Call.{command_of};
ghost use Rattle.tera.specs.Errors.{IsOutOfMemory};
ghost use Rattle.tera.specs.Outcome.{Outcome};
ghost use Rattle.tera.specs.Run.{IsRun, NoneWantsMemory, state_after_all};
ghost use Rattle.tera.specs.ShownSteps.{ShowsOutcome};
ghost use Rattle.tera.specs.Step.{IsStep};

use tera::meaning::runs::runs_give_their_outcomes;
use tera::run::{Answer, Step, run, step};
use tera::{Context, TeraResult, Value};

/// A step, and then the later ones: one run of them all. The answer to the first stands by itself.
///
/// Takes memory for the list of the later answers; want of it, `Out of memory`, is the only
/// refusal, and then the first step was done.
pub fn step_and_run(
    context: &mut Context,
    first: Step,
    later: Vec<Step>,
) -> TeraResult<(TeraResult<Answer>, Vec<TeraResult<Answer>>)>
    ensures run { IfOk result (λ answers. (outcome : Outcome) × (outcomes : List Outcome)
        × ShowsOutcome answers.0 outcome × AllZip ShowsOutcome answers.1.items outcomes
        × IsRun context.old (command_of first ∷ map command_of later.items) (outcome ∷ outcomes)
        context.new) }
    ensures err { IfErr result IsOutOfMemory }
    ensures done { OnErr result ((outcome : Outcome)
        × IsStep context.old (command_of first) outcome context.new) }
{
    let answer = step(context, first);
    let answers = run(context, later)?;
    Ok((answer, answers))
}

/// Keeps a value under a name, and then does the steps. Where none of them wants memory the
/// context is what they leave of that.
///
/// Takes memory; want of it for the value or for the list of answers, `Out of memory`, is the only
/// refusal. It leaves the context as it was, or with that value.
pub fn run_with(
    context: &mut Context,
    name: &str,
    value: Value,
    steps: Vec<Step>,
) -> TeraResult<Vec<TeraResult<Answer>>>
    ensures run { IfOk result (λ answers. (outcomes : List Outcome)
        × AllZip ShowsOutcome answers.items outcomes
        × IsRun (insert context.old name.now value) (map command_of steps.items) outcomes
        context.new
        × (NoneWantsMemory outcomes → context.new
        ≡ state_after_all (insert context.old name.now value) (map command_of steps.items))) }
    ensures err { IfErr result IsOutOfMemory }
    ensures left { OnErr result ((context.new ≡ context.old)
        ⊎ (context.new ≡ insert context.old name.now value)) }
{
    runs_give_their_outcomes();
    context.insert_value(name, value)?;
    run(context, steps)
}
