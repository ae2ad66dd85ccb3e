//! Rules that may refuse, one after another.
ghost use Rattle.std.specs.FinMap.{get};
ghost use Rattle.std.specs.Prelude.{◌≡◌, ◌++◌, ◌∷◌, ℕ, take, is_some, List, IsTrue, IsOk, Ok};
ghost use Rattle.std.specs.Prelude.{IfErr, OnOk, OnErr};
ghost use Rattle.tera.specs.Errors.{Refuses};
ghost use Rattle.tera.specs.State.{State};
ghost use Rattle.tera.specs.Stepped.{stepped};
ghost use Rattle.uses.specs.Rules.{summed};
ghost use Rattle.uses.specs.declared.rules.Rule.{Rule};

use crate::sums::sum_of_names;
use std::alloc::Global;
use tera::meaning::refusals::refusals_are_passed_on;
use tera::{Context, TeraResult, Value};

/// A rule: a name takes the sum of what two names hold.
#[derive(Debug, Drop)]
pub struct Rule {
    /// The name that takes it.
    pub into: String,
    /// The names whose values are added up.
    pub left: String,
    pub right: String,
}

/// Follows the rules, one after another, up to the first one that is refused. What was followed
/// before stays done. Where none is refused, names that were held are held still.
///
/// Refuses as the first sum that is refused. Takes memory; want of it, `Out of memory`, may be
/// answered in its place.
pub fn follow(alloc: Global, context: &mut Context, rules: &[Rule]) -> TeraResult<()>
    ensures ok { OnOk result (stepped summed context.old rules.now ≡ Ok context.new) }
    ensures each { OnOk result ((before : List Rule) (rule : Rule) (behind : List Rule)
        → rules.now ≡ before ++ rule ∷ behind
        → (mid : State) × (stepped summed context.old before ≡ Ok mid)
        × IsOk (summed mid rule)) }
    ensures held { OnOk result ((name : List ℕ) → IsTrue (is_some (get context.old name))
        → IsTrue (is_some (get context.new name))) }
    ensures left { OnErr result ((done : ℕ)
        × (stepped summed context.old (take done rules.now) ≡ Ok context.new)) }
    ensures err { IfErr result (Refuses (stepped summed context.old rules.now)) }
{
    for rule in rules {
        follow_one(alloc, context, rule)?;
    }
    Ok(())
}

// Follows a rule, or leaves all as it was.
fn follow_one(alloc: Global, context: &mut Context, rule: &Rule) -> TeraResult<()>
    ensures ok { OnOk result (summed context.old rule.now ≡ Ok context.new) }
    ensures err { IfErr result (Refuses (summed context.old rule.now)) }
    ensures left { OnErr result (context.new ≡ context.old) }
{
    refusals_are_passed_on();
    let sum = sum_of_names(alloc, context, rule.left.as_str(), rule.right.as_str())?;
    context.insert_value(rule.into.as_str(), sum)
}
