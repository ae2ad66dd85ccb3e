//! What the expression of a tag stands for.
ghost use Rattle.std.specs.Prelude.{◌≡◌, IfOk, IfErr, Ok};
ghost use Rattle.tera.specs.Form.{Form};
ghost use Rattle.tera_page.specs.Failures.{Fails};
ghost use Rattle.tera_page.specs.Rendering.{items_of, pairs_of, placed};
ghost use Rattle.tera_page.specs.Values.{is_true, value_of};
ghost use Rattle.tera_page.specs.View.{expression_of, form_of, state_of, written_of};

use crate::failure::Failure;
use crate::refused::{no_array_at, no_map_at, nothing_at};
use crate::scope::Scope;
use crate::tree::Written;
use crate::value::{Held, value_of};
use std::alloc::Global;
use tera::{Error, Map, Value};

/// What an expression stands for.
#[tactic(auto, using(crate::proofs::Failing::fails_at))]
pub(crate) fn value_at<'a, 't>(
    alloc: Global,
    written: &'a Written<'t>,
    scope: &'a Scope<'a>,
) -> Result<Held<'a>, Failure<'t>>
    ensures ok { IfOk result (λ held.
        value_of (expression_of written.now.expression) (state_of scope.now) ≡ Ok (form_of held)) }
    ensures err { IfErr result (Fails (placed (written_of written.now)
        (value_of (expression_of written.now.expression) (state_of scope.now)))) }
{
    match value_of(alloc, &written.expression, scope) {
        Ok(held) => Ok(held),
        Err(error) => Err(failed_at(written, error)),
    }
}

/// That what an expression is for is refused by that error.
pub(crate) fn failed_at<'t>(written: &Written<'t>, error: Error) -> Failure<'t>
    ensures error { result.error ≡ error }
    ensures from { result.from.now ≡ written.now.from.now }
{
    Failure {
        error,
        from: written.from,
    }
}

/// Whether what an expression stands for counts as true.
pub(crate) fn is_true<'a, 't>(
    alloc: Global,
    test: &'a Written<'t>,
    scope: &'a Scope<'a>,
) -> Result<bool, Failure<'t>>
    ensures ok { IfOk result (λ answer. (v : Form)
        × (value_of (expression_of test.now.expression) (state_of scope.now) ≡ Ok v)
        × (answer ≡ is_true v)) }
    ensures err { IfErr result (Fails (placed (written_of test.now)
        (value_of (expression_of test.now.expression) (state_of scope.now)))) }
{
    Ok(value_at(alloc, test, scope)?.value().is_truthy())
}

/// The items of an array, for which an expression stands.
#[tactic(auto, using(crate::proofs::Failing::fails_at))]
pub(crate) fn items_of<'a, 't>(
    alloc: Global,
    over: &Written<'t>,
    value: &'a Value,
) -> Result<&'a [Value], Failure<'t>>
    ensures ok { IfOk result (λ items. items_of over.now.text.now value.now ≡ Ok items.now) }
    ensures err { IfErr result
        (Fails (placed (written_of over.now) (items_of over.now.text.now value.now))) }
{
    if value.is_undefined() {
        return Err(failed_at(over, nothing_at(alloc, over.text)));
    }
    match value.as_array() {
        Some(items) => Ok(items),
        None => Err(failed_at(over, no_array_at(alloc, over.text))),
    }
}

/// The pairs of a map, for which an expression stands.
#[tactic(auto, using(crate::proofs::Failing::fails_at))]
pub(crate) fn pairs_of<'a, 't>(
    alloc: Global,
    over: &Written<'t>,
    value: &'a Value,
) -> Result<&'a Map, Failure<'t>>
    ensures ok { IfOk result (λ pairs. pairs_of over.now.text.now value.now ≡ Ok pairs.now) }
    ensures err { IfErr result
        (Fails (placed (written_of over.now) (pairs_of over.now.text.now value.now))) }
{
    if value.is_undefined() {
        return Err(failed_at(over, nothing_at(alloc, over.text)));
    }
    match value.as_map() {
        Some(pairs) => Ok(pairs),
        None => Err(failed_at(over, no_map_at(alloc, over.text))),
    }
}
