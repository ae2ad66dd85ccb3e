//! Names that are set.
ghost use Rattle.std.specs.Prelude.{◌≡◌, [], IfErr, Ok, OnOk, unwrap_or};
ghost use Rattle.std.specs.FinMap.{empty, insert};
ghost use Rattle.tera.specs.Errors.{IsOutOfMemory};
ghost use Rattle.tera_page.specs.Failures.{Fails};
ghost use Rattle.tera_page.specs.Rendering.{after, pieces};
ghost use Rattle.tera_page.specs.Template.{assign};
ghost use Rattle.tera_page.specs.View.{state_of, state_with, written_of};

use crate::failure::Failure;
use crate::scope::Scope;
use crate::tree::Written;
use crate::written::value_at;
use std::alloc::Global;
use tera::value::HashState;
use tera::{Context, TeraResult, Value};

/// A scope with the names that were set in it, if there are any.
#[tactic(auto, using(crate::proofs::Views::none_set))]
pub(crate) fn inside<'a>(scope: &'a Scope<'a>, names: &'a Option<Context>) -> Scope<'a>
    ensures { state_of result ≡ state_with scope.now names.now }
{
    match names {
        Some(names) => Scope::Set {
            names,
            outer: scope,
        },
        None => *scope,
    }
}

/// Sets a name to what an expression stands for.
#[tactic(auto, using(crate::proofs::Failing::fails_want))]
pub(crate) fn put_set<'a, 't>(
    alloc: Global,
    name: &'a str,
    written: &'a Written<'t>,
    scope: &'a Scope<'a>,
    names: &mut Option<Context>,
) -> Result<(), Failure<'t>>
    ensures ok { OnOk result
        (pieces (assign name.now (written_of written.now)) (state_with scope.now names.old)
        ≡ Ok []) }
    ensures after { OnOk result (state_with scope.now names.new
        ≡ after (assign name.now (written_of written.now)) (state_with scope.now names.old)) }
    ensures err { IfErr result
        (Fails (pieces (assign name.now (written_of written.now))
        (state_with scope.now names.old))) }
{
    let inner = inside(&*scope, &*names);
    let value = value_at(alloc, written, &inner)?.into_value(alloc)?;
    Ok(set_name(alloc, name, value, scope.hasher(), names)?)
}

// Sets a name, of which the first makes the context.
fn set_name(
    alloc: Global,
    name: &str,
    value: Value,
    state: HashState,
    names: &mut Option<Context>,
) -> TeraResult<()>
    ensures ok { OnOk result
        (unwrap_or names.new empty ≡ insert (unwrap_or names.old empty) name.now value) }
    ensures err { IfErr result IsOutOfMemory }
{
    match names {
        Some(held) => held.insert_value(name, value),
        None => {
            let mut held = Context::with_hasher(alloc, state);
            held.insert_value(name, value)?;
            *names = Some(held);
            Ok(())
        }
    }
}
