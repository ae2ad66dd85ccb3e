//! Contexts by their entries.
ghost use Rattle.std.specs.Prelude.{◌≡◌, ◌⊎◌, codes, pos, IfOk, IfErr};
ghost use Rattle.std.specs.FinMap.{empty, insert};
ghost use Rattle.std.specs.String.{string_bytes};
ghost use Rattle.tera_meaning.specs.Form.{Form};
ghost use Rattle.tera_meaning.specs.Integer.{i64};
ghost use Rattle.tera_meaning.specs.Rows.{held, normal};
ghost use Rattle.tera_report.specs.Errors.{IsOutOfMemory};

use crate::context;
use std::alloc::Global;
use tera_conversions::ToValue;
use tera_report::TeraResult;

/// Makes a context: `context! { alloc; name => value, bare, .. }` keeps what each value gives under
/// its name, one after another, and what a local variable gives, lent, under its own name. Any
/// number of commas may follow an entry. Mirrors `context!`.
///
/// It stands where a `tera_report::Error` can be returned by `?`: that of a value, or
/// `Out of memory`. Takes memory.
#[macro_export]
macro_rules! context {
    ($alloc:expr; $($name:ident $(=> $value:expr)? $(,)*)*) => {{
        let alloc = $alloc;
        let mut context = $crate::Context::new(alloc);
        $($crate::insert_entry!(context, alloc, $name $(=> $value)?);)*
        context
    }};
}

/// One entry of `context!`. Mirrors `__context_insert!`.
#[macro_export]
macro_rules! insert_entry {
    ($context:ident, $alloc:ident, $name:ident => $value:expr) => {
        $context.insert_value(stringify!($name), $crate::ToValue::to_value($value, $alloc)?)?
    };
    ($context:ident, $alloc:ident, $name:ident) => {
        $crate::insert_entry!($context, $alloc, $name => &$name)
    };
}

// No entries give nothing.
fn no_entries(alloc: Global) -> crate::Context
    ensures { result ≡ empty }
{
    context! { alloc; }
}

// What the entries of both forms give.
fn both_forms(alloc: Global) -> TeraResult<crate::Context>
    ensures ok { IfOk result (λ context. context
        ≡ insert (insert empty (codes "foo") (normal (codes "Bar"))) (codes "con") (held i64 69)) }
    ensures err { IfErr result IsOutOfMemory }
{
    let foo = "Bar";
    let con = 69i64;
    Ok(context! { alloc; foo, con => con,, })
}

// What a value refuses is passed on, and the later of equal names stands.
fn of_any_value<T: ToValue>(alloc: Global, first: T) -> TeraResult<crate::Context>
    ensures ok { IfOk result (λ context. (value : Form) × T.gives first value
        × (context ≡ insert (insert empty (codes "name") value) (codes "name") (held i64 69))) }
    ensures err { IfErr result (λ e. T.refuses first e
        ⊎ (IsOutOfMemory e × (value : Form) × T.gives first value)) }
{
    Ok(context! { alloc; name => first, name => 69i64 })
}

// A bare name is lent, whatever it holds.
fn of_bare_name(alloc: Global, text: String) -> TeraResult<(crate::Context, String)>
    ensures ok { IfOk result (λ made.
        (made.0 ≡ insert empty (codes "text") (normal (string_bytes text))) × (made.1 ≡ text)) }
    ensures err { IfErr result IsOutOfMemory }
{
    let made = context! { alloc; text };
    Ok((made, text))
}
