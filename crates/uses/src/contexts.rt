//! Values under names: one that is compared, and one that is shown.
ghost use Rattle.std.specs.Prelude.{◌≡◌, ◌↔◌, ℕ, List, pos, IsTrue, IfOk, IfErr};
ghost use Rattle.std.specs.String.{string_bytes};
ghost use Rattle.tera.specs.Errors.{IsOutOfMemory};
ghost use Rattle.tera.specs.Escaping.{Spells};
ghost use Rattle.tera.specs.Order.{same};
ghost use Rattle.tera.specs.Quoted.{Prints};
ghost use Rattle.tera.specs.State.{layout_at, meaning_at};
ghost use Rattle.tera.specs.Tree.{number};

use std::alloc::Global;
use tera::{Context, TeraResult, Value, escape_text};

/// Whether a name means the number one, in whatever kind of integer it is held.
pub fn is_one(context: &Context, name: &str) -> bool
    ensures { result ≡ same (meaning_at context.now name.now) (number (pos 1)) }
{
    let absent = Value::undefined();
    let value = context.get(name).unwrap_or(&absent);
    *value == Value::from(1u8)
}

/// Whether two names mean the same.
pub fn mean_the_same(context: &Context, left: &str, right: &str) -> bool
    ensures { IsTrue result
        ↔ (meaning_at context.now left.now ≡ meaning_at context.now right.now) }
{
    let absent = Value::undefined();
    let left = context.get(left).unwrap_or(&absent);
    let right = context.get(right).unwrap_or(&absent);
    *left == *right
}

/// What a name holds, printed and escaped, marked safe or not. `Out of memory` is the only refusal.
pub fn escaped_print(alloc: Global, context: &Context, name: &str) -> TeraResult<String>
    ensures ok { IfOk result (λ word. (text : List ℕ)
        × Prints (layout_at context.now name.now) text × Spells (string_bytes word) text) }
    ensures err { IfErr result IsOutOfMemory }
{
    let absent = Value::undefined();
    let text = context.get(name).unwrap_or(&absent).to_text(alloc)?;
    escape_text(alloc, text.as_str())
}
