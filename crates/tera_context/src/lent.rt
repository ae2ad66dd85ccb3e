//! What a context lends in the place of an answer.
ghost use Rattle.std.specs.Prelude.{◌≡◌, IfSome};
ghost use Rattle.std.specs.Option.{option_copied, option_map};
ghost use Rattle.tera_meaning.specs.Lookup;
ghost use Rattle.tera_meaning.specs.Outcome.{Outcome};
ghost use Rattle.tera_meaning.specs.Path;
ghost use Rattle.tera_meaning.specs.State.{form_at};
ghost use Rattle.tera_meaning.specs.Step.{IsStep};
ghost use Rattle.tera_context.specs.Lent.{lent_at, lent_form, part_lent, search_lent};
ghost use Rattle.tera_context.specs.Lent.{StandsFor};
ghost use Rattle.tera_context.specs.Request.{command_form, search_form};

use crate::context::Context;
use crate::known::{Known, computed, known_of, known_of_two};
use crate::request::{Command, Question, Request, Search};
use tera_values::Value;

/// What answers a request without memory: what it finds or prints, as the context holds it, or what
/// it tells.
#[derive(Debug, Drop)]
pub enum Lent<'a> {
    /// What is found, or nothing: the answer `Found`.
    Found(Option<&'a Value>),
    /// The value whose printed text is the answer `Text`.
    Print(&'a Value),
    /// An answer that takes no memory.
    Tell(Known),
}

/// What stands for the answer of a command that keeps nothing, lent: what `Get`, `Path` and `Attr`
/// find, or nothing; what `Item` finds in a map or an array; what `Print` prints; and what `Known`
/// lists. Takes no memory.
///
/// `None` of each other command, where nothing is at that item or is computed, and where the name
/// to print is absent: these are for `answer`.
#[tactic(auto, using(tera_meaning::proofs::LookupLaws::held))]
pub fn lend<'a>(context: &'a Context, command: &'a Command<'_>) -> Option<Lent<'a>>
    ensures lent { option_map lent_form result ≡ lent_at context.now (command_form command.now) }
    ensures step { IfSome result (λ lent. (outcome : Outcome) → StandsFor (lent_form lent) outcome
        → IsStep context.now (command_form command.now) outcome context.now) }
{
    if command.into.is_some() {
        return None;
    }
    match &command.request {
        Request::Find(search) => search_lent(context, search),
        Request::Ask { question, name } => match question {
            Question::Print => Some(Lent::Print(context.get(name)?)),
            _ => Some(Lent::Tell(known_of(context, *question, name)?)),
        },
        Request::Weigh {
            weighing,
            left,
            right,
        } => Some(Lent::Tell(known_of_two(context, *weighing, left, right)?)),
        _ => None,
    }
}

// What is found: a part, or what an operator computes. `None` where it has to be copied or made,
// and where nothing is computed.
#[inline(always)]
fn search_lent<'a>(context: &'a Context, search: &'a Search<'_>) -> Option<Lent<'a>>
    ensures { option_map lent_form result ≡ search_lent context.now (search_form search.now) }
{
    match search {
        Search::Binary { op, left, right } => {
            Some(Lent::Tell(computed(context, *op, left, right)?))
        }
        _ => Some(Lent::Found(part_lent(context, search)?)),
    }
}

// What is found by lending it, or nothing. `None` where it has to be copied or made.
#[inline(always)]
fn part_lent<'a>(context: &'a Context, search: &'a Search<'_>) -> Option<Option<&'a Value>>
    ensures { option_map option_copied result ≡ part_lent context.now (search_form search.now) }
{
    match search {
        Search::Get { name } => Some(context.get(name)),
        Search::Path { of, path } => Some(path_from(context, of, path)),
        Search::Attr { of, attr } => Some(attr_of(context, of, attr)),
        Search::Item { of, item } => Some(Some(item_of(context, of, item)?)),
        _ => None,
    }
}

// What a path leads to from the value of a name.
fn path_from<'a>(context: &'a Context, of: &str, path: &'a str) -> Option<&'a Value>
    ensures { option_copied result ≡ Path.path (form_at context.now of.now) path.now }
{
    context.get(of)?.get_from_path(path)
}

// What the value of a name has at a text.
fn attr_of<'a>(context: &'a Context, of: &str, attr: &'a str) -> Option<&'a Value>
    ensures { option_copied result ≡ Lookup.attr (form_at context.now of.now) attr.now }
{
    context.get(of)?.get_attr(attr)
}

// The item that the value of a name holds, by the value of another.
#[inline(always)]
#[tactic(auto, using(crate::proofs::LentLemmas::none_at_undefined))]
fn item_of<'a>(context: &'a Context, of: &str, item: &str) -> Option<&'a Value>
    ensures { option_copied result
        ≡ Lookup.held_item (form_at context.now of.now) (form_at context.now item.now) }
{
    context.get(of)?.get_at(context.get(item)?)
}
