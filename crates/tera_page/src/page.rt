//! The page of a template.
ghost use Rattle.std.specs.Prelude.{◌≡◌, ◌++◌, ℕ, List, IfOk, IfErr, Ok, OnOk};
ghost use Rattle.std.specs.Prelude.{length, nat_eq, not};
ghost use Rattle.std.specs.String.{string_bytes};
ghost use Rattle.tera.specs.Errors.{IsOutOfMemory, Refuses};
ghost use Rattle.tera.specs.Growing.{grown_bytes};
ghost use Rattle.tera_page.specs.Failures.{Fails, Reports};
ghost use Rattle.tera_page.specs.Headline.{BringsNoTag};
ghost use Rattle.tera_page.specs.Rendering.{Grows, IsPageOf, Names, ShowsPiece, after};
ghost use Rattle.tera_page.specs.Rendering.{all_after, all_pieces, each, loop_names, named_items};
ghost use Rattle.tera_page.specs.Rendering.{named_pairs, pieces, turns, unplaced};
ghost use Rattle.tera_page.specs.Rendering;
ghost use Rattle.tera_page.specs.Template.{Parts, loop, show};
ghost use Rattle.tera_page.specs.View.{bound_of, part_of, parts_of, showing_of, state_of};
ghost use Rattle.tera_page.specs.View.{state_with, tree_of, written_of};

use crate::failure::Failure;
use crate::laws::values_bring_no_tag;
use crate::refused::nothing_at;
use crate::scope::{Scope, Turn};
use crate::set::{inside, put_set};
use crate::tree::{Bound, Node, Showing, Template, Written};
use crate::written::{failed_at, is_true, items_of, pairs_of, value_at};
use std::alloc::Global;
use tera::sink::{Growing, Sink};
use tera::{Context, Map, TeraResult, Value, show_in_page};

/// The page of a template, whose names stand for what the context holds and the template sets, and
/// inside a loop for its items and turns. A value is shown as it prints, escaped unless it is safe:
/// what is not marked safe brings no tag, and ends no quoted attribute.
///
/// Refuses the first expression E that is shown or looped over and stands for nothing, or for
/// undefined, with ``Nothing is found at `E` ``, without the last blank. Refuses the first loop by
/// one name over no array with ``What is found at `E` is no array``, and by two over no map with
/// ``What is found at `E` is no map``. Refuses what an operator of an expression refuses, in the
/// words of [`tera::value::number::calculate`], `negate` and `contains`, and what a filter refuses,
/// in those of [`crate::Filter::apply`]. A condition that is a place
/// alone is false where nothing is found.
///
/// Takes memory for the page, for a key that is a text, for what is set, for what filters make and
/// are given, and for the words of a refusal; want of it is answered by `Out of memory`.
pub fn render<'a, 't>(
    alloc: Global,
    template: &'a Template<'t>,
    context: &'a Context,
) -> TeraResult<String>
    ensures ok { IfOk result (λ page.
        IsPageOf (all_pieces (tree_of template.now) context.now) (string_bytes page)) }
    ensures headline { IfOk result (λ page.
        BringsNoTag (all_pieces (tree_of template.now) context.now) (string_bytes page)) }
    ensures err { IfErr result
        (Refuses (unplaced (all_pieces (tree_of template.now) context.now))) }
{
    match page_of(alloc, template, context) {
        Ok(page) => Ok(page),
        Err(failed) => Err(failed.error),
    }
}

/// The page of a template that the text of a file of that name spells: what `render` answers, but
/// what is refused is a report, which shows the tag around it in the text: its line, counted from
/// 1, its column in characters, counted from 0, and its bytes.
///
/// Takes memory for the report too; want of it is answered by `Out of memory`, without a place.
pub fn render_named<'a, 't>(
    alloc: Global,
    name: &str,
    text: &str,
    template: &'a Template<'t>,
    context: &'a Context,
) -> TeraResult<String>
    ensures ok { IfOk result (λ page.
        IsPageOf (all_pieces (tree_of template.now) context.now) (string_bytes page)) }
    ensures headline { IfOk result (λ page.
        BringsNoTag (all_pieces (tree_of template.now) context.now) (string_bytes page)) }
    ensures err { IfErr result
        (Reports name.now text.now (all_pieces (tree_of template.now) context.now)) }
{
    match page_of(alloc, template, context) {
        Ok(page) => Ok(page),
        Err(failed) => Err(failed.into_report(alloc, name, text)),
    }
}

// The page of a template, or why it has none.
fn page_of<'a, 't>(
    alloc: Global,
    template: &'a Template<'t>,
    context: &'a Context,
) -> Result<String, Failure<'t>>
    ensures ok { IfOk result (λ page.
        IsPageOf (all_pieces (tree_of template.now) context.now) (string_bytes page)) }
    ensures headline { IfOk result (λ page.
        BringsNoTag (all_pieces (tree_of template.now) context.now) (string_bytes page)) }
    ensures err { IfErr result (Fails (all_pieces (tree_of template.now) context.now)) }
{
    values_bring_no_tag();
    let mut page = Growing::new(alloc);
    put_body(alloc, template.nodes(), &Scope::Context(context), &mut page)?;
    Ok(page.into_text())
}

// Puts parts, which keep to themselves what they set.
#[cycle(put)]
fn put_body<'a, 't>(
    alloc: Global,
    nodes: &'a [Node<'t>],
    scope: &'a Scope<'a>,
    page: &mut Growing,
) -> Result<(), Failure<'t>>
    ensures ok { OnOk result (Grows (all_pieces (parts_of nodes.now) (state_of scope.now))
        (grown_bytes page.old) (grown_bytes page.new)) }
    ensures err { IfErr result (Fails (all_pieces (parts_of nodes.now) (state_of scope.now))) }
{
    let mut names = None;
    put_nodes(alloc, nodes, scope, &mut names, page)
}

// Puts parts, one behind the other, and sets names.
#[cycle(put)]
fn put_nodes<'a, 't>(
    alloc: Global,
    nodes: &'a [Node<'t>],
    scope: &'a Scope<'a>,
    names: &mut Option<Context>,
    page: &mut Growing,
) -> Result<(), Failure<'t>>
    ensures ok { OnOk result
        (Grows (all_pieces (parts_of nodes.now) (state_with scope.now names.old))
        (grown_bytes page.old) (grown_bytes page.new)) }
    ensures after { OnOk result (state_with scope.now names.new
        ≡ all_after (parts_of nodes.now) (state_with scope.now names.old)) }
    ensures err { IfErr result
        (Fails (all_pieces (parts_of nodes.now) (state_with scope.now names.old))) }
{
    for node in nodes {
        put_node(alloc, node, scope, names, page)?;
    }
    Ok(())
}

// Puts a part, or sets a name.
#[cycle(put)]
#[tactic(auto, using(crate::proofs::Failing::fails_want))]
fn put_node<'a, 't>(
    alloc: Global,
    node: &'a Node<'t>,
    scope: &'a Scope<'a>,
    names: &mut Option<Context>,
    page: &mut Growing,
) -> Result<(), Failure<'t>>
    ensures ok { OnOk result (Grows (pieces (part_of node.now) (state_with scope.now names.old))
        (grown_bytes page.old) (grown_bytes page.new)) }
    ensures after { OnOk result (state_with scope.now names.new
        ≡ after (part_of node.now) (state_with scope.now names.old)) }
    ensures err { IfErr result
        (Fails (pieces (part_of node.now) (state_with scope.now names.old))) }
{
    match node {
        Node::Text(text) => Ok(page.put(*text)?),
        Node::Comment(_) => Ok(()),
        Node::Show { written, how } => {
            let inner = inside(scope, &*names);
            put_written(alloc, written, *how, &inner, page)
        }
        Node::Set { name, written } => put_set(alloc, *name, written, scope, names),
        Node::If {
            test,
            then,
            otherwise,
        } => {
            let inner = inside(scope, &*names);
            let holds = is_true(alloc, test, &inner)?;
            if holds {
                put_nodes(alloc, then.as_slice(), scope, names, page)
            } else {
                put_nodes(alloc, otherwise.as_slice(), scope, names, page)
            }
        }
        Node::For {
            bound,
            over,
            body,
            otherwise,
        } => {
            let inner = inside(scope, &*names);
            if put_turns(alloc, *bound, over, body.as_slice(), &inner, page)? {
                Ok(())
            } else {
                put_body(alloc, otherwise.as_slice(), &inner, page)
            }
        }
    }
}

// Puts parts in each turn of a loop, and says whether it has one.
#[cycle(put)]
#[tactic(auto, using(crate::proofs::Failing::fails_want))]
fn put_turns<'a, 't>(
    alloc: Global,
    bound: Bound<'a>,
    over: &'a Written<'t>,
    body: &'a [Node<'t>],
    scope: &'a Scope<'a>,
    page: &mut Growing,
) -> Result<bool, Failure<'t>>
    ensures ok { IfOk result (λ turned. (all : List Names)
        × (loop_names (bound_of bound.entry) (written_of over.now) (state_of scope.now) ≡ Ok all)
        × Grows (each (all_pieces (parts_of body.now)) (turns (state_of scope.now) all))
        (grown_bytes page.old) (grown_bytes page.new) × (turned ≡ not (nat_eq (length all) 0))) }
    ensures err { IfErr result (λ failed. (otherwise : Parts)
        → Fails (pieces (loop (bound_of bound.entry) (written_of over.now) (parts_of body.now)
        otherwise) (state_of scope.now)) failed) }
{
    let held = value_at(alloc, over, scope)?;
    match bound {
        Bound::Item(name) => {
            let items = items_of(alloc, over, held.value())?;
            put_each(alloc, &*body, &*name, items, &*scope, page)?;
            Ok(!items.is_empty())
        }
        Bound::Pair(key_name, name) => {
            let pairs = pairs_of(alloc, over, held.value())?;
            put_pairs(alloc, &*body, &*key_name, &*name, pairs, &*scope, page)?;
            Ok(!pairs.is_empty())
        }
    }
}

// Puts parts for each item, under a name, and with the names of its turn.
#[cycle(put)]
fn put_each<'a, 't>(
    alloc: Global,
    body: &'a [Node<'t>],
    name: &'a str,
    items: &'a [Value],
    scope: &'a Scope<'a>,
    page: &mut Growing,
) -> Result<(), Failure<'t>>
    ensures ok { OnOk result (Grows (each (all_pieces (parts_of body.now))
        (turns (state_of scope.now) (named_items name.now items.now)))
        (grown_bytes page.old) (grown_bytes page.new)) }
    ensures err { IfErr result (Fails (each (all_pieces (parts_of body.now))
        (turns (state_of scope.now) (named_items name.now items.now)))) }
{
    for (at, value) in items.iter().enumerate() {
        let turn = Turn::new(at, items.len());
        let around = Scope::Turn {
            turn: &turn,
            outer: &*scope,
        };
        let inner = Scope::Item {
            name: &*name,
            value: &*value,
            outer: &around,
        };
        put_body(alloc, &*body, &inner, page)?;
    }
    Ok(())
}

// Puts parts for each pair, its key and its value each under a name, and with the names of its
// turn.
#[cycle(put)]
fn put_pairs<'a, 't>(
    alloc: Global,
    body: &'a [Node<'t>],
    key_name: &'a str,
    name: &'a str,
    pairs: &'a Map,
    scope: &'a Scope<'a>,
    page: &mut Growing,
) -> Result<(), Failure<'t>>
    ensures ok { OnOk result (Grows (each (all_pieces (parts_of body.now))
        (turns (state_of scope.now) (named_pairs key_name.now name.now pairs.now)))
        (grown_bytes page.old) (grown_bytes page.new)) }
    ensures err { IfErr result (Fails (each (all_pieces (parts_of body.now))
        (turns (state_of scope.now) (named_pairs key_name.now name.now pairs.now)))) }
{
    let mut at = 0usize;
    for (key, value) in pairs.iter() {
        let key = key.as_value(alloc)?;
        let turn = Turn::new(at, pairs.len());
        let around = Scope::Turn {
            turn: &turn,
            outer: &*scope,
        };
        let outer = Scope::Item {
            name: &*key_name,
            value: &key,
            outer: &around,
        };
        let inner = Scope::Item {
            name: &*name,
            value: &*value,
            outer: &outer,
        };
        put_body(alloc, &*body, &inner, page)?;
        at = at.saturating_add(1);
    }
    Ok(())
}

// Puts what an expression stands for.
#[tactic(auto, using(crate::proofs::Failing::fails_want))]
fn put_written<'a, 't>(
    alloc: Global,
    written: &'a Written<'t>,
    how: Showing,
    scope: &'a Scope<'a>,
    page: &mut Growing,
) -> Result<(), Failure<'t>>
    ensures ok { OnOk result (Grows
        (pieces (show (written_of written.now) (showing_of how)) (state_of scope.now))
        (grown_bytes page.old) (grown_bytes page.new)) }
    ensures err { IfErr result
        (Fails (pieces (show (written_of written.now) (showing_of how)) (state_of scope.now))) }
{
    let held = value_at(alloc, written, scope)?;
    let value = held.value();
    if value.is_undefined() {
        return Err(failed_at(written, nothing_at(alloc, written.text)));
    }
    Ok(put_value(value, how, page)?)
}

// Puts a value as a page shows it, or as it prints.
fn put_value(value: &Value, how: Showing, page: &mut Growing) -> TeraResult<()>
    ensures ok { OnOk result ((shown : List ℕ)
        × ShowsPiece (Rendering.value (showing_of how) value.now) shown
        × (grown_bytes page.new ≡ grown_bytes page.old ++ shown)) }
    ensures err { IfErr result IsOutOfMemory }
{
    match how {
        Showing::InPage => Ok(show_in_page(value, page)?),
        Showing::AsPrinted => Ok(value.print_to(page)?),
    }
}
