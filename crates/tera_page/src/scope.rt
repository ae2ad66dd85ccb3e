//! What names stand for in a part of a template.
ghost use Rattle.std.specs.Prelude.{◌≡◌, ◌<◌, unwrap_or};
ghost use Rattle.std.specs.FinMap.{get};
ghost use Rattle.std.specs.Option.{option_copied};
ghost use Rattle.tera.specs.Tree.{undefined};
ghost use Rattle.tera_page.specs.Rendering.{stands_for, turn_names};
ghost use Rattle.tera_page.specs.Values.{found, led};
ghost use Rattle.tera_page.specs.View.{names_of, place_of, state_of};

use crate::tree::Place;
use tera::value::HashState;
use tera::{Context, Value};

/// The names of a context, those of the loops around, and those that were set.
#[derive(Clone, Copy)]
pub(crate) enum Scope<'a> {
    /// The names of a context.
    Context(&'a Context),
    /// The names of a turn of a loop, which hide those of a loop around.
    Turn {
        turn: &'a Turn,
        outer: &'a Scope<'a>,
    },
    /// One name more, which hides an outer one.
    Item {
        name: &'a str,
        value: &'a Value,
        outer: &'a Scope<'a>,
    },
    /// The names that were set in a part, which hide outer ones.
    Set {
        names: &'a Context,
        outer: &'a Scope<'a>,
    },
}

impl Scope<'_> {
    /// The state that names are hashed under.
    pub(crate) fn hasher(&self) -> HashState {
        match self {
            Scope::Context(context) => context.hasher(),
            Scope::Turn { outer, .. } => outer.hasher(),
            Scope::Item { outer, .. } => outer.hasher(),
            Scope::Set { names, .. } => names.hasher(),
        }
    }
}

/// What the names of a turn of a loop stand for.
#[derive(Drop)]
pub(crate) struct Turn {
    index: Value,
    index0: Value,
    first: Value,
    last: Value,
}

impl Turn {
    /// The turn behind so many others, where there are so many in all. Takes no memory.
    pub(crate) fn new(before: usize, all: usize) -> Turn
        ensures { before < all → names_of result ≡ turn_names before all }
    {
        let index = before.saturating_add(1);
        Turn {
            index: Value::from(index),
            index0: Value::from(before),
            first: Value::from(before == 0),
            last: Value::from(index == all),
        }
    }

    // What a name stands for.
    fn named(&self, name: &str) -> Option<&Value>
        ensures { option_copied result ≡ stands_for (names_of self.now) name.now }
    {
        if name == "loop.index" {
            Some(&self.index)
        } else if name == "loop.index0" {
            Some(&self.index0)
        } else if name == "loop.first" {
            Some(&self.first)
        } else if name == "loop.last" {
            Some(&self.last)
        } else {
            None
        }
    }
}

/// What is found at a place; nothing where nothing is.
pub(crate) fn found<'a>(scope: &'a Scope<'a>, at: Place<'a>) -> Option<&'a Value>
    ensures { unwrap_or (option_copied result) undefined
        ≡ found (state_of scope.now) (place_of at.entry) }
{
    led(named(scope, at.name)?, at.to)
}

// The value of a name: the innermost one.
fn named<'a>(scope: &'a Scope<'a>, name: &str) -> Option<&'a Value>
    ensures { option_copied result ≡ get (state_of scope.now) name.now }
{
    match scope {
        Scope::Context(context) => context.get(name),
        Scope::Turn { turn, outer } => match turn.named(name) {
            Some(value) => Some(value),
            None => named(*outer, name),
        },
        Scope::Item {
            name: bound,
            value,
            outer,
        } => {
            if *bound == name {
                Some(*value)
            } else {
                named(*outer, name)
            }
        }
        Scope::Set { names, outer } => match names.get(name) {
            Some(held) => Some(held),
            None => named(*outer, name),
        },
    }
}

// What a path leads to.
fn led<'a>(value: &'a Value, to: Option<&'a str>) -> Option<&'a Value>
    ensures { option_copied result ≡ led (option_copied to.entry) value.now }
{
    match to {
        None => Some(value),
        Some(to) => value.get_from_path(to),
    }
}
