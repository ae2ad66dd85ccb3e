//! What collections answer where a part or a key refuses with an error of its own.
ghost use Rattle.std.specs.Prelude.{⊤};

use crate::arguments::made::{one_of, row_of, set_of, table_of, tree_of, two_of, with_item};
use crate::held::{Seen, hold, shows, unwanted};
use indexmap::IndexMap;
use std::alloc::Global;
use tera_arguments::Kwargs;
use tera_conversions::{ToKey, ToValue};
use tera_report::{Error, TeraResult};
use tera_values::{Key, Value};

// A part that gives none, or refuses with an error of that number.
#[derive(PartialEq, Eq, PartialOrd, Ord, Drop)]
enum Part {
    Gives,
    Refuses(u8),
}

impl ToValue for Part {
    ghost gives = { λ _ _. ⊤ };

    ghost refuses = { λ _ _. ⊤ };

    fn to_value(self, alloc: Global) -> TeraResult<Value> {
        match self {
            Part::Gives => Ok(Value::none()),
            Part::Refuses(number) => Err(error_of(alloc, number)),
        }
    }
}

// A key that refuses with an error of its number.
#[derive(PartialEq, Eq, PartialOrd, Ord, Hash, Drop)]
struct Unfit {
    number: u8,
}

impl ToKey for Unfit {
    ghost gives_key = { λ _ _. ⊥ };

    ghost refuses_key = { λ _ _. ⊤ };

    fn to_key(self, alloc: Global) -> TeraResult<Key<'static>> {
        Err(error_of(alloc, self.number))
    }

    ghost apart = { λ a b j k given. absurd given };
}

// An error of that number, with a cause.
fn error_of(alloc: Global, number: u8) -> Error {
    let text = format!(in alloc; "é {number}").unwrap_or(String::new(alloc));
    Error::chain(alloc, text.as_str(), anyhow::anyhow!("the cause"))
}

// A map whose two entries refuse, by their keys and by their values.
fn unfit_row(alloc: Global) -> IndexMap<Unfit, Part> {
    let first = (Unfit { number: 1 }, Part::Refuses(2));
    row_of(alloc, first, (Unfit { number: 3 }, Part::Refuses(4)))
}

// It is refused with the error of that number, in the words of Debug, which tell the cause too.
fn refuses<T: ToValue>(alloc: Global, source: T, wanted: &str) -> Seen {
    match source.to_value(alloc) {
        Err(error) => is_told(alloc, error, wanted),
        Ok(made) => unwanted(alloc, made, wanted),
    }
}

fn is_told(alloc: Global, error: Error, wanted: &str) -> Seen {
    let row = shows(alloc, &error, wanted);
    drop(error);
    row
}

// A part that gives none, and two that refuse.
fn two_refuse(alloc: Global) -> Vec<Part> {
    with_item(
        two_of(alloc, Part::Gives, Part::Refuses(2)),
        Part::Refuses(1),
    )
}

#[test]
fn the_first_refusal_of_a_part_is_passed_on(rt: HostRuntime) {
    let alloc = rt.alloc();
    let first = "Error { kind: Msg(\"é 1\"), source: Some(the cause) }";
    let second = "Error { kind: Msg(\"é 2\"), source: Some(the cause) }";
    hold!(
        &rt,
        [
            refuses(alloc, Some(Part::Refuses(1)), first),
            refuses(alloc, one_of(alloc, Part::Refuses(1)), first),
            refuses(alloc, two_refuse(alloc), second),
            refuses(alloc, one_of(alloc, two_refuse(alloc)), second),
            refuses(
                alloc,
                set_of(alloc, Part::Refuses(2), Part::Refuses(1)),
                first,
            ),
            refuses(alloc, set_of(alloc, Part::Refuses(2), Part::Gives), second),
        ],
    );
}

#[test]
fn the_first_refusal_of_a_value_is_passed_on(rt: HostRuntime) {
    let alloc = rt.alloc();
    let first = "Error { kind: Msg(\"é 1\"), source: Some(the cause) }";
    let second = "Error { kind: Msg(\"é 2\"), source: Some(the cause) }";
    let row = row_of(alloc, ("b", Part::Refuses(2)), ("a", Part::Refuses(1)));
    let later = row_of(alloc, ("a", Part::Gives), ("b", Part::Refuses(1)));
    hold!(
        &rt,
        [
            refuses(alloc, row, second),
            refuses(alloc, later, first),
            refuses(alloc, tree_of(alloc, "a", Part::Refuses(1)), first),
            refuses(alloc, table_of(alloc, "a", Part::Refuses(1)), first),
        ],
    );
}

#[test]
fn the_refusal_of_a_key_comes_first(rt: HostRuntime) {
    let alloc = rt.alloc();
    let first = "Error { kind: Msg(\"é 1\"), source: Some(the cause) }";
    hold!(
        &rt,
        [
            refuses(alloc, unfit_row(alloc), first),
            refuses(
                alloc,
                tree_of(alloc, Unfit { number: 1 }, Part::Refuses(2)),
                first,
            ),
            refuses(
                alloc,
                table_of(alloc, Unfit { number: 1 }, Part::Refuses(2)),
                first,
            ),
        ],
    );
}

// A pair whose key refuses with the error of that number.
fn make_unfit(number: u8) -> (Unfit, Value) {
    (Unfit { number }, Value::none())
}

// The arguments are refused with that error.
fn are_refused(alloc: Global, made: TeraResult<Kwargs>, wanted: &str) -> Seen {
    match made {
        Err(error) => is_told(alloc, error, wanted),
        Ok(made) => unwanted(alloc, made, wanted),
    }
}

#[test]
fn the_refusal_of_a_key_of_arguments_is_passed_on(rt: HostRuntime) {
    let alloc = rt.alloc();
    let first = "Error { kind: Msg(\"é 1\"), source: Some(the cause) }";
    let one = Kwargs::from_pairs(alloc, [make_unfit(1)]);
    let two = Kwargs::from_pairs(alloc, [make_unfit(1), make_unfit(2)]);
    hold!(
        &rt,
        [
            are_refused(alloc, one, first),
            are_refused(alloc, two, first),
        ],
    );
}
