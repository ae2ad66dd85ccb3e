//! Arguments by their names, and texts as they are shown.
ghost use Rattle.tera_report.specs.Errors.{IsOutOfMemory};

use crate::answers::tell;
use crate::arguments::{own_text, taken};
use crate::made::{Made, map};
use std::alloc::Global;
use tera_arguments::{Autoescape, Kwargs, StringInput};
use tera_report::{TeraResult, escape_text, one_spelling};
use tera_values::Value;

// A page, on which texts are escaped.
#[derive(Drop)]
struct Page;

impl Autoescape for Page {
    ghost use Rattle.std.specs.Prelude.{true};
    ghost use Rattle.tera_report.specs.Escaping.{escaped as escaped_text};

    ghost escapes = { λ _. true };

    ghost escaped = { λ _ text. escaped_text text };

    ghost refuses = { λ _ _ e. IsOutOfMemory e };

    fn autoescaping_enabled(&self) -> bool {
        true
    }

    fn escape(&self, alloc: Global, text: &str) -> TeraResult<String> {
        one_spelling();
        escape_text(alloc, text)
    }
}

/// Arguments by their names.
pub fn tell_named(rt: &(impl Print + AllocGlobal), made: &Made) -> TeraResult<()> {
    let alloc = rt.alloc();
    tell_pairs(rt, made.plain.clone(alloc)?);
    tell_copy(rt, Kwargs::new(map(alloc, made.count)?));
    tell_taken(rt, Kwargs::new(map(alloc, 2)?));
    Ok(())
}

fn tell_pairs(rt: &(impl Print + AllocGlobal), text: Value) {
    let pairs = [("m", text), ("n", Value::from(300u16))];
    let made = Kwargs::from_pairs(rt.alloc(), pairs);
    tell(rt, "Kwargs::from_pairs", made);
}

fn tell_copy(rt: &(impl Print + AllocGlobal), of: Kwargs) {
    let copy = of.clone(rt.alloc());
    drop(of);
    tell(rt, "Kwargs::clone", copy);
}

// What an argument is taken as, that is there or not.
fn tell_taken(rt: &(impl Print + AllocGlobal), of: Kwargs) {
    tell_gets(rt, &of);
    drop(of);
}

fn tell_gets(rt: &(impl Print + AllocGlobal), of: &Kwargs) {
    let alloc = rt.alloc();
    tell(rt, "Kwargs::get", of.get::<String>(alloc, "k1000"));
    tell(
        rt,
        "Kwargs::get of another type",
        of.get::<bool>(alloc, "k1001"),
    );
    tell(
        rt,
        "Kwargs::must_get",
        of.must_get::<String>(alloc, "k1001"),
    );
    tell(
        rt,
        "Kwargs::must_get of no argument",
        of.must_get::<u8>(alloc, "absent"),
    );
}

/// Texts, copied and shown.
pub fn tell_inputs(rt: &(impl Print + AllocGlobal), made: &Made) -> TeraResult<()> {
    let alloc = rt.alloc();
    let input: StringInput<'_> = taken(alloc, &made.plain)?;
    tell(rt, "StringInput::rendered", shown(alloc, &input));
    tell(rt, "StringInput::into_value", input.into_value(alloc));
    Ok(())
}

fn shown(alloc: Global, input: &StringInput<'_>) -> TeraResult<Option<String>> {
    Ok(own_text(input.rendered(alloc, &Page)?))
}
