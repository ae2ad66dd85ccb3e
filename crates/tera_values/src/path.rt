//! What a path leads to.
ghost use Rattle.std.specs.Prelude.{◌≡◌};
ghost use Rattle.std.specs.Option.{option_copied};
ghost use Rattle.tera_meaning.specs.Path.{path, place, elements_of, followed, reached};

use crate::Value;
use crate::value::ValueInner;
use tera_scalars::place_in_path;

impl Value {
    /// What a path leads to, lent: from undefined nothing, from none itself, and from every other
    /// value what the elements of the path, those between its dots, reach one after another. An
    /// element of digits below 2^64, behind one `+` or none, is a place in an array and nothing
    /// else; every other element, the empty one too, is a text key of a map. Nothing where a place
    /// or key is not there, or a value of another kind is met. Mirrors `Value::get_from_path`.
    /// Takes no memory.
    pub fn get_from_path<'a>(&'a self, to: &'a str) -> Option<&'a Value>
        ensures { option_copied result ≡ path self.now to.now }
    {
        match &self.inner {
            ValueInner::Undefined => None,
            ValueInner::None => Some(self),
            _ => follow(self, to),
        }
    }
}

// What the elements of a path reach one after another.
fn follow<'a>(value: &'a Value, to: &'a str) -> Option<&'a Value>
    ensures { option_copied result ≡ followed value.now (elements_of to.now) }
{
    let mut here = value;
    for element in to.split('.') {
        here = reach(here, element)?;
    }
    Some(here)
}

// What an element reaches: a place in an array, or a text key of a map.
fn reach<'a>(value: &'a Value, element: &'a str) -> Option<&'a Value>
    ensures { option_copied result ≡ reached value.now element.now (place element.now) }
{
    match place_in_path(element) {
        Some(place) => match value.as_array() {
            Some(all) => all.get(place),
            None => None,
        },
        None => value.get_attr(element),
    }
}
