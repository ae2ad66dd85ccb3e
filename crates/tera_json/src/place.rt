//! Places in a document, as JSON pointers.
ghost use Rattle.std.specs.Prelude.{◌≡◌, ◌++◌, IfOk, OnOk, string_bytes};
ghost use Rattle.tera_json.specs.Places.{pointed, item_step, name_step};

use itoa::Buffer;
use std::alloc::{AllocError, Global};

/// The place in an array, from the place in its item.
pub(crate) fn in_item(alloc: Global, at: usize, inside: &str) -> Result<String, AllocError>
    ensures { IfOk result (λ place. string_bytes place ≡ item_step at ++ inside.now) }
{
    let mut place = String::from_str(alloc, "/")?;
    place.push_str(Buffer::new().format(at))?;
    place.push_str(inside)?;
    Ok(place)
}

/// The place in an object or a map, from the place in its member.
pub(crate) fn in_member(alloc: Global, name: &str, inside: &str) -> Result<String, AllocError>
    ensures { IfOk result (λ place. string_bytes place ≡ name_step name.now ++ inside.now) }
{
    let mut place = String::from_str(alloc, "/")?;
    for c in name.chars() {
        push_pointed(&mut place, c)?;
    }
    place.push_str(inside)?;
    Ok(place)
}

// Puts a character of a name.
fn push_pointed(place: &mut String, c: char) -> Result<(), AllocError>
    ensures { OnOk result (string_bytes place.new ≡ string_bytes place.old ++ pointed c) }
{
    match c {
        '~' => place.push_str("~0"),
        '/' => place.push_str("~1"),
        _ => place.push(c),
    }
}
