//! Why a page is refused.
ghost use Rattle.tera.specs.Errors.{Raises};
ghost use Rattle.tera_page.specs.Rendering.{nothing_at, no_array_at, no_map_at};

use std::alloc::Global;
use tera::Error;

/// An expression of that text stands for nothing.
pub(crate) fn nothing_at(alloc: Global, text: &str) -> Error
    ensures { Raises (nothing_at text.now) result }
{
    Error::message_of(alloc, &["Nothing is found at `", text.trim(), "`"])
}

/// An expression of that text stands for no array.
pub(crate) fn no_array_at(alloc: Global, text: &str) -> Error
    ensures { Raises (no_array_at text.now) result }
{
    Error::message_of(alloc, &["What is found at `", text.trim(), "` is no array"])
}

/// An expression of that text stands for no map.
pub(crate) fn no_map_at(alloc: Global, text: &str) -> Error
    ensures { Raises (no_map_at text.now) result }
{
    Error::message_of(alloc, &["What is found at `", text.trim(), "` is no map"])
}
