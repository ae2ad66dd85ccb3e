//! The filters by their words.
ghost use Rattle.std.specs.Prelude.{◌≡◌, ◌≢◌, false, IfOk, IfErr, IsOk, MatchOption, None, Ok};
ghost use Rattle.tera.specs.Errors.{Refuses};
ghost use Rattle.tera.specs.Form.{Form};
ghost use Rattle.tera.specs.Meaning.{meaning};
ghost use Rattle.tera.specs.Read.{iterable_in, text_in, truthy_in};
ghost use Rattle.tera_filters.specs.Filters.{filtered};
ghost use Rattle.tera_filters.specs.Words.{word_of};

use crate::arrays::{first, get, last, length, nth, reverse, slice};
use crate::defaults::default;
use crate::numbers::{abs, int};
use crate::ordered::{sort, unique};
use crate::parts::{replace, truncate};
use crate::texts::{join, lower, trim, upper};
use std::alloc::Global;
use tera::{Kwargs, TeraResult, Value};

/// A filter of templates.
#[derive(Clone, Copy, Debug, PartialEq, Eq)]
pub enum Filter {
    /// How many characters, items, pairs or bytes there are.
    Length,
    /// The first item of an array.
    First,
    /// The last item of an array.
    Last,
    /// The item of an array behind as many others as `n` says.
    Nth,
    /// Items, characters or bytes in the opposite order.
    Reverse,
    /// The items or characters from `start` up to `end`.
    Slice,
    /// What a map has at `key`, or else `default`.
    Get,
    /// A number without its sign.
    Abs,
    /// A text in upper case.
    Upper,
    /// A text in lower case.
    Lower,
    /// A text without the white space at its ends.
    Trim,
    /// The items of an array with `sep` between them.
    Join,
    /// The items of an array in order.
    Sort,
    /// The items of an array, of those that mean the same the first.
    Unique,
    /// The number that a value is, or that a text writes.
    Int,
    /// A value, or the argument `value` where it is undefined.
    Default,
    /// A text with `to` in the place of each `from`.
    Replace,
    /// At most `length` characters of a text, and `end` where there are more.
    Truncate,
}

impl Filter {
    /// The filter that a word names. Takes no memory.
    pub fn named(word: &str) -> Option<Filter>
        ensures { MatchOption result ((filter : Filter) → word.now ≢ word_of filter)
            (λ filter. word.now ≡ word_of filter) }
    {
        match word {
            "length" => Some(Filter::Length),
            "first" => Some(Filter::First),
            "last" => Some(Filter::Last),
            "nth" => Some(Filter::Nth),
            "reverse" => Some(Filter::Reverse),
            "slice" => Some(Filter::Slice),
            "get" => Some(Filter::Get),
            "abs" => Some(Filter::Abs),
            "upper" => Some(Filter::Upper),
            "lower" => Some(Filter::Lower),
            "trim" => Some(Filter::Trim),
            "join" => Some(Filter::Join),
            "sort" => Some(Filter::Sort),
            "unique" => Some(Filter::Unique),
            "int" => Some(Filter::Int),
            "default" => Some(Filter::Default),
            "replace" => Some(Filter::Replace),
            "truncate" => Some(Filter::Truncate),
            _ => None,
        }
    }

    /// What the filter makes of a value and of named arguments. It passes over an argument that it
    /// does not know.
    ///
    /// Refuses as the function of the filter does, and takes the memory that that takes. An answer
    /// that has no parts takes none, nor does an empty one that is no text.
    pub fn apply(self, alloc: Global, value: &Value, arguments: &Kwargs) -> TeraResult<Value>
        ensures ok { IfOk result (λ v. filtered self value.now arguments.now ≡ Ok v) }
        ensures err { IfErr result (Refuses (filtered self value.now arguments.now)) }
        ensures succeeds { (made : Form) → filtered self value.now arguments.now ≡ Ok made
            → iterable_in made ≡ false → IsOk result }
        ensures empty { (made : Form) → filtered self value.now arguments.now ≡ Ok made
            → truthy_in (meaning made) ≡ false → text_in made ≡ None → IsOk result }
    {
        match self {
            Filter::Length => length(alloc, value),
            Filter::First => first(alloc, value),
            Filter::Last => last(alloc, value),
            Filter::Nth => nth(alloc, value, arguments),
            Filter::Reverse => reverse(alloc, value),
            Filter::Slice => slice(alloc, value, arguments),
            Filter::Get => get(alloc, value, arguments),
            Filter::Abs => abs(alloc, value),
            Filter::Upper => upper(alloc, value),
            Filter::Lower => lower(alloc, value),
            Filter::Trim => trim(alloc, value),
            Filter::Join => join(alloc, value, arguments),
            Filter::Sort => sort(alloc, value),
            Filter::Unique => unique(alloc, value),
            Filter::Int => int(alloc, value),
            Filter::Default => default(alloc, value, arguments),
            Filter::Replace => replace(alloc, value, arguments),
            Filter::Truncate => truncate(alloc, value, arguments),
        }
    }
}
