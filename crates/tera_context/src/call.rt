//! Steps and their answers.

use crate::context::Context;
use std::cmp::Ordering;
use tera_scalars::BinaryOp;
use tera_values::{IntType, Value, ValueKind};

/// A call, and the name under which what it finds is to be kept. Only `Get`, the calls that answer
/// as `Get` does, and `MarkSafe` heed that name.
#[derive(Debug, Drop)]
pub struct Step {
    pub call: Call,
    pub into: Option<String>,
}

/// A call. Its operands are names; one that isn't there reads as undefined.
#[derive(Debug, Drop)]
pub enum Call {
    /// Keeps the value under the name, in the place of what was there. Answers `Done`.
    Set {
        name: String,
        value: Value,
    },
    /// Takes over each name of the source with its value, in the place of what was there. Answers
    /// `Done`.
    Extend {
        source: Context,
    },
    /// Takes the name away. Answers `Found`: the value that it had.
    Remove {
        name: String,
    },
    /// Whether the name is there. Answers `Truth`.
    Has {
        name: String,
    },
    /// A clone of the value. Answers `Found`; or `Done`, where the clone is kept under `into`.
    Get {
        name: String,
    },
    /// A clone of the part that a path leads to. Answers `Found`, or `Done` as `Get` does.
    Path {
        of: String,
        path: String,
    },
    /// A clone of what a map has at a text. Answers `Found`, or `Done` as `Get` does.
    Attr {
        of: String,
        attr: String,
    },
    /// What a map has at a key, and an array or text at an index. Answers `Found`, or `Done` as
    /// `Get` does.
    Item {
        of: String,
        item: String,
    },
    /// The items or characters between two bounds, by a step. Answers `Found`, or `Done` as `Get`
    /// does.
    Slice {
        of: String,
        start: Option<i128>,
        end: Option<i128>,
        step: Option<i128>,
    },
    /// The items, characters or bytes in the opposite order. Answers `Found`, or `Done` as `Get`
    /// does.
    Reverse {
        of: String,
    },
    /// What an operator computes of two numbers. Answers `Found`, or `Done` as `Get` does.
    Binary {
        op: BinaryOp,
        left: String,
        right: String,
    },
    /// The number with the other sign. Answers `Found`, or `Done` as `Get` does.
    Negate {
        of: String,
    },
    /// The number in the kind to which a type of Rust converts. Answers `Found`, or `Done` as `Get`
    /// does.
    Read {
        of: String,
        to: IntType,
    },
    /// The characters of a text, the items of an array, the pairs of a map, the bytes of bytes.
    /// Answers `Size`.
    Len {
        of: String,
    },
    /// Whether the value counts as true. Answers `Truth`.
    Truthy {
        of: String,
    },
    /// The kind of the value. Answers `Kind`.
    Kind {
        of: String,
    },
    /// Whether the value is shown as it is. Answers `Truth`.
    IsSafe {
        of: String,
    },
    /// Marks the value safe in its place, or keeps a clone that is marked under `into`. Answers
    /// `Done`.
    MarkSafe {
        of: String,
    },
    /// Whether the two values are equal. Answers `Truth`.
    Equal {
        left: String,
        right: String,
    },
    /// The order of the two values. Answers `Order`, always of some order.
    Compare {
        left: String,
        right: String,
    },
    /// The partial order of the two values, which leaves maps and values of different ranks
    /// undecided. Answers `Order`.
    TryCompare {
        left: String,
        right: String,
    },
    /// Whether an array has the needle as an item, a text as a part, a map as a key. Answers
    /// `Truth`.
    Contains {
        of: String,
        needle: String,
    },
    /// The printed text. Answers `Text`.
    Print {
        of: String,
    },
    /// The printed text escaped, whatever the flag. Answers `Text`.
    Escape {
        of: String,
    },
    /// What the keys of a map print, each once and in the order of their bytes. Answers `Texts`.
    Fields {
        of: String,
    },
    /// What the keys of a map print, one for each pair and in the order of the pairs. Answers
    /// `Walked`.
    Walk {
        of: String,
    },
}

/// What a call answers.
#[derive(Debug, Drop)]
pub enum Answer {
    /// It is done, and there is nothing to tell.
    Done,
    /// Whether it is so.
    Truth(bool),
    /// The order of two values, or nothing where it is undecided.
    Order(Option<Ordering>),
    /// The value that is found, or nothing.
    Found(Option<Value>),
    /// How many parts there are, or nothing where a value has no length.
    Size(Option<usize>),
    /// The kind of a value.
    Kind(ValueKind),
    /// A printed text.
    Text(String),
    /// What the keys of a map print, each once and in the order of their bytes.
    Texts(Vec<String>),
    /// What the keys of a map print, one for each pair and in the order of the pairs.
    Walked(Vec<String>),
}
