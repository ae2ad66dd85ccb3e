//! What is asked of a context: the requests of the model, over names and texts that are lent.

use crate::context::Context;
use std::borrow::CowStr;
use tera_scalars::BinaryOp;
use tera_values::{IntType, Value};

/// A request, and the name under which what it finds is to be kept. Only `Find` and `MarkSafe` heed
/// that name.
#[derive(Debug, Drop)]
pub struct Command<'a> {
    pub request: Request<'a>,
    pub into: Option<&'a str>,
}

/// A request, by the way in which it touches a context. A name that isn't there reads as undefined.
#[derive(Debug, Drop)]
pub enum Request<'a> {
    /// As `Call::Set`.
    Set {
        name: &'a str,
        value: Value,
    },
    /// As `Call::Extend`.
    Extend {
        source: Context,
    },
    /// As `Call::Remove`.
    Remove {
        name: &'a str,
    },
    /// As `Call::MarkSafe`.
    MarkSafe {
        name: &'a str,
    },
    /// Asks the value of a name.
    Ask {
        question: Question,
        name: &'a str,
    },
    /// Weighs the values of two names.
    Weigh {
        weighing: Weighing,
        left: &'a str,
        right: &'a str,
    },
    /// Finds something, which may be kept.
    Find(Search<'a>),
}

/// What is asked of one value: the calls of these names.
#[derive(Debug, Clone, Copy)]
pub enum Question {
    Has,
    Truthy,
    IsSafe,
    Len,
    Kind,
    Print,
    Escape,
    Fields,
    Walk,
}

/// How two values are weighed: the calls of these names.
#[derive(Debug, Clone, Copy)]
pub enum Weighing {
    Equal,
    Compare,
    TryCompare,
    Contains,
}

/// What is found: the calls of these names. A text that a line spells by escapes is owned.
#[derive(Debug, Drop)]
pub enum Search<'a> {
    Get {
        name: &'a str,
    },
    Path {
        of: &'a str,
        path: CowStr<'a>,
    },
    Attr {
        of: &'a str,
        attr: CowStr<'a>,
    },
    Item {
        of: &'a str,
        item: &'a str,
    },
    Slice {
        of: &'a str,
        start: Option<i128>,
        end: Option<i128>,
        step: Option<i128>,
    },
    Reverse {
        of: &'a str,
    },
    Binary {
        op: BinaryOp,
        left: &'a str,
        right: &'a str,
    },
    Negate {
        of: &'a str,
    },
    Read {
        of: &'a str,
        to: IntType,
    },
}
