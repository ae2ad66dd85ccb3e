//! The type of values, and what makes one.
ghost use Rattle.std.specs.Prelude.{◌≡◌, true, false, [], IfOk, IfErr, IsOk};
ghost use Rattle.tera_meaning.specs.Tree.{undefined, none, bytes, array, object, items, members};
ghost use Rattle.tera_meaning.specs.Tree.{no_members};
ghost use Rattle.tera_report.specs.Errors.{IsOutOfMemory};
ghost use Rattle.tera_values.specs.View.{form_of, marked};

use crate::Map;
use crate::copy::text_of;
use std::alloc::Global;
use std::marker::Model;
use tera_report::TeraResult;

/// A value that a template computes with. Mirrors `tera::Value`.
#[cycle(value)]
#[derive(Debug)]
pub struct Value {
    pub(crate) inner: ValueInner,
}

#[cycle(value)]
#[derive(Debug, Drop)]
pub(crate) enum ValueInner {
    Undefined,
    None,
    Bool(bool),
    U64(u64),
    I64(i64),
    U128(u128),
    I128(i128),
    String(bool, String),
    Array(Vec<Value>),
    Bytes(Vec<u8>),
    Map(Map),
}

impl Model for Value {
    ghost use Rattle.tera_meaning.specs.Form.{Form};
    ghost use Rattle.tera_meaning.specs.Stored.{coded_form};

    ghost Value = { Form };

    ghost coded = { coded_form };

    ghost use Rattle.tera_values.specs.View.{form_of};
    ghost use Rattle.tera_values.specs.inner.Size.{value_size};

    ghost view = { λ v. form_of v.inner };

    ghost size = { value_size };

    ghost use Rattle.tera_values.specs.inner.Depth.{deep_le-value_size};

    ghost size_decreases = { λ v h. deep_le-value_size v.inner };
}

/// What owns no memory ends by a look at its kind, where it stands: most items of arrays do.
impl Drop for Value {
    #[inline(always)]
    #[cycle(value)]
    fn drop(self) {
        let Value { inner } = self;
        match inner {
            ValueInner::Undefined
            | ValueInner::None
            | ValueInner::Bool(_)
            | ValueInner::U64(_)
            | ValueInner::I64(_)
            | ValueInner::U128(_)
            | ValueInner::I128(_) => {}
            owner => end(owner),
        }
    }
}

// Gives back the memory of an owner. It stands apart, so that `drop` stays short.
#[inline(never)]
#[cycle(value)]
fn end(owner: ValueInner) {
    drop(owner);
}

impl Value {
    /// The value of a name that isn't there. Mirrors `Value::undefined`. Takes no memory.
    pub fn undefined() -> Value
        ensures { result ≡ undefined }
    {
        Value {
            inner: ValueInner::Undefined,
        }
    }

    /// The value that stands for nothing. Mirrors `Value::none`. Takes no memory.
    pub fn none() -> Value
        ensures { result ≡ none }
    {
        Value {
            inner: ValueInner::None,
        }
    }

    // What it is, handed on.
    #[inline(always)]
    pub(crate) fn into_inner(self) -> ValueInner
        ensures { form_of result ≡ self }
    {
        let Value { inner } = self;
        inner
    }

    /// A text that is to be escaped where it is shown. Mirrors `Value::normal_string`.
    ///
    /// Takes memory for the text, unless it is empty; the only refusal is want of it, `Out of
    /// memory`.
    pub fn normal_string(alloc: Global, text: &str) -> TeraResult<Value>
        ensures ok { IfOk result (λ v. v ≡ marked text.now false) }
        ensures err { IfErr result IsOutOfMemory }
        ensures succeeds { text.now ≡ [] → IsOk result }
    {
        Ok(Value {
            inner: ValueInner::String(false, text_of(alloc, text)?),
        })
    }

    /// A text that is shown as it is. Mirrors `Value::safe_string`.
    ///
    /// Takes memory for the text, unless it is empty; the only refusal is want of it, `Out of
    /// memory`.
    pub fn safe_string(alloc: Global, text: &str) -> TeraResult<Value>
        ensures ok { IfOk result (λ v. v ≡ marked text.now true) }
        ensures err { IfErr result IsOutOfMemory }
        ensures succeeds { text.now ≡ [] → IsOk result }
    {
        Ok(Value {
            inner: ValueInner::String(true, text_of(alloc, text)?),
        })
    }

    /// Bytes that need not be a text. Mirrors `Value::bytes`. Takes no memory.
    pub fn bytes(held: Vec<u8>) -> Value
        ensures { result ≡ bytes held.items }
    {
        Value {
            inner: ValueInner::Bytes(held),
        }
    }

    /// An array of these items, in their order. Mirrors what `Value::from(Vec<Value>)` makes. Takes
    /// no memory.
    pub fn of_array(all: Vec<Value>) -> Value
        ensures { result ≡ array (items all.items) }
    {
        Value {
            inner: ValueInner::Array(all),
        }
    }

    /// A map of these pairs. Mirrors what `Value::from(Map)` makes. Takes no memory.
    pub fn of_map(pairs: Map) -> Value
        ensures { result ≡ object (members pairs) }
    {
        Value {
            inner: ValueInner::Map(pairs),
        }
    }

    /// A map without pairs. Mirrors `Value::empty_map`, which is private there. Takes no memory.
    pub fn empty_map(alloc: Global) -> Value
        ensures { result ≡ object no_members }
    {
        Value::of_map(Map::new(alloc))
    }
}
