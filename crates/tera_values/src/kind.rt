//! The kinds of values.
ghost use Rattle.std.specs.Prelude.{◌≡◌, ◌↔◌, IsTrue};
ghost use Rattle.tera_meaning.specs.Integer.{u64, i64, u128, i128};
ghost use Rattle.tera_meaning.specs.Kind.{kind_in, kind_name, undefined_kind, none_kind};
ghost use Rattle.tera_meaning.specs.Kind.{truth_kind, number_kind, text_kind, array_kind};
ghost use Rattle.tera_meaning.specs.Kind.{object_kind, bytes_kind};
ghost use Rattle.tera_values.specs.Kind.{kind_form};

use crate::Value;
use crate::value::ValueInner;
use std::hash::Hash;

/// What a value is. Mirrors `tera::value::ValueKind`.
#[derive(Clone, Copy, Debug, PartialEq, Eq, Hash)]
#[non_exhaustive]
pub enum ValueKind {
    /// The value of a name that isn't there.
    Undefined,
    /// The value that stands for nothing.
    None,
    /// A truth value.
    Bool,
    /// A number of 64 bits without a sign.
    U64,
    /// A number of 64 bits with a sign.
    I64,
    /// A number of 128 bits without a sign.
    U128,
    /// A number of 128 bits with a sign.
    I128,
    /// A text.
    String,
    /// An array.
    Array,
    /// A map.
    Map,
    /// Bytes that need not be a text.
    Bytes,
}

/// Two kinds are `==` exactly where they are the same kind, and then they feed a hasher alike.
/// Takes no memory.
pub fn kinds_equal_where_the_same()
    ensures equal { (a b : ValueKind) →
        IsTrue (⟦<ValueKind as PartialEq>⟧.eq a b) ↔ (kind_form a ≡ kind_form b) }
    ensures alike { (a b : ValueKind) → kind_form a ≡ kind_form b →
        ⟦<ValueKind as Hash>⟧.hash_input a ≡ ⟦<ValueKind as Hash>⟧.hash_input b }
{}

impl ValueKind {
    /// The word for it, by which errors name the kind of a value. Takes no memory.
    pub fn name(self) -> &'static str
        ensures { result.now ≡ kind_name (kind_form self) }
    {
        match self {
            ValueKind::Undefined => "undefined",
            ValueKind::None => "none",
            ValueKind::Bool => "bool",
            ValueKind::U64 => "u64",
            ValueKind::I64 => "i64",
            ValueKind::U128 => "u128",
            ValueKind::I128 => "i128",
            ValueKind::String => "string",
            ValueKind::Array => "array",
            ValueKind::Map => "map/struct",
            ValueKind::Bytes => "bytes",
        }
    }
}

impl Value {
    /// Its kind. Mirrors `Value::kind`. Takes no memory.
    pub fn kind(&self) -> ValueKind
        ensures { kind_form result ≡ kind_in self.now }
    {
        match &self.inner {
            ValueInner::Undefined => ValueKind::Undefined,
            ValueInner::None => ValueKind::None,
            ValueInner::Bool(_) => ValueKind::Bool,
            ValueInner::U64(_) => ValueKind::U64,
            ValueInner::I64(_) => ValueKind::I64,
            ValueInner::U128(_) => ValueKind::U128,
            ValueInner::I128(_) => ValueKind::I128,
            ValueInner::String(_, _) => ValueKind::String,
            ValueInner::Array(_) => ValueKind::Array,
            ValueInner::Bytes(_) => ValueKind::Bytes,
            ValueInner::Map(_) => ValueKind::Map,
        }
    }

    /// The word for its kind. Mirrors `Value::name`. Takes no memory.
    pub fn name(&self) -> &'static str
        ensures { result.now ≡ kind_name (kind_in self.now) }
    {
        self.kind().name()
    }

    /// Whether it is the value of a name that isn't there. Mirrors `Value::is_undefined`. Takes no
    /// memory.
    pub fn is_undefined(&self) -> bool
        ensures { IsTrue result ↔ (kind_in self.now ≡ undefined_kind) }
    {
        self.is_of(ValueKind::Undefined)
    }

    /// Whether it is the value that stands for nothing. Mirrors `Value::is_none`. Takes no memory.
    pub fn is_none(&self) -> bool
        ensures { IsTrue result ↔ (kind_in self.now ≡ none_kind) }
    {
        self.is_of(ValueKind::None)
    }

    /// Whether it is a truth value. Mirrors `Value::is_bool`. Takes no memory.
    pub fn is_bool(&self) -> bool
        ensures { IsTrue result ↔ (kind_in self.now ≡ truth_kind) }
    {
        self.is_of(ValueKind::Bool)
    }

    /// Whether it is a text, whatever its flag. Mirrors `Value::is_string`. Takes no memory.
    pub fn is_string(&self) -> bool
        ensures { IsTrue result ↔ (kind_in self.now ≡ text_kind) }
    {
        self.is_of(ValueKind::String)
    }

    /// Whether it is a number held in 128 bits with a sign. Mirrors `Value::is_i128`. Takes no
    /// memory.
    pub fn is_i128(&self) -> bool
        ensures { IsTrue result ↔ (kind_in self.now ≡ number_kind i128) }
    {
        self.is_of(ValueKind::I128)
    }

    /// Whether it is a number held in 128 bits without a sign. Mirrors `Value::is_u128`. Takes no
    /// memory.
    pub fn is_u128(&self) -> bool
        ensures { IsTrue result ↔ (kind_in self.now ≡ number_kind u128) }
    {
        self.is_of(ValueKind::U128)
    }

    /// Whether it is a number held in 64 bits with a sign. Mirrors `Value::is_i64`. Takes no
    /// memory.
    pub fn is_i64(&self) -> bool
        ensures { IsTrue result ↔ (kind_in self.now ≡ number_kind i64) }
    {
        self.is_of(ValueKind::I64)
    }

    /// Whether it is a number held in 64 bits without a sign. Mirrors `Value::is_u64`. Takes no
    /// memory.
    pub fn is_u64(&self) -> bool
        ensures { IsTrue result ↔ (kind_in self.now ≡ number_kind u64) }
    {
        self.is_of(ValueKind::U64)
    }

    /// Whether it is an array. Mirrors `Value::is_array`. Takes no memory.
    pub fn is_array(&self) -> bool
        ensures { IsTrue result ↔ (kind_in self.now ≡ array_kind) }
    {
        self.is_of(ValueKind::Array)
    }

    /// Whether it is a map. Mirrors `Value::is_map`. Takes no memory.
    pub fn is_map(&self) -> bool
        ensures { IsTrue result ↔ (kind_in self.now ≡ object_kind) }
    {
        self.is_of(ValueKind::Map)
    }

    /// Whether it is bytes. Mirrors `Value::is_bytes`. Takes no memory.
    pub fn is_bytes(&self) -> bool
        ensures { IsTrue result ↔ (kind_in self.now ≡ bytes_kind) }
    {
        self.is_of(ValueKind::Bytes)
    }

    // Whether it is of that kind.
    fn is_of(&self, kind: ValueKind) -> bool
        ensures { IsTrue result ↔ (kind_in self.now ≡ kind_form kind) }
    {
        self.kind() == kind
    }
}
