//! What can be made a value of.
ghost use Rattle.std.specs.Prelude.{◌≡◌, ◌<◌, [], length, pos, false, IfSome, IfOk, IfErr};
ghost use Rattle.std.specs.Char.{encode_utf8};
ghost use Rattle.std.specs.Cow.{cow_str_bytes, IsOwnedStr};
ghost use Rattle.std.specs.String.{string_bytes};
ghost use Rattle.tera_meaning.specs.Arithmetic.{as_i128};
ghost use Rattle.tera_meaning.specs.Form.{Form};
ghost use Rattle.tera_meaning.specs.Integer.{u64, i64, u128, i128};
ghost use Rattle.tera_meaning.specs.Tree.{none, truth};
ghost use Rattle.tera_scalars.specs.Number.{number_value};
ghost use Rattle.tera_report.specs.Errors.{IsOutOfMemory};
ghost use Rattle.tera_report.specs.declared.errors.Error.{Error};
ghost use Rattle.tera_values.specs.Key.{key_form, key_value, text_in_key};
ghost use Rattle.tera_values.specs.View.{integer, marked};

use std::alloc::Global;
use std::borrow::CowStr;
use tera_report::TeraResult;
use tera_values::{Key, Number, Value};

/// What can be made a value of. It stands for the conversions `Into<Value>` of Tera, some of which
/// take memory.
///
/// Each implementation says which value it gives, with its kind and its flag, and which errors it
/// may answer in its place.
pub trait ToValue {
    // the value that is given
    ghost gives: { Self → Form → Type 0 };

    // an error that may be answered in its place
    ghost refuses: { Self → Error → Type 0 };

    /// The value that it is, or an error that the implementation tells. Takes memory where that
    /// says so.
    fn to_value(self, alloc: Global) -> TeraResult<Value>
        ensures ok { IfOk result (gives self) }
        ensures err { IfErr result (refuses self) };
}

/// A truth value. Takes no memory.
impl ToValue for bool {
    ghost gives = { λ b v. v ≡ truth b };

    ghost refuses = { λ _ _. ⊥ };

    fn to_value(self, _alloc: Global) -> TeraResult<Value> {
        Ok(Value::from(self))
    }
}

/// A number of 64 bits without a sign. Takes no memory.
impl ToValue for u8 {
    ghost gives = { λ n v. v ≡ integer u64 (pos n) };

    ghost refuses = { λ _ _. ⊥ };

    fn to_value(self, _alloc: Global) -> TeraResult<Value> {
        Ok(Value::from(self))
    }
}

/// A number of 64 bits without a sign. Takes no memory.
impl ToValue for u16 {
    ghost gives = { λ n v. v ≡ integer u64 (pos n) };

    ghost refuses = { λ _ _. ⊥ };

    fn to_value(self, _alloc: Global) -> TeraResult<Value> {
        Ok(Value::from(self))
    }
}

/// A number of 64 bits without a sign. Takes no memory.
impl ToValue for u32 {
    ghost gives = { λ n v. v ≡ integer u64 (pos n) };

    ghost refuses = { λ _ _. ⊥ };

    fn to_value(self, _alloc: Global) -> TeraResult<Value> {
        Ok(Value::from(self))
    }
}

/// A number of 64 bits without a sign. Takes no memory.
impl ToValue for u64 {
    ghost gives = { λ n v. v ≡ integer u64 (pos n) };

    ghost refuses = { λ _ _. ⊥ };

    fn to_value(self, _alloc: Global) -> TeraResult<Value> {
        Ok(Value::from(self))
    }
}

/// A number of 64 bits without a sign. Takes no memory.
impl ToValue for usize {
    ghost gives = { λ n v. v ≡ integer u64 (pos n) };

    ghost refuses = { λ _ _. ⊥ };

    fn to_value(self, _alloc: Global) -> TeraResult<Value> {
        Ok(Value::from(self))
    }
}

/// A number of 64 bits with a sign. Takes no memory.
impl ToValue for i8 {
    ghost gives = { λ n v. v ≡ integer i64 n };

    ghost refuses = { λ _ _. ⊥ };

    fn to_value(self, _alloc: Global) -> TeraResult<Value> {
        Ok(Value::from(self))
    }
}

/// A number of 64 bits with a sign. Takes no memory.
impl ToValue for i16 {
    ghost gives = { λ n v. v ≡ integer i64 n };

    ghost refuses = { λ _ _. ⊥ };

    fn to_value(self, _alloc: Global) -> TeraResult<Value> {
        Ok(Value::from(self))
    }
}

/// A number of 64 bits with a sign. Takes no memory.
impl ToValue for i32 {
    ghost gives = { λ n v. v ≡ integer i64 n };

    ghost refuses = { λ _ _. ⊥ };

    fn to_value(self, _alloc: Global) -> TeraResult<Value> {
        Ok(Value::from(self))
    }
}

/// A number of 64 bits with a sign. Takes no memory.
impl ToValue for i64 {
    ghost gives = { λ n v. v ≡ integer i64 n };

    ghost refuses = { λ _ _. ⊥ };

    fn to_value(self, _alloc: Global) -> TeraResult<Value> {
        Ok(Value::from(self))
    }
}

/// A number of 64 bits with a sign. Takes no memory.
impl ToValue for isize {
    ghost gives = { λ n v. v ≡ integer i64 n };

    ghost refuses = { λ _ _. ⊥ };

    fn to_value(self, _alloc: Global) -> TeraResult<Value> {
        Ok(Value::from(self))
    }
}

/// A number of 128 bits without a sign. Takes no memory.
impl ToValue for u128 {
    ghost gives = { λ n v. v ≡ integer u128 (pos n) };

    ghost refuses = { λ _ _. ⊥ };

    fn to_value(self, _alloc: Global) -> TeraResult<Value> {
        Ok(Value::from(self))
    }
}

/// A number of 128 bits with a sign. Takes no memory.
impl ToValue for i128 {
    ghost gives = { λ n v. v ≡ integer i128 n };

    ghost refuses = { λ _ _. ⊥ };

    fn to_value(self, _alloc: Global) -> TeraResult<Value> {
        Ok(Value::from(self))
    }
}

/// None. Takes no memory.
impl ToValue for () {
    ghost gives = { λ _ v. v ≡ none };

    ghost refuses = { λ _ _. ⊥ };

    fn to_value(self, _alloc: Global) -> TeraResult<Value> {
        Ok(Value::none())
    }
}

/// A text of one character, not marked safe. Takes memory; the only refusal is want of it,
/// `Out of memory`.
impl ToValue for char {
    ghost gives = { λ c v. v ≡ marked (encode_utf8 c) false };

    ghost refuses = { λ _ e. IsOutOfMemory e };

    fn to_value(self, alloc: Global) -> TeraResult<Value> {
        let mut text = String::new(alloc);
        text.push(self)?;
        Ok(Value::from(text))
    }
}

/// A text, not marked safe. Takes memory, unless it is empty; the only refusal is want of it,
/// `Out of memory`.
impl ToValue for &str {
    ghost gives = { λ t v. v ≡ marked t.now false };

    ghost refuses = { λ t e. (0 < length t.now) × IsOutOfMemory e };

    fn to_value(self, alloc: Global) -> TeraResult<Value> {
        Value::normal_string(alloc, self)
    }
}

/// A text, not marked safe. Takes no memory.
impl ToValue for String {
    ghost gives = { λ t v. v ≡ marked (string_bytes t) false };

    ghost refuses = { λ _ _. ⊥ };

    fn to_value(self, _alloc: Global) -> TeraResult<Value> {
        Ok(Value::from(self))
    }
}

/// A text, not marked safe. Takes memory where the text is lent and is not empty; the only refusal
/// is want of it, `Out of memory`.
impl ToValue for CowStr<'_> {
    ghost gives = { λ t v. v ≡ marked (cow_str_bytes t) false };

    ghost refuses = { λ t e. ¬ IsOwnedStr t × (0 < length (cow_str_bytes t)) × IsOutOfMemory e };

    fn to_value(self, alloc: Global) -> TeraResult<Value> {
        match self {
            CowStr::Borrowed(text) => Value::normal_string(alloc, text),
            CowStr::Owned(text) => Ok(Value::from(text)),
        }
    }
}

/// The value that a key is: a number of the same kind, a text not marked safe. Takes memory for a
/// text alone, unless it is empty; the only refusal is want of it, `Out of memory`.
impl ToValue for Key<'static> {
    ghost gives = { λ k v. v ≡ key_value (key_form k) };

    ghost refuses = { λ k e. ¬ IfSome (text_in_key (key_form k)) (λ t. t ≡ [])
        × IsOutOfMemory e };

    fn to_value(self, alloc: Global) -> TeraResult<Value> {
        self.as_value(alloc)
    }
}

/// Itself. Takes no memory.
impl ToValue for Value {
    ghost gives = { λ given v. v ≡ given };

    ghost refuses = { λ _ _. ⊥ };

    fn to_value(self, _alloc: Global) -> TeraResult<Value> {
        Ok(self)
    }
}

/// A number of 128 bits with a sign. Takes no memory.
impl ToValue for Number {
    ghost gives = { λ n v. v ≡ as_i128 (number_value n) };

    ghost refuses = { λ _ _. ⊥ };

    fn to_value(self, _alloc: Global) -> TeraResult<Value> {
        Ok(Value::from(self))
    }
}
