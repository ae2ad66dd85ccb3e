//! What is lent and can be made a value of: as what it points to.
ghost use Rattle.std.specs.Prelude.{◌≡◌, ◌<◌, length, pos, false};
ghost use Rattle.std.specs.Char.{encode_utf8};
ghost use Rattle.std.specs.String.{string_bytes};
ghost use Rattle.tera_meaning.specs.Integer.{u64, i64, u128, i128};
ghost use Rattle.tera_meaning.specs.Search.{CopyTakes};
ghost use Rattle.tera_meaning.specs.Tree.{truth};
ghost use Rattle.tera_report.specs.Errors.{IsOutOfMemory};
ghost use Rattle.tera_values.specs.View.{integer, marked};

use crate::ToValue;
use std::alloc::Global;
use tera_report::TeraResult;
use tera_values::Value;

/// A truth value. Takes no memory.
impl ToValue for &bool {
    ghost gives = { λ b v. v ≡ truth b.now };

    ghost refuses = { λ _ _. ⊥ };

    fn to_value(self, _alloc: Global) -> TeraResult<Value> {
        Ok(Value::from(*self))
    }
}

/// A text of one character, not marked safe. Takes memory; the only refusal is want of it,
/// `Out of memory`.
impl ToValue for &char {
    ghost gives = { λ c v. v ≡ marked (encode_utf8 c.now) false };

    ghost refuses = { λ _ e. IsOutOfMemory e };

    fn to_value(self, alloc: Global) -> TeraResult<Value> {
        (*self).to_value(alloc)
    }
}

/// A copy of the text, not marked safe. Takes memory, unless it is empty; the only refusal is want
/// of it, `Out of memory`.
impl ToValue for &String {
    ghost gives = { λ t v. v ≡ marked (string_bytes t.now) false };

    ghost refuses = { λ t e. (0 < length (string_bytes t.now)) × IsOutOfMemory e };

    fn to_value(self, alloc: Global) -> TeraResult<Value> {
        Value::normal_string(alloc, self.as_str())
    }
}

/// A copy of the text, not marked safe. Takes memory, unless it is empty; the only refusal is want
/// of it, `Out of memory`.
impl ToValue for &&str {
    ghost gives = { λ t v. v ≡ marked t.now.now false };

    ghost refuses = { λ t e. (0 < length t.now.now) × IsOutOfMemory e };

    fn to_value(self, alloc: Global) -> TeraResult<Value> {
        Value::normal_string(alloc, *self)
    }
}

/// A copy, deep, with its kinds and flags. Takes memory for texts, bytes, items and pairs, where
/// there are some; the only refusal is want of it, `Out of memory`.
impl ToValue for &Value {
    ghost gives = { λ lent v. v ≡ lent.now };

    ghost refuses = { λ lent e. CopyTakes lent.now × IsOutOfMemory e };

    fn to_value(self, alloc: Global) -> TeraResult<Value> {
        self.clone(alloc)
    }
}

/// A number of 64 bits without a sign. Takes no memory.
impl ToValue for &u8 {
    ghost gives = { λ n v. v ≡ integer u64 (pos n.now) };

    ghost refuses = { λ _ _. ⊥ };

    fn to_value(self, _alloc: Global) -> TeraResult<Value> {
        Ok(Value::from(*self))
    }
}

/// A number of 64 bits without a sign. Takes no memory.
impl ToValue for &u16 {
    ghost gives = { λ n v. v ≡ integer u64 (pos n.now) };

    ghost refuses = { λ _ _. ⊥ };

    fn to_value(self, _alloc: Global) -> TeraResult<Value> {
        Ok(Value::from(*self))
    }
}

/// A number of 64 bits without a sign. Takes no memory.
impl ToValue for &u32 {
    ghost gives = { λ n v. v ≡ integer u64 (pos n.now) };

    ghost refuses = { λ _ _. ⊥ };

    fn to_value(self, _alloc: Global) -> TeraResult<Value> {
        Ok(Value::from(*self))
    }
}

/// A number of 64 bits without a sign. Takes no memory.
impl ToValue for &u64 {
    ghost gives = { λ n v. v ≡ integer u64 (pos n.now) };

    ghost refuses = { λ _ _. ⊥ };

    fn to_value(self, _alloc: Global) -> TeraResult<Value> {
        Ok(Value::from(*self))
    }
}

/// A number of 64 bits without a sign. Takes no memory.
impl ToValue for &usize {
    ghost gives = { λ n v. v ≡ integer u64 (pos n.now) };

    ghost refuses = { λ _ _. ⊥ };

    fn to_value(self, _alloc: Global) -> TeraResult<Value> {
        Ok(Value::from(*self))
    }
}

/// A number of 64 bits with a sign. Takes no memory.
impl ToValue for &i8 {
    ghost gives = { λ n v. v ≡ integer i64 n.now };

    ghost refuses = { λ _ _. ⊥ };

    fn to_value(self, _alloc: Global) -> TeraResult<Value> {
        Ok(Value::from(*self))
    }
}

/// A number of 64 bits with a sign. Takes no memory.
impl ToValue for &i16 {
    ghost gives = { λ n v. v ≡ integer i64 n.now };

    ghost refuses = { λ _ _. ⊥ };

    fn to_value(self, _alloc: Global) -> TeraResult<Value> {
        Ok(Value::from(*self))
    }
}

/// A number of 64 bits with a sign. Takes no memory.
impl ToValue for &i32 {
    ghost gives = { λ n v. v ≡ integer i64 n.now };

    ghost refuses = { λ _ _. ⊥ };

    fn to_value(self, _alloc: Global) -> TeraResult<Value> {
        Ok(Value::from(*self))
    }
}

/// A number of 64 bits with a sign. Takes no memory.
impl ToValue for &i64 {
    ghost gives = { λ n v. v ≡ integer i64 n.now };

    ghost refuses = { λ _ _. ⊥ };

    fn to_value(self, _alloc: Global) -> TeraResult<Value> {
        Ok(Value::from(*self))
    }
}

/// A number of 64 bits with a sign. Takes no memory.
impl ToValue for &isize {
    ghost gives = { λ n v. v ≡ integer i64 n.now };

    ghost refuses = { λ _ _. ⊥ };

    fn to_value(self, _alloc: Global) -> TeraResult<Value> {
        Ok(Value::from(*self))
    }
}

/// A number of 128 bits without a sign. Takes no memory.
impl ToValue for &u128 {
    ghost gives = { λ n v. v ≡ integer u128 (pos n.now) };

    ghost refuses = { λ _ _. ⊥ };

    fn to_value(self, _alloc: Global) -> TeraResult<Value> {
        Ok(Value::from(*self))
    }
}

/// A number of 128 bits with a sign. Takes no memory.
impl ToValue for &i128 {
    ghost gives = { λ n v. v ≡ integer i128 n.now };

    ghost refuses = { λ _ _. ⊥ };

    fn to_value(self, _alloc: Global) -> TeraResult<Value> {
        Ok(Value::from(*self))
    }
}
