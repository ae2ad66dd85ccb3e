//! What values are made of: a truth value, a number of each integer type, nothing, and a text.
ghost use Rattle.std.specs.Prelude.{◌≡◌, pos, false};
ghost use Rattle.std.specs.String.{string_bytes};
ghost use Rattle.tera_meaning.specs.Integer.{u64, i64, u128, i128};
ghost use Rattle.tera_meaning.specs.Tree.{none, truth};
ghost use Rattle.tera_values.specs.View.{integer, marked};

use crate::Value;
use crate::value::ValueInner;

/// A truth value. Mirrors `From<bool>` of `tera::Value`. Takes no memory.
impl From<bool> for Value {
    ghost from_gives = { λ b v. v ≡ truth b };

    fn from(b: bool) -> Value {
        Value {
            inner: ValueInner::Bool(b),
        }
    }
}

/// A number of 64 bits without a sign. Mirrors `From<u8>` of `tera::Value`. Takes no memory.
impl From<u8> for Value {
    ghost from_gives = { λ n v. v ≡ integer u64 (pos n) };

    fn from(n: u8) -> Value {
        Value::from(u64::from(n))
    }
}

/// A number of 64 bits without a sign. Mirrors `From<u16>` of `tera::Value`. Takes no memory.
impl From<u16> for Value {
    ghost from_gives = { λ n v. v ≡ integer u64 (pos n) };

    fn from(n: u16) -> Value {
        Value::from(u64::from(n))
    }
}

/// A number of 64 bits without a sign. Mirrors `From<u32>` of `tera::Value`. Takes no memory.
impl From<u32> for Value {
    ghost from_gives = { λ n v. v ≡ integer u64 (pos n) };

    fn from(n: u32) -> Value {
        Value::from(u64::from(n))
    }
}

/// A number of 64 bits without a sign. Mirrors `From<u64>` of `tera::Value`. Takes no memory.
impl From<u64> for Value {
    ghost from_gives = { λ n v. v ≡ integer u64 (pos n) };

    fn from(n: u64) -> Value {
        Value {
            inner: ValueInner::U64(n),
        }
    }
}

/// A number of 64 bits without a sign. Mirrors `From<usize>` of `tera::Value`. Takes no memory.
impl From<usize> for Value {
    ghost from_gives = { λ n v. v ≡ integer u64 (pos n) };

    fn from(n: usize) -> Value {
        Value::from(n as u64)
    }
}

/// A number of 64 bits with a sign. Mirrors `From<i8>` of `tera::Value`. Takes no memory.
impl From<i8> for Value {
    ghost from_gives = { λ z v. v ≡ integer i64 z };

    fn from(z: i8) -> Value {
        Value::from(i64::from(z))
    }
}

/// A number of 64 bits with a sign. Mirrors `From<i16>` of `tera::Value`. Takes no memory.
impl From<i16> for Value {
    ghost from_gives = { λ z v. v ≡ integer i64 z };

    fn from(z: i16) -> Value {
        Value::from(i64::from(z))
    }
}

/// A number of 64 bits with a sign. Mirrors `From<i32>` of `tera::Value`. Takes no memory.
impl From<i32> for Value {
    ghost from_gives = { λ z v. v ≡ integer i64 z };

    fn from(z: i32) -> Value {
        Value::from(i64::from(z))
    }
}

/// A number of 64 bits with a sign. Mirrors `From<i64>` of `tera::Value`. Takes no memory.
impl From<i64> for Value {
    ghost from_gives = { λ z v. v ≡ integer i64 z };

    fn from(z: i64) -> Value {
        Value {
            inner: ValueInner::I64(z),
        }
    }
}

/// A number of 64 bits with a sign. Mirrors `From<isize>` of `tera::Value`. Takes no memory.
impl From<isize> for Value {
    ghost from_gives = { λ z v. v ≡ integer i64 z };

    fn from(z: isize) -> Value {
        Value::from(z as i64)
    }
}

/// A number of 128 bits without a sign. Mirrors `From<u128>` of `tera::Value`. Takes no memory.
impl From<u128> for Value {
    ghost from_gives = { λ n v. v ≡ integer u128 (pos n) };

    fn from(n: u128) -> Value {
        Value {
            inner: ValueInner::U128(n),
        }
    }
}

/// A number of 128 bits with a sign. Mirrors `From<i128>` of `tera::Value`. Takes no memory.
impl From<i128> for Value {
    ghost from_gives = { λ z v. v ≡ integer i128 z };

    fn from(z: i128) -> Value {
        Value {
            inner: ValueInner::I128(z),
        }
    }
}

/// None. Mirrors `From<()>` of `tera::Value`. Takes no memory.
impl From<()> for Value {
    ghost from_gives = { λ _ v. v ≡ none };

    fn from(_nothing: ()) -> Value {
        Value::none()
    }
}

/// A text that is to be escaped where it is shown. Mirrors `From<String>` of `tera::Value`. Takes
/// no memory.
impl From<String> for Value {
    ghost from_gives = { λ t v. v ≡ marked (string_bytes t) false };

    fn from(text: String) -> Value {
        Value {
            inner: ValueInner::String(false, text),
        }
    }
}
