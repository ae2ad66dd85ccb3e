//! What makes keys.
ghost use Rattle.std.specs.Prelude.{◌≡◌, pos, IfOk, IfSome, IsOk};
ghost use Rattle.std.specs.String.{string_bytes};
ghost use Rattle.tera_meaning.specs.Integer.{u128, i128};
ghost use Rattle.tera_meaning.specs.KeyMeaning.{text_key, owned, borrowed};
ghost use Rattle.tera_values.specs.Key.{key_form, integer_key, text_in_key, FitsInline};
ghost use Rattle.tera_values.specs.inner.Key.{owning};

use crate::Key;
use arrayvec::ArrayString;
use std::alloc::{AllocError, Global};
use std::rc::RcStr;

impl Key<'static> {
    /// A key that owns the text. At most 16 bytes are held in place, as `Inline`; a longer text
    /// becomes a `Key::String`, which clones share. Stands for `From<Cow<str>>` of
    /// `tera::value::Key`.
    ///
    /// Takes memory for a longer text alone, and fails for want of it alone.
    pub fn of_text(alloc: Global, text: &str) -> Result<Key<'static>, AllocError>
        ensures ok { IfOk result (λ k. key_form k ≡ text_key (owned text.now)) }
        ensures succeeds { FitsInline text.now → IsOk result }
    {
        match ArrayString::from(text) {
            Ok(held) => Ok(Key::Inline(held)),
            Err(_) => Ok(Key::String(RcStr::from_str(alloc, text)?)),
        }
    }

    /// A key that owns the text. At most 16 bytes are held in place, as `Inline`; a longer text
    /// becomes a `Key::String`, without a copy of it. Stands for `From<String>` of
    /// `tera::value::Key`.
    ///
    /// Takes memory for a longer text alone, and fails for want of it alone.
    pub fn of_string(text: String) -> Result<Key<'static>, AllocError>
        ensures ok { IfOk result (λ k. key_form k ≡ text_key (owned (string_bytes text))) }
        ensures succeeds { FitsInline (string_bytes text) → IsOk result }
    {
        match ArrayString::from(text.as_str()) {
            Ok(held) => Ok(Key::Inline(held)),
            Err(_) => Ok(Key::String(RcStr::from_string(text)?)),
        }
    }
}

impl Key<'_> {
    /// The key that owns its text. Takes memory for a text of more than 16 bytes alone.
    pub(crate) fn owned(&self, alloc: Global) -> Result<Key<'static>, AllocError>
        ensures ok { IfOk result (λ k. key_form k ≡ owning (key_form self.now)) }
        ensures succeeds { IfSome (text_in_key (key_form self.now)) FitsInline → IsOk result }
    {
        match self {
            Key::Bool(b) => Ok(Key::Bool(*b)),
            Key::U64(n) => Ok(Key::U64(*n)),
            Key::I64(z) => Ok(Key::I64(*z)),
            Key::U128(n) => Ok(Key::U128(*n)),
            Key::I128(z) => Ok(Key::I128(*z)),
            Key::String(text) => Key::of_text(alloc, text.as_str()),
            Key::Str(text) => Key::of_text(alloc, *text),
            Key::Inline(text) => Key::of_text(alloc, text.as_str()),
        }
    }
}

/// A key that borrows the text, so it takes no memory. Mirrors `From<&'static str>` of
/// `tera::value::Key`.
impl From<&'static str> for Key<'static> {
    ghost from_gives = { λ t k. key_form k ≡ text_key (borrowed t.now) };

    fn from(text: &'static str) -> Key<'static> {
        Key::Str(text)
    }
}

/// Mirrors `From<u128>` of `tera::value::Key`. Takes no memory.
impl From<u128> for Key<'static> {
    ghost from_gives = { λ n k. key_form k ≡ integer_key u128 (pos n) };

    fn from(n: u128) -> Key<'static> {
        Key::U128(n)
    }
}

/// Mirrors `From<i128>` of `tera::value::Key`. Takes no memory.
impl From<i128> for Key<'static> {
    ghost from_gives = { λ z k. key_form k ≡ integer_key i128 z };

    fn from(z: i128) -> Key<'static> {
        Key::I128(z)
    }
}
