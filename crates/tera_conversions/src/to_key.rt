//! What can be made a key of a map.
ghost use Rattle.std.specs.Prelude.{◌≡◌, pos, true, IfOk, IfErr};
ghost use Rattle.std.specs.Cow.{cow_str_bytes};
ghost use Rattle.std.proofs.Common.{rules};
ghost use Rattle.std.specs.String.{string_bytes};
ghost use Rattle.tera_conversions.specs.inner.Apart.{key_apart};
ghost use Rattle.tera_meaning.specs.Integer.{u128, i128};
ghost use Rattle.tera_meaning.specs.KeyMeaning.{KeyForm, key_meaning, text_key, borrowed, owned};
ghost use Rattle.tera_report.specs.Errors.{IsOutOfMemory};
ghost use Rattle.tera_report.specs.declared.errors.Error.{Error};
ghost use Rattle.tera_values.specs.Key.{key_form, integer_key, FitsInline};

use std::alloc::Global;
use std::borrow::CowStr;
use tera_report::TeraResult;
use tera_values::Key;

/// What can be made a key of a map. It stands for the conversions `Into<Key<'static>>` of Tera,
/// some of which take memory.
///
/// Each implementation says which key it gives, in which form, and which errors it may answer in
/// its place; and that values which are not equal give keys that are not equal.
pub trait ToKey: Eq {
    // the key that is given
    ghost gives_key: { Self → KeyForm → Type 0 };

    // an error that may be answered in its place
    ghost refuses_key: { Self → Error → Type 0 };

    /// The key that it is, or an error that the implementation tells. Takes memory where that says
    /// so.
    fn to_key(self, alloc: Global) -> TeraResult<Key<'static>>
        ensures ok { IfOk result (λ k. gives_key self (key_form k)) }
        ensures err { IfErr result (refuses_key self) };

    // what gives equal keys is equal
    ghost apart: { (a b : Self) (j k : KeyForm) → gives_key a j → gives_key b k
        → key_meaning j ≡ key_meaning k → Self.PartialEq.eq a b ≡ true };
}

/// Itself. Takes no memory.
impl ToKey for Key<'static> {
    ghost gives_key = { λ key k. k ≡ key_form key };

    ghost refuses_key = { λ _ _. ⊥ };

    fn to_key(self, _alloc: Global) -> TeraResult<Key<'static>> {
        Ok(self)
    }

    ghost apart = { key_apart };
}

/// A text that the key borrows. Takes no memory.
impl ToKey for &'static str {
    ghost gives_key = { λ t k. k ≡ text_key (borrowed t.now) };

    ghost refuses_key = { λ _ _. ⊥ };

    fn to_key(self, _alloc: Global) -> TeraResult<Key<'static>> {
        Ok(Key::from(self))
    }

    ghost apart = { Prim.search rules };
}

/// A text that the key owns. Takes memory only where it has more than 16 bytes; the only refusal is
/// want of it, `Out of memory`.
impl ToKey for String {
    ghost gives_key = { λ t k. k ≡ text_key (owned (string_bytes t)) };

    ghost refuses_key = { λ t e. ¬ FitsInline (string_bytes t) × IsOutOfMemory e };

    fn to_key(self, _alloc: Global) -> TeraResult<Key<'static>> {
        Ok(Key::of_string(self)?)
    }

    ghost apart = { Prim.search rules };
}

/// A text that the key owns. Takes memory only where it has more than 16 bytes; the only refusal is
/// want of it, `Out of memory`.
impl ToKey for CowStr<'_> {
    ghost gives_key = { λ t k. k ≡ text_key (owned (cow_str_bytes t)) };

    ghost refuses_key = { λ t e. ¬ FitsInline (cow_str_bytes t) × IsOutOfMemory e };

    fn to_key(self, alloc: Global) -> TeraResult<Key<'static>> {
        match self {
            CowStr::Borrowed(text) => Ok(Key::of_text(alloc, text)?),
            CowStr::Owned(text) => Ok(Key::of_string(text)?),
        }
    }

    ghost apart = { Prim.search rules };
}

/// A number of 128 bits without a sign. Takes no memory.
impl ToKey for u128 {
    ghost gives_key = { λ n k. k ≡ integer_key u128 (pos n) };

    ghost refuses_key = { λ _ _. ⊥ };

    fn to_key(self, _alloc: Global) -> TeraResult<Key<'static>> {
        Ok(Key::from(self))
    }

    ghost apart = { Prim.search rules };
}

/// A number of 128 bits with a sign. Takes no memory.
impl ToKey for i128 {
    ghost gives_key = { λ z k. k ≡ integer_key i128 z };

    ghost refuses_key = { λ _ _. ⊥ };

    fn to_key(self, _alloc: Global) -> TeraResult<Key<'static>> {
        Ok(Key::from(self))
    }

    ghost apart = { Prim.search rules };
}
