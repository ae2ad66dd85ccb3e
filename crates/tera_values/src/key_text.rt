//! Whether a key is a text.
ghost use Rattle.std.specs.Prelude.{◌≡◌};
ghost use Rattle.std.specs.Ordering.{eq_by_cmp};
ghost use Rattle.tera_meaning.specs.KeyMeaning.{key_order, text_key};
ghost use Rattle.tera_values.specs.inner.Map.{is_text_key};

use crate::Key;

/// Whether a key is this text.
#[inline(always)]
pub(crate) fn is_text_key(text: &str, held: &Key<'_>) -> bool
    ensures { result ≡ is_text_key text.now held.now }
{
    match held {
        Key::String(other) => is_text(text, other.as_str()),
        Key::Str(other) => is_text(text, *other),
        Key::Inline(other) => is_text(text, other.as_str()),
        _ => false,
    }
}

// Whether two texts are equal. Most keys of one length that differ do so in the last byte.
#[inline(always)]
#[tactic(auto, using(crate::proofs::KeyLemmas::unlike))]
fn is_text(text: &str, other: &str) -> bool
    ensures { result ≡ eq_by_cmp key_order (text_key text.now) (text_key other.now) }
{
    let (left, right) = (text.as_bytes(), other.as_bytes());
    let len = left.len();
    if len != right.len() {
        return false;
    }
    if len != 0 && left[len - 1] != right[len - 1] {
        return false;
    }
    text == other
}
