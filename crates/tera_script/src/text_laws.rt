//! Laws of the spellings of texts. Each function does nothing, and its contract is the law.
#![tactic(auto)]

ghost use Rattle.std.specs.Prelude.{◌≡◌, ℕ, List, [], ◌∷◌, ◌++◌, IsUtf8, codes};
ghost use Rattle.tera_script.specs.Text.{SpellsText};

/// No bytes spell two texts.
pub fn one_text()
    ensures { (inner s t : List ℕ) → SpellsText inner s → SpellsText inner t → s ≡ t }
{}

/// The quote that closes a text stands at one place alone.
pub fn one_closing_quote()
    ensures { (inner other s t xs ys : List ℕ) → SpellsText inner s → SpellsText other t
        → inner ++ 34 ∷ xs ≡ other ++ 34 ∷ ys → inner ≡ other }
{}

/// What UTF-8 spells is UTF-8.
pub fn text_is_utf8()
    ensures { (inner text : List ℕ) → SpellsText inner text → IsUtf8 inner → IsUtf8 text }
{}

/// What some bytes spell, and bytes that spell nothing.
pub fn worked_texts()
    ensures escaped_quote { SpellsText (codes "a\\\"b") (codes "a\"b") }
    ensures two_bytes { SpellsText (codes "\\u{e9}") (195 ∷ 169 ∷ []) }
    ensures four_bytes { SpellsText (codes "\\u{1F600}") (240 ∷ 159 ∷ 152 ∷ 128 ∷ []) }
    ensures surrogate { (text : List ℕ) → SpellsText (codes "\\u{d800}") text → ⊥ }
    ensures no_digit { (text : List ℕ) → SpellsText (codes "\\u{}") text → ⊥ }
    ensures seven_digits { (text : List ℕ) → SpellsText (codes "\\u{1234567}") text → ⊥ }
    ensures unknown_escape { (text : List ℕ) → SpellsText (codes "\\x") text → ⊥ }
{}
