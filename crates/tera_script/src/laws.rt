//! Laws of the grammar of lines. Each function does nothing, and its contract is the law.
ghost use Rattle.std.specs.Prelude.{◌≡◌, ℕ, List, ◌++◌, reverse};
ghost use Rattle.std.specs.Map.{keys_of};
ghost use Rattle.tera_meaning.specs.Form.{Form};
ghost use Rattle.tera_meaning.specs.KeyMeaning.{KeyForm};
ghost use Rattle.tera_meaning.specs.Pairs.{HasDistinctKeys, key_form_order, value_at};
ghost use Rattle.tera_meaning.specs.Request.{Command};
ghost use Rattle.tera_script.specs.Line.{Says, IsSkipped};
ghost use Rattle.tera_script.specs.Literal.{SpellsLiteral, in_places, key_at};

/// No line says two commands.
pub fn one_command()
    ensures { (line : List ℕ) (first second : Command) → Says line first → Says line second → first
        ≡ second }
{}

/// No line that is skipped says a command.
pub fn skipped_says_nothing()
    ensures { (line : List ℕ) (command : Command) → IsSkipped line → ¬ Says line command }
{}

/// No bytes spell two values.
pub fn one_literal()
    ensures { (literal : List ℕ) (first second : Form) →
        SpellsLiteral literal first → SpellsLiteral literal second → first ≡ second }
{}

/// Of pairs that are written with equal keys a map has the first key and the last value. No two of
/// its keys tie, and what is written later moves none: a new key stands behind all others.
pub fn equal_keys_keep_the_first_key_and_the_last_value()
    ensures distinct { (written : List (KeyForm × Form)) →
        HasDistinctKeys key_form_order (in_places written) }
    ensures places { (written later : List (KeyForm × Form)) → (new : List KeyForm)
        × (keys_of (in_places (written ++ later)) ≡ keys_of (in_places written) ++ new) }
    ensures values { (written : List (KeyForm × Form)) (key : KeyForm) →
        value_at key_form_order (in_places written) key
        ≡ value_at key_form_order (reverse written) key }
    ensures keys { (written : List (KeyForm × Form)) (key : KeyForm) →
        key_at (in_places written) key ≡ key_at written key }
{}
