//! Laws of the literals that are written. Each function does nothing, and its contract is the law.
ghost use Rattle.std.specs.Prelude.{◌≡◌, ◌≤◌, [], ◌∷◌, ◌++◌, ℕ, pos, negsuc, Bool, true, false};
ghost use Rattle.std.specs.Prelude.{List, codes, not};
ghost use Rattle.std.specs.Char.{is_ascii};
ghost use Rattle.std.specs.List.{list_all};
ghost use Rattle.tera_meaning.specs.Form.{Form};
ghost use Rattle.tera_meaning.specs.Request.{set, asking};
ghost use Rattle.tera_meaning.specs.Integer.{i64 as kind_i64, u64 as kind_u64};
ghost use Rattle.tera_meaning.specs.Integer.{u128 as kind_u128, i128 as kind_i128};
ghost use Rattle.tera_meaning.specs.KeyMeaning.{number_key, text_key, owned, borrowed};
ghost use Rattle.tera_meaning.specs.Tree.{depth, undefined, none, truth, number, text, bytes};
ghost use Rattle.tera_meaning.specs.Tree.{array, items, object, members};
ghost use Rattle.tera_meaning.specs.WellMade.{IsWellMade};
ghost use Rattle.tera_report.specs.Quoted.{is_control};
ghost use Rattle.tera_script.specs.Line.{Says, levels};
ghost use Rattle.tera_script.specs.Literal.{SpellsLiteral};
ghost use Rattle.tera_script.specs.Word.{IsName};
ghost use Rattle.tera_script.specs.Written.{literal_of, owned_form};

use tera_values::{Value, is_well_made};

/// The literal of a form that is well made spells it, with keys that own their texts. Of what some
/// literal spells all keys do, so it is read back as that very form. No two forms whose keys own
/// their texts have one literal.
pub fn literals_are_read_back()
    ensures spelled { (ascii : Bool) (form : Form) → IsWellMade form
        → SpellsLiteral (literal_of ascii form) (owned_form form) }
    ensures again { (ascii : Bool) (literal : List ℕ) (form : Form) → SpellsLiteral literal form
        → IsWellMade form → SpellsLiteral (literal_of ascii form) form }
    ensures one { (ascii : Bool) (first second : Form) → IsWellMade first → IsWellMade second
        → literal_of ascii first ≡ literal_of ascii second
        → owned_form first ≡ owned_form second }
{}

/// A line of `set`, a name and the literal of a form that is well made and nests at most 64 levels
/// says the command that sets the name to that form, with keys that own their texts.
pub fn written_lines_are_said()
    ensures { (ascii : Bool) (name : List ℕ) (form : Form) → IsName name → IsWellMade form
        → depth form ≤ levels
        → Says (codes "set " ++ (name ++ (codes " " ++ literal_of ascii form)))
        (asking (set name (owned_form form))) }
{}

/// The literal of each value that a program holds spells its form, with keys that own their texts;
/// and where it nests at most 64 levels, a line of `set`, a name and that literal says so. The
/// function only walks through the value, for the sake of the clause. Takes no memory.
pub fn written_values_are_read_back(value: &Value)
    ensures spelled { (ascii : Bool)
        → SpellsLiteral (literal_of ascii value.now) (owned_form value.now) }
    ensures said { (ascii : Bool) (name : List ℕ) → IsName name → depth value.now ≤ levels
        → Says (codes "set " ++ (name ++ (codes " " ++ literal_of ascii value.now)))
        (asking (set name (owned_form value.now))) }
{
    is_well_made(value);
}

/// No control byte stands in the literal of a form that is well made, and where it is to be ASCII
/// nothing else does.
pub fn what_is_written_prints()
    ensures control { (ascii : Bool) (form : Form) → IsWellMade form
        → list_all (λ byte. not (is_control byte)) (literal_of ascii form) ≡ true }
    ensures ascii { (form : Form) → IsWellMade form
        → list_all is_ascii (literal_of true form) ≡ true }
{}

/// Literals of some forms.
pub fn worked_literals()
    ensures word { literal_of true undefined ≡ codes "undefined" }
    ensures least { literal_of true (number (record { kind = kind_i64; value = negsuc 0 }))
        ≡ codes "-1" }
    ensures suffix { literal_of true (number (record { kind = kind_u64; value = pos 1 }))
        ≡ codes "1u64" }
    ensures no_suffix { literal_of true
        (number (record { kind = kind_u64; value = pos 9223372036854775808 }))
        ≡ codes "9223372036854775808" }
    ensures later_kind { literal_of true
        (number (record { kind = kind_i128; value = pos 9223372036854775808 }))
        ≡ codes "9223372036854775808i128" }
    ensures last_kind { literal_of true (number (record { kind = kind_u128; value = pos 0 }))
        ≡ codes "0u128" }
    ensures safe { literal_of false (text (record { spelled = 195 ∷ 169 ∷ []; safe = true }))
        ≡ codes "s\"" ++ (195 ∷ 169 ∷ codes "\"") }
    ensures ascii { literal_of true (text (record { spelled = 195 ∷ 169 ∷ []; safe = false }))
        ≡ codes "\"\\u{e9}\"" }
    ensures escapes { literal_of true
        (text (record { spelled = codes "\"'\\\n\t" ++ (0 ∷ 13 ∷ 127 ∷ []); safe = false }))
        ≡ codes "\"\\\"'\\\\\\n\\t\\0\\r\\u{7f}\"" }
    ensures byte_string { literal_of true (bytes (106 ∷ 255 ∷ [])) ≡ codes "x\"6aff\"" }
    ensures parts { literal_of true (array (items (none ∷ array (items []) ∷ [])))
        ≡ codes "[none, []]" }
    ensures pairs { literal_of true (object (members ((text_key (owned (codes "k")), truth true)
        ∷ (number_key (record { kind = kind_u64; value = pos 1 }), none) ∷ [])))
        ≡ codes "{\"k\": true, 1u64: none}" }
    ensures lent_key { owned_form (object (members ((text_key (borrowed (codes "k")), none) ∷ [])))
        ≡ object (members ((text_key (owned (codes "k")), none) ∷ [])) }
{}
