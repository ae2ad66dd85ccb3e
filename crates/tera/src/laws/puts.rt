//! Entries that are put into pairs one after another.
ghost use Rattle.std.specs.Map.{keys_of};
ghost use Rattle.std.specs.Option.{option_or};
ghost use Rattle.std.specs.Prelude.{◌≡◌, List, [], ◌++◌, reverse};
ghost use Rattle.tera_meaning.specs.Form.{Form};
ghost use Rattle.tera_meaning.specs.KeyMeaning.{KeyForm};
ghost use Rattle.tera_meaning.specs.Pairs.{HasDistinctKeys, key_form_order, put_all, value_at};
ghost use Rattle.tera.specs.PutKeys.{keys_beside};

/// A key finds the last entry that was put at it, and else what it found before. Where the entries
/// have distinct keys, it finds what it does in them.
pub fn what_was_put_is_found()
    ensures last { (ps es : List (KeyForm × Form)) (q : KeyForm)
        → value_at key_form_order (put_all key_form_order ps es) q
        ≡ option_or (value_at key_form_order (reverse es) q) (value_at key_form_order ps q) }
    ensures distinct { (ps es : List (KeyForm × Form)) (q : KeyForm)
        → HasDistinctKeys key_form_order es
        → value_at key_form_order (put_all key_form_order ps es) q
        ≡ option_or (value_at key_form_order es q) (value_at key_form_order ps q) }
{}

/// The keys are those of the pairs, and then those of the entries that are not there. Entries whose
/// keys are distinct stand as they were put where there was nothing, and behind pairs whose keys
/// are distinct from theirs.
pub fn new_keys_are_put_last()
    ensures keys { (ps es : List (KeyForm × Form)) → HasDistinctKeys key_form_order es
        → keys_of (put_all key_form_order ps es) ≡ keys_of ps ++ keys_beside key_form_order ps es }
    ensures itself { (es : List (KeyForm × Form)) → HasDistinctKeys key_form_order es
        → put_all key_form_order [] es ≡ es }
    ensures behind { (ps es : List (KeyForm × Form)) → HasDistinctKeys key_form_order (ps ++ es)
        → put_all key_form_order ps es ≡ ps ++ es }
{}
