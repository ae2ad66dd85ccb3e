//! Look-ups on small values. Each function here does nothing: its clauses are the rows.
ghost use Rattle.std.specs.Prelude.{◌≡◌, ◌-◌, ◌^◌, ℕ, codes, true, false, pos, negsuc, List};
ghost use Rattle.std.specs.Prelude.{[], ◌∷◌, Some, None, Ok, Err};
ghost use Rattle.tera_meaning.specs.Fields.{fields};
ghost use Rattle.tera_meaning.specs.Form.{Form};
ghost use Rattle.tera_meaning.specs.Integer.{Integer, u64, i64, u128, i128};
ghost use Rattle.tera_meaning.specs.KeyMeaning.{truth_key, number_key, text_key, owned};
ghost use Rattle.tera_meaning.specs.Lookup.{attr, as_key, item, held_item, holds};
ghost use Rattle.tera_meaning.specs.Path.{path};
ghost use Rattle.tera_meaning.specs.Rows.{at_name, key_of, listed, mapped, marked, named, normal};
ghost use Rattle.tera_meaning.specs.Rows.{integer};
ghost use Rattle.tera_meaning.specs.Tree.{undefined, none, truth, number, bytes};
ghost use Rattle.tera_report.specs.Refusal.{in_array, in_text, not_a_key, not_a_map_key};
ghost use Rattle.tera_report.specs.Refusal.{not_an_index, not_a_container};

/// A path leads from a map by texts alone and from an array by places alone, with one `+` or none
/// and leading zeros; digits of a number from 2^64 on are a text.
pub fn paths_lead_by_places_and_texts()
    ensures nested { (v : Form)
        → path (at_name (codes "a") (listed (at_name (codes "b") v ∷ []))) (codes "a.0.b")
        ≡ Some v }
    ensures plus { (v : Form)
        → path (at_name (codes "a") (listed (at_name (codes "b") v ∷ []))) (codes "a.+0.b")
        ≡ Some v }
    ensures zeros { (v : Form)
        → path (at_name (codes "a") (listed (v ∷ []))) (codes "a.00") ≡ Some v }
    ensures empty { (v : Form) → path (at_name [] v) [] ≡ Some v }
    ensures behind { (v : Form) → path (at_name (codes "a") (at_name [] v)) (codes "a.") ≡ Some v }
    ensures place { (v : Form) → path (at_name (codes "0") v) (codes "0") ≡ None }
    ensures plus_place { (v : Form) → path (at_name (codes "+0") v) (codes "+0") ≡ None }
    ensures wide { (v : Form)
        → path (at_name (codes "18446744073709551616") v) (codes "18446744073709551616") ≡ Some v }
    ensures greatest { (v : Form)
        → path (at_name (codes "18446744073709551615") v) (codes "18446744073709551615") ≡ None }
    ensures bare { (v : Form) → path (at_name (codes "+") v) (codes "+") ≡ Some v }
    ensures minus { (v : Form) → path (at_name (codes "-0") v) (codes "-0") ≡ Some v }
    ensures twice { (v : Form) → path (at_name (codes "++0") v) (codes "++0") ≡ Some v }
    ensures key { (v : Form) → path (listed (v ∷ [])) (codes "a") ≡ None }
{}

/// From undefined no path leads anywhere, from none each leads to itself, and what is met on the
/// way leads on as any other value.
pub fn paths_from_none_lead_to_itself()
    ensures undefined { (p : List ℕ) → path undefined p ≡ None }
    ensures none { (p : List ℕ) → path none p ≡ Some none }
    ensures met { path (at_name (codes "n") none) (codes "n") ≡ Some none }
    ensures beyond { path (at_name (codes "n") none) (codes "n.x") ≡ None }
    ensures number { path (integer i64 (pos 1)) (codes "x") ≡ None }
{}

/// An attribute is found at a text, and at no number that prints as it; an array has none.
pub fn attributes_are_found_at_texts()
    ensures text { attr (at_name (codes "a") none) (codes "a") ≡ Some none }
    ensures number { attr (mapped ((key_of u64 1, none) ∷ [])) (codes "1") ≡ None }
    ensures array { (xs : List Form) (name : List ℕ) → attr (listed xs) name ≡ None }
{}

/// A key is found by its meaning; an index from either end; undefined where there is nothing.
pub fn items_are_found_by_meaning()
    ensures width { item (mapped ((key_of u64 1, normal (codes "a")) ∷ [])) (integer i128 (pos 1))
        ≡ Ok (normal (codes "a")) }
    ensures absent { item (mapped ((key_of u64 1, none) ∷ [])) (normal (codes "1"))
        ≡ Ok undefined }
    ensures last { item (listed (integer i64 (pos 10) ∷ integer u64 (pos 20) ∷ []))
        (integer i64 (negsuc 0)) ≡ Ok (integer u64 (pos 20)) }
    ensures first { item (listed (integer i64 (pos 10) ∷ integer u64 (pos 20) ∷ []))
        (integer i64 (negsuc 1)) ≡ Ok (integer i64 (pos 10)) }
    ensures before { item (listed (integer i64 (pos 10) ∷ [])) (integer i64 (negsuc 1))
        ≡ Ok undefined }
    ensures beyond { item (listed (integer i64 (pos 10) ∷ [])) (integer u128 (pos (2 ^ 128 - 1)))
        ≡ Ok undefined }
    ensures character { item (marked (97 ∷ 195 ∷ 169 ∷ [])) (integer i64 (pos 1))
        ≡ Ok (marked (195 ∷ 169 ∷ [])) }
    ensures last_character { item (normal (97 ∷ 195 ∷ 169 ∷ [])) (integer i64 (negsuc 1))
        ≡ Ok (normal (codes "a")) }
    ensures number { (n : Integer) (i : Form) → item (number n) i ≡ Ok undefined }
    ensures bytes { (bs : List ℕ) (i : Form) → item (bytes bs) i ≡ Ok undefined }
{}

/// A map holds what it has at a key, and an array at an index; no text holds its characters.
pub fn items_are_held_by_maps_and_arrays()
    ensures text { (v : Form) → held_item (at_name (codes "a") v) (marked (codes "a")) ≡ Some v }
    ensures width { (v : Form) → held_item (mapped ((key_of u64 1, v) ∷ [])) (integer i128 (pos 1))
        ≡ Some v }
    ensures truth { (v : Form) → held_item (mapped ((truth_key true, v) ∷ [])) (truth true)
        ≡ Some v }
    ensures absent { held_item (mapped ((key_of u64 1, none) ∷ [])) (normal (codes "1")) ≡ None }
    ensures no_key { held_item (at_name (codes "a") none) none ≡ None }
    ensures last { (v w : Form)
        → held_item (listed (v ∷ w ∷ [])) (integer i64 (negsuc 0)) ≡ Some w }
    ensures beyond { (v w : Form)
        → held_item (listed (v ∷ w ∷ [])) (integer u64 (pos 2)) ≡ None }
    ensures no_index { (v : Form) → held_item (listed (v ∷ [])) (normal (codes "0")) ≡ None }
    ensures character { held_item (normal (codes "a")) (integer u64 (pos 0)) ≡ None }
    ensures none { (i : Form) → held_item none i ≡ None }
{}

/// An item of a map that is no key is refused, and one of an array or a text that is no integer.
pub fn items_are_refused_by_their_kind()
    ensures array { item (listed []) (truth true) ≡ Err (not_an_index in_array (codes "bool")) }
    ensures text { item (normal []) none ≡ Err (not_an_index in_text (codes "none")) }
    ensures map { item (mapped []) (listed []) ≡ Err (not_a_map_key (codes "array")) }
    ensures undefined { item (mapped []) undefined ≡ Err (not_a_map_key (codes "undefined")) }
{}

/// An array holds what is equal to an item, a text each of its parts, the empty one too, and a map
/// its keys; a number is no container.
pub fn containers_hold_by_meaning()
    ensures empty { holds (normal (codes "abc")) (normal []) ≡ Ok true }
    ensures part { holds (normal (codes "abc")) (marked (codes "bc")) ≡ Ok true }
    ensures no_part { holds (normal (codes "abc")) (normal (codes "ac")) ≡ Ok false }
    ensures no_text { holds (normal (codes "a1")) (integer i64 (pos 1)) ≡ Ok false }
    ensures width { holds (listed (integer i64 (pos 1) ∷ [])) (integer u128 (pos 1)) ≡ Ok true }
    ensures key { holds (mapped ((key_of u64 1, none) ∷ [])) (integer i128 (pos 1)) ≡ Ok true }
    ensures no_key { holds (mapped ((key_of u64 1, none) ∷ [])) (listed (integer i64 (pos 1) ∷ []))
        ≡ Ok false }
    ensures number { holds (integer i64 (pos 1)) (integer i64 (pos 1))
        ≡ Err (not_a_container (codes "i64")) }
{}

/// What keys print is named once, in the order of its bytes: the number 1 and the text `1` are one.
pub fn fields_are_named_once()
    ensures map { fields (mapped ((truth_key true, none) ∷ (key_of u64 1, none)
        ∷ (named (codes "1"), none) ∷ [])) ≡ codes "1" ∷ codes "true" ∷ [] }
    ensures none { fields none ≡ [] }
    ensures array { fields (listed (none ∷ [])) ≡ [] }
{}

/// An integer is a key in its kind, and a text is one; none is no key.
pub fn keys_keep_their_kind()
    ensures number { (n : Integer) → as_key (number n) ≡ Ok (number_key n) }
    ensures text { as_key (marked (codes "a")) ≡ Ok (text_key (owned (codes "a"))) }
    ensures none { as_key none ≡ Err not_a_key }
{}
