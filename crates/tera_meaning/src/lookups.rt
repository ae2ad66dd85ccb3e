//! The laws of look-ups, and the definitions at work on small values. Each function here does
//! nothing: its clauses are the law, or the rows.
ghost use Rattle.std.specs.Prelude.{◌≡◌, ◌↔◌, ℕ, Bool, List, [], Some, None, Ok, IsTrue};
ghost use Rattle.std.specs.Prelude.{pos, negsuc, reverse, slice_get, IfSome, IfOk};
ghost use Rattle.std.specs.Str.Iter.{HasSubslice};
ghost use Rattle.tera_meaning.specs.Form.{Form, MarkedText};
ghost use Rattle.tera_meaning.specs.Integer.{Integer};
ghost use Rattle.tera_meaning.specs.KeyMeaning.{KeyForm, text_key, owned, key_meaning};
ghost use Rattle.tera_meaning.specs.Lookup.{attr, as_key, item, holds, seen_by, occurs, part_at};
ghost use Rattle.tera_meaning.specs.Lookup.{held_item};
ghost use Rattle.tera_meaning.specs.Read.{text_in};
ghost use Rattle.tera_meaning.specs.Fields.{fields, AreRisingOf, shown_in};
ghost use Rattle.tera_meaning.specs.Meaning.{meaning};
ghost use Rattle.tera_meaning.specs.Path.{path, AreElements, elements_of, place, IsPlace};
ghost use Rattle.std.specs.Option.{option_map};
ghost use Rattle.tera_meaning.specs.Pairs.{key_form_order, value_at};
ghost use Rattle.tera_meaning.specs.Tree.{undefined, none, truth, number, text, bytes, array};
ghost use Rattle.tera_meaning.specs.Tree.{object, items, members};
ghost use Rattle.tera_meaning.specs.WellMade.{IsWellMade, IsWellMadeKey};

/// The attribute of a map is what a look-up of that text in its pairs finds, however many these
/// are and whether the key owns its text or lends it.
#[tactic(auto, using(crate::proofs::TreeLaws::list_of_members))]
pub fn attributes_are_looked_up_by_text()
    ensures found { (ps : List (KeyForm × Form)) (name : List ℕ)
        → attr (object (members ps)) name ≡ value_at key_form_order ps (text_key (owned name)) }
{}

/// What look-ups find, and the shape of what they refuse, depends on meanings alone: kinds of
/// integers, flags of texts and how keys are held do not count.
#[tactic(auto, using(crate::proofs::found::by_meaning))]
pub fn look_ups_depend_on_meaning()
    ensures attr { (v w : Form) (name : List ℕ) → meaning v ≡ meaning w
        → option_map meaning (attr v name) ≡ option_map meaning (attr w name) }
    ensures path { (v w : Form) (p : List ℕ) → meaning v ≡ meaning w
        → option_map meaning (path v p) ≡ option_map meaning (path w p) }
    ensures item { (v w i j : Form) → meaning v ≡ meaning w → meaning i ≡ meaning j
        → seen_by meaning (item v i) ≡ seen_by meaning (item w j) }
    ensures holds { (v w x y : Form) → meaning v ≡ meaning w → meaning x ≡ meaning y
        → seen_by (λ told. told) (holds v x) ≡ seen_by (λ told. told) (holds w y) }
    ensures key { (v w : Form) → meaning v ≡ meaning w
        → seen_by key_meaning (as_key v) ≡ seen_by key_meaning (as_key w) }
    ensures fields { (v w : Form) → meaning v ≡ meaning w → fields v ≡ fields w }
{}

/// The elements of a path are the only texts without a dot, one or more, that joined with dots are
/// the path.
#[tactic(auto, using(crate::proofs::PathLemmas::laws))]
pub fn paths_have_one_list_of_elements()
    ensures are { (p : List ℕ) → AreElements p (elements_of p) }
    ensures only { (p : List ℕ) (elements : List (List ℕ)) → AreElements p elements
        → elements ≡ elements_of p }
{}

/// An element is a place where it is one `+` or none, and then one or more digits of a number below
/// 2^64: of that number.
pub fn places_are_digits_behind_one_plus()
    ensures { (element : List ℕ) (n : ℕ) → (place element ≡ Some n) ↔ IsPlace element n }
{}

/// A text holds another where it is some text, the other and some text joined.
#[tactic(auto, using(crate::proofs::LookupLaws::occurs_where_joined))]
pub fn texts_hold_what_they_are_joined_of()
    ensures { (part whole : List ℕ) → IsTrue (occurs part whole) ↔ HasSubslice whole part }
{}

/// An index from 0 on counts from the front, and one below 0 from the back: -1 is the last.
pub fn indices_count_from_either_end()
    ensures front { (xs : List Form) (n : ℕ) → part_at xs (pos n) ≡ slice_get xs n }
    ensures back { (xs : List Form) (n : ℕ) → part_at xs (negsuc n) ≡ slice_get (reverse xs) n }
    ensures characters { (cs : List ℕ) (n : ℕ)
        → part_at cs (negsuc n) ≡ slice_get (reverse cs) n }
{}

/// What a value holds at an item is that item. A value that holds nothing there, and is no text,
/// has undefined there, or refuses the item.
#[tactic(auto, using(crate::proofs::LookupLaws::held))]
pub fn held_items_are_items()
    ensures held { (v i : Form) → IfSome (held_item v i) (λ part. item v i ≡ Ok part) }
    ensures absent { (v i : Form) → text_in v ≡ None → held_item v i ≡ None
        → IfOk (item v i) (λ part. part ≡ undefined) }
{}

/// The names of fields are the only texts, each less than every later one, that are just what the
/// keys print.
#[tactic(auto, using(crate::proofs::FieldLaws::only_rising_texts))]
pub fn fields_have_one_list_of_names()
    ensures are { (v : Form) → AreRisingOf (shown_in v) (fields v) }
    ensures only { (v : Form) (names : List (List ℕ)) → AreRisingOf (shown_in v) names
        → names ≡ fields v }
{}

/// Maps alone have keys that print, and fields.
pub fn maps_alone_have_fields()
    ensures undefined { (shown_in undefined ≡ []) × (fields undefined ≡ []) }
    ensures none { (shown_in none ≡ []) × (fields none ≡ []) }
    ensures truth { (b : Bool) → (shown_in (truth b) ≡ []) × (fields (truth b) ≡ []) }
    ensures number { (n : Integer) → (shown_in (number n) ≡ []) × (fields (number n) ≡ []) }
    ensures text { (t : MarkedText) → (shown_in (text t) ≡ []) × (fields (text t) ≡ []) }
    ensures bytes { (bs : List ℕ) → (shown_in (bytes bs) ≡ []) × (fields (bytes bs) ≡ []) }
    ensures array { (xs : List Form)
        → (shown_in (array (items xs)) ≡ []) × (fields (array (items xs)) ≡ []) }
{}

/// What look-ups find in a well-made value is well made, and so is the key that one is.
#[tactic(auto, using(crate::proofs::found::well_made))]
pub fn look_ups_find_what_is_well_made()
    ensures attr { (v : Form) (name : List ℕ) → IsWellMade v → IfSome (attr v name) IsWellMade }
    ensures path { (v : Form) (p : List ℕ) → IsWellMade v → IfSome (path v p) IsWellMade }
    ensures item { (v i : Form) → IsWellMade v → IfOk (item v i) IsWellMade }
    ensures key { (v : Form) → IsWellMade v → IfOk (as_key v) IsWellMadeKey }
{}
