//! The laws of slices and of reversal. Each function here does nothing: its clauses are the law.
ghost use Rattle.std.specs.Prelude.{◌≡◌, ◌^◌, ◌-◌, ℕ, ℤ, codes, pos, negsuc, List, [], ◌∷◌};
ghost use Rattle.std.specs.Prelude.{reverse, drop, take, length, suc, neg_ℤ};
ghost use Rattle.std.specs.Prelude.{Option, None, Some, Result, Ok, Err, IfOk, true, false};
ghost use Rattle.std.specs.Str.{IsUtf8, chars, encode_utf8_all};
ghost use Rattle.tera_report.specs.Refusal.{Refusal, step_of_zero, not_sliceable, not_reversible};
ghost use Rattle.tera_meaning.specs.Form.{Form, MarkedText};
ghost use Rattle.tera_meaning.specs.Integer.{Integer, u64, i64, i128};
ghost use Rattle.tera_meaning.specs.KeyMeaning.{KeyForm};
ghost use Rattle.tera_meaning.specs.Meaning.{meaning};
ghost use Rattle.tera_meaning.specs.Rows.{held, marked, normal, SlicesTo};
ghost use Rattle.tera_meaning.specs.Read.{items_in};
ghost use Rattle.tera_meaning.specs.SliceRule.{IsSliced, reversed, shape_of};
ghost use Rattle.tera_meaning.specs.Stretch.{stretch};
ghost use Rattle.tera_meaning.specs.Tree.{undefined, none, truth, number, text, bytes, array};
ghost use Rattle.tera_meaning.specs.Tree.{object};
ghost use Rattle.tera_meaning.specs.Tree.{items, members};
ghost use Rattle.tera_meaning.specs.Slice.{sliced, slice_of};
ghost use Rattle.tera_meaning.specs.WellMade.{IsWellMade};

/// A slice of a value comes to one answer, and a walk over its items or characters gives it.
#[tactic(auto, using(crate::proofs::SliceLaws::sliced_is, crate::proofs::SliceLaws::sliced_only))]
pub fn slices_have_one_answer()
    ensures answered { (v : Form) (start end step : Option ℤ)
        → IsSliced v start end step (sliced v start end step) }
    ensures only { (v : Form) (start end step : Option ℤ) (outcome : Result Form Refusal)
        → IsSliced v start end step outcome → outcome ≡ sliced v start end step }
{}

/// A slice of an array or a text without bounds and by a step of 1 is that value.
#[tactic(auto, using(crate::proofs::SliceLaws::whole_array, crate::proofs::SliceLaws::whole_text))]
pub fn whole_slices_are_the_value()
    ensures array { (xs : List Form)
        → IsSliced (array (items xs)) None None None (Ok (array (items xs))) }
    ensures array_by_one { (xs : List Form)
        → IsSliced (array (items xs)) None None (Some (pos 1)) (Ok (array (items xs))) }
    ensures text { (t : MarkedText) → IsUtf8 t.spelled
        → IsSliced (text t) None None None (Ok (text t)) }
    ensures text_by_one { (t : MarkedText) → IsUtf8 t.spelled
        → IsSliced (text t) None None (Some (pos 1)) (Ok (text t)) }
{}

/// A slice of an array or a text without bounds and by a step of -1 is the reversed value, but that
/// the slice of a text keeps its flag.
pub fn slices_backwards_are_the_reversed_value()
    ensures array { (xs : List Form)
        → IsSliced (array (items xs)) None None (Some (negsuc 0)) (reversed (array (items xs))) }
    ensures text { (t : MarkedText) → IsSliced (text t) None None (Some (negsuc 0))
        (Ok (text (record {
          spelled = encode_utf8_all
              (reverse (chars t.spelled));
          safe = t.safe;
        }))) }
    ensures same { (t : MarkedText) (outcome : Result Form Refusal)
        → IsSliced (text t) None None (Some (negsuc 0)) outcome
        → shape_of outcome ≡ shape_of (reversed (text t)) }
{}

/// What a slice comes to depends on the meaning of the value alone, but for the name of its kind in
/// a refusal; and so does what is reversed.
#[tactic(auto, using(crate::proofs::found::by_meaning))]
pub fn slices_depend_on_meaning()
    ensures sliced { (v w : Form) (start end step : Option ℤ) (outcome other : Result Form Refusal)
        → meaning v ≡ meaning w → IsSliced v start end step outcome
        → IsSliced w start end step other → shape_of outcome ≡ shape_of other }
    ensures reversed { (v w : Form) → meaning v ≡ meaning w
        → shape_of (reversed v) ≡ shape_of (reversed w) }
{}

/// A slice of a well-made value is well made, and so is what is reversed.
#[tactic(auto, using(crate::proofs::found::well_made))]
pub fn slices_stay_well_made()
    ensures sliced { (v : Form) (start end step : Option ℤ) (outcome : Result Form Refusal)
        → IsWellMade v → IsSliced v start end step outcome → IfOk outcome IsWellMade }
    ensures reversed { (v : Form) → IsWellMade v → IfOk (reversed v) IsWellMade }
{}

/// A slice by a step of 1 is the items or characters from one bound to the other: behind so many,
/// up to so many, or the last ones. A start of -0 is one of 0, so that all are taken.
pub fn slices_by_one_are_stretches()
    ensures items { (xs : List Form) (start end : Option ℤ)
        → slice_of xs start end (pos 1) ≡ stretch xs start end }
    ensures array { (v : Form) (xs : List Form) (start end : Option ℤ)
        (outcome : Result Form Refusal) → items_in v ≡ Some xs → IsSliced v start end None outcome
        → outcome ≡ Ok (array (items (stretch xs start end))) }
    ensures text { (t : MarkedText) (start end : Option ℤ) (outcome : Result Form Refusal)
        → IsSliced (text t) start end None outcome
        → outcome ≡ Ok (text (record {
          spelled = encode_utf8_all
              (stretch (chars t.spelled) start end);
          safe = t.safe;
        })) }
    ensures last { (xs : List Form) (n : ℕ)
        → slice_of xs (Some (negsuc n)) None (pos 1) ≡ drop (length xs - suc n) xs }
    ensures behind { (xs : List Form) (n : ℕ)
        → slice_of xs (Some (pos n)) None (pos 1) ≡ drop n xs }
    ensures first { (xs : List Form) (n : ℕ)
        → slice_of xs None (Some (pos n)) (pos 1) ≡ take n xs }
    ensures between { (xs : List Form) (m n : ℕ)
        → slice_of xs (Some (pos m)) (Some (pos n)) (pos 1) ≡ drop m (take n xs) }
    ensures minus_zero { (xs : List Form)
        → slice_of xs (Some (neg_ℤ (pos 0))) None (pos 1) ≡ xs }
{}

/// Slices by steps of either sign, between bounds that are absent, below 0, past the ends, and at
/// the ends of what an i128 holds.
pub fn bounds_are_clamped()
    ensures by_minus_two { SlicesTo (0 ∷ 1 ∷ 2 ∷ 3 ∷ 4 ∷ []) None None (negsuc 1)
        (4 ∷ 2 ∷ 0 ∷ []) }
    ensures before_the_first { SlicesTo (0 ∷ 1 ∷ 2 ∷ 3 ∷ 4 ∷ []) (Some (negsuc 99)) None (negsuc 0)
        [] }
    ensures greatest { SlicesTo (0 ∷ 1 ∷ 2 ∷ 3 ∷ 4 ∷ []) (Some (pos 1)) (Some (pos (2 ^ 127 - 1)))
        (pos (2 ^ 127 - 1)) (1 ∷ []) }
    ensures least_to_greatest { SlicesTo (0 ∷ 1 ∷ 2 ∷ []) (Some (negsuc (2 ^ 127 - 1)))
        (Some (pos (2 ^ 127 - 1))) (pos 1) (0 ∷ 1 ∷ 2 ∷ []) }
    ensures greatest_to_least { SlicesTo (0 ∷ 1 ∷ 2 ∷ []) (Some (pos (2 ^ 127 - 1)))
        (Some (negsuc (2 ^ 127 - 1))) (negsuc 0) (2 ∷ 1 ∷ 0 ∷ []) }
    ensures by_the_least { SlicesTo (0 ∷ 1 ∷ 2 ∷ []) None None (negsuc (2 ^ 127 - 1)) (2 ∷ []) }
    ensures to_the_first { SlicesTo (0 ∷ 1 ∷ 2 ∷ 3 ∷ 4 ∷ []) (Some (pos 2)) None (negsuc 0)
        (2 ∷ 1 ∷ 0 ∷ []) }
    ensures behind_the_first { SlicesTo (0 ∷ 1 ∷ 2 ∷ 3 ∷ 4 ∷ []) (Some (pos 2)) (Some (pos 0))
        (negsuc 0) (2 ∷ 1 ∷ []) }
    ensures inside { SlicesTo (0 ∷ 1 ∷ 2 ∷ 3 ∷ 4 ∷ []) (Some (pos 1)) (Some (negsuc 0)) (pos 1)
        (1 ∷ 2 ∷ 3 ∷ []) }
    ensures crossed { SlicesTo (0 ∷ 1 ∷ 2 ∷ []) (Some (pos 2)) (Some (pos 1)) (pos 1) [] }
    ensures nothing { SlicesTo [] (Some (negsuc 0)) None (negsuc 0) [] }
{}

/// A slice of an array keeps the forms of its items, one of a text its flag, and takes characters,
/// not bytes.
pub fn slices_keep_forms()
    ensures array { IsSliced (array (items (held u64 1 ∷ marked (codes "a") ∷ held i128 2 ∷ [])))
        (Some (pos 1)) None None (Ok (array (items (marked (codes "a") ∷ held i128 2 ∷ [])))) }
    ensures text { IsSliced (marked (codes "abc")) (Some (negsuc 1)) None None
        (Ok (marked (codes "bc"))) }
    ensures characters { IsSliced (normal (226 ∷ 130 ∷ 172 ∷ 195 ∷ 169 ∷ 97 ∷ [])) None None
        (Some (negsuc 1)) (Ok (normal (97 ∷ 226 ∷ 130 ∷ 172 ∷ []))) }
{}

/// A step of 0 is refused whatever the value is, and then what is no array and no text.
pub fn slices_are_refused()
    ensures step { (v : Form) (start end : Option ℤ)
        → IsSliced v start end (Some (pos 0)) (Err step_of_zero) }
    ensures number { (start end : Option ℤ) → IsSliced (held i64 5) start end None
        (Err (not_sliceable (codes "i64"))) }
    ensures bytes { (bs : List ℕ) (start end : Option ℤ)
        → IsSliced (bytes bs) start end None (Err (not_sliceable (codes "bytes"))) }
    ensures map { IsSliced (object (members [])) None None None
        (Err (not_sliceable (codes "map/struct"))) }
    ensures undefined { IsSliced undefined None None None
        (Err (not_sliceable (codes "undefined"))) }
{}

/// Items keep their forms in a reversed array. A reversed text has its characters in the opposite
/// order, an accent that combines being one, and is not safe. Reversed bytes are bytes, and nothing
/// else is reversed.
pub fn reversed_values_keep_their_parts()
    ensures array { reversed (array (items (held u64 1 ∷ marked (codes "ab") ∷ [])))
        ≡ Ok (array (items (marked (codes "ab") ∷ held u64 1 ∷ []))) }
    ensures accent { reversed (marked (101 ∷ 204 ∷ 129 ∷ 99 ∷ 111 ∷ 108 ∷ 101 ∷ []))
        ≡ Ok (normal (101 ∷ 108 ∷ 111 ∷ 99 ∷ 204 ∷ 129 ∷ 101 ∷ [])) }
    ensures bytes { reversed (bytes (1 ∷ 2 ∷ [])) ≡ Ok (bytes (2 ∷ 1 ∷ [])) }
    ensures number { reversed (held i64 1) ≡ Err (not_reversible (codes "i64")) }
    ensures truth { reversed (truth true) ≡ Err (not_reversible (codes "bool")) }
    ensures map { reversed (object (members [])) ≡ Err (not_reversible (codes "map/struct")) }
    ensures none { reversed none ≡ Err (not_reversible (codes "none")) }
{}
