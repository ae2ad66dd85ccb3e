//! The order of keys, however they are held.
ghost use Rattle.std.specs.Cmp.{IsEquivalence, IsTotalOrder};
ghost use Rattle.std.specs.Ordering.{eq_by_cmp};
ghost use Rattle.std.specs.Prelude.{◌≡◌, ◌↔◌, IsTrue, List};
ghost use Rattle.tera_meaning.specs.Form.{Form};
ghost use Rattle.tera_meaning.specs.KeyMeaning.{KeyForm, key_meaning};
ghost use Rattle.tera_meaning.specs.Pairs.{key_form_order, value_at};

/// The order of keys is total, and to tie in it is an equivalence: two keys tie exactly where they
/// mean the same. Keys that tie find the same.
#[tactic(auto, using(crate::proofs::KeyFormLaws::laws))]
pub fn keys_that_tie_find_the_same()
    ensures order { IsTotalOrder key_form_order }
    ensures equivalence { IsEquivalence (eq_by_cmp key_form_order) }
    ensures tie { (k l : KeyForm)
        → IsTrue (eq_by_cmp key_form_order k l) ↔ (key_meaning k ≡ key_meaning l) }
    ensures found { (ps : List (KeyForm × Form)) (k l : KeyForm)
        → IsTrue (eq_by_cmp key_form_order k l)
        → value_at key_form_order ps k ≡ value_at key_form_order ps l }
{}
