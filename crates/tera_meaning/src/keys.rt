//! The laws of the order of keys. Each function here does nothing: its clauses are the law.
ghost use Rattle.std.specs.Prelude.{◌≡◌, ℕ, ◌<◌, ◌↔◌, Bool, ℤ, IsTrue, List};
ghost use Rattle.std.specs.Ordering.{eq_by_cmp, bool_cmp, int_cmp, nat_cmp};
ghost use Rattle.std.specs.Cmp.{IsTotalOrder, IsEquivalence};
ghost use Rattle.std.specs.Cmp.Lexicographic.{slice_cmp};
ghost use Rattle.tera_meaning.specs.KeyMeaning.{KeyMeaning, truth_key, number_key, text_key};
ghost use Rattle.tera_meaning.specs.KeyMeaning.{key_rank, key_order};

use std::cmp::Ordering;

/// The order of keys is total: it reads the other way round when its sides are swapped, chains, and
/// treats keys that it ties alike.
#[tactic(auto, using(crate::proofs::KeyLaws::key_total))]
pub fn keys_are_ordered()
    ensures { IsTotalOrder key_order }
{}

/// The order of keys answers `Equal` exactly at one and the same key.
#[tactic(auto, using(crate::proofs::KeyLaws::laws))]
pub fn keys_tie_themselves()
    ensures order { (k l : KeyMeaning) → (key_order k l ≡ Ordering.Equal) ↔ (k ≡ l) }
    ensures equality { (k l : KeyMeaning) → IsTrue (eq_by_cmp key_order k l) ↔ (k ≡ l) }
    ensures equivalence { IsEquivalence (eq_by_cmp key_order) }
{}

/// Keys of two ranks compare by their ranks, and those of one rank by value: texts by the first
/// byte where they differ.
pub fn key_ranks_decide_before_values()
    ensures ranks { (k l : KeyMeaning) → key_rank k < key_rank l → key_order k l ≡ Ordering.Less }
    ensures truths { (a b : Bool) → key_order (truth_key a) (truth_key b) ≡ bool_cmp a b }
    ensures numbers { (y z : ℤ) → key_order (number_key y) (number_key z) ≡ int_cmp y z }
    ensures texts { (s t : List ℕ) → key_order (text_key s) (text_key t) ≡ slice_cmp nat_cmp s t }
{}
