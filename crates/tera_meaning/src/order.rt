//! The laws of the order of meanings. Each function here does nothing: its clauses are the law.
ghost use Rattle.std.specs.Prelude.{◌≡◌, ℕ, ◌<◌, ◌↔◌, Bool, ℤ, IsTrue, List};
ghost use Rattle.std.specs.Ordering.{as_partial_cmp, bool_cmp, int_cmp, nat_cmp};
ghost use Rattle.std.specs.Cmp.{IsTotalOrder, IsPartialOrder, IsEquivalence};
ghost use Rattle.std.specs.Cmp.Lexicographic.{slice_cmp};
ghost use Rattle.tera_meaning.specs.KeyMeaning.{KeyMeaning};
ghost use Rattle.tera_meaning.specs.Meaning.{Meaning};
ghost use Rattle.tera_meaning.specs.Order.{rank, compare, same};
ghost use Rattle.tera_meaning.specs.Order.{pair_order};
ghost use Rattle.tera_meaning.specs.Tree.{truth, number, text, bytes, array, object, items};
ghost use Rattle.tera_meaning.specs.Tree.{members};

use std::cmp::Ordering;

/// The order of meanings is total: it reads the other way round when its sides are swapped, chains,
/// and treats meanings that it ties alike.
#[tactic(auto, using(crate::proofs::OrderLaws::laws))]
pub fn meanings_are_ordered()
    ensures total { IsTotalOrder compare }
    ensures partial { IsPartialOrder same (as_partial_cmp compare) }
{}

/// The order of meanings answers `Equal` exactly at one and the same meaning.
#[tactic(auto, using(crate::proofs::OrderLaws::compare_tie))]
pub fn meanings_tie_themselves()
    ensures { (x y : Meaning) → (compare x y ≡ Ordering.Equal) ↔ (x ≡ y) }
{}

/// Two meanings are equal exactly where they are one and the same, so equality is an equivalence.
#[tactic(auto, using(crate::proofs::OrderLaws::laws))]
pub fn equality_is_identity()
    ensures identity { (x y : Meaning) → IsTrue (same x y) ↔ (x ≡ y) }
    ensures equivalence { IsEquivalence same }
{}

/// Arrays and maps compare as the lists of their items and pairs do. The first place where they
/// differ decides, and a proper beginning is less. A pair is compared by its key and then by its
/// value.
#[tactic(auto, using(crate::proofs::OrderLaws::laws))]
pub fn first_difference_decides()
    ensures arrays { (xs ys : List Meaning) → compare (array (items xs)) (array (items ys))
        ≡ slice_cmp compare xs ys }
    ensures maps { (ps qs : List (KeyMeaning × Meaning))
        → compare (object (members ps)) (object (members qs)) ≡ slice_cmp pair_order ps qs }
{}

/// Meanings of two ranks compare by their ranks, and those of one rank by value: numbers whatever
/// kind of integer held them, and texts and bytes by the first byte where they differ.
pub fn ranks_decide_before_values()
    ensures ranks { (x y : Meaning) → rank x < rank y → compare x y ≡ Ordering.Less }
    ensures truths { (a b : Bool) → compare (truth a) (truth b) ≡ bool_cmp a b }
    ensures numbers { (y z : ℤ) → compare (number y) (number z) ≡ int_cmp y z }
    ensures texts { (s t : List ℕ) → compare (text s) (text t) ≡ slice_cmp nat_cmp s t }
    ensures bytes { (s t : List ℕ) → compare (bytes s) (bytes t) ≡ slice_cmp nat_cmp s t }
{}
