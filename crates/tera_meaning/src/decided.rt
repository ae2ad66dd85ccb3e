//! The laws of the partial order of meanings. Each function here does nothing: its clauses are the
//! law.
ghost use Rattle.std.specs.Prelude.{◌≡◌, ◌≢◌, IsTrue, true, codes, pos, Some, None, List, [], ◌∷◌};
ghost use Rattle.std.specs.Cmp.Lexicographic.{slice_partial_cmp};
ghost use Rattle.std.specs.Option.{option_map};
ghost use Rattle.std.specs.Ordering.{ordering_reverse};
ghost use Rattle.tera_meaning.specs.Decided.{decided};
ghost use Rattle.tera_meaning.specs.Integer.{u64, i64};
ghost use Rattle.tera_meaning.specs.KeyMeaning.{KeyMeaning, truth_key, number_key, text_key};
ghost use Rattle.tera_meaning.specs.Meaning.{Meaning, map_meaning};
ghost use Rattle.tera_meaning.specs.Order.{compare, rank};
ghost use Rattle.tera_meaning.specs.Read.{items_in, members_in};
ghost use Rattle.tera_meaning.specs.Rows.{count, list_of, map_of, normal, marked, key_of};
ghost use Rattle.tera_meaning.specs.Rows.{ComparesUndecided, undecided};
ghost use Rattle.tera_meaning.specs.Tree.{none, undefined, truth, text, bytes, array, object};
ghost use Rattle.tera_meaning.specs.Tree.{items, members};

use std::cmp::Ordering;

/// Nothing is decided of two maps, even of two empty ones, nor of meanings of two ranks. Two arrays
/// are decided as the first pair of their items that does not tie is, which may be not at all;
/// without such a pair the lengths decide. All else is decided as it compares.
#[tactic(auto, using(crate::proofs::DecidedLaws::decided_arrays))]
pub fn maps_and_ranks_are_not_decided()
    ensures maps { (ps qs : List (KeyMeaning × Meaning))
        → decided (object (members ps)) (object (members qs)) ≡ None }
    ensures ranks { (x y : Meaning) → rank x ≢ rank y → decided x y ≡ None }
    ensures arrays { (xs ys : List Meaning)
        → decided (array (items xs)) (array (items ys)) ≡ slice_partial_cmp decided xs ys }
    ensures others { (x y : Meaning) → rank x ≡ rank y → items_in x ≡ None → members_in x ≡ None
        → decided x y ≡ Some (compare x y) }
{}

/// What is decided is decided as it compares, and the other way round when the sides are swapped.
#[tactic(auto, using(crate::proofs::DecidedLaws::laws))]
pub fn what_is_decided_compares_so()
    ensures agrees { (x y : Meaning) (answer : Ordering) → decided x y ≡ Some answer
        → compare x y ≡ answer }
    ensures swapped { (x y : Meaning) → decided x y ≡ option_map ordering_reverse (decided y x) }
{}

/// Maps are ordered, but none of these pairs is decided, whatever holds their keys and texts.
pub fn maps_are_ordered_undecided()
    ensures forms { ComparesUndecided (map_meaning ((key_of u64 1, normal (codes "a")) ∷ []))
        (map_meaning ((key_of i64 1, marked (codes "a")) ∷ [])) Ordering.Equal }
    ensures empty { ComparesUndecided (map_of []) (map_of []) Ordering.Equal }
    ensures beginning { ComparesUndecided (map_of []) (map_of ((text_key (codes "a"), none) ∷ []))
        Ordering.Less }
    ensures ranks { ComparesUndecided (map_of ((truth_key true, count 1) ∷ []))
        (map_of ((number_key (pos 1), count 0) ∷ [])) Ordering.Less }
    ensures later { ComparesUndecided
        (map_of ((number_key (pos 1), count 0) ∷ (number_key (pos 3), count 0) ∷ []))
        (map_of ((number_key (pos 1), count 0) ∷ (number_key (pos 2), count 9) ∷ []))
        Ordering.Greater }
    ensures nested { ComparesUndecided
        (map_of ((text_key (codes "a"), map_of ((text_key (codes "b"), count 1) ∷ [])) ∷ []))
        (map_of ((text_key (codes "a"), map_of ((text_key (codes "b"), count 2) ∷ [])) ∷ []))
        Ordering.Less }
    ensures value { ComparesUndecided (map_of ((text_key (codes "a"), count 1) ∷ []))
        (map_of ((text_key (codes "a"), count 2) ∷ [])) Ordering.Less }
    ensures longer { ComparesUndecided
        (map_of ((text_key (codes "a"), count 1) ∷ (text_key (codes "b"), count 2) ∷ []))
        (map_of ((text_key (codes "a"), count 1) ∷ [])) Ordering.Greater }
    ensures other { ComparesUndecided
        (map_of ((text_key (codes "a"), count 1) ∷ (text_key (codes "b"), count 2) ∷ []))
        (map_of ((text_key (codes "a"), count 1) ∷ (text_key (codes "c"), count 0) ∷ []))
        Ordering.Less }
    ensures first { ComparesUndecided
        (map_of ((text_key (codes "a"), count 1) ∷ (text_key (codes "c"), count 1) ∷ []))
        (map_of ((text_key (codes "b"), count 0) ∷ [])) Ordering.Less }
{}

/// Arrays are decided by the first pair of items that does not tie, or not at all where that pair
/// is not; and by their lengths where each pair ties.
pub fn arrays_are_decided_by_their_first_difference()
    ensures longer { decided (list_of (map_of [] ∷ [])) (list_of []) ≡ Some Ordering.Greater }
    ensures shorter { decided (list_of []) (list_of (map_of [] ∷ [])) ≡ Some Ordering.Less }
    ensures first { decided (list_of (count 1 ∷ map_of [] ∷ []))
        (list_of (count 2 ∷ map_of [] ∷ [])) ≡ Some Ordering.Less }
    ensures tie { decided (list_of (count 1 ∷ [])) (list_of (count 1 ∷ [])) ≡ Some Ordering.Equal }
    ensures second { decided (list_of (count 1 ∷ map_of [] ∷ count 1 ∷ []))
        (list_of (count 1 ∷ map_of [] ∷ count 2 ∷ [])) ≡ None }
    ensures maps { ComparesUndecided (list_of (map_of ((text_key (codes "a"), count 1) ∷ []) ∷ []))
        (list_of (map_of ((text_key (codes "a"), count 2) ∷ []) ∷ [])) Ordering.Less }
{}

/// No two of these are decided.
pub fn ranks_are_not_decided()
    ensures { IsTrue (undecided (truth true ∷ count 1 ∷ text (codes "a") ∷ list_of [] ∷ map_of []
        ∷ bytes (0 ∷ []) ∷ none ∷ undefined ∷ [])) }
{}
