//! What filters make. Each function here does nothing: its clauses are the law.
ghost use Rattle.std.specs.List.{IsDistinct};
ghost use Rattle.std.specs.List.Sorted.{IsPermutation, IsSorted, IsStable};
ghost use Rattle.std.specs.Ordering.{on};
ghost use Rattle.std.specs.Prelude.{◌≡◌, ◌≢◌, ◌++◌, ℕ, List, [], ◌∷◌, length, if◌then◌else◌};
ghost use Rattle.std.specs.Prelude.{false, true, Ok};
ghost use Rattle.tera.specs.Form.{Form};
ghost use Rattle.tera.specs.Meaning.{meaning};
ghost use Rattle.tera.specs.Order.{compare};
ghost use Rattle.tera_filters.specs.Arrays.{first_ones, has_same, is_less, mean_same};
ghost use Rattle.tera_filters.specs.Filters.{filtered};
ghost use Rattle.tera_filters.specs.Marks.{is_safe_text, makes};
ghost use Rattle.tera_filters.specs.Parts.{NotBefore, replaced};
ghost use Rattle.tera_filters.specs.Sorting.{in_order};
ghost use Rattle.tera_filters.specs.declared.filter.Filter.{Filter};

/// A text that a filter makes is not marked safe, whatever it is made of. A filter that makes none
/// hands on what it was given: an item with its flag, or the slice of a text with that of the text.
#[tactic(auto, using(crate::proofs::Unmarked::made_is_not_marked))]
pub fn made_texts_are_not_safe()
    ensures { (filter : Filter) (value arguments made : Form) → makes filter ≡ true
        → filtered filter value arguments ≡ Ok made → is_safe_text made ≡ false }
{}

/// What `sort` makes of items are these items, each as often. None of them is less than the one
/// before it, and those that mean the same stand as they stood. No other list is so.
#[tactic(auto, using(crate::proofs::Sorts::laws))]
pub fn sorted_items_are_in_order()
    ensures rises { (xs : List Form) → IsSorted (on meaning compare) (in_order is_less xs) }
    ensures stable { (xs : List Form) → IsStable (on meaning compare) xs (in_order is_less xs) }
    ensures same { (xs : List Form) → IsPermutation xs (in_order is_less xs) }
    ensures only { (xs ys : List Form) → IsSorted (on meaning compare) ys
        → IsStable (on meaning compare) xs ys → ys ≡ in_order is_less xs }
{}

/// No two of the values that `unique` makes of items mean the same, and what means the same as one
/// of the items means the same as one of them. An item behind others is put last, where none of
/// them means the same.
#[tactic(auto, using(crate::proofs::Distinct::all_distinct, crate::proofs::Distinct::one_for_each))]
pub fn unique_items_are_distinct()
    ensures distinct { (xs : List Form) → IsDistinct mean_same (first_ones xs) }
    ensures covers { (xs : List Form) (x : Form) → has_same (first_ones xs) x ≡ has_same xs x }
    ensures next { (xs : List Form) (x : Form) → first_ones (xs ++ x ∷ [])
        ≡ (if has_same xs x then first_ones xs else first_ones xs ++ x ∷ []) }
{}

/// What `replace` makes of a text in which `from` stands nowhere is that text. Of any other it is
/// what stands before the first `from`, then `to`, and then what it makes of what stands behind. An
/// empty `from` is no part of this.
#[tactic(auto, using(crate::proofs::Replaced::nowhere, crate::proofs::Replaced::first_place))]
pub fn texts_are_replaced_from_the_left()
    ensures nowhere { (to from text : List ℕ) → from ≢ [] → NotBefore from (length text) text
        → replaced to from text ≡ text }
    ensures first { (to from left right : List ℕ) → from ≢ []
        → NotBefore from (length left) (left ++ (from ++ right))
        → replaced to from (left ++ (from ++ right)) ≡ left ++ (to ++ replaced to from right) }
{}
