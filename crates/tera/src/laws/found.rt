//! Lists that rise strictly, as a set's keys do.
ghost use Rattle.std.specs.BTreeSet.{insert_key};
ghost use Rattle.std.specs.Cmp.{IsTotalOrder};
ghost use Rattle.std.specs.List.{Contains, find};
ghost use Rattle.std.specs.List.Sorted.{IsStrictlySortedBy};
ghost use Rattle.std.specs.Ordering.{eq_by_cmp};
ghost use Rattle.std.specs.Option.{option_or};
ghost use Rattle.std.specs.Prelude.{◌≡◌, ◌↔◌, cond, List, Some, None};

use std::cmp::Ordering;

/// In a list that rises strictly by a total order no two items tie, and a search by a tie finds an
/// item exactly where the list has it and it ties. After an item took its place in the list, as
/// `BTreeSet::insert` does it, a search finds what it found, and else that item where it ties. This
/// holds of any order of any items.
pub fn sorted_lists_hold_each_item_once<K>()
    ensures once { (order : K → K → Ordering) → IsTotalOrder order → (ks : List K) (k l : K)
        → IsStrictlySortedBy order ks → Contains ks k → Contains ks l
        → order k l ≡ Ordering.Equal → k ≡ l }
    ensures found { (order : K → K → Ordering) → IsTotalOrder order → (ks : List K) (q k : K)
        → IsStrictlySortedBy order ks → (find (eq_by_cmp order q) ks ≡ Some k)
        ↔ (Contains ks k × (order q k ≡ Ordering.Equal)) }
    ensures inserted { (order : K → K → Ordering) → IsTotalOrder order → (ks : List K) (k q : K)
        → IsStrictlySortedBy order ks → find (eq_by_cmp order q) (insert_key order ks k)
        ≡ option_or (find (eq_by_cmp order q) ks) (cond (eq_by_cmp order q k) (Some k) None) }
{}
