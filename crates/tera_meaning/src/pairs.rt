//! The laws of the pairs of maps: their order of insertion, their rising lists, and the least key
//! at which two differ. Each function here does nothing: its clauses are the law.
ghost use Rattle.std.specs.Prelude.{◌≡◌, ◌≢◌, ◌↔◌, ◌⊎◌, ℕ, suc, true, false, cond, codes, pos};
ghost use Rattle.std.specs.Prelude.{if◌then◌else◌, Some, None, is_some, List, [], ◌∷◌, ◌++◌, map};
ghost use Rattle.std.specs.Prelude.{length};
ghost use Rattle.std.specs.BTreeMap.{insert_entry};
ghost use Rattle.std.specs.List.{All, Contains};
ghost use Rattle.std.specs.List.Sorted.{IsPermutation};
ghost use Rattle.std.specs.Option.{option_map};
ghost use Rattle.std.specs.Ordering.{eq_by_cmp, on};
ghost use Rattle.std.specs.Cmp.Lexicographic.{slice_cmp};
ghost use Rattle.tera_meaning.specs.Form.{Form};
ghost use Rattle.tera_meaning.specs.Integer.{u64, i64, i128};
ghost use Rattle.tera_meaning.specs.KeyMeaning.{KeyForm, KeyMeaning, truth_key, number_key};
ghost use Rattle.tera_meaning.specs.KeyMeaning.{text_key, owned, borrowed, key_meaning, key_order};
ghost use Rattle.tera_meaning.specs.Meaning.{Meaning, layout, meaning, pair_meaning, map_meaning};
ghost use Rattle.tera_meaning.specs.Order.{compare};
ghost use Rattle.tera_meaning.specs.Pairs.{Rises, HasDistinctKeys, put, put_all, rising, value_at};
ghost use Rattle.tera_meaning.specs.Pairs.{goes_on, entry_order, agree_at, AgreeEverywhere};
ghost use Rattle.tera_meaning.specs.Pairs.{IsLeastDifference, order_at, key_form_order, pairs_of};
ghost use Rattle.tera_meaning.specs.Read.{is_nonempty, size_in, truthy_in};
ghost use Rattle.tera_meaning.specs.Rows.{count, key_of};
ghost use Rattle.tera_meaning.specs.Tree.{array, items, object, members};

use std::cmp::Ordering;

/// The rising list of a map's entries has strictly rising keys, and a look-up in it is a look-up in
/// the entries, in whatever order they stand. Where no two entries have one key it has just the
/// entries.
#[tactic(auto, using(crate::proofs::EntryLaws::pair_lists))]
pub fn pair_lists_hold_the_entries()
    ensures rises { (entries : List (KeyForm × Form)) → Rises key_form_order (pairs_of entries) }
    ensures found { (entries : List (KeyForm × Form)) (k : KeyForm)
        → value_at key_form_order (pairs_of entries) k ≡ value_at key_form_order entries k }
    ensures more { (entries : List (KeyForm × Form)) (k : KeyForm)
        → goes_on key_form_order (pairs_of entries) k ≡ goes_on key_form_order entries k }
    ensures pairs { (entries : List (KeyForm × Form)) → HasDistinctKeys key_form_order entries
        → IsPermutation entries (pairs_of entries) }
{}

/// The rising list of a map's entries is the only list with strictly rising keys that has just the
/// map's entries, so it is the same in whatever order these stand.
#[tactic(auto, using(crate::proofs::EntryLaws::pair_lists))]
pub fn only_one_pair_list_holds_the_entries()
    ensures only { (entries pairs : List (KeyForm × Form)) → HasDistinctKeys key_form_order entries
        → Rises key_form_order pairs
        → ((pair : KeyForm × Form) → Contains pairs pair ↔ Contains entries pair)
        → pairs ≡ pairs_of entries }
    ensures order { (entries others : List (KeyForm × Form))
        → HasDistinctKeys key_form_order entries → IsPermutation entries others
        → pairs_of entries ≡ pairs_of others }
{}

/// What a map means is the rising list of what its pairs mean, in whatever order these stand. A
/// look-up in it is a look-up in the pairs, it has as many pairs, and it is the only such list of
/// just these pairs. Two rising lists of meanings in which each key finds the same are one.
#[tactic(auto, using(crate::proofs::EntryLaws::entries))]
pub fn pair_lists_mean_what_their_entries_mean()
    ensures meaning { (entries : List (KeyForm × Form)) → meaning (object (members entries))
        ≡ object (members (rising key_order (map pair_meaning entries))) }
    ensures places { (entries : List (KeyForm × Form))
        → map_meaning (pairs_of entries) ≡ map_meaning entries }
    ensures order { (entries others : List (KeyForm × Form))
        → HasDistinctKeys key_form_order entries → IsPermutation entries others
        → map_meaning entries ≡ map_meaning others }
    ensures found { (entries : List (KeyForm × Form)) (k : KeyForm)
        → value_at key_order (rising key_order (map pair_meaning entries)) (key_meaning k)
        ≡ option_map meaning (value_at key_form_order entries k) }
    ensures count { (entries : List (KeyForm × Form)) → HasDistinctKeys key_form_order entries
        → length (rising key_order (map pair_meaning entries)) ≡ length entries }
    ensures only { (entries : List (KeyForm × Form)) (pairs : List (KeyMeaning × Meaning))
        → HasDistinctKeys key_form_order entries → Rises key_order pairs
        → ((pair : KeyMeaning × Meaning)
        → Contains pairs pair ↔ Contains (map pair_meaning entries) pair)
        → pairs ≡ rising key_order (map pair_meaning entries) }
    ensures same { (pairs others : List (KeyMeaning × Meaning)) → Rises key_order pairs
        → Rises key_order others
        → ((k : KeyMeaning) → value_at key_order pairs k ≡ value_at key_order others k)
        → pairs ≡ others }
{}

/// How many pairs a map has, and whether it has any, is read off what it means.
#[tactic(auto, using(crate::proofs::MeaningLaws::laws))]
pub fn sizes_of_maps_count_their_pairs()
    ensures size { (pairs : List (KeyForm × Form)) → HasDistinctKeys key_form_order pairs
        → size_in (meaning (object (members pairs))) ≡ Some (length pairs) }
    ensures truth { (pairs : List (KeyForm × Form))
        → truthy_in (meaning (object (members pairs))) ≡ is_nonempty pairs }
{}

/// An array is laid out as the list of its laid out items, and means the list of what these mean. A
/// map is laid out as the list of its laid out pairs, in the order in which they stand.
#[tactic(auto, using(crate::proofs::MeaningLaws::laws))]
pub fn lists_are_laid_out_item_by_item()
    ensures array { (xs : List Form) → layout (array (items xs)) ≡ array (items (map layout xs)) }
    ensures means { (xs : List Form) → meaning (array (items xs)) ≡ array (items (map meaning xs)) }
    ensures map { (ps : List (KeyForm × Form)) → layout (object (members ps))
        ≡ object (members (map (λ p. (key_meaning p.0, layout p.1)) ps)) }
{}

/// A value that is put at a key goes behind all pairs where no key ties with it, and else into the
/// place of the pair whose key does, which keeps its key. Keys stay distinct, the value is what the
/// key finds, and every other key finds what it found; and what the map means has the value's
/// meaning at the key.
#[tactic(auto, using(crate::proofs::MeaningLaws::puts))]
pub fn values_are_put_at_keys()
    ensures last { (ps : List (KeyForm × Form)) (k : KeyForm) (v : Form)
        → value_at key_form_order ps k ≡ None
        → put key_form_order ps k v ≡ ps ++ ((k, v) ∷ []) }
    ensures place { (ps : List (KeyForm × Form)) (q : KeyForm × Form)
        (qs : List (KeyForm × Form)) (k : KeyForm) (v : Form)
        → value_at key_form_order ps k ≡ None → eq_by_cmp key_form_order k q.0 ≡ true
        → put key_form_order (ps ++ q ∷ qs) k v ≡ ps ++ (q.0, v) ∷ qs }
    ensures length { (ps : List (KeyForm × Form)) (k : KeyForm) (v : Form)
        → length (put key_form_order ps k v)
        ≡ cond (is_some (value_at key_form_order ps k)) (length ps) (suc (length ps)) }
    ensures distinct { (ps : List (KeyForm × Form)) (k : KeyForm) (v : Form)
        → HasDistinctKeys key_form_order ps
        → HasDistinctKeys key_form_order (put key_form_order ps k v) }
    ensures all_distinct { (ps es : List (KeyForm × Form)) → HasDistinctKeys key_form_order ps
        → HasDistinctKeys key_form_order (put_all key_form_order ps es) }
    ensures found { (ps : List (KeyForm × Form)) (k : KeyForm) (v : Form) (q : KeyForm)
        → value_at key_form_order (put key_form_order ps k v) q
        ≡ cond (eq_by_cmp key_form_order q k) (Some v) (value_at key_form_order ps q) }
    ensures rising { (ps : List (KeyForm × Form)) (k : KeyForm) (v : Form)
        → pairs_of (put key_form_order ps k v) ≡ insert_entry key_form_order (pairs_of ps) k v }
    ensures meaning { (ps : List (KeyForm × Form)) (k : KeyForm) (v : Form)
        → map_meaning (put key_form_order ps k v) ≡ object (members (insert_entry key_order
        (rising key_order (map pair_meaning ps)) (key_meaning k) (meaning v))) }
{}

/// Two lists with strictly rising keys are ordered as they stand at the least key at which they
/// differ. To order them is to compare the first place where they differ, by key and then by value.
/// Where both have the least key, their values there decide. The one that alone has it is less
/// where the other has a greater key, and greater where the other has ended. They tie exactly where
/// no key differs, and else there is such a least key. This holds of any keys and values with total
/// orders.
pub fn least_difference_decides<K: Ord, V: Ord>()
    ensures order { (ps qs : List (K × V)) (k : K) → Rises K.cmp ps → Rises K.cmp qs
        → IsLeastDifference K.cmp V.cmp ps qs k
        → slice_cmp (entry_order K.cmp V.cmp) ps qs ≡ order_at K.cmp V.cmp ps qs k }
    ensures tie { (ps qs : List (K × V)) → Rises K.cmp ps → Rises K.cmp qs
        → (AgreeEverywhere K.cmp V.cmp ps qs
        ↔ (slice_cmp (entry_order K.cmp V.cmp) ps qs ≡ Ordering.Equal)) }
    ensures exists { (ps qs : List (K × V)) → Rises K.cmp ps → Rises K.cmp qs
        → AgreeEverywhere K.cmp V.cmp ps qs ⊎ ((k : K) × IsLeastDifference K.cmp V.cmp ps qs k) }
    ensures both { (ps qs : List (K × V)) (k : K) (x y : V) → value_at K.cmp ps k ≡ Some x
        → value_at K.cmp qs k ≡ Some y → order_at K.cmp V.cmp ps qs k ≡ V.cmp x y }
    ensures left { (ps qs : List (K × V)) (k : K) (x : V) → value_at K.cmp ps k ≡ Some x
        → value_at K.cmp qs k ≡ None → order_at K.cmp V.cmp ps qs k
        ≡ if goes_on K.cmp qs k then Ordering.Less else Ordering.Greater }
    ensures right { (ps qs : List (K × V)) (k : K) (y : V) → value_at K.cmp ps k ≡ None
        → value_at K.cmp qs k ≡ Some y → order_at K.cmp V.cmp ps qs k
        ≡ if goes_on K.cmp ps k then Ordering.Greater else Ordering.Less }
{}

/// Two maps compare by the least key at which their entries differ, in whatever order these stand.
/// Two maps tie, and mean the same, exactly where they differ at no key. Two that mean different
/// things have such a least key.
#[tactic(auto, using(crate::proofs::EntryLaws::differences))]
pub fn maps_compare_by_the_least_difference()
    ensures order { (ps qs : List (KeyMeaning × Meaning)) (k : KeyMeaning) → Rises key_order ps
        → Rises key_order qs → IsLeastDifference key_order compare ps qs k
        → compare (object (members ps)) (object (members qs)) ≡ order_at key_order compare ps qs k }
    ensures forms { (entries others : List (KeyForm × Form)) (k : KeyForm)
        → IsLeastDifference key_form_order (on meaning compare) entries others k
        → compare (map_meaning entries) (map_meaning others)
        ≡ order_at key_form_order (on meaning compare) entries others k }
    ensures tie { (entries others : List (KeyForm × Form))
        → (AgreeEverywhere key_form_order (on meaning compare) entries others
        ↔ (compare (map_meaning entries) (map_meaning others) ≡ Ordering.Equal)) }
    ensures equal { (entries others : List (KeyForm × Form))
        → (AgreeEverywhere key_form_order (on meaning compare) entries others
        ↔ (map_meaning entries ≡ map_meaning others)) }
    ensures exists { (ps qs : List (KeyMeaning × Meaning)) → Rises key_order ps
        → Rises key_order qs → object (members ps) ≢ object (members qs)
        → (k : KeyMeaning) × IsLeastDifference key_order compare ps qs k }
    ensures form_exists { (entries others : List (KeyForm × Form))
        → map_meaning entries ≢ map_meaning others
        → (k : KeyForm) × IsLeastDifference key_form_order (on meaning compare) entries others k }
{}

/// A key at which two lists of entries differ is the least one where each lesser key of either is
/// no difference; and they differ nowhere where they do at no key of either. So a walk over each
/// finds the least difference.
pub fn walks_find_the_least_difference<K: Ord, V: Ord>()
    ensures least { (es fs : List (K × V)) (k : K) → agree_at K.cmp V.cmp es fs k ≡ false
        → All (λ e. K.cmp e.0 k ≡ Ordering.Less → agree_at K.cmp V.cmp es fs e.0 ≡ true) es
        → All (λ f. K.cmp f.0 k ≡ Ordering.Less → agree_at K.cmp V.cmp es fs f.0 ≡ true) fs
        → IsLeastDifference K.cmp V.cmp es fs k }
    ensures none { (es fs : List (K × V)) → All (λ e. agree_at K.cmp V.cmp es fs e.0 ≡ true) es
        → All (λ f. agree_at K.cmp V.cmp es fs f.0 ≡ true) fs → AgreeEverywhere K.cmp V.cmp es fs }
{}

/// Entries stand in the order of their keys, whatever order they came in; of entries with one key
/// the first gives the value.
pub fn entries_take_their_places()
    ensures places { pairs_of {V = ℕ}
        ((text_key (owned (codes "a")), 1) ∷ (key_of i128 2, 2) ∷ (truth_key true, 3)
        ∷ (key_of u64 1, 4) ∷ [])
        ≡ (truth_key true, 3) ∷ (key_of u64 1, 4) ∷ (key_of i128 2, 2)
        ∷ (text_key (owned (codes "a")), 1) ∷ [] }
    ensures tie { pairs_of {V = ℕ} ((key_of u64 1, 1) ∷ (key_of i64 1, 2) ∷ [])
        ≡ (key_of i64 1, 1) ∷ [] }
    ensures text { pairs_of {V = ℕ}
        ((text_key (owned (codes "a")), 1) ∷ (text_key (borrowed (codes "a")), 2) ∷ [])
        ≡ (text_key (borrowed (codes "a")), 1) ∷ [] }
{}

/// A key that is put again keeps its first place, and how it was held there, and takes the last
/// value.
pub fn first_places_take_last_values()
    ensures again { put_all {V = ℕ} key_form_order []
        ((text_key (owned (codes "b")), 1) ∷ (text_key (owned (codes "a")), 2)
        ∷ (text_key (borrowed (codes "b")), 3) ∷ [])
        ≡ (text_key (owned (codes "b")), 3) ∷ (text_key (owned (codes "a")), 2) ∷ [] }
    ensures kinds { put_all {V = ℕ} key_form_order ((key_of u64 1, 1) ∷ (truth_key true, 2) ∷ [])
        ((key_of i64 1, 3) ∷ (key_of i128 0, 4) ∷ [])
        ≡ (key_of u64 1, 3) ∷ (truth_key true, 2) ∷ (key_of i128 0, 4) ∷ [] }
{}

/// Where one of two maps alone has the least key at which they differ, it is less if the other goes
/// on above it, and greater if the other has ended.
pub fn what_goes_on_is_greater()
    ensures goes_on { order_at key_order compare
        ((number_key (pos 2), count 0) ∷ (number_key (pos 1), count 0) ∷ [])
        ((number_key (pos 3), count 0) ∷ (number_key (pos 1), count 0) ∷ []) (number_key (pos 2))
        ≡ Ordering.Less }
    ensures ended { order_at key_order compare
        ((number_key (pos 2), count 0) ∷ (number_key (pos 1), count 0) ∷ [])
        ((number_key (pos 1), count 0) ∷ []) (number_key (pos 2)) ≡ Ordering.Greater }
    ensures other_goes_on { order_at key_order compare ((number_key (pos 3), count 0) ∷ [])
        ((number_key (pos 2), count 0) ∷ []) (number_key (pos 2)) ≡ Ordering.Greater }
    ensures other_ended { order_at key_order compare [] ((number_key (pos 2), count 0) ∷ [])
        (number_key (pos 2)) ≡ Ordering.Less }
    ensures values { order_at key_order compare ((number_key (pos 2), count 0) ∷ [])
        ((number_key (pos 2), count 1) ∷ []) (number_key (pos 2)) ≡ Ordering.Less }
{}
