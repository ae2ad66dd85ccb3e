//! The definitions at work on small meanings. Each function here does nothing: its clauses are the
//! rows.
ghost use Rattle.std.specs.Prelude.{◌≡◌, ℕ, ℤ, Bool, ◌-◌, ◌^◌, codes, true, false, pos, negsuc};
ghost use Rattle.std.specs.Prelude.{List, [], ◌∷◌, IsTrue};
ghost use Rattle.tera_report.specs.Escaping.{escaped};
ghost use Rattle.tera_meaning.specs.Fields.{fields, shown_in};
ghost use Rattle.tera_meaning.specs.Form.{Form, MarkedText};
ghost use Rattle.tera_meaning.specs.Integer.{Integer, u64, i64, u128, i128};
ghost use Rattle.tera_meaning.specs.KeyMeaning.{KeyForm, truth_key, number_key, text_key, owned};
ghost use Rattle.tera_meaning.specs.KeyMeaning.{borrowed};
ghost use Rattle.tera_meaning.specs.Kind.{kind_in, kind_name};
ghost use Rattle.tera_meaning.specs.Meaning.{layout, meaning};
ghost use Rattle.tera_meaning.specs.Order.{compare, same};
ghost use Rattle.tera_meaning.specs.Pairs.{key_form_order, put_all};
ghost use Rattle.tera_meaning.specs.Printed.{is_exact, printed, shown_in_page};
ghost use Rattle.tera_meaning.specs.Read.{safe_in, size_in, truthy_in};
ghost use Rattle.tera_meaning.specs.Rows.{at_name, count, has_parts, held, key_of, list_of, listed};
ghost use Rattle.tera_meaning.specs.Rows.{map_at, map_of, mapped, marked, named, normal, rises};
ghost use Rattle.tera_meaning.specs.Search.{CopyTakes};
ghost use Rattle.tera_meaning.specs.Tree.{undefined, none, truth, number, text, bytes, array};
ghost use Rattle.tera_meaning.specs.Tree.{object, items, members};

use std::cmp::Ordering;

/// Each of these is less than every later one.
pub fn ranks_rise()
    ensures ranks { IsTrue (rises (truth true ∷ count 1 ∷ text (codes "a") ∷ list_of [] ∷ map_of []
        ∷ bytes (0 ∷ []) ∷ none ∷ undefined ∷ [])) }
    ensures numbers { IsTrue (rises (truth false ∷ truth true ∷ number (negsuc (2 ^ 127 - 1))
        ∷ number (negsuc 0) ∷ count 0 ∷ count (2 ^ 128 - 1) ∷ [])) }
    ensures texts { IsTrue (rises (text [] ∷ text (codes "a") ∷ text (codes "aa") ∷ text (codes "b")
        ∷ text (195 ∷ 169 ∷ []) ∷ [])) }
    ensures lists { IsTrue (rises (list_of [] ∷ list_of (count 1 ∷ [])
        ∷ list_of (count 1 ∷ list_of [] ∷ []) ∷ list_of (count 2 ∷ []) ∷ [])) }
    ensures keys { IsTrue (rises (map_at (truth_key false) ∷ map_at (truth_key true)
        ∷ map_at (number_key (negsuc 0)) ∷ map_at (number_key (pos 1)) ∷ map_at (text_key [])
        ∷ map_at (text_key (codes "1")) ∷ map_at (text_key (codes "a")) ∷ [])) }
{}

/// Undefined and none print nothing, integers print in decimal, a text by itself as it is, and
/// bytes with U+FFFD for each invalid sequence.
pub fn single_values_print()
    ensures undefined { printed undefined ≡ [] }
    ensures none { printed none ≡ [] }
    ensures yes { printed (truth true) ≡ codes "true" }
    ensures no { printed (truth false) ≡ codes "false" }
    ensures zero { printed (count 0) ≡ codes "0" }
    ensures least { printed (number (negsuc (2 ^ 127 - 1)))
        ≡ codes "-170141183460469231731687303715884105728" }
    ensures greatest { printed (count (2 ^ 128 - 1))
        ≡ codes "340282366920938463463374607431768211455" }
    ensures text { printed (text (34 ∷ 195 ∷ 169 ∷ [])) ≡ 34 ∷ 195 ∷ 169 ∷ [] }
    ensures bytes { printed (bytes (97 ∷ 255 ∷ 98 ∷ [])) ≡ 97 ∷ 239 ∷ 191 ∷ 189 ∷ 98 ∷ [] }
{}

/// Inside arrays and maps texts print in debug form, and maps along their pairs, in whatever order
/// these stand.
pub fn nested_values_print()
    ensures empty_list { printed (list_of []) ≡ codes "[]" }
    ensures empty_map { printed (map_of []) ≡ codes "{}" }
    ensures none { printed (list_of (none ∷ [])) ≡ codes "[]" }
    ensures hole { printed (list_of (count 1 ∷ none ∷ count 2 ∷ [])) ≡ codes "[1, , 2]" }
    ensures escapes { printed (list_of (text (97 ∷ 34 ∷ 31 ∷ 127 ∷ 39 ∷ []) ∷ []))
        ≡ codes "[\"a\\\"\\u{1f}\\u{7f}'\"]" }
    ensures map { printed (map_of ((text_key (codes "hello"), text (codes "world"))
        ∷ (text_key (codes "other"), count 2) ∷ []))
        ≡ codes "{\"hello\": \"world\", \"other\": 2}" }
    ensures keys { printed (map_of ((truth_key true, count 1) ∷ (number_key (pos 1), count 2)
        ∷ (text_key (codes "1"), count 3) ∷ [])) ≡ codes "{true: 1, 1: 2, \"1\": 3}" }
    ensures other { printed (map_of ((text_key (codes "other"), count 2)
        ∷ (text_key (codes "hello"), text (codes "world")) ∷ []))
        ≡ codes "{\"other\": 2, \"hello\": \"world\"}" }
    ensures ranks { printed (map_of ((text_key (codes "1"), count 3) ∷ (number_key (pos 1), count 2)
        ∷ (truth_key true, count 1) ∷ [])) ≡ codes "{\"1\": 3, 1: 2, true: 1}" }
{}

/// In an array bytes are not quoted and a safe text is. Where no character stands next in bytes,
/// the longest beginning of one is one U+FFFD.
pub fn texts_and_bytes_print_in_arrays()
    ensures safe { printed (layout (listed (marked (codes "a") ∷ bytes (104 ∷ 105 ∷ [])
        ∷ listed [] ∷ []))) ≡ codes "[\"a\", hi, []]" }
    ensures lossy { printed (list_of (bytes (226 ∷ 130 ∷ 65 ∷ 240 ∷ 128 ∷ 128 ∷ []) ∷ []))
        ≡ 91 ∷ 239 ∷ 191 ∷ 189 ∷ 65 ∷ 239 ∷ 191 ∷ 189 ∷ 239 ∷ 191 ∷ 189 ∷ 239 ∷ 191 ∷ 189 ∷ 93
        ∷ [] }
    ensures escaped { escaped (printed (list_of (text (codes "<") ∷ [])))
        ≡ codes "[&quot;&lt;&quot;]" }
{}

/// A page shows what is safe as it prints, and all else escaped: a text whose flag is not set,
/// bytes, arrays and maps, whatever they hold.
pub fn pages_escape_what_is_not_safe()
    ensures safe { shown_in_page (marked (codes "<b>")) ≡ codes "<b>" }
    ensures text { shown_in_page (normal (codes "<b>")) ≡ codes "&lt;b&gt;" }
    ensures bytes { shown_in_page (bytes (codes "a&b")) ≡ codes "a&amp;b" }
    ensures array { shown_in_page (array (items (marked (codes "'") ∷ [])))
        ≡ codes "[&quot;&#39;&quot;]" }
    ensures map { shown_in_page (object (members ((text_key (owned (codes "k")), none) ∷ [])))
        ≡ codes "{&quot;k&quot;: }" }
    ensures number { shown_in_page (number (record { kind = i64; value = negsuc 0 })) ≡ codes "-1" }
    ensures truth { shown_in_page (truth true) ≡ codes "true" }
    ensures none { shown_in_page none ≡ [] }
    ensures undefined { shown_in_page undefined ≡ [] }
{}

/// A text by itself may be any text; inside arrays and maps, and as keys, texts are to be ASCII.
pub fn quoted_texts_are_to_be_ascii()
    ensures alone { is_exact (text (195 ∷ 169 ∷ [])) ≡ true }
    ensures item { is_exact (list_of (text (195 ∷ 169 ∷ []) ∷ [])) ≡ false }
    ensures value { is_exact (map_of ((text_key (codes "a"), text (195 ∷ 169 ∷ [])) ∷ [])) ≡ false }
    ensures key { is_exact (map_of ((text_key (195 ∷ 169 ∷ []), none) ∷ [])) ≡ false }
    ensures nested { is_exact (list_of (count 1 ∷ list_of (text (195 ∷ 169 ∷ []) ∷ []) ∷ []))
        ≡ false }
    ensures bytes { is_exact (list_of (bytes (255 ∷ []) ∷ text (codes "a") ∷ [])) ≡ true }
{}

/// A text is as long as its characters, whatever bytes spell them, an accent that combines being
/// one; bytes, arrays and maps have a length, and nothing else has.
pub fn sizes_count_characters()
    ensures accent { size_in (text (101 ∷ 204 ∷ 129 ∷ 99 ∷ 111 ∷ 108 ∷ 101 ∷ [])) ≡ Some 6 }
    ensures euro { size_in (text (226 ∷ 130 ∷ 172 ∷ [])) ≡ Some 1 }
    ensures empty { size_in (text []) ≡ Some 0 }
    ensures bytes { size_in (bytes (226 ∷ 130 ∷ 172 ∷ [])) ≡ Some 3 }
    ensures items { size_in (list_of (none ∷ list_of (none ∷ none ∷ []) ∷ [])) ≡ Some 2 }
    ensures pairs { size_in (map_at (truth_key true)) ≡ Some 1 }
    ensures number { size_in (count 3) ≡ None }
    ensures truth { size_in (truth true) ≡ None }
    ensures none { size_in none ≡ None }
    ensures undefined { size_in undefined ≡ None }
{}

/// Undefined, none, false, 0 and what is empty are false; all else is true.
pub fn what_is_empty_is_false()
    ensures undefined { truthy_in undefined ≡ false }
    ensures none { truthy_in none ≡ false }
    ensures truth { (b : Bool) → truthy_in (truth b) ≡ b }
    ensures zero { truthy_in (count 0) ≡ false }
    ensures one { truthy_in (count 1) ≡ true }
    ensures below { truthy_in (number (negsuc 0)) ≡ true }
    ensures texts { truthy_in (text []) ≡ false × (truthy_in (text (codes "0")) ≡ true) }
    ensures bytes { truthy_in (bytes []) ≡ false × (truthy_in (bytes (0 ∷ [])) ≡ true) }
    ensures lists { truthy_in (list_of []) ≡ false × (truthy_in (list_of (none ∷ [])) ≡ true) }
    ensures maps { truthy_in (map_of []) ≡ false × (truthy_in (map_at (truth_key false)) ≡ true) }
{}

/// Texts, bytes, arrays and maps have parts, and may be copied; all else has none. So a copy of one
/// byte takes memory, and one of no byte takes none.
pub fn texts_bytes_arrays_and_maps_have_parts()
    ensures text { (t : MarkedText) → has_parts (text t) ≡ true }
    ensures bytes { (bs : List ℕ) → has_parts (bytes bs) ≡ true }
    ensures array { (xs : List Form) → has_parts (array (items xs)) ≡ true }
    ensures map { (ps : List (KeyForm × Form)) → has_parts (object (members ps)) ≡ true }
    ensures number { (n : Integer) → has_parts (number n) ≡ false }
    ensures truth { (b : Bool) → has_parts (truth b) ≡ false }
    ensures none { has_parts none ≡ false }
    ensures undefined { has_parts undefined ≡ false }
    ensures copied { CopyTakes (bytes (0 ∷ [])) × CopyTakes (listed (none ∷ [])) }
    ensures empty { ¬ CopyTakes (bytes []) × (¬ CopyTakes (listed [])) }
{}

/// A text is safe by its flag; arrays, maps and bytes are not safe, and all else is.
pub fn texts_are_safe_by_their_flags()
    ensures text { (t : List ℕ) (b : Bool) → safe_in (text (record { spelled = t; safe = b })) ≡ b }
    ensures array { (xs : List Form) → safe_in (array (items xs)) ≡ false }
    ensures bytes { (bs : List ℕ) → safe_in (bytes bs) ≡ false }
    ensures map { (ps : List (KeyForm × Form)) → safe_in (object (members ps)) ≡ false }
    ensures number { (n : Integer) → safe_in (number n) ≡ true }
    ensures truth { (b : Bool) → safe_in (truth b) ≡ true }
    ensures none { safe_in none ≡ true }
    ensures undefined { safe_in undefined ≡ true }
{}

/// Maps that hold the same pairs in two orders are equal, at every depth, and have the same fields;
/// but they are walked and print in the orders in which their pairs were inserted. A key that is
/// inserted again keeps its place and takes the later value.
pub fn equal_maps_may_stand_in_two_orders()
    ensures same { compare (meaning (mapped ((named (codes "other"), held u64 2)
        ∷ (named (codes "hello"), normal (codes "world")) ∷ [])))
        (meaning (mapped ((named (codes "hello"), normal (codes "world"))
        ∷ (named (codes "other"), held u64 2) ∷ []))) ≡ Ordering.Equal }
    ensures nested { compare
        (meaning (at_name [] (mapped ((named (codes "b"), none) ∷ (named [], none) ∷ []))))
        (meaning (at_name [] (mapped ((named [], none) ∷ (named (codes "b"), none) ∷ []))))
        ≡ Ordering.Equal }
    ensures least { compare
        (meaning (mapped ((named (codes "b"), held u64 0) ∷ (named (codes "a"), held u64 2) ∷ [])))
        (meaning (mapped ((named (codes "a"), held u64 1) ∷ (named (codes "c"), held u64 0) ∷ [])))
        ≡ Ordering.Greater }
    ensures walk { shown_in (mapped ((named (codes "1"), none) ∷ (key_of u64 1, none)
        ∷ (truth_key true, none) ∷ [])) ≡ codes "1" ∷ codes "1" ∷ codes "true" ∷ [] }
    ensures fields { fields (mapped ((named (codes "1"), none) ∷ (key_of u64 1, none)
        ∷ (truth_key true, none) ∷ [])) ≡ codes "1" ∷ codes "true" ∷ [] }
    ensures prints { printed (layout (mapped (put_all key_form_order []
        ((named (codes "b"), held u64 1) ∷ (named (codes "a"), held u64 2)
        ∷ (named (codes "b"), held u64 3) ∷ [])))) ≡ codes "{\"b\": 3, \"a\": 2}" }
{}

/// The name of each kind.
pub fn kinds_have_names()
    ensures undefined { kind_name (kind_in undefined) ≡ codes "undefined" }
    ensures none { kind_name (kind_in none) ≡ codes "none" }
    ensures truth { (b : Bool) → kind_name (kind_in (truth b)) ≡ codes "bool" }
    ensures u64 { (z : ℤ)
        → kind_name (kind_in (number (record { kind = u64; value = z }))) ≡ codes "u64" }
    ensures i64 { (z : ℤ)
        → kind_name (kind_in (number (record { kind = i64; value = z }))) ≡ codes "i64" }
    ensures u128 { (z : ℤ)
        → kind_name (kind_in (number (record { kind = u128; value = z }))) ≡ codes "u128" }
    ensures i128 { (z : ℤ)
        → kind_name (kind_in (number (record { kind = i128; value = z }))) ≡ codes "i128" }
    ensures text { (t : MarkedText) → kind_name (kind_in (text t)) ≡ codes "string" }
    ensures array { (xs : List Form) → kind_name (kind_in (array (items xs))) ≡ codes "array" }
    ensures map { (ps : List (KeyForm × Form))
        → kind_name (kind_in (object (members ps))) ≡ codes "map/struct" }
    ensures bytes { (bs : List ℕ) → kind_name (kind_in (bytes bs)) ≡ codes "bytes" }
{}

/// A form means what it holds: the kind of an integer, the safe flag of a text and how a key is
/// held are forgotten.
pub fn kinds_and_flags_are_forgotten()
    ensures number { meaning (number (record { kind = u64; value = pos 1 }))
        ≡ meaning (number (record { kind = i128; value = pos 1 })) }
    ensures text { meaning (text (record { spelled = codes "a"; safe = true }))
        ≡ meaning (text (record { spelled = codes "a"; safe = false })) }
    ensures key { meaning (map_at (text_key (owned (codes "a"))))
        ≡ meaning (map_at (text_key (borrowed (codes "a")))) }
    ensures key_number { meaning (map_at (number_key (record { kind = u64; value = pos 1 })))
        ≡ meaning (map_at (number_key (record { kind = i128; value = pos 1 }))) }
    ensures told_apart { same (meaning (number (record { kind = u64; value = pos 1 })))
        (meaning (text (record { spelled = codes "1"; safe = true }))) ≡ false }
{}
