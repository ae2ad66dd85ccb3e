//! Worked lines. Each function does nothing, and its contract says what some lines say.
ghost use Rattle.std.specs.Prelude.{[], ◌∷◌, ◌++◌, Some, None, true, codes, pos, negsuc};
ghost use Rattle.std.specs.FinMap.{insert, empty};
ghost use Rattle.tera_meaning.specs.Conversion.{u8};
ghost use Rattle.tera_meaning.specs.Integer.{i64 as kind_i64, u64 as kind_u64};
ghost use Rattle.tera_meaning.specs.Question;
ghost use Rattle.tera_meaning.specs.Request.{set, extend, remove, mark_safe, ask, weigh, find};
ghost use Rattle.tera_meaning.specs.Request.{asking, asking_into};
ghost use Rattle.tera_meaning.specs.Search;
ghost use Rattle.tera_meaning.specs.KeyMeaning.{truth_key, number_key, text_key, owned};
ghost use Rattle.tera_meaning.specs.Tree.{none, truth, number, text, bytes, array, items};
ghost use Rattle.tera_meaning.specs.Tree.{object, members, no_members};
ghost use Rattle.tera_meaning.specs.Weighing;
ghost use Rattle.tera_script.specs.Line.{Says, IsSkipped, IsBad};
ghost use Rattle.tera_script.specs.Nested.{in_brackets, in_arrays, in_turns, in_both};

/// Lines that say a call.
pub fn worked_calls()
    ensures eq { Says (codes "eq a b") (asking (weigh Weighing.equal (codes "a") (codes "b"))) }
    ensures cmp { Says (codes "cmp a b") (asking (weigh Weighing.compare (codes "a") (codes "b"))) }
    ensures try_cmp { Says (codes "try_cmp a b")
        (asking (weigh Weighing.try_compare (codes "a") (codes "b"))) }
    ensures print { Says (codes "\tprint _x9 ") (asking (ask Question.print (codes "_x9"))) }
    ensures remove { Says (codes "remove a") (asking (remove (codes "a"))) }
    ensures has { Says (codes "has a") (asking (ask Question.has (codes "a"))) }
    ensures get { Says (codes "get a") (asking (find (Search.get (codes "a")))) }
    ensures len { Says (codes "len a") (asking (ask Question.len (codes "a"))) }
    ensures truthy { Says (codes "truthy a") (asking (ask Question.truthy (codes "a"))) }
    ensures kind { Says (codes "kind a") (asking (ask Question.kind (codes "a"))) }
    ensures is_safe { Says (codes "is_safe a") (asking (ask Question.is_safe (codes "a"))) }
    ensures mark_safe { Says (codes "mark_safe a") (asking (mark_safe (codes "a"))) }
    ensures escape { Says (codes "escape a") (asking (ask Question.escape (codes "a"))) }
    ensures walk { Says (codes "walk a") (asking (ask Question.walk (codes "a"))) }
    ensures slice { Says (codes "slice a 1 _ -1")
        (asking (find (Search.slice (codes "a") (Some (pos 1)) None (Some (negsuc 0))))) }
    ensures read { Says (codes "read u8 a") (asking (find (Search.read u8 (codes "a")))) }
    ensures extend { Says (codes "extend {\"b\": 1}")
        (asking (extend (insert empty (codes "b")
        (number (record { kind = kind_i64; value = pos 1 }))))) }
{}

/// Lines that name where what is found is to be kept.
pub fn worked_names()
    ensures get { Says (codes "get a -> b")
        (asking_into (find (Search.get (codes "a"))) (codes "b")) }
    ensures mark_safe { Says (codes "mark_safe a\t->  a ")
        (asking_into (mark_safe (codes "a")) (codes "a")) }
    ensures has { IsBad (codes "has a -> b") }
    ensures print { IsBad (codes "print a -> b") }
    ensures walk { IsBad (codes "walk a -> b") }
    ensures set { IsBad (codes "set a 1 -> b") }
    ensures nothing { IsBad (codes "get a ->") }
    ensures no_gap_before { IsBad (codes "get a-> b") }
    ensures no_gap_behind { IsBad (codes "get a ->b") }
    ensures two { IsBad (codes "get a -> b c") }
{}

/// Values.
pub fn worked_values()
    ensures zero { Says (codes "  set a_1   -0  ")
        (asking (set (codes "a_1") (number (record { kind = kind_i64; value = pos 0 })))) }
    ensures suffix { Says (codes "set a 1u64")
        (asking (set (codes "a") (number (record { kind = kind_u64; value = pos 1 })))) }
    ensures no_suffix { Says (codes "set a 1")
        (asking (set (codes "a") (number (record { kind = kind_i64; value = pos 1 })))) }
    ensures safe_text { Says (codes "set t s\"a\\u{e9}\\n\"")
        (asking (set (codes "t")
        (text (record { spelled = 97 ∷ 195 ∷ 169 ∷ 10 ∷ []; safe = true })))) }
    ensures byte_string { Says (codes "set a x\"6aFF\"")
        (asking (set (codes "a") (bytes (106 ∷ 255 ∷ [])))) }
    ensures no_bytes { Says (codes "set a x\"\"") (asking (set (codes "a") (bytes []))) }
    ensures no_items { Says (codes "set a []") (asking (set (codes "a") (array (items [])))) }
    ensures blanks { Says (codes "set a [ none\t,[ ] ]")
        (asking (set (codes "a") (array (items (none ∷ array (items []) ∷ []))))) }
    ensures deepest { Says (codes "set a " ++ in_brackets 64 (codes "none"))
        (asking (set (codes "a") (in_arrays 64 none))) }
{}

/// Maps. Where keys are equal the first key stands in its place, with the last value.
pub fn worked_maps()
    ensures no_pairs { Says (codes "set a {}") (asking (set (codes "a") (object no_members))) }
    ensures pairs { Says (codes "set a { \"b\" : 1u64\t,true:[ ] }")
        (asking (set (codes "a") (object (members
        ((text_key (owned (codes "b")), number (record { kind = kind_u64; value = pos 1 }))
        ∷ (truth_key true, array (items []))
        ∷ []))))) }
    ensures equal_keys { Says (codes "set a {1u64: none, 1: true}")
        (asking (set (codes "a") (object (members
        ((number_key (record { kind = kind_u64; value = pos 1 }), truth true) ∷ []))))) }
    ensures places { Says (codes "set a {true: none, 1: true, true: []}")
        (asking (set (codes "a") (object (members ((truth_key true, array (items []))
        ∷ (number_key (record { kind = kind_i64; value = pos 1 }), truth true) ∷ []))))) }
    ensures deepest { Says (codes "set a " ++ in_turns 32 (codes "none"))
        (asking (set (codes "a") (in_both 32 none))) }
{}

/// Lines that are skipped.
pub fn worked_skips()
    ensures nothing { IsSkipped [] }
    ensures blanks { IsSkipped (codes " \t ") }
    ensures comment { IsSkipped (codes "  # set" ++ (255 ∷ [])) }
{}

/// Bad lines.
pub fn worked_faults()
    ensures word { IsBad (codes "frob") }
    ensures longer_word { IsBad (codes "eqa b c") }
    ensures one_operand { IsBad (codes "eq a") }
    ensures name { IsBad (codes "set 1a none") }
    ensures large { IsBad (codes "set a 18446744073709551616u64") }
    ensures minus { IsBad (codes "set a -1u64") }
    ensures escape { IsBad (codes "set a \"\\x\"") }
    ensures not_utf8 { IsBad (codes "eq a b " ++ (255 ∷ [])) }
{}

/// Bad lines of byte strings and arrays.
pub fn worked_bad_values()
    ensures odd_digits { IsBad (codes "set a x\"6\"") }
    ensures no_digit { IsBad (codes "set a x\"6g\"") }
    ensures no_quote { IsBad (codes "set a x\"66") }
    ensures last_comma { IsBad (codes "set a [none,]") }
    ensures no_first { IsBad (codes "set a [,none]") }
    ensures no_comma { IsBad (codes "set a [none none]") }
    ensures no_bracket { IsBad (codes "set a [none") }
    ensures too_deep { IsBad (codes "set a " ++ in_brackets 65 (codes "none")) }
{}

/// Bad lines of maps.
pub fn worked_bad_maps()
    ensures key_alone { IsBad (codes "set a {1}") }
    ensures none_key { IsBad (codes "set a {none: 1}") }
    ensures safe_key { IsBad (codes "set a {s\"k\": 1}") }
    ensures no_colon { IsBad (codes "set a {\"a\" 1}") }
    ensures last_comma { IsBad (codes "set a {\"a\": 1,}") }
    ensures no_comma { IsBad (codes "set a {\"a\": 1 2: 3}") }
    ensures no_brace { IsBad (codes "set a {\"a\": 1") }
    ensures too_deep { IsBad (codes "set a " ++ in_brackets 1 (in_turns 32 (codes "none"))) }
{}
