//! The texts of refusals, tried on numbers and names from outside. Each function here does nothing:
//! its clauses are the rows.
ghost use Rattle.std.specs.Prelude.{◌≡◌, ◌↔◌, ◌^◌, ◌-◌, ◌++◌, ℕ, ℤ, List, [], codes, pos};
ghost use Rattle.std.specs.Prelude.{negsuc, Some};
ghost use Rattle.tera_report.specs.Refusal.{not_a_number, operand_outside_i128, not_exact};
ghost use Rattle.tera_report.specs.Refusal.{divided_by_zero, exponent_outside_u32};
ghost use Rattle.tera_report.specs.Refusal.{negation_outside_i128, negated_no_number, not_a_key};
ghost use Rattle.tera_report.specs.Refusal.{not_a_map_key, not_an_index, step_of_zero};
ghost use Rattle.tera_report.specs.Refusal.{not_sliceable, not_reversible, not_a_container};
ghost use Rattle.tera_report.specs.Refusal.{invalid_argument, missing_argument};
ghost use Rattle.tera_report.specs.Refusal.{number_out_of_range, number_outside_i128};
ghost use Rattle.tera_report.specs.Refusal.{memory_refused, message, out_of_range, stated, shape};
ghost use Rattle.tera_report.specs.Refusal.{text_of, plus, minus, times, remainder, floor_division};
ghost use Rattle.tera_report.specs.Refusal.{power, Refusal, in_array, in_text, actual_in};
ghost use Rattle.tera_report.specs.Quoted.{IsText, QuotesList};
ghost use Rattle.tera_report.specs.Refusal.{with_actual, Tells, writing_failed, circular_extend};
ghost use Rattle.tera_report.specs.Refusal.{circular_include};
ghost use Rattle.std.specs.declared.io.ErrorKind.{ErrorKind};

/// The texts of what arithmetic refuses.
pub fn refusals_of_arithmetic_have_these_texts()
    ensures kind { text_of (not_a_number (codes "string"))
        ≡ Some (codes "Only numbers can be used in arithmetic. This is a `string`") }
    ensures operand { text_of (operand_outside_i128 (pos (2 ^ 128 - 1)))
        ≡ Some (codes "Operand `340282366920938463463374607431768211455` is out of range for "
        ++ codes "integer arithmetic (must fit in i128)") }
    ensures sum { text_of (not_exact (pos (2 ^ 127 - 1)) plus (pos 1))
        ≡ Some (codes "Unable to perform 170141183460469231731687303715884105727 + 1") }
    ensures difference { text_of (not_exact (negsuc (2 ^ 127 - 1)) minus (pos 1))
        ≡ Some (codes "Unable to perform -170141183460469231731687303715884105728 - 1") }
    ensures product { text_of (not_exact (pos (2 ^ 126)) times (negsuc 2))
        ≡ Some (codes "Unable to perform 85070591730234615865843651857942052864 * -3") }
    ensures remainder { text_of (not_exact (negsuc (2 ^ 127 - 1)) remainder (negsuc 0))
        ≡ Some (codes "Unable to perform -170141183460469231731687303715884105728 % -1") }
    ensures quotient { text_of (not_exact (negsuc (2 ^ 127 - 1)) floor_division (negsuc 0))
        ≡ Some (codes "Unable to perform -170141183460469231731687303715884105728 // -1") }
    ensures power { text_of (not_exact (pos 2) power (pos 4294967295))
        ≡ Some (codes "Unable to perform 2 ** 4294967295") }
    ensures zero { text_of divided_by_zero ≡ Some (codes "Cannot divide by 0") }
    ensures exponent { text_of (exponent_outside_u32 (negsuc 0))
        ≡ Some (codes "Exponent -1 is out of range for integer ** (must fit in u32)") }
    ensures negation { text_of (negation_outside_i128 (pos (2 ^ 127)))
        ≡ Some (codes "Cannot negate 170141183460469231731687303715884105728: result would "
        ++ codes "overflow i128") }
    ensures negated { text_of (negated_no_number (codes "string"))
        ≡ Some (codes "Only numbers can be negated. This is a `string`") }
{}

/// The texts of what look-ups, slices, reversal and `in` refuse.
pub fn refusals_of_look_ups_have_these_texts()
    ensures key { text_of not_a_key ≡ Some (codes "Not a valid key type") }
    ensures map_key { text_of (not_a_map_key (codes "array"))
        ≡ Some (codes "Map keys must be strings, integers, or bools, got `array`.") }
    ensures array_index { text_of (not_an_index in_array (codes "bool"))
        ≡ Some (codes "Array index must be an integer, got `bool`.") }
    ensures text_index { text_of (not_an_index in_text (codes "none"))
        ≡ Some (codes "String index must be an integer, got `none`.") }
    ensures step { text_of step_of_zero ≡ Some (codes "Slicing step cannot be 0") }
    ensures slice { text_of (not_sliceable (codes "undefined"))
        ≡ Some (codes "Slicing can only be used on arrays or strings, not on `undefined`.") }
    ensures reversed { text_of (not_reversible (codes "bool"))
        ≡ Some (codes "Value of type bool cannot be reversed") }
    ensures container { text_of (not_a_container (codes "i64"))
        ≡ Some (codes "`in` cannot be used on a container of type `i64`. It can only be used on "
        ++ codes "arrays, strings and map/structs") }
{}

/// The texts of what conversions and arguments refuse, and of want of memory.
pub fn refusals_of_conversions_have_these_texts()
    ensures kind { text_of (invalid_argument (codes "u8") (codes "string"))
        ≡ Some (codes "Invalid type for the value, expected `u8` but got `string`") }
    ensures range { text_of (number_out_of_range (pos 300) (codes "u8"))
        ≡ Some (codes "Value `300` is out of range for `u8`") }
    ensures sign { text_of (number_out_of_range (negsuc 0) (codes "usize"))
        ≡ Some (codes "Value `-1` is out of range for `usize`") }
    ensures number { text_of (number_outside_i128 (pos (2 ^ 128 - 1)))
        ≡ Some (codes "Number `340282366920938463463374607431768211455` is out of range for i128") }
    ensures missing { text_of (missing_argument (codes "n"))
        ≡ Some (codes "Missing keyword argument `n`") }
    ensures memory { text_of memory_refused ≡ Some (codes "Out of memory") }
{}

/// The error of a refusal says its whole text, most of them as a message.
pub fn errors_say_the_text_of_their_refusal()
    ensures text { (refusal : Refusal) → text_of (stated refusal) ≡ text_of refusal }
    ensures message { stated (not_a_number (codes "none"))
        ≡ message (codes "Only numbers can be used in arithmetic. This is a `none`") }
    ensures range { stated (number_out_of_range (pos 300) (codes "u8"))
        ≡ out_of_range (codes "300") (codes "u8") }
{}

/// Some bytes tell each refusal, and its text alone where that is known; else its words around what
/// quotes its list of names, or before some bytes. The error of a refusal is told by what tells the
/// refusal.
pub fn refusals_are_told_by_their_text()
    ensures some { (refusal : Refusal) → (bytes : List ℕ) × Tells refusal bytes }
    ensures text { (refusal : Refusal) (bytes : List ℕ)
        → Tells refusal bytes → IsText (text_of refusal) bytes }
    ensures known { (refusal : Refusal) (bytes : List ℕ)
        → text_of refusal ≡ Some bytes → Tells refusal bytes }
    ensures stated { (refusal : Refusal) (bytes : List ℕ)
        → Tells (stated refusal) bytes ↔ Tells refusal bytes }
    ensures io { (kind : ErrorKind) (bytes : List ℕ) → Tells (writing_failed kind) bytes
        → (name : List ℕ)
        × (bytes ≡ codes "Io error while writing rendered value to output: " ++ name) }
    ensures extend { (chain : List (List ℕ)) (bytes : List ℕ)
        → Tells (circular_extend (codes "a") chain) bytes → (names : List ℕ)
        × QuotesList chain names
        × (bytes ≡ codes "Circular extend detected for template 'a'. Inheritance chain: `"
        ++ (names ++ codes "`")) }
    ensures include { (chain : List (List ℕ)) (bytes : List ℕ)
        → Tells (circular_include (codes "a") chain) bytes → (names : List ℕ)
        × QuotesList chain names
        × (bytes ≡ codes "Circular include detected for template 'a'. Include chain: `"
        ++ (names ++ codes "`")) }
{}

/// The shape of a refusal forgets the name of the kind that a value really has, and nothing else:
/// with that name put back it is the refusal.
pub fn shapes_forget_the_kind_alone()
    ensures forgotten { (refusal : Refusal) → actual_in (shape refusal) ≡ [] }
    ensures alone { (refusal : Refusal)
        → with_actual (shape refusal) (actual_in refusal) ≡ refusal }
    ensures kind { (actual other : List ℕ)
        → shape (not_a_number actual) ≡ shape (not_a_number other) }
    ensures wanted { (expected actual : List ℕ)
        → shape (invalid_argument expected actual) ≡ invalid_argument expected [] }
    ensures number { (left right : ℤ)
        → shape (not_exact left plus right) ≡ not_exact left plus right }
{}
