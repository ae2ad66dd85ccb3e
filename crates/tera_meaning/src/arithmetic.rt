//! The laws of arithmetic and of conversions, and the definitions at work on numbers. Each function
//! here does nothing: its clauses are the law, or the rows.
ghost use Rattle.std.specs.Prelude.{◌≡◌, ◌≢◌, ◌^◌, ◌↔◌, ℕ, ℤ, pos, negsuc, ◌+ℤ◌, ◌*ℤ◌, ◌≤ℤ◌, ◌<ℤ◌};
ghost use Rattle.std.specs.Prelude.{◌-ℤ◌, ◌<◌, suc};
ghost use Rattle.std.specs.Prelude.{neg_ℤ, IsTrue, IfOk, IsOk, Ok, Err, Some, ◌-◌, codes, true};
ghost use Rattle.std.specs.Prelude.{is_some};
ghost use Rattle.std.specs.Int.{int_div_euclid, int_rem_euclid};
ghost use Rattle.tera_report.specs.Refusal.{Operator, plus, minus, times, remainder};
ghost use Rattle.tera_report.specs.Refusal.{floor_division, power, not_a_number};
ghost use Rattle.tera_report.specs.Refusal.{operand_outside_i128, not_exact, divided_by_zero};
ghost use Rattle.tera_report.specs.Refusal.{exponent_outside_u32, negation_outside_i128};
ghost use Rattle.tera_report.specs.Refusal.{negated_no_number, number_out_of_range};
ghost use Rattle.tera_report.specs.Refusal.{invalid_argument};
ghost use Rattle.tera_meaning.specs.Arithmetic.{IsDivided, computed, calculated, negated};
ghost use Rattle.tera_meaning.specs.Arithmetic.{as_i128, operand, power_of};
ghost use Rattle.tera_meaning.specs.Conversion.{IntegerType, has_number, number_of, converted};
ghost use Rattle.tera_meaning.specs.Conversion.{held_as, read_as, as_truth};
ghost use Rattle.tera_meaning.specs.Form.{Form};
ghost use Rattle.tera_meaning.specs.Integer.{is_small, u64, i64, u128, i128};
ghost use Rattle.tera_meaning.specs.Lookup.{seen_by};
ghost use Rattle.tera_meaning.specs.Meaning.{meaning};
ghost use Rattle.tera_meaning.specs.Read.{number_in};
ghost use Rattle.tera_meaning.specs.Rows.{HasJust, integer, least, greatest, normal};
ghost use Rattle.tera_meaning.specs.Tree.{none, truth};
ghost use Rattle.tera_meaning.specs.WellMade.{IsWellMade};

/// A number has one quotient and one remainder by each other number than 0.
pub fn divisions_have_one_answer()
    ensures are { (a b : ℤ) → b ≢ pos 0
        → IsDivided a b (int_div_euclid a b) (int_rem_euclid a b) }
    ensures only { (a b q r : ℤ) → b ≢ pos 0 → IsDivided a b q r
        → (q ≡ int_div_euclid a b) × (r ≡ int_rem_euclid a b) }
{}

/// Where a division and a remainder both answer, the left operand is the right one times the
/// quotient, plus the remainder; and so it is with the numbers of two values.
pub fn quotients_and_remainders_make_the_left_operand()
    ensures computed { (a b q r : ℤ) → computed floor_division a b ≡ Ok q
        → computed remainder a b ≡ Ok r → IsDivided a b q r }
    ensures calculated { (v w x y : Form) → calculated floor_division v w ≡ Ok x
        → calculated remainder v w ≡ Ok y → (a b q r : ℤ) × (number_in v ≡ Some a)
        × (number_in w ≡ Some b) × (x ≡ as_i128 q) × (y ≡ as_i128 r) × IsDivided a b q r }
{}

/// What is calculated of two values is computed of their numbers, and held in the kind i128.
#[tactic(auto, using(crate::proofs::CalculatedLemmas::by_numbers))]
pub fn calculations_are_of_numbers()
    ensures given { (operator : Operator) (v w x : Form) → calculated operator v w ≡ Ok x
        → (a b z : ℤ) × (number_in v ≡ Some a) × (number_in w ≡ Some b)
        × (computed operator a b ≡ Ok z) × (x ≡ as_i128 z) }
    ensures small { (operator : Operator) (v w x : Form) → calculated operator v w ≡ Ok x
        → IsOk (operand v) × IsOk (operand w) }
    ensures all { (operator : Operator) (v w : Form) (a b z : ℤ) → number_in v ≡ Some a
        → number_in w ≡ Some b → IsTrue (is_small a) → IsTrue (is_small b)
        → computed operator a b ≡ Ok z → calculated operator v w ≡ Ok (as_i128 z) }
{}

/// Each operator computes what it stands for: a sum, a difference, a product, a quotient, a
/// remainder, a product of so many factors. It answers where an i128 holds that; a remainder where
/// an i128 holds the quotient.
#[tactic(auto, unfolding(crate::specs::Arithmetic::power_of))]
pub fn operators_compute_what_they_stand_for()
    ensures sum { (a b z : ℤ) → (computed plus a b ≡ Ok z)
        ↔ ((z ≡ a +ℤ b) × IsTrue (is_small z)) }
    ensures difference { (a b z : ℤ) → (computed minus a b ≡ Ok z)
        ↔ ((z ≡ a -ℤ b) × IsTrue (is_small z)) }
    ensures product { (a b z : ℤ) → (computed times a b ≡ Ok z)
        ↔ ((z ≡ a *ℤ b) × IsTrue (is_small z)) }
    ensures quotient { (a b z : ℤ) → (computed floor_division a b ≡ Ok z)
        ↔ ((b ≢ pos 0) × (z ≡ int_div_euclid a b) × IsTrue (is_small z)) }
    ensures remainder { (a b z : ℤ) → (computed remainder a b ≡ Ok z)
        ↔ ((b ≢ pos 0) × (z ≡ int_rem_euclid a b) × IsTrue (is_small (int_div_euclid a b))) }
    ensures power { (a b z : ℤ) → (computed power a b ≡ Ok z)
        ↔ ((n : ℕ) × (b ≡ pos n) × (n < 2 ^ 32) × (z ≡ power_of a n) × IsTrue (is_small z)) }
    ensures no_factor { (a : ℤ) → power_of a 0 ≡ pos 1 }
    ensures factor { (a : ℤ) (n : ℕ) → power_of a (suc n) ≡ a *ℤ power_of a n }
{}

/// The numbers that arithmetic computes with are those from -2^127 up to 2^127 - 1.
pub fn small_numbers_are_those_of_an_i128()
    ensures { (z : ℤ) → IsTrue (is_small z)
        ↔ ((neg_ℤ (pos (2 ^ 127)) ≤ℤ z) × (z <ℤ pos (2 ^ 127))) }
{}

/// A conversion gives the number of a value where its type has it, and refuses every other value.
/// The values that an i128 takes are the operands of arithmetic.
pub fn conversions_give_the_numbers_of_a_type()
    ensures given { (type : IntegerType) (v : Form) (z : ℤ) → (converted type v ≡ Ok z)
        ↔ (number_of type v ≡ Some z) }
    ensures all { (type : IntegerType) (v : Form) (z : ℤ) → number_in v ≡ Some z
        → IsTrue (has_number type z) → converted type v ≡ Ok z }
    ensures kinds { (v : Form) → IsTrue (is_some (number_of IntegerType.i128 v))
        ↔ IsOk (operand v) }
{}

/// What arithmetic and conversions answer, and the shape of what they refuse, depends on meanings
/// alone: kinds of integers do not count.
pub fn arithmetic_depends_on_meaning()
    ensures calculated { (operator : Operator) (v w x y : Form) → meaning v ≡ meaning x
        → meaning w ≡ meaning y
        → seen_by meaning (calculated operator v w) ≡ seen_by meaning (calculated operator x y) }
    ensures negated { (v w : Form) → meaning v ≡ meaning w
        → seen_by meaning (negated v) ≡ seen_by meaning (negated w) }
    ensures converted { (type : IntegerType) (v w : Form) → meaning v ≡ meaning w
        → seen_by (λ z. z) (converted type v) ≡ seen_by (λ z. z) (converted type w) }
    ensures truth { (v w : Form) → meaning v ≡ meaning w
        → seen_by (λ b. b) (as_truth v) ≡ seen_by (λ b. b) (as_truth w) }
{}

/// What arithmetic and conversions give is well made, whatever they are given.
pub fn arithmetic_gives_what_is_well_made()
    ensures calculated { (operator : Operator) (v w : Form)
        → IfOk (calculated operator v w) IsWellMade }
    ensures negated { (v : Form) → IfOk (negated v) IsWellMade }
    ensures read { (type : IntegerType) (v : Form) → IfOk (read_as type v) IsWellMade }
{}

/// Sums, differences and products are exact, whatever the kinds of the operands.
pub fn sums_and_products_are_exact()
    ensures sum { calculated plus (integer i64 (negsuc 0)) (integer u128 (pos 2))
        ≡ Ok (as_i128 (pos 1)) }
    ensures difference { calculated minus (integer u128 (pos 5)) (integer u64 (pos 10))
        ≡ Ok (as_i128 (negsuc 4)) }
    ensures product { calculated times (integer i64 (negsuc 2)) (integer u64 (pos 4))
        ≡ Ok (as_i128 (negsuc 11)) }
    ensures past { calculated plus (as_i128 greatest) (as_i128 (pos 1))
        ≡ Err (not_exact greatest plus (pos 1)) }
    ensures below { calculated minus (as_i128 least) (as_i128 (pos 1))
        ≡ Err (not_exact least minus (pos 1)) }
    ensures far { calculated times (as_i128 least) (as_i128 least)
        ≡ Err (not_exact least times least) }
{}

/// Remainders are never below 0, whatever the signs of the operands.
pub fn divisions_are_euclidean()
    ensures quotient { calculated floor_division (integer i64 (negsuc 6)) (integer i64 (negsuc 1))
        ≡ Ok (as_i128 (pos 4)) }
    ensures remainder { calculated remainder (integer i64 (negsuc 6)) (integer i64 (negsuc 1))
        ≡ Ok (as_i128 (pos 1)) }
    ensures negative_divisor { calculated floor_division (integer u64 (pos 7))
        (integer i64 (negsuc 1)) ≡ Ok (as_i128 (negsuc 2)) }
    ensures negative_number { calculated floor_division (integer i64 (negsuc 6))
        (integer u64 (pos 2)) ≡ Ok (as_i128 (negsuc 3)) }
    ensures least_quotient { calculated floor_division (as_i128 least) (integer i64 (negsuc 0))
        ≡ Err (not_exact least floor_division (negsuc 0)) }
    ensures least_remainder { calculated remainder (as_i128 least) (integer i64 (negsuc 0))
        ≡ Err (not_exact least remainder (negsuc 0)) }
    ensures zero { calculated remainder (integer u64 (pos 1)) (integer u64 (pos 0))
        ≡ Err divided_by_zero }
{}

/// A power of 0 factors is 1; an exponent is refused where it is no number below 2^32, whatever the
/// base.
#[tactic(auto, unfolding(crate::specs::Arithmetic::power_of))]
pub fn powers_are_products()
    ensures none { calculated power (integer u64 (pos 0)) (integer u64 (pos 0))
        ≡ Ok (as_i128 (pos 1)) }
    ensures of_one { calculated power (integer u64 (pos 1)) (integer u64 (pos 4294967295))
        ≡ Ok (as_i128 (pos 1)) }
    ensures least { calculated power (integer i64 (negsuc 1)) (integer u64 (pos 127))
        ≡ Ok (as_i128 least) }
    ensures past { calculated power (integer u64 (pos 2)) (integer u64 (pos 127))
        ≡ Err (not_exact (pos 2) power (pos 127)) }
    ensures far { calculated power (integer u64 (pos 2)) (integer u64 (pos 4294967295))
        ≡ Err (not_exact (pos 2) power (pos 4294967295)) }
    ensures exponent { calculated power (integer u64 (pos 1)) (integer u64 (pos 4294967296))
        ≡ Err (exponent_outside_u32 (pos 4294967296)) }
    ensures negative { calculated power (integer u64 (pos 2)) (integer i64 (negsuc 0))
        ≡ Err (exponent_outside_u32 (negsuc 0)) }
{}

/// The left operand is looked at before the right one, and both before what is computed.
pub fn operands_are_looked_at_from_the_left()
    ensures text { calculated remainder (normal (codes "x")) (integer u64 (pos 0))
        ≡ Err (not_a_number (codes "string")) }
    ensures texts { calculated plus (normal (codes "x")) none
        ≡ Err (not_a_number (codes "string")) }
    ensures outside { calculated floor_division (integer u128 (pos (2 ^ 128 - 1)))
        (integer u64 (pos 0)) ≡ Err (operand_outside_i128 (pos (2 ^ 128 - 1))) }
    ensures first { calculated plus (integer u128 (pos (2 ^ 128 - 1))) none
        ≡ Err (operand_outside_i128 (pos (2 ^ 128 - 1))) }
    ensures before_exponent { calculated power (integer u128 (pos (2 ^ 128 - 1)))
        (integer i64 (negsuc 0)) ≡ Err (operand_outside_i128 (pos (2 ^ 128 - 1))) }
    ensures second { calculated times (integer u64 (pos 0)) (integer u128 (pos (2 ^ 127)))
        ≡ Err (operand_outside_i128 (pos (2 ^ 127))) }
{}

/// A number is negated where it and the answer are numbers of an i128.
pub fn negations_are_exact()
    ensures zero { negated (integer u64 (pos 0)) ≡ Ok (as_i128 (pos 0)) }
    ensures five { negated (integer u128 (pos 5)) ≡ Ok (as_i128 (negsuc 4)) }
    ensures back { negated (integer i64 (negsuc 4)) ≡ Ok (as_i128 (pos 5)) }
    ensures greatest { negated (as_i128 greatest) ≡ Ok (as_i128 (negsuc (2 ^ 127 - 2))) }
    ensures least { negated (as_i128 least) ≡ Err (negation_outside_i128 least) }
    ensures past { negated (integer u128 (pos (2 ^ 127)))
        ≡ Err (negation_outside_i128 (pos (2 ^ 127))) }
    ensures far { negated (integer u128 (pos (2 ^ 128 - 1)))
        ≡ Err (negation_outside_i128 (pos (2 ^ 128 - 1))) }
    ensures text { negated (normal (codes "x")) ≡ Err (negated_no_number (codes "string")) }
{}

/// These are numbers at the ends of some types, and past them. A number of a type is held in the
/// kind of the type, and what is no number, or no truth value, is refused.
pub fn types_have_their_numbers()
    ensures most { converted IntegerType.u8 (integer i128 (pos 255)) ≡ Ok (pos 255) }
    ensures past { converted IntegerType.u8 (integer u64 (pos 300))
        ≡ Err (number_out_of_range (pos 300) (codes "u8")) }
    ensures below { converted IntegerType.usize (integer i64 (negsuc 0))
        ≡ Err (number_out_of_range (negsuc 0) (codes "usize")) }
    ensures text { converted IntegerType.u8 (normal (codes "x"))
        ≡ Err (invalid_argument (codes "u8") (codes "string")) }
    ensures least { converted IntegerType.i8 (integer i128 (negsuc 127)) ≡ Ok (negsuc 127) }
    ensures too_low { converted IntegerType.i8 (integer i128 (negsuc 128))
        ≡ Err (number_out_of_range (negsuc 128) (codes "i8")) }
    ensures wide { converted IntegerType.i128 (integer u128 (pos (2 ^ 128 - 1)))
        ≡ Err (number_out_of_range (pos (2 ^ 128 - 1)) (codes "i128")) }
    ensures kept { held_as IntegerType.u8 (pos 7) ≡ integer u64 (pos 7) }
    ensures truth { as_truth (truth true) ≡ Ok true }
    ensures no_truth { as_truth none ≡ Err (invalid_argument (codes "bool") (codes "none")) }
{}

/// Each type has all numbers from its least one on and below a power of two, and no other.
pub fn types_have_just_these_numbers()
    ensures u8 { HasJust IntegerType.u8 (pos 0) (pos (2 ^ 8)) }
    ensures u16 { HasJust IntegerType.u16 (pos 0) (pos (2 ^ 16)) }
    ensures u32 { HasJust IntegerType.u32 (pos 0) (pos (2 ^ 32)) }
    ensures u64 { HasJust IntegerType.u64 (pos 0) (pos (2 ^ 64)) }
    ensures u128 { HasJust IntegerType.u128 (pos 0) (pos (2 ^ 128)) }
    ensures usize { HasJust IntegerType.usize (pos 0) (pos (2 ^ 64)) }
    ensures i8 { HasJust IntegerType.i8 (neg_ℤ (pos (2 ^ 7))) (pos (2 ^ 7)) }
    ensures i16 { HasJust IntegerType.i16 (neg_ℤ (pos (2 ^ 15))) (pos (2 ^ 15)) }
    ensures i32 { HasJust IntegerType.i32 (neg_ℤ (pos (2 ^ 31))) (pos (2 ^ 31)) }
    ensures i64 { HasJust IntegerType.i64 (neg_ℤ (pos (2 ^ 63))) (pos (2 ^ 63)) }
    ensures i128 { HasJust IntegerType.i128 (neg_ℤ (pos (2 ^ 127))) (pos (2 ^ 127)) }
    ensures isize { HasJust IntegerType.isize (neg_ℤ (pos (2 ^ 63))) (pos (2 ^ 63)) }
{}

/// A number of a type is held in the kind of 64 or of 128 bits, with a sign where the type has one.
pub fn types_are_held_in_these_kinds()
    ensures u8 { (z : ℤ) → held_as IntegerType.u8 z ≡ integer u64 z }
    ensures u16 { (z : ℤ) → held_as IntegerType.u16 z ≡ integer u64 z }
    ensures u32 { (z : ℤ) → held_as IntegerType.u32 z ≡ integer u64 z }
    ensures u64 { (z : ℤ) → held_as IntegerType.u64 z ≡ integer u64 z }
    ensures u128 { (z : ℤ) → held_as IntegerType.u128 z ≡ integer u128 z }
    ensures usize { (z : ℤ) → held_as IntegerType.usize z ≡ integer u64 z }
    ensures i8 { (z : ℤ) → held_as IntegerType.i8 z ≡ integer i64 z }
    ensures i16 { (z : ℤ) → held_as IntegerType.i16 z ≡ integer i64 z }
    ensures i32 { (z : ℤ) → held_as IntegerType.i32 z ≡ integer i64 z }
    ensures i64 { (z : ℤ) → held_as IntegerType.i64 z ≡ integer i64 z }
    ensures i128 { (z : ℤ) → held_as IntegerType.i128 z ≡ integer i128 z }
    ensures isize { (z : ℤ) → held_as IntegerType.isize z ≡ integer i64 z }
{}
