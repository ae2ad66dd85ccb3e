//! What is computed of the numbers of names.
ghost use Rattle.std.specs.Int.{int_div_euclid};
ghost use Rattle.std.specs.Prelude.{◌≡◌, ℤ, pos, List, length, Ok, IfOk, IfErr, IsOk};
ghost use Rattle.tera.specs.Arithmetic.{and_then, as_i128, calculated};
ghost use Rattle.tera.specs.Errors.{Refuses};
ghost use Rattle.tera.specs.Integer.{u64 as kind_u64};
ghost use Rattle.tera.specs.Refusal.{plus, floor_division};
ghost use Rattle.tera.specs.State.{form_at};
ghost use Rattle.tera.specs.Tree.{undefined};
ghost use Rattle.tera.specs.View.{integer};
ghost use Rattle.uses.specs.Sums.{AreNumbersOf, added_up, nothing_yet, sum_of};

use std::alloc::Global;
use tera::meaning::arithmetic::{
    calculations_are_of_numbers, operators_compute_what_they_stand_for,
};
use tera::meaning::refusals::refusals_are_passed_on;
use tera::value::number;
use tera::{Context, TeraResult, Value};

/// The sum of the numbers that two names hold.
///
/// Refuses what is no number, and what no `i128` holds. Takes memory for the text of a refusal
/// alone; want of it, `Out of memory`, is answered in its place.
pub fn sum_of_names(alloc: Global, context: &Context, left: &str, right: &str) -> TeraResult<Value>
    ensures ok { IfOk result (λ value. calculated plus
        (form_at context.now left.now) (form_at context.now right.now) ≡ Ok value) }
    ensures err { IfErr result (Refuses (calculated plus
        (form_at context.now left.now) (form_at context.now right.now))) }
    ensures succeeds { IsOk (calculated plus
        (form_at context.now left.now) (form_at context.now right.now)) → IsOk result }
{
    let absent = Value::undefined();
    number::add(
        alloc,
        value_at(context, left, &absent),
        value_at(context, right, &absent),
    )
}

// The value of a name; of one that isn't there the value that stands for it.
fn value_at<'a>(context: &'a Context, name: &str, absent: &'a Value) -> &'a Value
    requires { absent.now ≡ undefined }
    ensures { result.now ≡ form_at context.now name.now }
{
    context.get(name).unwrap_or(absent)
}

/// The sum of the numbers of an array, 0 of none.
///
/// Refuses as the first sum that is refused: what is no number, and what no `i128` holds. Takes
/// memory for the text of a refusal alone; want of it, `Out of memory`, is answered in its place.
pub fn sum_of_array(alloc: Global, values: &[Value]) -> TeraResult<Value>
    ensures ok { IfOk result (λ sum. added_up nothing_yet values.now ≡ Ok sum) }
    ensures numbers { IfOk result (λ sum. (zs : List ℤ) × AreNumbersOf values.now zs
        × (sum ≡ as_i128 (sum_of zs))) }
    ensures err { IfErr result (Refuses (added_up nothing_yet values.now)) }
    ensures succeeds { IsOk (added_up nothing_yet values.now) → IsOk result }
{
    calculations_are_of_numbers();
    operators_compute_what_they_stand_for();
    refusals_are_passed_on();
    let mut sum = Value::from(0i128);
    for value in values {
        sum = number::add(alloc, &sum, value)?;
    }
    Ok(sum)
}

/// The average of the numbers of an array, rounded down.
///
/// Refuses as their sum does, and an array of none, by which nothing is divided. Takes memory for
/// the text of a refusal alone; want of it, `Out of memory`, is answered in its place.
pub fn average(alloc: Global, values: &[Value]) -> TeraResult<Value>
    ensures ok { IfOk result (λ average. (zs : List ℤ) × AreNumbersOf values.now zs
        × (average ≡ as_i128 (int_div_euclid (sum_of zs) (pos (length values.now))))) }
    ensures err { IfErr result (Refuses (and_then (added_up nothing_yet values.now)
        (λ sum. calculated floor_division sum (integer kind_u64 (pos (length values.now)))))) }
    ensures succeeds { IsOk (and_then (added_up nothing_yet values.now)
        (λ sum. calculated floor_division sum (integer kind_u64 (pos (length values.now)))))
        → IsOk result }
{
    calculations_are_of_numbers();
    operators_compute_what_they_stand_for();
    refusals_are_passed_on();
    let sum = sum_of_array(alloc, values)?;
    number::floor_div(alloc, &sum, &Value::from(values.len()))
}
