//! What is computed of values, and how numbers are read and compared.
use crate::held::{Seen, hold, is_so, same, unwanted};
use std::alloc::Global;
use tera_report::{Error, ErrorKind, TeraResult};
use tera_values::number::{NotComputed, add, compute, floor_div, mul, negate, pow, rem, sub};
use tera_values::{BinaryOp, Number, Value, ValueKind};

// What the function of that operator answers.
fn computed(alloc: Global, op: BinaryOp, left: &Value, right: &Value) -> TeraResult<Value> {
    match op {
        BinaryOp::Add => add(alloc, left, right),
        BinaryOp::Sub => sub(alloc, left, right),
        BinaryOp::Mul => mul(alloc, left, right),
        BinaryOp::Rem => rem(alloc, left, right),
        BinaryOp::FloorDiv => floor_div(alloc, left, right),
        BinaryOp::Pow => pow(alloc, left, right),
    }
}

// What it answers at these operands.
fn answer(alloc: Global, op: BinaryOp, left: Value, right: Value) -> TeraResult<Value> {
    let made = computed(alloc, op, &left, &right);
    drop(left);
    drop(right);
    made
}

// It is that number, held in 128 bits with a sign.
fn is(alloc: Global, made: TeraResult<Value>, wanted: i128) -> Seen {
    let holds = match &made {
        Ok(found) => found.is_i128() && found.as_i128() == Some(wanted),
        Err(_) => false,
    };
    let row = is_so(alloc, holds, &made, &wanted);
    drop(made);
    row
}

// The function of that operator gives that number at an `i64` and a `u8`.
fn gives(alloc: Global, op: BinaryOp, left: i64, right: u8, wanted: i128) -> Seen {
    is(
        alloc,
        answer(alloc, op, Value::from(left), Value::from(right)),
        wanted,
    )
}

#[test]
fn each_operator_has_its_function(rt: HostRuntime) {
    let alloc = rt.alloc();
    hold!(
        &rt,
        [
            gives(alloc, BinaryOp::Add, -7, 2, -5),
            gives(alloc, BinaryOp::Sub, -7, 2, -9),
            gives(alloc, BinaryOp::Mul, -7, 2, -14),
            gives(alloc, BinaryOp::Rem, -7, 2, 1),
            gives(alloc, BinaryOp::FloorDiv, -7, 2, -4),
            gives(alloc, BinaryOp::Pow, -7, 2, 49),
            same(alloc, &BinaryOp::Rem.symbol(), &"%"),
        ],
    );
}

// It is refused with a text in which that part stands.
fn refusal_holds(alloc: Global, made: TeraResult<Value>, part: &str) -> Seen {
    match made {
        Err(refused) => says_part(alloc, refused, part),
        Ok(found) => unwanted(alloc, found, part),
    }
}

fn says_part(alloc: Global, refused: Error, part: &str) -> Seen {
    let holds = match refused.kind() {
        ErrorKind::Msg(told) => told.as_str().contains(part),
        _ => false,
    };
    let row = is_so(alloc, holds, &refused, &part);
    drop(refused);
    row
}

#[test]
fn arithmetic_in_i128(rt: HostRuntime) {
    let alloc = rt.alloc();
    let sum = answer(alloc, BinaryOp::Add, Value::from(-1i64), Value::from(2u128));
    let rest = answer(alloc, BinaryOp::Sub, Value::from(5u128), Value::from(10u64));
    let past = answer(
        alloc,
        BinaryOp::Add,
        Value::from(i128::MAX),
        Value::from(1i128),
    );
    let wide = answer(
        alloc,
        BinaryOp::Add,
        Value::from(u128::MAX),
        Value::from(0u64),
    );
    hold!(
        &rt,
        [
            is(alloc, sum, 1),
            is(alloc, rest, -5),
            refusal_holds(alloc, past, "Unable to perform"),
            refusal_holds(alloc, wide, "out of range"),
        ],
    );
}

// What the negation answers.
fn negated(alloc: Global, of: Value) -> TeraResult<Value> {
    let made = negate(alloc, &of);
    drop(of);
    made
}

#[test]
fn can_negate(rt: HostRuntime) {
    let alloc = rt.alloc();
    hold!(
        &rt,
        [
            refusal_holds(alloc, negated(alloc, Value::from(i128::MIN)), "overflow"),
            is(alloc, negated(alloc, Value::from(5i64)), -5),
            is(alloc, negated(alloc, Value::from(-5i64)), 5),
            is(alloc, negated(alloc, Value::from(i128::MAX)), -i128::MAX),
            is(alloc, negated(alloc, Value::from(5u128)), -5),
            refusal_holds(alloc, negated(alloc, Value::from(u128::MAX)), "overflow"),
        ],
    );
}

// How a value is read: whether it is a number, as what arithmetic takes, and as integers.
type Read = (bool, Option<Number>, Option<u128>, Option<i64>, Option<u64>);

// It is read so.
fn reads(alloc: Global, value: Value, wanted: Read) -> Seen {
    let found = read(&value);
    drop(value);
    same(alloc, &found, &wanted)
}

fn read(value: &Value) -> Read {
    let (is_number, number) = (value.is_number(), value.as_number());
    (
        is_number,
        number,
        value.as_u128(),
        value.as_i64(),
        value.as_u64(),
    )
}

#[test]
fn numbers_are_read(rt: HostRuntime) {
    let alloc = rt.alloc();
    let minus_one = (true, Some(Number::Integer(-1)), None, Some(-1), None);
    let seven = (true, Some(Number::Integer(7)), Some(7), Some(7), Some(7));
    let greatest = (true, None, Some(u128::MAX), None, None);
    hold!(
        &rt,
        [
            reads(alloc, Value::from(u128::MAX), greatest),
            reads(alloc, Value::from(-1i8), minus_one),
            reads(alloc, Value::from(-1i128), minus_one),
            reads(alloc, Value::from(7i128), seven),
            reads(alloc, Value::from(7u8), seven),
            reads(alloc, Value::none(), (false, None, None, None, None)),
        ],
    );
}

fn kind_of(value: Value) -> ValueKind {
    let kind = value.kind();
    drop(value);
    kind
}

#[test]
fn numbers_are_compared(rt: HostRuntime) {
    let alloc = rt.alloc();
    let (zero, two, three) = (Number::Integer(0), Number::Integer(2), Number::Integer(3));
    hold!(
        &rt,
        [
            same(alloc, &two, &Number::Integer(2)),
            is_so(alloc, two != three, &(two, three), &"two numbers"),
            is_so(alloc, two < three, &(two, three), &"a rising pair"),
            is_so(alloc, two.is_integer(), &two, &"an integer"),
            is_so(alloc, !two.is_zero(), &two, &"a number that is not 0"),
            is_so(alloc, zero.is_zero(), &zero, &"0"),
            same(alloc, &kind_of(Value::from(two)), &ValueKind::I128),
            same(alloc, &two.as_integer(), &Some(2)),
        ],
    );
}

// The quotient of two values, or why there is none.
fn quotient(left: Value, right: Value) -> Result<i128, NotComputed> {
    let made = compute(BinaryOp::FloorDiv, &left, &right);
    drop(left);
    drop(right);
    made
}

#[test]
fn what_is_not_computed_says_why(rt: HostRuntime) {
    let alloc = rt.alloc();
    let wide = u128::MAX;
    let outside = NotComputed::OperandOutsideI128 { operand: wide };
    let no_number = NotComputed::NotANumber { kind: "bool" };
    hold!(
        &rt,
        [
            same(
                alloc,
                &quotient(Value::from(-7i64), Value::from(2u128)),
                &Ok(-4),
            ),
            same(
                alloc,
                &quotient(Value::from(wide), Value::from(true)),
                &Err(outside),
            ),
            same(
                alloc,
                &quotient(Value::from(true), Value::from(wide)),
                &Err(no_number),
            ),
        ],
    );
}
