//! How values of every kind compare.
use crate::held::{Seen, hold, is_so};
use made_values::{bytes, no_items, no_pairs, numbers, one_item, safe, text, two_items};
use std::alloc::Global;
use std::cmp::Ordering;
use std::fmt::Debug;
use std::process::Abort;
use tera_values::Value;

// They compare so, and are equal where they do.
fn compare<T: Ord + Debug>(alloc: Global, left: &T, right: &T, order: Ordering) -> Seen {
    let (found, partial, are_equal) = (left.cmp(right), left.partial_cmp(right), left == right);
    let holds = found == order && partial == Some(order) && are_equal == (order == Ordering::Equal);
    is_so(
        alloc,
        holds,
        &(left, right, found, partial, are_equal),
        &order,
    )
}

/// Each is less than all that follow.
pub fn rise<T: Ord + Debug>(rt: &impl Abort, alloc: Global, values: &[T]) {
    for (i, left) in values.iter().enumerate() {
        for (j, right) in values.iter().enumerate() {
            if let Err(seen) = compare(alloc, left, right, i.cmp(&j)) {
                panic!(rt; "at {i} and {j}: {seen}");
            }
        }
    }
}

// No two of them are decided, which are of different ranks.
fn are_undecided(rt: &impl Abort, alloc: Global, values: &[Value]) {
    for (i, left) in values.iter().enumerate() {
        for (j, right) in values.iter().enumerate() {
            let found = left.try_compare(right);
            let holds = i == j || found.is_none();
            if let Err(seen) = is_so(alloc, holds, &(left, right, found), &"no order") {
                panic!(rt; "at {i} and {j}: {seen}");
            }
        }
    }
}

/// They are equal, and both are let go.
pub fn are_equal<T: Ord + Debug + Drop>(alloc: Global, left: T, right: T) -> Seen {
    let row = compare(alloc, &left, &right, Ordering::Equal);
    drop(left);
    drop(right);
    row
}

#[test]
fn values_come_in_order(rt: HostRuntime) {
    let alloc = rt.alloc();
    let all = [
        Value::from(false),
        Value::from(true),
        Value::from(i128::MIN),
        Value::from(-1i64),
        Value::from(0u64),
        Value::from(1u8),
        Value::from(u128::MAX),
        text(alloc, ""),
        safe(alloc, "a"),
        text(alloc, "é"),
        no_items(alloc),
        one_item(alloc, Value::from(1u64)),
        two_items(alloc, Value::from(1i128), no_items(alloc)),
        numbers(alloc, &[2]),
        no_pairs(alloc),
        bytes(alloc, &[]),
        bytes(alloc, &[0]),
        Value::none(),
        Value::undefined(),
    ];
    rise(&rt, alloc, &all);
    drop(all);
}

#[test]
fn ranks_are_left_undecided(rt: HostRuntime) {
    let alloc = rt.alloc();
    let all = [
        Value::from(true),
        Value::from(1u8),
        text(alloc, "a"),
        no_items(alloc),
        no_pairs(alloc),
        bytes(alloc, &[0]),
        Value::none(),
        Value::undefined(),
    ];
    are_undecided(&rt, alloc, &all);
    drop(all);
}

#[test]
fn integers_of_every_width_become_values(rt: HostRuntime) {
    let alloc = rt.alloc();
    hold!(
        &rt,
        [
            are_equal(alloc, Value::from(u8::MAX), Value::from(255u64)),
            are_equal(alloc, Value::from(u16::MAX), Value::from(65535u64)),
            are_equal(alloc, Value::from(u32::MAX), Value::from(4294967295u64)),
            are_equal(alloc, Value::from(usize::MAX), Value::from(u64::MAX)),
            are_equal(alloc, Value::from(i8::MIN), Value::from(-128i64)),
            are_equal(alloc, Value::from(i16::MIN), Value::from(-32768i64)),
            are_equal(alloc, Value::from(i32::MIN), Value::from(-2147483648i64)),
            are_equal(alloc, Value::from(isize::MIN), Value::from(i64::MIN)),
        ],
    );
}
