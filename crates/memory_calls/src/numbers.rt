//! What is told where numbers are refused.
use crate::answers::{tell, tell_error};
use crate::made::Made;
use tera_values::number::{NotComputed, add, floor_div, mul, pow, rem, sub};
use tera_values::{ConversionRefused, Value};

/// Refusals of values.
pub fn tell_refusals(rt: &(impl Print + AllocGlobal), made: &Made) {
    let (alloc, zero, below) = (rt.alloc(), &made.zero, &made.below);
    tell(rt, "number::add", add(alloc, &made.plain, zero));
    tell(rt, "number::sub", sub(alloc, &made.wide, zero));
    tell(rt, "number::mul", mul(alloc, zero, &made.none));
    tell(rt, "number::rem", rem(alloc, below, zero));
    tell(rt, "number::floor_div", floor_div(alloc, below, zero));
    tell(rt, "number::pow", pow(alloc, zero, below));
    tell_conversions(rt);
    let none = NotComputed::NotANumber { kind: "none" };
    tell_error(rt, "NotComputed::into_error", none.into_error(alloc));
}

fn tell_conversions(rt: &(impl Print + AllocGlobal)) {
    let alloc = rt.alloc();
    let wrong = ConversionRefused::WrongType {
        expected: "u8",
        actual: "none",
    };
    tell_error(rt, "ConversionRefused::into_error", wrong.into_error(alloc));
    let past = ConversionRefused::OutOfRange {
        value: Value::from(300u16),
        target: "u8",
    };
    tell_error(
        rt,
        "ConversionRefused::into_error of a number",
        past.into_error(alloc),
    );
}
