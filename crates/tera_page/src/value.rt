//! What an expression stands for.
ghost use Rattle.std.specs.Prelude.{◌≡◌, ◌==◌, Ok, IfOk, IfErr};
ghost use Rattle.tera.specs.Errors.{IsOutOfMemory, Refuses};
ghost use Rattle.tera.specs.Meaning.{meaning};
ghost use Rattle.tera.specs.Order.{rank};
ghost use Rattle.tera_page.specs.Values.{arguments, made_of_one, made_of_two, settled, standing};
ghost use Rattle.tera_page.specs.Values.{value_of};
ghost use Rattle.tera_page.specs.View.{arguments_of, binary_of, expression_of, form_of, operand_of};
ghost use Rattle.tera_page.specs.View.{state_of, unary_of};

use crate::scope::{Scope, found};
use crate::tree::{Argument, Binary, Expression, Operand, Unary};
use std::alloc::Global;
use std::borrow::CowStr;
use tera::value::number::{calculate, negate};
use tera::{Kwargs, Map, TeraResult, ToKey, Value};

/// A value that is lent, or one that was made.
#[derive(Drop)]
pub(crate) enum Held<'a> {
    Lent(&'a Value),
    Made(Value),
}

impl Held<'_> {
    /// The value, lent.
    pub(crate) fn value(&self) -> &Value
        ensures { result.now ≡ form_of self.now }
    {
        match self {
            Held::Lent(value) => *value,
            Held::Made(value) => value,
        }
    }

    /// The value, of which a lent one is copied.
    pub(crate) fn into_value(self, alloc: Global) -> TeraResult<Value>
        ensures ok { IfOk result (λ value. value ≡ form_of self.entry) }
        ensures err { IfErr result IsOutOfMemory }
    {
        match self {
            Held::Lent(value) => Ok(value.clone(alloc)?),
            Held::Made(value) => Ok(value),
        }
    }
}

/// What an expression stands for. What is found is lent.
pub(crate) fn value_of<'a, 't>(
    alloc: Global,
    expression: &'a Expression<'t>,
    scope: &'a Scope<'a>,
) -> TeraResult<Held<'a>>
    ensures ok { IfOk result (λ held. value_of (expression_of expression.now) (state_of scope.now)
        ≡ Ok (form_of held)) }
    ensures err { IfErr result
        (Refuses (value_of (expression_of expression.now) (state_of scope.now))) }
{
    match expression {
        Expression::Operand(operand) => Ok(standing(operand, scope)),
        _ => computed(alloc, expression, scope),
    }
}

// The same for any expression. Each call here has a place for what may be refused, which is cleared
// first, so what stands alone does not come here. The second of two is looked at only where the
// first settles nothing.
fn computed<'a, 't>(
    alloc: Global,
    expression: &'a Expression<'t>,
    scope: &'a Scope<'a>,
) -> TeraResult<Held<'a>>
    ensures ok { IfOk result (λ held. value_of (expression_of expression.now) (state_of scope.now)
        ≡ Ok (form_of held)) }
    ensures err { IfErr result
        (Refuses (value_of (expression_of expression.now) (state_of scope.now))) }
{
    match expression {
        Expression::Operand(operand) => Ok(standing(operand, scope)),
        Expression::One(operator, inner) => {
            let held = computed(alloc, inner, scope)?;
            Ok(Held::Made(made_of_one(alloc, *operator, held.value())?))
        }
        Expression::Two(operator, left, right) => {
            let first = computed(alloc, left, scope)?;
            if let Some(known) = settled(*operator, first.value()) {
                return Ok(Held::Made(Value::from(known)));
            }
            let second = computed(alloc, right, scope)?;
            let made = made_of_two(alloc, *operator, first.value(), second.value())?;
            Ok(Held::Made(made))
        }
        Expression::Piped(filter, inner, given) => {
            let held = computed(alloc, inner, scope)?;
            let arguments = arguments(alloc, given.as_slice(), scope)?;
            Ok(Held::Made(filter.apply(alloc, held.value(), &arguments)?))
        }
    }
}

// What stands alone.
fn standing<'a, 't>(operand: &'a Operand<'t>, scope: &'a Scope<'a>) -> Held<'a>
    ensures { form_of result ≡ standing (state_of scope.now) (operand_of operand.now) }
{
    match operand {
        Operand::Constant(value) => Held::Lent(value),
        Operand::Found(at) => match found(scope, *at) {
            Some(value) => Held::Lent(value),
            None => Held::Made(Value::undefined()),
        },
    }
}

// The arguments of a filter: a copy of what stands for each.
fn arguments<'a, 't>(
    alloc: Global,
    given: &'a [Argument<'t>],
    scope: &'a Scope<'a>,
) -> TeraResult<Kwargs>
    ensures ok { IfOk result
        (λ held. held ≡ arguments (state_of scope.now) (arguments_of given.now)) }
    ensures err { IfErr result IsOutOfMemory }
{
    let mut held = Map::new(alloc);
    for argument in given {
        let key = CowStr::Borrowed(argument.name).to_key(alloc)?;
        let value = standing(&argument.value, &*scope).into_value(alloc)?;
        held.insert(key, value)?;
    }
    Ok(Kwargs::new(held))
}

// What is made of one value.
fn made_of_one(alloc: Global, operator: Unary, value: &Value) -> TeraResult<Value>
    ensures ok { IfOk result (λ made. made_of_one (unary_of operator) value.now ≡ Ok made) }
    ensures err { IfErr result (Refuses (made_of_one (unary_of operator) value.now)) }
{
    match operator {
        Unary::Not => Ok(Value::from(!value.is_truthy())),
        Unary::Minus => negate(alloc, value),
        Unary::IsDefined => Ok(Value::from(!value.is_undefined())),
    }
}

// What the first of two values settles.
fn settled(operator: Binary, value: &Value) -> Option<bool>
    ensures { result ≡ settled (binary_of operator) value.now }
{
    match operator {
        Binary::Or => { if value.is_truthy() { Some(true) } else { None } }
        Binary::And => { if value.is_truthy() { None } else { Some(false) } }
        _ => None,
    }
}

// What is made of two values.
fn made_of_two(alloc: Global, operator: Binary, left: &Value, right: &Value) -> TeraResult<Value>
    ensures ok { IfOk result
        (λ made. made_of_two (binary_of operator) left.now right.now ≡ Ok made) }
    ensures err { IfErr result (Refuses (made_of_two (binary_of operator) left.now right.now)) }
{
    match operator {
        Binary::Or => Ok(Value::from(right.is_truthy())),
        Binary::And => Ok(Value::from(right.is_truthy())),
        Binary::In => Ok(Value::from(right.contains(alloc, left)?)),
        Binary::NotIn => Ok(Value::from(!right.contains(alloc, left)?)),
        Binary::Equal => Ok(Value::from(*left == *right)),
        Binary::Unequal => Ok(Value::from(*left != *right)),
        Binary::Less => Ok(Value::from(alike(left, right) && left.cmp(right).is_lt())),
        Binary::AtMost => Ok(Value::from(alike(left, right) && left.cmp(right).is_le())),
        Binary::More => Ok(Value::from(alike(left, right) && left.cmp(right).is_gt())),
        Binary::AtLeast => Ok(Value::from(alike(left, right) && left.cmp(right).is_ge())),
        Binary::Arithmetic(operator) => calculate(alloc, operator, left, right),
    }
}

// Whether two values are of one rank.
fn alike(left: &Value, right: &Value) -> bool
    ensures { result ≡ (rank (meaning left.now) == rank (meaning right.now)) }
{
    rank(left) == rank(right)
}

// The rank of a value in the order of values.
fn rank(value: &Value) -> u8
    ensures { result ≡ rank (meaning value.now) }
{
    if value.is_bool() {
        0
    } else if value.is_number() {
        1
    } else if value.is_string() {
        2
    } else if value.is_array() {
        3
    } else if value.is_map() {
        4
    } else if value.is_bytes() {
        5
    } else if value.is_none() {
        6
    } else {
        7
    }
}
