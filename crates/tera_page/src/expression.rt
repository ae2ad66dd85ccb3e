//! Reads expressions.
ghost use Rattle.std.specs.Prelude.{◌≡◌, ◌∷◌, ◌<◌, IfOk, List, codes, length};
ghost use Rattle.tera_page.specs.Expressions.{Reads, Writes};
ghost use Rattle.tera_page.specs.Expressions;
ghost use Rattle.tera_page.specs.Parsing.{IsRead, level_of, row_level, symbols_of};
ghost use Rattle.tera_page.specs.Symbols;
ghost use Rattle.tera_page.specs.Symbols.{sign, word};
ghost use Rattle.tera_page.specs.Template;
ghost use Rattle.tera_page.specs.View.{arguments_of, binary_of, expression_of, unary_of};
ghost use Rattle.tera_page.specs.View.{written_of};

use crate::argument::{arguments_in, filter_in, first_of, operand_in, word_in};
use crate::level::{Level, Row, behind, comparison_in, operator_in, tighter};
use crate::symbol::{Sign, Symbol, Unread, symbols_in};
use crate::tree::{Argument, Binary, Expression, Unary, Written};
use std::alloc::Global;
use tera::scalars::BinaryOp;
use tera_filters::Filter;

/// The expression that a text writes, in the tag that begins `from`.
pub(crate) fn read_written<'a>(
    alloc: Global,
    text: &'a str,
    from: &'a str,
) -> Result<Written<'a>, Unread>
    ensures { IfOk result (λ written. Writes (written_of written) text.now from.now) }
{
    let symbols = symbols_in(alloc, text)?;
    let (expression, rest) = read(alloc, Level::Ors, symbols.as_slice())?;
    if rest.is_empty() {
        Ok(Written {
            text,
            from,
            expression,
        })
    } else {
        Err(Unread::Bad)
    }
}

// Reads an expression that holds together so tightly, and gives what is left.
#[cycle(read)]
fn read<'a, 's>(
    alloc: Global,
    level: Level,
    symbols: &'s [Symbol<'a>],
) -> Result<(Expression<'a>, &'s [Symbol<'a>]), Unread>
    ensures { IfOk result (λ read. IsRead (level_of level) symbols.now read.0 read.1.now) }
{
    match level {
        Level::Ors => read_row(alloc, Row::Ors, symbols),
        Level::Ands => read_row(alloc, Row::Ands, symbols),
        Level::Nots => read_not(alloc, symbols),
        Level::Comparisons => read_comparison(alloc, symbols),
        Level::Sums => read_row(alloc, Row::Sums, symbols),
        Level::Products => read_row(alloc, Row::Products, symbols),
        Level::Pipes => read_piped(alloc, symbols),
        Level::Opposites => read_opposite(alloc, symbols),
        Level::Powers => read_power(alloc, symbols),
        Level::Alone => read_alone(alloc, symbols),
    }
}

// Reads a row, from its first to its last.
#[cycle(read)]
fn read_row<'a, 's>(
    alloc: Global,
    row: Row,
    symbols: &'s [Symbol<'a>],
) -> Result<(Expression<'a>, &'s [Symbol<'a>]), Unread>
    ensures { IfOk result (λ read. IsRead (row_level row) symbols.now read.0 read.1.now) }
{
    let (mut left, mut rest) = read(alloc, tighter(row), symbols)?;
    'row: while let Some((operator, after)) = operator_in(row, rest) {
        let (right, left_over) = read(alloc, tighter(row), after)?;
        left = two(alloc, operator, left, right)?;
        rest = left_over;
    }
    Ok((left, rest))
}

// Reads what `not` stands before, or what holds together more tightly.
#[cycle(read)]
fn read_not<'a, 's>(
    alloc: Global,
    symbols: &'s [Symbol<'a>],
) -> Result<(Expression<'a>, &'s [Symbol<'a>]), Unread>
    ensures { IfOk result (λ read. IsRead Expressions.nots symbols.now read.0 read.1.now) }
{
    match behind(Sign::Not, symbols) {
        Some(rest) => {
            let (inner, rest) = read(alloc, Level::Nots, rest)?;
            Ok((one(alloc, Unary::Not, inner)?, rest))
        }
        None => read(alloc, Level::Comparisons, symbols),
    }
}

// Reads one comparison, or a sum alone.
#[cycle(read)]
fn read_comparison<'a, 's>(
    alloc: Global,
    symbols: &'s [Symbol<'a>],
) -> Result<(Expression<'a>, &'s [Symbol<'a>]), Unread>
    ensures { IfOk result
        (λ read. IsRead Expressions.comparisons symbols.now read.0 read.1.now) }
{
    let (left, rest) = read(alloc, Level::Sums, symbols)?;
    if let Some(rest) = behind(Sign::Is, rest) {
        return read_test(alloc, left, rest);
    }
    match comparison_in(rest) {
        Some((operator, after)) => {
            let (right, rest) = read(alloc, Level::Sums, after)?;
            Ok((two(alloc, operator, left, right)?, rest))
        }
        None => Ok((left, rest)),
    }
}

// Reads what filters stand behind.
#[cycle(read)]
fn read_piped<'a, 's>(
    alloc: Global,
    symbols: &'s [Symbol<'a>],
) -> Result<(Expression<'a>, &'s [Symbol<'a>]), Unread>
    ensures { IfOk result (λ read. IsRead Expressions.pipes symbols.now read.0 read.1.now) }
{
    let (mut inner, mut rest) = read(alloc, Level::Opposites, symbols)?;
    'pipes: while let Some(after) = behind(Sign::Bar, rest) {
        let (filter, after) = filter_in(after)?;
        let (arguments, left) = arguments_in(alloc, after)?;
        inner = piped(alloc, filter, inner, arguments)?;
        rest = left;
    }
    Ok((inner, rest))
}

// Reads what stands behind `is`.
fn read_test<'a, 's>(
    alloc: Global,
    inner: Expression<'a>,
    symbols: &'s [Symbol<'a>],
) -> Result<(Expression<'a>, &'s [Symbol<'a>]), Unread>
    ensures reads { IfOk result (λ read. (ss : List Symbols.Symbol)
        → Reads Expressions.sums (expression_of inner.entry) ss
        (sign Symbols.is ∷ symbols_of symbols.now)
        → Reads Expressions.comparisons (expression_of read.0) ss (symbols_of read.1.now)) }
    ensures shorter { IfOk result (λ read. length read.1.now < length symbols.now) }
{
    match behind(Sign::Not, symbols) {
        Some(rest) => {
            let rest = behind_defined(rest)?;
            let defined = one(alloc, Unary::IsDefined, inner)?;
            Ok((one(alloc, Unary::Not, defined)?, rest))
        }
        None => {
            let rest = behind_defined(symbols)?;
            Ok((one(alloc, Unary::IsDefined, inner)?, rest))
        }
    }
}

// What stands behind the word `defined`, where that is first.
fn behind_defined<'a, 's>(symbols: &'s [Symbol<'a>]) -> Result<&'s [Symbol<'a>], Unread>
    ensures first { IfOk result (λ rest. symbols_of symbols.now
        ≡ word (codes "defined") ∷ symbols_of rest.now) }
    ensures shorter { IfOk result (λ rest. length rest.now < length symbols.now) }
{
    let (word, rest) = word_in(symbols)?;
    if word == "defined" {
        Ok(rest)
    } else {
        Err(Unread::Bad)
    }
}

// Reads what `-` stands before, or a power.
#[cycle(read)]
fn read_opposite<'a, 's>(
    alloc: Global,
    symbols: &'s [Symbol<'a>],
) -> Result<(Expression<'a>, &'s [Symbol<'a>]), Unread>
    ensures { IfOk result (λ read. IsRead Expressions.opposites symbols.now read.0 read.1.now) }
{
    match behind(Sign::Minus, symbols) {
        Some(rest) => {
            let (inner, rest) = read(alloc, Level::Opposites, rest)?;
            Ok((one(alloc, Unary::Minus, inner)?, rest))
        }
        None => read(alloc, Level::Powers, symbols),
    }
}

// Reads a power, or what stands alone.
#[cycle(read)]
fn read_power<'a, 's>(
    alloc: Global,
    symbols: &'s [Symbol<'a>],
) -> Result<(Expression<'a>, &'s [Symbol<'a>]), Unread>
    ensures { IfOk result (λ read. IsRead Expressions.powers symbols.now read.0 read.1.now) }
{
    let (base, rest) = read(alloc, Level::Alone, symbols)?;
    match behind(Sign::Power, rest) {
        Some(after) => {
            let (exponent, rest) = read(alloc, Level::Opposites, after)?;
            let power = Binary::Arithmetic(BinaryOp::Pow);
            Ok((two(alloc, power, base, exponent)?, rest))
        }
        None => Ok((base, rest)),
    }
}

// Reads what stands alone: a value, a place, or an expression in parentheses.
#[cycle(read)]
fn read_alone<'a, 's>(
    alloc: Global,
    symbols: &'s [Symbol<'a>],
) -> Result<(Expression<'a>, &'s [Symbol<'a>]), Unread>
    ensures { IfOk result (λ read. IsRead Expressions.alone symbols.now read.0 read.1.now) }
{
    if let Some(rest) = behind(Sign::Open, symbols) {
        return read_group(alloc, rest);
    }
    let (first, rest) = first_of(symbols)?;
    Ok((Expression::Operand(operand_in(alloc, first)?), rest))
}

// Reads what stands in parentheses, behind the first of them.
#[cycle(read)]
fn read_group<'a, 's>(
    alloc: Global,
    symbols: &'s [Symbol<'a>],
) -> Result<(Expression<'a>, &'s [Symbol<'a>]), Unread>
    ensures reads { IfOk result (λ read. Reads Expressions.alone (expression_of read.0)
        (sign Symbols.opens ∷ symbols_of symbols.now) (symbols_of read.1.now)) }
    ensures shorter { IfOk result (λ read. length read.1.now < length symbols.now) }
{
    let (inner, rest) = read(alloc, Level::Ors, symbols)?;
    match behind(Sign::Close, rest) {
        Some(rest) => Ok((inner, rest)),
        None => Err(Unread::Bad),
    }
}

// What is made of one expression.
fn one<'a>(alloc: Global, operator: Unary, inner: Expression<'a>) -> Result<Expression<'a>, Unread>
    ensures { IfOk result (λ made. expression_of made
        ≡ Template.one (unary_of operator) (expression_of inner.entry)) }
{
    Ok(Expression::One(operator, Box::new(alloc, inner)?))
}

// What is made of two.
fn two<'a>(
    alloc: Global,
    operator: Binary,
    left: Expression<'a>,
    right: Expression<'a>,
) -> Result<Expression<'a>, Unread>
    ensures { IfOk result (λ made. expression_of made ≡ Template.two (binary_of operator)
        (expression_of left.entry) (expression_of right.entry)) }
{
    Ok(Expression::Two(operator, Box::new(alloc, left)?, Box::new(alloc, right)?))
}

// What a filter makes of one.
fn piped<'a>(
    alloc: Global,
    filter: Filter,
    inner: Expression<'a>,
    arguments: Vec<Argument<'a>>,
) -> Result<Expression<'a>, Unread>
    ensures { IfOk result (λ made. expression_of made ≡ Template.piped filter
        (expression_of inner.entry) (arguments_of arguments.entry.items)) }
{
    Ok(Expression::Piped(filter, Box::new(alloc, inner)?, arguments))
}
