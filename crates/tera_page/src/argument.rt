//! Reads what stands alone, and filters with their arguments.
ghost use Rattle.std.specs.Prelude.{◌≡◌, [], ◌∷◌, ◌≤◌, ◌<◌, IfOk, IfErr, IfSome, Some, length};
ghost use Rattle.tera_filters.specs.Words.{word_of};
ghost use Rattle.tera_page.specs.Arguments.{AreArguments, AreListed, BeginsNoWord, IsArgument};
ghost use Rattle.tera_page.specs.Arguments.{IsGiven, IsOperand, constant_of};
ghost use Rattle.tera_page.specs.Parsing.{IsNoFilter, symbols_of};
ghost use Rattle.tera_page.specs.Symbols;
ghost use Rattle.tera_page.specs.Tokens.{sign_of, symbol_of};
ghost use Rattle.tera_page.specs.View.{argument_of, arguments_of, operand_of};
ghost use Rattle.tera_page.specs.declared.symbol.Unread.TheVariants.{Bad};

use crate::level::behind;
use crate::symbol::{Sign, Symbol, Unread};
use crate::tree::{Argument, Operand};
use crate::word::{is_name, place_in};
use std::alloc::Global;
use tera::Value;
use tera::scalars::place_in_path;
use tera::value::number::negate;
use tera_filters::Filter;

/// The filter whose word is first, and what stands behind it.
pub(crate) fn filter_in<'a, 's>(
    symbols: &'s [Symbol<'a>],
) -> Result<(Filter, &'s [Symbol<'a>]), Unread>
    ensures first { IfOk result (λ found. symbols_of symbols.now
        ≡ Symbols.word (word_of found.0) ∷ symbols_of found.1.now) }
    ensures shorter { IfOk result (λ found. length found.1.now < length symbols.now) }
    ensures err { IfErr result (IsNoFilter symbols.now) }
{
    let (word, rest) = word_in(symbols)?;
    match Filter::named(word) {
        Some(filter) => Ok((filter, rest)),
        None => Err(Unread::Unnamed),
    }
}

/// The arguments in parentheses that are first, or none, and what stands behind them.
pub(crate) fn arguments_in<'a, 's>(
    alloc: Global,
    symbols: &'s [Symbol<'a>],
) -> Result<(Vec<Argument<'a>>, &'s [Symbol<'a>]), Unread>
    ensures read { IfOk result (λ read. AreArguments (arguments_of read.0.items)
        (symbols_of symbols.now) (symbols_of read.1.now)) }
    ensures within { IfOk result (λ read. length read.1.now ≤ length symbols.now) }
{
    let Some(inner) = behind(Sign::Open, symbols) else {
        return Ok((Vec::new(alloc), symbols));
    };
    match behind(Sign::Close, inner) {
        Some(rest) => Ok((Vec::new(alloc), rest)),
        None => listed_in(alloc, inner),
    }
}

// Arguments with commas between them, and what stands behind the parenthesis that ends them.
fn listed_in<'a, 's>(
    alloc: Global,
    symbols: &'s [Symbol<'a>],
) -> Result<(Vec<Argument<'a>>, &'s [Symbol<'a>]), Unread>
    ensures read { IfOk result (λ read. AreListed (arguments_of read.0.items)
        (symbols_of symbols.now) (symbols_of read.1.now)) }
    ensures within { IfOk result (λ read. length read.1.now ≤ length symbols.now) }
{
    let (first, mut left) = argument_in(alloc, symbols)?;
    let mut given = Vec::new(alloc);
    given.push(first)?;
    'arguments: while let Some(next) = behind(Sign::Comma, left) {
        let (argument, rest) = argument_in(alloc, next)?;
        given.push(argument)?;
        left = rest;
    }
    match behind(Sign::Close, left) {
        Some(rest) => Ok((given, rest)),
        None => Err(Unread::Bad),
    }
}

// An argument, and what stands behind it.
fn argument_in<'a, 's>(
    alloc: Global,
    symbols: &'s [Symbol<'a>],
) -> Result<(Argument<'a>, &'s [Symbol<'a>]), Unread>
    ensures read { IfOk result (λ read.
        IsArgument (argument_of read.0) (symbols_of symbols.now) (symbols_of read.1.now)) }
    ensures shorter { IfOk result (λ read. length read.1.now < length symbols.now) }
{
    let (name, rest) = word_in(symbols)?;
    if !is_name(name) {
        return Err(Unread::Bad);
    }
    let Some(rest) = behind(Sign::Gives, rest) else {
        return Err(Unread::Bad);
    };
    let (value, rest) = given_in(alloc, rest)?;
    Ok((Argument { name, value }, rest))
}

// An operand, or a number behind `-`, and what stands behind it.
fn given_in<'a, 's>(
    alloc: Global,
    symbols: &'s [Symbol<'a>],
) -> Result<(Operand<'a>, &'s [Symbol<'a>]), Unread>
    ensures read { IfOk result (λ read.
        IsGiven (operand_of read.0) (symbols_of symbols.now) (symbols_of read.1.now)) }
    ensures shorter { IfOk result (λ read. length read.1.now < length symbols.now) }
{
    let Some(rest) = behind(Sign::Minus, symbols) else {
        return operand_alone(alloc, symbols);
    };
    let (first, rest) = first_of(rest)?;
    match operand_in(alloc, first)? {
        Operand::Constant(value) => match negate(alloc, &value) {
            Ok(opposite) => Ok((Operand::Constant(opposite), rest)),
            Err(_) => Err(Unread::Bad),
        },
        Operand::Found(_) => Err(Unread::Bad),
    }
}

// An operand, and what stands behind it.
fn operand_alone<'a, 's>(
    alloc: Global,
    symbols: &'s [Symbol<'a>],
) -> Result<(Operand<'a>, &'s [Symbol<'a>]), Unread>
    ensures read { IfOk result (λ read.
        IsGiven (operand_of read.0) (symbols_of symbols.now) (symbols_of read.1.now)) }
    ensures shorter { IfOk result (λ read. length read.1.now < length symbols.now) }
{
    let (first, rest) = first_of(symbols)?;
    Ok((operand_in(alloc, first)?, rest))
}

/// The operand that one symbol is.
pub(crate) fn operand_in<'a>(alloc: Global, symbol: Symbol<'a>) -> Result<Operand<'a>, Unread>
    ensures { IfOk result (λ made. IsOperand (operand_of made) (symbol_of symbol.entry)) }
{
    match symbol {
        Symbol::Word(word) => operand_of_word(word).ok_or(Unread::Bad),
        Symbol::Quoted(text) => {
            let text = String::from_str(alloc, text)?;
            Ok(Operand::Constant(Value::from(text)))
        }
        Symbol::Sign(sign) => match constant_of(sign) {
            Some(value) => Ok(Operand::Constant(value)),
            None => Err(Unread::Bad),
        },
    }
}

// The number or the place that a word is.
fn operand_of_word(word: &str) -> Option<Operand<'_>>
    ensures { IfSome result (λ made. IsOperand (operand_of made) (Symbols.word word.now)) }
{
    match place_in_path(word) {
        Some(number) => Some(Operand::Constant(Value::from(number))),
        None => Some(Operand::Found(place_in(word)?)),
    }
}

// The value that a word of the language stands for.
fn constant_of(sign: Sign) -> Option<Value>
    ensures { IfSome result (λ value. constant_of (sign_of sign) ≡ Some value) }
{
    match sign {
        Sign::True => Some(Value::from(true)),
        Sign::False => Some(Value::from(false)),
        Sign::None => Some(Value::none()),
        _ => None,
    }
}

/// The word that is first, and what stands behind it.
pub(crate) fn word_in<'a, 's>(
    symbols: &'s [Symbol<'a>],
) -> Result<(&'a str, &'s [Symbol<'a>]), Unread>
    ensures first { IfOk result (λ found. symbols_of symbols.now
        ≡ Symbols.word found.0.now ∷ symbols_of found.1.now) }
    ensures shorter { IfOk result (λ found. length found.1.now < length symbols.now) }
    ensures err { IfErr result (λ why. (why ≡ Bad) × BeginsNoWord (symbols_of symbols.now)) }
{
    let (first, rest) = first_of(symbols)?;
    match first {
        Symbol::Word(word) => Ok((word, rest)),
        _ => Err(Unread::Bad),
    }
}

/// The first symbol, and what stands behind it.
pub(crate) fn first_of<'a, 's>(
    symbols: &'s [Symbol<'a>],
) -> Result<(Symbol<'a>, &'s [Symbol<'a>]), Unread>
    ensures first { IfOk result
        (λ found. symbols_of symbols.now ≡ symbol_of found.0 ∷ symbols_of found.1.now) }
    ensures shorter { IfOk result (λ found. length found.1.now < length symbols.now) }
    ensures err { IfErr result (λ why. (why ≡ Bad) × (symbols_of symbols.now ≡ [])) }
{
    match symbols.split_first() {
        Some((first, rest)) => Ok((*first, rest)),
        None => Err(Unread::Bad),
    }
}
