//! How tightly operators hold together, and which stand where.
ghost use Rattle.std.specs.Prelude.{◌≡◌, ◌++◌, ◌∷◌, [], ◌<◌, IfSome, length};
ghost use Rattle.tera_page.specs.Expressions.{between, level, tighter};
ghost use Rattle.tera_page.specs.Expressions;
ghost use Rattle.tera_page.specs.Parsing.{level_of, row_level, symbols_of};
ghost use Rattle.tera_page.specs.Symbols.{sign};
ghost use Rattle.tera_page.specs.Symbols;
ghost use Rattle.tera_page.specs.Tokens.{sign_of};
ghost use Rattle.tera_page.specs.View.{binary_of};

use crate::symbol::{Sign, Symbol};
use crate::tree::Binary;
use tera::scalars::BinaryOp;

/// How tightly an expression holds together, from `or` to what stands alone.
#[derive(Clone, Copy)]
pub(crate) enum Level {
    Ors,
    Ands,
    Nots,
    Comparisons,
    Sums,
    Products,
    Pipes,
    Opposites,
    Powers,
    Alone,
}

/// What may stand several times in a row: the last takes all that is before it.
#[derive(Clone, Copy)]
pub(crate) enum Row {
    Ors,
    Ands,
    Sums,
    Products,
}

/// The level inside of a row.
pub(crate) fn tighter(row: Row) -> Level
    ensures { level_of result ≡ tighter (row_level row) }
{
    match row {
        Row::Ors => Level::Ands,
        Row::Ands => Level::Nots,
        Row::Sums => Level::Products,
        Row::Products => Level::Pipes,
    }
}

/// The operator of a row that is first, and what stands behind it.
pub(crate) fn operator_in<'a, 's>(
    row: Row,
    symbols: &'s [Symbol<'a>],
) -> Option<(Binary, &'s [Symbol<'a>])>
    ensures level { IfSome result (λ found. level (binary_of found.0) ≡ row_level row) }
    ensures between { IfSome result (λ found. symbols_of symbols.now
        ≡ between (binary_of found.0) ++ symbols_of found.1.now) }
    ensures shorter { IfSome result (λ found. length found.1.now < length symbols.now) }
{
    let (first, rest) = symbols.split_first()?;
    match first {
        Symbol::Sign(sign) => Some((operator_of(row, *sign)?, rest)),
        _ => None,
    }
}

// The operator of a row that a sign stands for.
fn operator_of(row: Row, sign: Sign) -> Option<Binary>
    ensures level { IfSome result (λ found. level (binary_of found) ≡ row_level row) }
    ensures between { IfSome result
        (λ found. between (binary_of found) ≡ Symbols.sign (sign_of sign) ∷ []) }
{
    match (row, sign) {
        (Row::Ors, Sign::Or) => Some(Binary::Or),
        (Row::Ands, Sign::And) => Some(Binary::And),
        (Row::Sums, Sign::Plus) => Some(Binary::Arithmetic(BinaryOp::Add)),
        (Row::Sums, Sign::Minus) => Some(Binary::Arithmetic(BinaryOp::Sub)),
        (Row::Products, Sign::Times) => Some(Binary::Arithmetic(BinaryOp::Mul)),
        (Row::Products, Sign::Floor) => Some(Binary::Arithmetic(BinaryOp::FloorDiv)),
        (Row::Products, Sign::Remainder) => Some(Binary::Arithmetic(BinaryOp::Rem)),
        _ => None,
    }
}

/// The comparison that is first, and what stands behind it.
pub(crate) fn comparison_in<'a, 's>(symbols: &'s [Symbol<'a>]) -> Option<(Binary, &'s [Symbol<'a>])>
    ensures level { IfSome result
        (λ found. level (binary_of found.0) ≡ Expressions.comparisons) }
    ensures between { IfSome result (λ found. symbols_of symbols.now
        ≡ between (binary_of found.0) ++ symbols_of found.1.now) }
    ensures shorter { IfSome result (λ found. length found.1.now < length symbols.now) }
{
    if let Some(rest) = behind(Sign::Not, symbols) {
        return Some((Binary::NotIn, behind(Sign::In, rest)?));
    }
    let (first, rest) = symbols.split_first()?;
    match first {
        Symbol::Sign(sign) => Some((comparison_of(*sign)?, rest)),
        _ => None,
    }
}

// The comparison that a sign stands for.
fn comparison_of(sign: Sign) -> Option<Binary>
    ensures level { IfSome result (λ found. level (binary_of found) ≡ Expressions.comparisons) }
    ensures between { IfSome result
        (λ found. between (binary_of found) ≡ Symbols.sign (sign_of sign) ∷ []) }
{
    match sign {
        Sign::In => Some(Binary::In),
        Sign::Equal => Some(Binary::Equal),
        Sign::Unequal => Some(Binary::Unequal),
        Sign::Less => Some(Binary::Less),
        Sign::AtMost => Some(Binary::AtMost),
        Sign::More => Some(Binary::More),
        Sign::AtLeast => Some(Binary::AtLeast),
        _ => None,
    }
}

/// What stands behind a sign, where that is first.
pub(crate) fn behind<'a, 's>(wanted: Sign, symbols: &'s [Symbol<'a>]) -> Option<&'s [Symbol<'a>]>
    ensures first { IfSome result
        (λ rest. symbols_of symbols.now ≡ sign (sign_of wanted) ∷ symbols_of rest.now) }
    ensures shorter { IfSome result (λ rest. length rest.now < length symbols.now) }
{
    let (first, rest) = symbols.split_first()?;
    match first {
        Symbol::Sign(found) => if *found == wanted { Some(rest) } else { None },
        _ => None,
    }
}
