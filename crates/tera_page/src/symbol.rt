//! The words and signs that an expression is made of.
ghost use Rattle.std.specs.Prelude.{◌≡◌, ◌++◌, ◌≤◌, ◌<◌, ℕ, List, true, false, IfOk, IfErr, IfSome};
ghost use Rattle.std.specs.Prelude.{drop, length, map, slice_index};
ghost use Rattle.std.specs.List.{list_all};
ghost use Rattle.tera_page.specs.Symbols.{AreSymbols, HasMore, IsQuoted, IsSymbol, IsWord};
ghost use Rattle.tera_page.specs.Symbols.{begins_word, is_plain, is_word_byte};
ghost use Rattle.tera_page.specs.Symbols;
ghost use Rattle.tera_page.specs.Tokens.{IsSigned, sign_of, symbol_of};
ghost use Rattle.tera_page.specs.declared.symbol.Unread.TheVariants.{Long};

use crate::word::{behind, cut_at, is_name_byte, past_blanks};
use std::alloc::{AllocError, AllocFailed, Global};

/// How many words and signs an expression may have.
pub(crate) const SYMBOLS: usize = 128;

/// A sign, or a word that stands for one.
#[derive(Clone, Copy, PartialEq, Eq)]
pub(crate) enum Sign {
    Open,
    Close,
    Equal,
    Unequal,
    Less,
    AtMost,
    More,
    AtLeast,
    Plus,
    Minus,
    Times,
    Floor,
    Remainder,
    Power,
    Bar,
    Comma,
    Gives,
    And,
    Or,
    Not,
    In,
    Is,
    True,
    False,
    None,
}

/// A word, a text between quotes, or a sign.
#[derive(Clone, Copy)]
pub(crate) enum Symbol<'a> {
    Word(&'a str),
    Quoted(&'a str),
    Sign(Sign),
}

/// Why a text is no expression.
#[derive(Drop)]
pub(crate) enum Unread {
    /// Memory was refused.
    Memory,
    /// It is none.
    Bad,
    /// It has more words and signs than there may be.
    Long,
    /// It names a filter that there is not.
    Unnamed,
}

impl From<AllocError> for Unread {
    ghost use Rattle.std.specs.Prelude.{◌≡◌};
    ghost use Rattle.tera_page.specs.declared.symbol.Unread.TheVariants.{Memory};

    ghost from_gives = { λ _ s. s ≡ Memory };

    fn from(_refused: AllocError) -> Self {
        Unread::Memory
    }
}

impl<T: Drop> From<AllocFailed<T>> for Unread {
    ghost use Rattle.std.specs.Prelude.{◌≡◌};
    ghost use Rattle.tera_page.specs.declared.symbol.Unread.TheVariants.{Memory};

    ghost from_gives = { λ _ s. s ≡ Memory };

    fn from(_refused: AllocFailed<T>) -> Self {
        Unread::Memory
    }
}

/// The symbols that a text is made of, where there are no more than may be.
pub(crate) fn symbols_in(alloc: Global, text: &str) -> Result<Vec<Symbol<'_>>, Unread>
    ensures ok { IfOk result (λ found. AreSymbols (map symbol_of found.items) text.now) }
    ensures few { IfOk result (λ found. length found.items ≤ 128) }
    ensures long { IfErr result (λ why. why ≡ Long → HasMore 128 text.now) }
{
    let mut found = Vec::new(alloc);
    let (_, mut rest) = past_blanks(text);
    'symbols: while !rest.is_empty() {
        let Some((symbol, after)) = take_symbol(rest) else {
            return Err(Unread::Bad);
        };
        if found.len() >= SYMBOLS {
            return Err(Unread::Long);
        }
        found.push(symbol)?;
        let (_, next) = past_blanks(after);
        rest = next;
    }
    Ok(found)
}

// The first symbol of a text, and what stands behind it.
fn take_symbol(text: &str) -> Option<(Symbol<'_>, &str)>
    ensures spelled { IfSome result
        (λ taken. IsSymbol (symbol_of taken.0) text.now taken.1.now) }
    ensures shorter { IfSome result (λ taken. length taken.1.now < length text.now) }
{
    let word = word_len(text.as_bytes());
    if word > 0 {
        let (word, rest) = text.split_at(word);
        return Some((symbol_of_word(word), rest));
    }
    if let Some((quoted, rest)) = quoted_in(text) {
        return Some((Symbol::Quoted(quoted), rest));
    }
    let (sign, rest) = sign_in(text)?;
    Some((Symbol::Sign(sign), rest))
}

// How many bytes of a word stand at the front.
fn word_len(bytes: &[u8]) -> usize
    ensures within { result ≤ length bytes.now }
    ensures word { (i : ℕ) → i < result → is_word_byte (slice_index bytes.now i) ≡ true }
    ensures ends { begins_word (drop result bytes.now) ≡ false }
{
    for at in 0..bytes.len() {
        if !is_word_byte(bytes[at]) {
            return at;
        }
    }
    bytes.len()
}

fn is_word_byte(byte: u8) -> bool
    ensures { result ≡ is_word_byte byte }
{
    is_name_byte(byte) || byte == b'.'
}

// The symbol of a word: the sign that it stands for, or itself.
fn symbol_of_word(word: &str) -> Symbol<'_>
    ensures { (rest : List ℕ) → IsWord word.now (word.now ++ rest) rest
        → IsSymbol (symbol_of result) (word.now ++ rest) rest }
{
    match sign_of_word(word) {
        Some(sign) => Symbol::Sign(sign),
        None => Symbol::Word(word),
    }
}

// The sign that a word stands for.
fn sign_of_word(word: &str) -> Option<Sign>
    ensures { IfSome result (λ sign. word.now ≡ Symbols.spelled (sign_of sign)) }
{
    if word == "and" {
        Some(Sign::And)
    } else if word == "or" {
        Some(Sign::Or)
    } else if word == "not" {
        Some(Sign::Not)
    } else if word == "in" {
        Some(Sign::In)
    } else if word == "is" {
        Some(Sign::Is)
    } else if word == "true" {
        Some(Sign::True)
    } else if word == "false" {
        Some(Sign::False)
    } else if word == "none" {
        Some(Sign::None)
    } else {
        None
    }
}

// A text between two quotes at the front, and what stands behind it.
fn quoted_in(text: &str) -> Option<(&str, &str)>
    ensures quoted { IfSome result (λ found. IsQuoted found.0.now text.now found.1.now) }
    ensures shorter { IfSome result (λ found. length found.1.now < length text.now) }
{
    if let Some(inner) = behind(text, "\"") {
        let (quoted, rest) = cut_at(inner, "\"")?;
        if are_plain(b'"', quoted.as_bytes()) {
            return Some((quoted, rest));
        }
        return None;
    }
    let (quoted, rest) = cut_at(behind(text, "'")?, "'")?;
    if are_plain(b'\'', quoted.as_bytes()) {
        Some((quoted, rest))
    } else {
        None
    }
}

// Whether none of the bytes is such a quote or a backslash.
fn are_plain(quote: u8, bytes: &[u8]) -> bool
    ensures { result ≡ list_all (is_plain quote) bytes.now }
{
    bytes.iter().all(|byte| *byte != quote && *byte != b'\\')
}

// A sign at the front that is no word, and what stands behind it.
fn sign_in(text: &str) -> Option<(Sign, &str)>
    ensures { IfSome result (λ found. IsSigned found.0 text.now found.1.now) }
{
    match long_sign_in(text) {
        Some(found) => Some(found),
        None => short_sign_in(text),
    }
}

// A sign of two bytes at the front, and what stands behind it.
fn long_sign_in(text: &str) -> Option<(Sign, &str)>
    ensures { IfSome result (λ found. IsSigned found.0 text.now found.1.now) }
{
    if let Some(rest) = behind(text, "==") {
        Some((Sign::Equal, rest))
    } else if let Some(rest) = behind(text, "!=") {
        Some((Sign::Unequal, rest))
    } else if let Some(rest) = behind(text, "<=") {
        Some((Sign::AtMost, rest))
    } else if let Some(rest) = behind(text, ">=") {
        Some((Sign::AtLeast, rest))
    } else if let Some(rest) = behind(text, "//") {
        Some((Sign::Floor, rest))
    } else if let Some(rest) = behind(text, "**") {
        Some((Sign::Power, rest))
    } else {
        None
    }
}

// A sign of one byte at the front, and what stands behind it.
fn short_sign_in(text: &str) -> Option<(Sign, &str)>
    ensures { IfSome result (λ found. IsSigned found.0 text.now found.1.now) }
{
    if let Some(rest) = behind(text, "(") {
        Some((Sign::Open, rest))
    } else if let Some(rest) = behind(text, ")") {
        Some((Sign::Close, rest))
    } else if let Some(rest) = behind(text, "<") {
        Some((Sign::Less, rest))
    } else if let Some(rest) = behind(text, ">") {
        Some((Sign::More, rest))
    } else if let Some(rest) = behind(text, "+") {
        Some((Sign::Plus, rest))
    } else if let Some(rest) = behind(text, "-") {
        Some((Sign::Minus, rest))
    } else if let Some(rest) = behind(text, "*") {
        Some((Sign::Times, rest))
    } else if let Some(rest) = behind(text, "%") {
        Some((Sign::Remainder, rest))
    } else if let Some(rest) = behind(text, "|") {
        Some((Sign::Bar, rest))
    } else if let Some(rest) = behind(text, ",") {
        Some((Sign::Comma, rest))
    } else if let Some(rest) = behind(text, "=") {
        Some((Sign::Gives, rest))
    } else {
        None
    }
}
