//! Blanks, names and operands: the parts of a line that stand one behind another.
ghost use Rattle.std.specs.Prelude.{◌≡◌, ℕ, List, IfSome};
ghost use Rattle.std.specs.Bool.{MatchBool};
ghost use Rattle.std.specs.List.{list_all};
ghost use Rattle.std.specs.Option.{option_map};
ghost use Rattle.tera_script.specs.Word.{is_blank, is_name_start, is_name_byte, IsName};
ghost use Rattle.tera_script.specs.Readers.{front, past, gap_at, name_at, operand_at, named_rest};
ghost use Rattle.tera_script.specs.Readers.{is_word_byte, is_of, Stops};

use crate::name::name_in;

fn is_blank(byte: u8) -> bool
    ensures { result ≡ is_blank byte }
{
    byte == b' ' || byte == b'\t'
}

fn is_name_start(byte: u8) -> bool
    ensures { result ≡ is_name_start byte }
{
    byte.is_ascii_alphabetic() || byte == b'_'
}

fn is_name_byte(byte: u8) -> bool
    ensures { result ≡ is_name_byte byte }
{
    byte.is_ascii_alphanumeric() || byte == b'_'
}

fn is_word_byte(byte: u8) -> bool
    ensures { result ≡ is_word_byte byte }
{
    is_name_byte(byte) || byte == b'-'
}

/// Whether a literal without quotes ends before these bytes.
pub(crate) fn ends_word(bytes: &[u8]) -> bool
    ensures { MatchBool result (Stops is_word_byte bytes.now) (¬ Stops is_word_byte bytes.now) }
{
    match bytes {
        [byte, ..] => !is_word_byte(*byte),
        [] => true,
    }
}

// Which bytes a part of a line is made of.
#[derive(Clone, Copy)]
pub(crate) enum Class {
    Blank,
    // What can stand in a name.
    Name,
    // What can stand in a literal without quotes.
    Word,
}

// Whether a byte is of that class.
#[inline(always)]
fn is_of(class: Class, byte: u8) -> bool
    ensures { result ≡ is_of class byte }
{
    match class {
        Class::Blank => is_blank(byte),
        Class::Name => is_name_byte(byte),
        Class::Word => is_word_byte(byte),
    }
}

// The bytes behind those of that class at the front.
#[inline(always)]
fn past(class: Class, bytes: &[u8]) -> &[u8]
    ensures { result.now ≡ past (is_of class) bytes.now }
{
    let mut rest = bytes;
    while let [byte, others @ ..] = rest
        && is_of(class, *byte)
    {
        rest = others;
    }
    rest
}

/// The bytes behind the blanks at the front.
pub(crate) fn past_blanks(bytes: &[u8]) -> &[u8]
    ensures { result.now ≡ past is_blank bytes.now }
{
    past(Class::Blank, bytes)
}

// The bytes behind those at the front that can stand in a name.
fn past_name(bytes: &[u8]) -> &[u8]
    ensures { result.now ≡ past is_name_byte bytes.now }
{
    past(Class::Name, bytes)
}

// The bytes behind those at the front that can stand in a literal without quotes.
fn past_word(bytes: &[u8]) -> &[u8]
    ensures { result.now ≡ past is_word_byte bytes.now }
{
    past(Class::Word, bytes)
}

/// The bytes at the front that can stand in a literal without quotes, and those behind them.
#[tactic(auto, using(crate::proofs::Fronts::past_cut))]
pub(crate) fn split_word(bytes: &[u8]) -> (&[u8], &[u8])
    ensures { named_rest result ≡ (front is_word_byte bytes.now, past is_word_byte bytes.now) }
{
    let rest = past_word(bytes);
    (&bytes[..bytes.len() - rest.len()], rest)
}

// The bytes behind a gap, which is one blank or more.
#[tactic(auto, unfolding(crate::specs::Readers::gap_at))]
pub(crate) fn past_gap(bytes: &[u8]) -> Option<&[u8]>
    ensures { option_map (λ rest. rest.now) result ≡ gap_at bytes.now }
{
    match bytes {
        [byte, rest @ ..] if is_blank(*byte) => Some(past_blanks(rest)),
        _ => None,
    }
}

// The name at the front, and the bytes behind it.
#[tactic(auto, unfolding(crate::specs::Readers::name_at))]
pub(crate) fn take_name(bytes: &[u8]) -> Option<(&[u8], &[u8])>
    ensures { option_map named_rest result ≡ name_at bytes.now }
{
    let (first, others) = bytes.split_first()?;
    if !is_name_start(*first) {
        return None;
    }
    let rest = past_name(others);
    Some(bytes.split_at(bytes.len() - rest.len()))
}

// The name behind a gap, and the bytes behind that name.
#[tactic(auto, unfolding(crate::specs::Readers::operand_at))]
pub(crate) fn take_operand(bytes: &[u8]) -> Option<(&str, &[u8])>
    ensures operand { option_map named_rest result ≡ operand_at bytes.now }
    ensures named { IfSome result (λ found. IsName found.0.now) }
{
    let (name, rest) = take_name(past_gap(bytes)?)?;
    Some((name_in(name), rest))
}

// Whether each byte is a blank.
pub(crate) fn are_blanks(bytes: &[u8]) -> bool
    ensures { result ≡ list_all is_blank bytes.now }
{
    bytes.iter().all(|byte| is_blank(*byte))
}
