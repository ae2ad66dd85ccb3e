//! The one literal of each value, put into any sink.
ghost use Rattle.std.specs.Prelude.{◌≡◌, ◌≤◌, ◌<◌, ◌⊎◌, [], ◌∷◌, ◌++◌, codes, cond, nat_le, None};
ghost use Rattle.std.specs.Prelude.{MatchOption, IfOk, IfErr, string_bytes, Bool};
ghost use Rattle.std.specs.Char.{digit_char};
ghost use Rattle.tera_meaning.specs.Integer.{i64};
ghost use Rattle.tera_meaning.specs.Kind.{kind_in, number_kind};
ghost use Rattle.tera_meaning.specs.Printed.{printed_truth};
ghost use Rattle.tera_meaning.specs.Read.{number_in, text_in, items_in, members_in};
ghost use Rattle.tera_meaning.specs.Tree.{number, array, object, items, members, depth};
ghost use Rattle.tera_meaning.specs.Tree.{items_depth, members_depth};
ghost use Rattle.tera_report.specs.Errors.{IsOutOfMemory, Raises};
ghost use Rattle.tera_report.specs.Refusal.{message};
ghost use Rattle.tera_report.specs.Sink.{PutsThese};
ghost use Rattle.tera_script.specs.Line.{levels};
ghost use Rattle.tera_script.specs.Readers.{integer_held};
ghost use Rattle.tera_script.specs.Written.{literal_of, number_literal, bytes_literal, key_literal};
ghost use Rattle.tera_script.specs.Written.{items_literal, pairs_literal, too_deep, WritesLiteral};
ghost use Rattle.tera_values.specs.Key.{key_form};

use crate::literal::LEVELS;
use crate::number::Integer;
use crate::write_text::{put_marked, put_text};
use std::alloc::Global;
use tera_report::sink::{Growing, Sink};
use tera_report::{Error, TeraResult};
use tera_scalars::put_integer;
use tera_values::{Key, Map, Value, ValueKind, is_well_made};

/// Why a literal was not written.
#[derive(Debug, Drop)]
pub enum LiteralError<F: Drop> {
    /// Arrays and maps nest deeper than 64 levels, so the value has no literal.
    TooDeep,
    /// The sink refused a piece.
    Refused(F),
}

/// Puts the literal of a value, piece by piece. Where `ascii` is true it is ASCII. It holds no
/// control byte.
///
/// Answers `TooDeep` exactly where arrays and maps nest deeper than 64 levels, and then nothing is
/// put. Every other error is one of the sink, which refused a piece. Takes no memory of its own.
pub fn write_literal<S: Sink>(
    value: &Value,
    ascii: bool,
    out: &mut S,
) -> Result<(), LiteralError<S::Fault>>
    ensures { WritesLiteral S.takes S.fails value.now (literal_of ascii value.now)
        out.old result out.new }
{
    if !fits(value, LEVELS) {
        return Err(LiteralError::TooDeep);
    }
    match put_literal(value, ascii, out) {
        Ok(()) => Ok(()),
        Err(fault) => Err(LiteralError::Refused(fault)),
    }
}

/// The literal of a value as a text of its own. Where `ascii` is true it is ASCII.
///
/// Refuses a value whose arrays and maps nest deeper than 64 levels: `Values nested deeper than 64
/// levels have no literal`. Takes memory for the text; want of it is `Out of memory`.
pub fn literal_text(alloc: Global, value: &Value, ascii: bool) -> TeraResult<String>
    ensures ok { IfOk result (λ text. (depth value.now ≤ levels)
        × (string_bytes text ≡ literal_of ascii value.now)) }
    ensures err { IfErr result (λ error. ((depth value.now ≤ levels) × IsOutOfMemory error)
        ⊎ ((levels < depth value.now) × Raises (message too_deep) error)) }
{
    let mut made = Growing::new(alloc);
    match write_literal(value, ascii, &mut made) {
        Ok(()) => Ok(made.into_text()),
        Err(LiteralError::TooDeep) => Err(Error::message(alloc, TOO_DEEP)),
        Err(LiteralError::Refused(fault)) => Err(Error::from(fault)),
    }
}

const TOO_DEEP: &str = "Values nested deeper than 64 levels have no literal";

/// Whether arrays and maps nest at most so deep.
#[cycle(fits)]
pub(crate) fn fits(value: &Value, levels: usize) -> bool
    ensures { result ≡ nat_le (depth value.now) levels }
{
    if let Some(items) = value.as_array() {
        return levels > 0 && items_fit(items, levels - 1);
    }
    if let Some(pairs) = value.as_map() {
        return levels > 0 && pairs_fit(pairs, levels - 1);
    }
    true
}

// Whether each item nests at most so deep. This and `pairs_fit` are not copied into `fits`, so that
// a value that holds no others costs no registers that only they save.
#[cycle(fits)]
#[inline(never)]
fn items_fit(all: &[Value], levels: usize) -> bool
    ensures { result ≡ nat_le (items_depth (items all.now)) levels }
{
    for item in all {
        if !fits(item, levels) {
            return false;
        }
    }
    true
}

// Whether each value of the map nests at most so deep.
#[cycle(fits)]
#[inline(never)]
fn pairs_fit(map: &Map, levels: usize) -> bool
    ensures { result ≡ nat_le (members_depth (members map.now)) levels }
{
    for (_, value) in map.iter() {
        if !fits(value, levels) {
            return false;
        }
    }
    true
}

/// Puts the literal, however deep it is. Most values are numbers of 64 bits and texts: these are
/// told apart first.
#[cycle(write)]
#[inline(always)]
pub(crate) fn put_literal<S: Sink>(value: &Value, ascii: bool, out: &mut S) -> Result<(), S::Fault>
    ensures { PutsThese S.takes S.fails result (literal_of ascii value.now) out.old out.new }
{
    if let ValueKind::I64 = value.kind() {
        return put_signed(value, out);
    }
    match value.as_str() {
        Some(text) => put_marked(text, value.is_safe(), ascii, out),
        None => put_other(value, ascii, out),
    }
}

// Puts the literal of a value that is no text.
#[cycle(write)]
#[inline(never)]
fn put_other<S: Sink>(value: &Value, ascii: bool, out: &mut S) -> Result<(), S::Fault>
    requires no_text { text_in value.now ≡ None }
    ensures { PutsThese S.takes S.fails result (literal_of ascii value.now) out.old out.new }
{
    if let Some(items) = value.as_array() {
        return put_array(items, ascii, out);
    }
    if let Some(pairs) = value.as_map() {
        return put_map(pairs, ascii, out);
    }
    put_flat(value, out)
}

// Puts items between brackets. This and `put_map` are not copied into `put_other`, for the same
// cause.
#[cycle(write)]
#[inline(never)]
fn put_array<S: Sink>(all: &[Value], ascii: bool, out: &mut S) -> Result<(), S::Fault>
    ensures { PutsThese S.takes S.fails result (literal_of ascii (array (items all.now)))
        out.old out.new }
{
    out.put("[")?;
    put_items(all, ascii, out)?;
    out.put("]")
}

// Puts items joined by commas.
#[cycle(write)]
fn put_items<S: Sink>(all: &[Value], ascii: bool, out: &mut S) -> Result<(), S::Fault>
    ensures { PutsThese S.takes S.fails result (items_literal ascii (items all.now))
        out.old out.new }
{
    let Some((first, others)) = all.split_first() else {
        return Ok(());
    };
    put_literal(first, ascii, out)?;
    for item in others {
        out.put(", ")?;
        put_literal(item, ascii, out)?;
    }
    Ok(())
}

// Puts pairs between braces.
#[cycle(write)]
#[inline(never)]
fn put_map<S: Sink>(map: &Map, ascii: bool, out: &mut S) -> Result<(), S::Fault>
    ensures { PutsThese S.takes S.fails result (literal_of ascii (object (members map.now)))
        out.old out.new }
{
    out.put("{")?;
    put_pairs(map, ascii, out)?;
    out.put("}")
}

// Puts pairs joined by commas, one after another.
#[cycle(write)]
fn put_pairs<S: Sink>(map: &Map, ascii: bool, out: &mut S) -> Result<(), S::Fault>
    ensures { PutsThese S.takes S.fails result (pairs_literal ascii (members map.now))
        out.old out.new }
{
    let mut pairs = map.iter();
    let Some((first, value)) = pairs.next() else {
        return Ok(());
    };
    put_pair(first, value, ascii, out)?;
    for (key, value) in pairs {
        out.put(", ")?;
        put_pair(key, value, ascii, out)?;
    }
    Ok(())
}

// Puts a key, a colon and a value.
#[cycle(write)]
fn put_pair<S: Sink>(
    key: &Key<'static>,
    value: &Value,
    ascii: bool,
    out: &mut S,
) -> Result<(), S::Fault>
    ensures { PutsThese S.takes S.fails result
        (key_literal ascii (key_form key.now) ++ (codes ": " ++ literal_of ascii value.now))
        out.old out.new }
{
    put_key(key, ascii, out)?;
    out.put(": ")?;
    put_literal(value, ascii, out)
}

// Puts a key.
fn put_key<S: Sink>(key: &Key<'static>, ascii: bool, out: &mut S) -> Result<(), S::Fault>
    ensures { PutsThese S.takes S.fails result (key_literal ascii (key_form key.now))
        out.old out.new }
{
    match key {
        Key::Bool(b) => out.put(truth_text(*b)),
        Key::U64(n) => put_number(Integer::U64(*n), out),
        Key::I64(z) => put_number(Integer::I64(*z), out),
        Key::U128(n) => put_number(Integer::U128(*n), out),
        Key::I128(z) => put_number(Integer::I128(*z), out),
        Key::String(text) => put_text(text.as_str(), ascii, out),
        Key::Str(text) => put_text(text, ascii, out),
        Key::Inline(text) => put_text(text.as_str(), ascii, out),
        _ => unreachable!(),
    }
}

// Puts the literal of a value that is no text and holds no others.
fn put_flat<S: Sink>(value: &Value, out: &mut S) -> Result<(), S::Fault>
    requires no_text { text_in value.now ≡ None }
    requires no_array { items_in value.now ≡ None }
    requires no_map { members_in value.now ≡ None }
    ensures { (ascii : Bool) → PutsThese S.takes S.fails result (literal_of ascii value.now)
        out.old out.new }
{
    if let Some(number) = number_of(value) {
        return put_number(number, out);
    }
    if let Some(held) = value.as_bytes() {
        return put_bytes(held, out);
    }
    if let Some(b) = value.as_bool() {
        return out.put(truth_text(b));
    }
    if value.is_none() {
        return out.put("none");
    }
    out.put("undefined")
}

// Puts a number of 64 bits with a sign, which has no suffix, as it prints. It is one of these, and
// `as_i64` answers it.
#[inline(always)]
fn put_signed<S: Sink>(value: &Value, out: &mut S) -> Result<(), S::Fault>
    requires { kind_in value.now ≡ number_kind i64 }
    ensures { (ascii : Bool) → PutsThese S.takes S.fails result (literal_of ascii value.now)
        out.old out.new }
{
    match value.as_i64() {
        Some(z) => put_integer(z, out),
        None => value.print_to(out),
    }
}

// The word for a truth value.
fn truth_text(b: bool) -> &'static str
    ensures { result.now ≡ printed_truth b }
{
    if b { "true" } else { "false" }
}

// The number that a value is, in its kind.
fn number_of(value: &Value) -> Option<Integer>
    ensures { MatchOption result (number_in value.now ≡ None)
        (λ n. value.now ≡ number (integer_held n)) }
{
    is_well_made(value);
    match value.kind() {
        ValueKind::U64 => Some(Integer::U64(value.as_u64()?)),
        ValueKind::I64 => Some(Integer::I64(value.as_i64()?)),
        ValueKind::U128 => Some(Integer::U128(value.as_u128()?)),
        ValueKind::I128 => Some(Integer::I128(value.as_i128()?)),
        _ => None,
    }
}

// Puts a number, and its kind where it would be read in another.
fn put_number<S: Sink>(number: Integer, out: &mut S) -> Result<(), S::Fault>
    ensures { PutsThese S.takes S.fails result (number_literal (integer_held number))
        out.old out.new }
{
    match number {
        Integer::I64(z) => put_integer(z, out),
        Integer::U64(n) => {
            put_integer(n, out)?;
            put_suffix("u64", i64::try_from(n).is_err(), out)
        }
        Integer::I128(z) => {
            put_integer(z, out)?;
            put_suffix(
                "i128",
                i64::try_from(z).is_err() && u64::try_from(z).is_err(),
                out,
            )
        }
        Integer::U128(n) => {
            put_integer(n, out)?;
            put_suffix("u128", i128::try_from(n).is_err(), out)
        }
    }
}

// Puts the name of a kind, but where it is that of the first kind that holds the number.
fn put_suffix<S: Sink>(kind: &str, first: bool, out: &mut S) -> Result<(), S::Fault>
    ensures { PutsThese S.takes S.fails result (cond first [] kind.now) out.old out.new }
{
    if first { Ok(()) } else { out.put(kind) }
}

// Puts bytes by their digits.
fn put_bytes<S: Sink>(held: &[u8], out: &mut S) -> Result<(), S::Fault>
    ensures { PutsThese S.takes S.fails result
        (codes "x\"" ++ (bytes_literal held.now ++ codes "\"")) out.old out.new }
{
    out.put("x\"")?;
    put_hex(held, out)?;
    out.put("\"")
}

// Puts two digits for each byte.
fn put_hex<S: Sink>(held: &[u8], out: &mut S) -> Result<(), S::Fault>
    ensures { PutsThese S.takes S.fails result (bytes_literal held.now) out.old out.new }
{
    for byte in held {
        put_digit(*byte / 16, out)?;
        put_digit(*byte % 16, out)?;
    }
    Ok(())
}

// Puts a digit.
fn put_digit<S: Sink>(digit: u8, out: &mut S) -> Result<(), S::Fault>
    requires { digit < 16 }
    ensures { PutsThese S.takes S.fails result (digit_char digit ∷ []) out.old out.new }
{
    let glyph = if digit < 10 {
        b'0' + digit
    } else {
        b'a' + (digit - 10)
    };
    let mut buffer = [0; 4];
    out.put(char::from(glyph).encode_utf8(&mut buffer))
}
