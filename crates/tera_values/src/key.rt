//! The keys of maps: truth values, numbers and texts. Keys of one meaning are one key, whatever
//! kind of integer or of text holds them.
ghost use Rattle.std.specs.Prelude.{◌≡◌, pos, [], Some, None, IfSome, IfOk, IfErr, IsOk, OnOk};
ghost use Rattle.std.specs.Prelude.{OnErr, MatchOption, fold};
ghost use Rattle.std.specs.Cmp.{on_total, on_equiv, on_per, on_po, partial_equiv_from_equiv};
ghost use Rattle.std.specs.Io.KnownBytes.{Appends};
ghost use Rattle.std.specs.Option.{option_map};
ghost use Rattle.std.specs.Ordering.{on, eq_by_cmp, as_partial_cmp};
ghost use Rattle.std.specs.Rc.{rc_str_bytes};
ghost use Rattle.std.proofs.Common.{ap, refl};
ghost use Rattle.tera_meaning.proofs.KeyLaws.{key_total, key_equivalence, key_partial, key_is};
ghost use Rattle.tera_meaning.specs.KeyMeaning.{truth_key, number_key, text_key, owned};
ghost use Rattle.tera_meaning.specs.KeyMeaning.{key_order, key_rank};
ghost use Rattle.tera_report.specs.Errors.{IsOutOfMemory};
ghost use Rattle.tera_report.specs.Sink.{PutsThese};
ghost use Rattle.tera_report.specs.Writer.{Passes, Breaks};
ghost use Rattle.tera_values.specs.Key.{key_form, meaning_of_key, text_in_key};
ghost use Rattle.tera_values.specs.Key.{owned_in_key, number_in_key, key_value, shown_key};
ghost use Rattle.tera_values.specs.Key.{fed_number, fed, FitsInline};
ghost use Rattle.tera_scalars.specs.Whole.{whole_value};

use crate::key_text::is_text_key;
use crate::print::truth_text;
use crate::{Value, ranks};
use arrayvec::ArrayString;
use std::alloc::{AllocError, Global};
use std::cmp::Ordering;
use std::hash::{Hash, Hasher};
use std::rc::RcStr;
use std::{fmt, io};
use tera_report::TeraResult;
use tera_report::sink::Sink;
use tera_report::watch::{Watched, Writer};
use tera_scalars::{Whole, put_integer};

/// How many bytes a text that a key holds in place has at most.
pub(crate) const INLINE: usize = 16;

/// The key of a pair of a map. Mirrors `tera::value::Key`, which has no `Inline`.
#[derive(Drop)]
#[non_exhaustive]
pub enum Key<'a> {
    /// A truth value.
    Bool(bool),
    /// A number of 64 bits without a sign.
    U64(u64),
    /// A number of 64 bits with a sign.
    I64(i64),
    /// A number of 128 bits without a sign.
    U128(u128),
    /// A number of 128 bits with a sign.
    I128(i128),
    /// A text that the key owns.
    String(RcStr),
    /// A text that is lent.
    Str(&'a str),
    /// A text of at most 16 bytes that the key owns, held in the key itself.
    Inline(ArrayString<INLINE>),
}

impl<'a> Key<'a> {
    /// The text that it is, lent; `None` of a truth value and of a number. Mirrors `Key::as_str`.
    /// Takes no memory.
    pub fn as_str(&self) -> Option<&str>
        ensures { MatchOption result (text_in_key (key_form self.now) ≡ None)
            (λ t. text_in_key (key_form self.now) ≡ Some t.now) }
    {
        match self {
            Key::String(text) => Some(text.as_str()),
            Key::Str(text) => Some(*text),
            Key::Inline(text) => Some(text.as_str()),
            _ => None,
        }
    }

    /// The value that it is: a number of the same kind, a text that is not marked safe. Mirrors
    /// `Key::as_value`.
    ///
    /// Takes memory for a text, unless it is empty; the only refusal is want of it, `Out of
    /// memory`.
    pub fn as_value(&self, alloc: Global) -> TeraResult<Value>
        ensures ok { IfOk result (λ v. v ≡ key_value (key_form self.now)) }
        ensures err { IfErr result IsOutOfMemory }
        ensures succeeds { IfSome (text_in_key (key_form self.now)) (λ t. t ≡ []) → IsOk result }
    {
        match self {
            Key::Bool(b) => Ok(Value::from(*b)),
            Key::U64(n) => Ok(Value::from(*n)),
            Key::I64(z) => Ok(Value::from(*z)),
            Key::U128(n) => Ok(Value::from(*n)),
            Key::I128(z) => Ok(Value::from(*z)),
            Key::String(text) => Value::normal_string(alloc, text.as_str()),
            Key::Str(text) => Value::normal_string(alloc, *text),
            Key::Inline(text) => Value::normal_string(alloc, text.as_str()),
        }
    }

    /// A key of the same form: the kind of an integer is kept, a text that is lent stays lent, and
    /// one that is owned stays owned. Mirrors `Clone` of `tera::value::Key`.
    ///
    /// Takes no memory but for a text of more than 16 bytes that it owns; the only refusal is want
    /// of it, `Out of memory`. No clause says that a `Key::String` shares its text, and so takes
    /// memory only where its count of owners is full.
    pub fn clone(&self, alloc: Global) -> TeraResult<Key<'a>>
        ensures ok { IfOk result (λ k. key_form k ≡ key_form self.now) }
        ensures err { IfErr result IsOutOfMemory }
        ensures succeeds { IfSome (owned_in_key (key_form self.now)) FitsInline → IsOk result }
    {
        Ok(self.copy(alloc)?)
    }

    /// A clone, with an error that says nothing: so what is answered is small.
    pub(crate) fn copy(&self, alloc: Global) -> Result<Key<'a>, AllocError>
        ensures ok { IfOk result (λ k. key_form k ≡ key_form self.now) }
        ensures succeeds { IfSome (owned_in_key (key_form self.now)) FitsInline → IsOk result }
    {
        match self {
            Key::Bool(b) => Ok(Key::Bool(*b)),
            Key::U64(n) => Ok(Key::U64(*n)),
            Key::I64(z) => Ok(Key::I64(*z)),
            Key::U128(n) => Ok(Key::U128(*n)),
            Key::I128(z) => Ok(Key::I128(*z)),
            Key::String(text) => shared(alloc, text),
            Key::Str(text) => Ok(Key::Str(*text)),
            Key::Inline(text) => Ok(Key::Inline(*text)),
        }
    }

    /// Writes what it prints: `true` or `false`, a number in decimal, a text as it is. It does not
    /// flush. Mirrors `Key::format`, which is private there.
    ///
    /// Answers an error only where, during the call, a write of the writer answered an error or
    /// took no byte; then a beginning may be written. Takes no memory.
    pub fn format<W: Writer>(&self, out: &mut W) -> io::Result<()>
        ensures written { OnOk result
            (Appends (W.contents out.old) (W.contents out.new)
            (shown_key (meaning_of_key self.now))) }
        ensures passed { OnOk result
            (Passes W.wrote out.old (shown_key (meaning_of_key self.now)) out.new) }
        ensures told { OnErr result
            (Breaks W.wrote out.old (shown_key (meaning_of_key self.now)) out.new) }
    {
        self.print_to(&mut Watched::new(out))
    }

    /// Puts what it prints into any sink. Answers an error only where the sink refused it. The
    /// project's own.
    ///
    /// Takes no memory of its own.
    pub fn print_to<S: Sink>(&self, out: &mut S) -> Result<(), S::Fault>
        ensures { PutsThese S.takes S.fails result
            (shown_key (meaning_of_key self.now)) out.old out.new }
    {
        match self {
            Key::Bool(b) => out.put(truth_text(*b)),
            Key::U64(n) => put_integer(*n, out),
            Key::I64(z) => put_integer(*z, out),
            Key::U128(n) => put_integer(*n, out),
            Key::I128(z) => put_integer(*z, out),
            Key::String(text) => out.put(text.as_str()),
            Key::Str(text) => out.put(*text),
            Key::Inline(text) => out.put(text.as_str()),
        }
    }

    // The number that it is.
    fn whole(&self) -> Option<Whole>
        ensures { option_map whole_value result ≡ number_in_key (key_form self.now) }
    {
        match self {
            Key::U64(n) => Some(Whole::Unsigned(u128::from(*n))),
            Key::I64(z) => Some(Whole::Signed(i128::from(*z))),
            Key::U128(n) => Some(Whole::Unsigned(*n)),
            Key::I128(z) => Some(Whole::Signed(*z)),
            _ => None,
        }
    }

    // Its rank in the order of keys.
    fn rank(&self) -> u8
        ensures { result ≡ key_rank (meaning_of_key self.now) }
    {
        match self {
            Key::Bool(_) => ranks::TRUTH,
            Key::U64(_) => ranks::NUMBER,
            Key::I64(_) => ranks::NUMBER,
            Key::U128(_) => ranks::NUMBER,
            Key::I128(_) => ranks::NUMBER,
            Key::String(_) => ranks::TEXT,
            Key::Str(_) => ranks::TEXT,
            Key::Inline(_) => ranks::TEXT,
        }
    }
}

// A key that shares the text, which never changes. Where the count of its owners is full, a key
// that owns a copy.
fn shared(alloc: Global, text: &RcStr) -> Result<Key<'static>, AllocError>
    ensures ok { IfOk result (λ k. key_form k ≡ text_key (owned (rc_str_bytes text.now))) }
    ensures succeeds { FitsInline (rc_str_bytes text.now) → IsOk result }
{
    match text.clone() {
        Ok(same) => Ok(Key::String(same)),
        Err(_) => Key::of_text(alloc, text.as_str()),
    }
}

/// Two keys are equal exactly where their meanings are: numbers by number, texts by text, whatever
/// holds them. Mirrors `PartialEq` of `tera::value::Key`. Takes no memory.
impl PartialEq for Key<'_> {
    ghost eq = { on meaning_of_key (eq_by_cmp key_order) };

    ghost laws = { on_per meaning_of_key (partial_equiv_from_equiv key_equivalence) };

    fn eq(&self, other: &Self) -> bool {
        match self {
            Key::String(text) => is_text_key(text.as_str(), other),
            Key::Str(text) => is_text_key(*text, other),
            Key::Inline(text) => is_text_key(text.as_str(), other),
            _ => self.cmp(other) == Ordering::Equal,
        }
    }
}

impl Eq for Key<'_> {
    ghost laws = { on_equiv meaning_of_key key_equivalence };
}

/// The total order, so always an answer. Mirrors `PartialOrd` of `tera::value::Key`. Takes no
/// memory.
impl PartialOrd for Key<'_> {
    ghost partial_cmp = { as_partial_cmp (on meaning_of_key key_order) };

    ghost laws = { on_po meaning_of_key key_partial };

    fn partial_cmp(&self, other: &Self) -> Option<Ordering> {
        Some(self.cmp(other))
    }
}

/// Truth values, then numbers, then texts; `false` before `true`, numbers by number, texts by their
/// bytes. Mirrors `Ord` of `tera::value::Key`. Takes no memory.
impl Ord for Key<'_> {
    ghost cmp = { on meaning_of_key key_order };

    ghost total = { on_total meaning_of_key key_total };

    ghost matches_partial_cmp = { λ k l. refl };

    ghost matches_eq = { λ k l. refl };

    fn cmp(&self, other: &Self) -> Ordering {
        match self {
            Key::Bool(b) => truth_order(*b, other),
            Key::U64(n) => number_order(Whole::Unsigned(u128::from(*n)), other),
            Key::I64(z) => number_order(Whole::Signed(i128::from(*z)), other),
            Key::U128(n) => number_order(Whole::Unsigned(*n), other),
            Key::I128(z) => number_order(Whole::Signed(*z), other),
            Key::String(text) => text_order(text.as_str(), other),
            Key::Str(text) => text_order(*text, other),
            Key::Inline(text) => text_order(text.as_str(), other),
        }
    }
}

// The order of a truth value and a key.
fn truth_order(b: bool, other: &Key<'_>) -> Ordering
    ensures { result ≡ key_order (truth_key b) (meaning_of_key other.now) }
{
    match other {
        Key::Bool(c) => b.cmp(c),
        _ => ranks::TRUTH.cmp(&other.rank()),
    }
}

// The order of a number and a key.
fn number_order(n: Whole, other: &Key<'_>) -> Ordering
    ensures { result ≡ key_order (number_key (whole_value n)) (meaning_of_key other.now) }
{
    match other.whole() {
        Some(m) => n.order(m),
        None => ranks::NUMBER.cmp(&other.rank()),
    }
}

// The order of a text and a key.
fn text_order(left: &str, other: &Key<'_>) -> Ordering
    ensures { result ≡ key_order (text_key left.now) (meaning_of_key other.now) }
{
    match other.as_str() {
        Some(t) => left.cmp(t),
        None => ranks::TEXT.cmp(&other.rank()),
    }
}

/// What a hasher is fed goes by the meaning alone. A text feeds what `str` feeds, and a truth value
/// what `bool` feeds. A negative number feeds the `u8` 1 and then an `i128`, every other number the
/// `u8` 0 and then a `u128`. Mirrors `Hash` of `tera::value::Key`. Takes no memory.
impl Hash for Key<'_> {
    ghost hash_input = { λ k. fed (meaning_of_key k) };

    ghost respects_eq = { λ k l e. ap fed ((key_is (meaning_of_key k) (meaning_of_key l)).0 e) };

    fn hash<H: Hasher>(&self, state: &mut H) {
        match self {
            Key::Bool(b) => b.hash(state),
            Key::U64(n) => feed_natural(u128::from(*n), state),
            Key::I64(z) => feed_integer(i128::from(*z), state),
            Key::U128(n) => feed_natural(*n, state),
            Key::I128(z) => feed_integer(*z, state),
            Key::String(text) => text.as_str().hash(state),
            Key::Str(text) => text.hash(state),
            Key::Inline(text) => text.as_str().hash(state),
        }
    }
}

// Feeds a number without a sign.
fn feed_natural<H: Hasher>(n: u128, state: &mut H)
    ensures { state.new ≡ fold H.write state.old (fed_number (pos n)) }
{
    0u8.hash(state);
    n.hash(state);
}

// Feeds a number with a sign.
fn feed_integer<H: Hasher>(z: i128, state: &mut H)
    ensures { state.new ≡ fold H.write state.old (fed_number z) }
{
    if z < 0 {
        1u8.hash(state);
        z.hash(state);
    } else {
        feed_natural(z as u128, state);
    }
}

/// As std shows an enum, but that a `Key::Inline` is shown as a `Key::String` is.
impl fmt::Debug for Key<'_> {
    fn fmt<W: fmt::Write>(&self, f: &mut fmt::Formatter<W>) -> fmt::Result {
        match self {
            Key::Bool(b) => show_variant("Bool", b, f),
            Key::U64(n) => show_variant("U64", n, f),
            Key::I64(z) => show_variant("I64", z, f),
            Key::U128(n) => show_variant("U128", n, f),
            Key::I128(z) => show_variant("I128", z, f),
            Key::String(text) => show_variant("String", text, f),
            Key::Str(text) => show_variant("Str", text, f),
            Key::Inline(text) => show_variant("String", text, f),
        }
    }
}

// Shows a variant that holds one value.
fn show_variant<T: fmt::Debug, W: fmt::Write>(
    name: &str,
    held: &T,
    f: &mut fmt::Formatter<W>,
) -> fmt::Result {
    f.debug_tuple(name).field(held).finish()
}

/// What `format` writes. A width or a fill of the format changes nothing. Mirrors `Display` of
/// `tera::value::Key`. Takes no memory.
impl fmt::Display for Key<'_> {
    ghost output = { λ k. Some (shown_key (meaning_of_key k)) };

    ghost styled_output = { λ k _. Some (shown_key (meaning_of_key k)) };

    fn fmt<W: fmt::Write>(&self, f: &mut fmt::Formatter<W>) -> fmt::Result {
        self.print_to(f)
    }
}
