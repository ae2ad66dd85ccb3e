//! What values print.
ghost use Rattle.std.specs.Prelude.{◌≡◌, IsTrue, IsOk, OnOk, OnErr, IfOk, IfErr};
ghost use Rattle.std.specs.String.{string_bytes};
ghost use Rattle.tera_meaning.specs.Meaning.{layout};
ghost use Rattle.tera_meaning.specs.Printed.{PrintsNothing, is_exact, printed, printed_truth};
ghost use Rattle.tera_meaning.specs.Quoted.{Prints, PrintsInside, PrintsKey};
ghost use Rattle.tera_meaning.specs.Tree.{array, items, members, object};
ghost use Rattle.tera_report.specs.Errors.{IsOutOfMemory};
ghost use Rattle.tera_report.specs.Room.{RoomTakes, RoomFails, IsDecided};
ghost use Rattle.tera_report.specs.Sink.{OfSome, Puts, PutsThese};
ghost use Rattle.tera_report.specs.Writer.{Passes, Breaks};
ghost use Rattle.tera_values.specs.Key.{key_form, meaning_of_key, shown_key};
ghost use Rattle.tera_values.specs.Print.{PrintsItems, WritesInside, WritesPrinted};
ghost use Rattle.tera_values.specs.Print.{printed_if_exact, PrintsPairs, PrintsPair};

use crate::stage::Stage;
use crate::value::ValueInner;
use crate::{Key, Map, Value};
use std::alloc::Global;
use std::{fmt, io};
use tera_report::TeraResult;
use tera_report::quote::put_quoted;
use tera_report::sink::{Full, Growing, Room, Sink};
use tera_report::watch::{Watched, Writer};
use tera_scalars::{put_integer, put_lossy};

impl Value {
    /// Writes the printed text. Undefined and none print nothing, and a text prints itself. Bytes
    /// print the text that they are, with U+FFFD for what is no character. An array prints its
    /// items between brackets, and a map its pairs between braces in their order; texts in arrays
    /// and maps are quoted. It does not flush. Mirrors `Value::format`, which is private there.
    ///
    /// Answers an error only where, during the call, a write of the writer answered an error or
    /// took no byte; then a beginning may be written. Takes no memory.
    pub fn format<W: Writer>(&self, out: &mut W) -> io::Result<()>
        ensures written { OnOk result
            (WritesPrinted (layout self.now) (W.contents out.old) (W.contents out.new)) }
        ensures passed { OnOk result
            (OfSome (Passes W.wrote) (Prints (layout self.now)) out.old out.new) }
        ensures told { OnErr result
            (OfSome (Breaks W.wrote) (Prints (layout self.now)) out.old out.new) }
    {
        self.print_to(&mut Watched::new(out))
    }

    /// Writes what is printed of the value inside an array or a map: a text in debug form, and
    /// every other value as `format` does. It does not flush.
    ///
    /// Answers an error only where, during the call, a write of the writer answered an error or
    /// took no byte; then a beginning may be written. Takes no memory.
    pub fn format_inside<W: Writer>(&self, out: &mut W) -> io::Result<()>
        ensures written { OnOk result
            (WritesInside (layout self.now) (W.contents out.old) (W.contents out.new)) }
        ensures passed { OnOk result
            (OfSome (Passes W.wrote) (PrintsInside (layout self.now)) out.old out.new) }
        ensures told { OnErr result
            (OfSome (Breaks W.wrote) (PrintsInside (layout self.now)) out.old out.new) }
    {
        self.print_inside_to(&mut Watched::new(out))
    }

    /// Puts the printed text, piece by piece. Answers an error only where the sink refused a piece.
    ///
    /// Takes no memory of its own.
    pub fn print_to<S: Sink>(&self, out: &mut S) -> Result<(), S::Fault>
        ensures { Puts S.takes S.fails result (Prints (layout self.now)) out.old out.new }
    {
        put_whole(self, out)
    }

    /// Puts what is printed of the value inside an array or a map, piece by piece. Answers an error
    /// only where the sink refused a piece.
    ///
    /// Takes no memory of its own.
    pub fn print_inside_to<S: Sink>(&self, out: &mut S) -> Result<(), S::Fault>
        ensures { Puts S.takes S.fails result (PrintsInside (layout self.now)) out.old out.new }
    {
        put_whole_inside(self, out)
    }

    /// Puts the printed text into a room, or a beginning of it behind what the room held. Of a
    /// value whose quoted texts are ASCII it puts the text exactly where it fits. Takes no memory.
    pub fn print_into_room(&self, room: &mut Room) -> Result<(), Full>
        ensures puts { Puts RoomTakes RoomFails result (Prints (layout self.now))
            room.old room.new }
        ensures decided { IsTrue (is_exact (layout self.now))
            → IsDecided result room.old (printed (layout self.now)) room.new }
    {
        self.print_to(room)
    }

    /// The printed text as a text of its own. Mirrors `to_string` of `tera::Value`.
    ///
    /// Takes memory for it; the only refusal is want of it, `Out of memory`. A value that prints
    /// nothing takes none.
    pub fn to_text(&self, alloc: Global) -> TeraResult<String>
        ensures ok { IfOk result (λ t. Prints (layout self.now) (string_bytes t)) }
        ensures err { IfErr result IsOutOfMemory }
        ensures free { PrintsNothing (layout self.now) → IsOk result }
    {
        let mut made = Growing::new(alloc);
        self.print_to(&mut made)?;
        Ok(made.into_text())
    }
}

/// The printed text. A width or a fill of the format changes nothing. Takes no memory.
impl fmt::Display for Value {
    ghost output = { λ v. printed_if_exact (layout v) };

    ghost styled_output = { λ v _. printed_if_exact (layout v) };

    fn fmt<W: fmt::Write>(&self, f: &mut fmt::Formatter<W>) -> fmt::Result {
        put_whole(self, f)
    }
}

// Puts the printed text. That of an array or a map is many short pieces, which are gathered. Texts
// and numbers are told apart from these in one go.
fn put_whole<S: Sink>(value: &Value, out: &mut S) -> Result<(), S::Fault>
    ensures { Puts S.takes S.fails result (Prints (layout value.now)) out.old out.new }
{
    match &value.inner {
        ValueInner::Array(_) => put_gathered(value, out),
        ValueInner::Map(_) => put_gathered(value, out),
        ValueInner::String(_, text) => put_bare(text.as_str(), out),
        _ => put_unquoted(value, out),
    }
}

// Puts what is printed inside an array or a map; that of an array or a map is gathered.
fn put_whole_inside<S: Sink>(value: &Value, out: &mut S) -> Result<(), S::Fault>
    ensures { Puts S.takes S.fails result (PrintsInside (layout value.now)) out.old out.new }
{
    match value.as_str() {
        Some(text) => put_quoted(text, out),
        None => put_whole(value, out),
    }
}

// Puts the printed text in pieces as long as a stage holds.
#[inline(never)]
fn put_gathered<S: Sink>(value: &Value, out: &mut S) -> Result<(), S::Fault>
    ensures { Puts S.takes S.fails result (Prints (layout value.now)) out.old out.new }
{
    let mut stage = Stage::new(out);
    put_value(value, &mut stage)?;
    stage.send()
}

// Puts the printed text.
#[cycle(print)]
pub(crate) fn put_value<S: Sink>(value: &Value, out: &mut S) -> Result<(), S::Fault>
    ensures { Puts S.takes S.fails result (Prints (layout value.now)) out.old out.new }
{
    match &value.inner {
        ValueInner::Undefined => Ok(()),
        ValueInner::None => Ok(()),
        ValueInner::Bool(b) => put_bare(truth_text(*b), out),
        ValueInner::U64(n) => put_integer(*n, out),
        ValueInner::I64(z) => put_integer(*z, out),
        ValueInner::U128(n) => put_integer(*n, out),
        ValueInner::I128(z) => put_integer(*z, out),
        ValueInner::String(_, text) => put_bare(text.as_str(), out),
        ValueInner::Array(items) => put_array(items.as_slice(), out),
        ValueInner::Bytes(bytes) => put_lossy(bytes.as_slice(), out),
        ValueInner::Map(all) => put_map(all, out),
    }
}

// Puts what a value prints inside an array or a map: a text is quoted there.
#[cycle(print)]
fn put_inside<S: Sink>(value: &Value, out: &mut S) -> Result<(), S::Fault>
    ensures { Puts S.takes S.fails result (PrintsInside (layout value.now)) out.old out.new }
{
    match value.as_str() {
        Some(text) => put_quoted(text, out),
        None => put_unquoted(value, out),
    }
}

// Puts the printed text. Most values that are no text are numbers of 64 bits: these are told apart
// once, and then put.
#[cycle(print)]
#[inline(always)]
fn put_unquoted<S: Sink>(value: &Value, out: &mut S) -> Result<(), S::Fault>
    ensures { Puts S.takes S.fails result (Prints (layout value.now)) out.old out.new }
{
    match &value.inner {
        ValueInner::U64(n) => put_integer(*n, out),
        ValueInner::I64(z) => put_integer(*z, out),
        _ => put_value(value, out),
    }
}

// Puts a text as it is. This, `put_array` and `put_map` are not copied into `put_value`, so that a
// number there costs no registers that only they save.
#[inline(never)]
fn put_bare<S: Sink>(text: &str, out: &mut S) -> Result<(), S::Fault>
    ensures { PutsThese S.takes S.fails result text.now out.old out.new }
{
    out.put(text)
}

// Puts items between brackets.
#[cycle(print)]
#[inline(never)]
fn put_array<S: Sink>(all: &[Value], out: &mut S) -> Result<(), S::Fault>
    ensures { Puts S.takes S.fails result
        (Prints (layout (array (items all.now)))) out.old out.new }
{
    out.put("[")?;
    put_items(all, out)?;
    out.put("]")
}

// Puts items joined by commas.
#[cycle(print)]
fn put_items<S: Sink>(items: &[Value], out: &mut S) -> Result<(), S::Fault>
    ensures { Puts S.takes S.fails result (PrintsItems items.now) out.old out.new }
{
    let Some((first, others)) = items.split_first() else {
        return Ok(());
    };
    put_inside(first, out)?;
    for item in others {
        out.put(", ")?;
        put_inside(item, out)?;
    }
    Ok(())
}

// Puts pairs between braces.
#[cycle(print)]
#[inline(never)]
fn put_map<S: Sink>(map: &Map, out: &mut S) -> Result<(), S::Fault>
    ensures { Puts S.takes S.fails result
        (Prints (layout (object (members map.now)))) out.old out.new }
{
    out.put("{")?;
    put_pairs(map, out)?;
    out.put("}")
}

// Puts pairs joined by commas, one after another.
#[cycle(print)]
fn put_pairs<S: Sink>(map: &Map, out: &mut S) -> Result<(), S::Fault>
    ensures { Puts S.takes S.fails result (PrintsPairs map.now) out.old out.new }
{
    let mut pairs = map.iter();
    let Some((first, value)) = pairs.next() else {
        return Ok(());
    };
    put_pair(first, value, out)?;
    for (key, value) in pairs {
        out.put(", ")?;
        put_pair(key, value, out)?;
    }
    Ok(())
}

// Puts a key and its value.
#[cycle(print)]
fn put_pair<S: Sink>(key: &Key<'static>, value: &Value, out: &mut S) -> Result<(), S::Fault>
    ensures { Puts S.takes S.fails result
        (PrintsPair (key_form key.now) value.now) out.old out.new }
{
    put_key(key, out)?;
    out.put(": ")?;
    put_inside(value, out)
}

// Puts a key as it stands in a map: a text in debug form.
fn put_key<S: Sink>(key: &Key<'static>, out: &mut S) -> Result<(), S::Fault>
    ensures { Puts S.takes S.fails result (PrintsKey (meaning_of_key key.now)) out.old out.new }
{
    match key.as_str() {
        Some(text) => put_quoted(text, out),
        None => put_other_key(key, out),
    }
}

// Puts a key that is no text. It is not copied into `put_key`: most keys are texts.
#[inline(never)]
fn put_other_key<S: Sink>(key: &Key<'static>, out: &mut S) -> Result<(), S::Fault>
    ensures { PutsThese S.takes S.fails result
        (shown_key (meaning_of_key key.now)) out.old out.new }
{
    key.print_to(out)
}

// The word for a truth value.
pub(crate) fn truth_text(b: bool) -> &'static str
    ensures { result.now ≡ printed_truth b }
{
    if b { "true" } else { "false" }
}
