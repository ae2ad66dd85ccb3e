//! The values that a template's names stand for.
ghost use Rattle.std.specs.Prelude.{◌≡◌, ◌⊎◌, ◌↔◌, ◌+◌, ◌<◌, ◌≤◌, IfOk, IfErr, IsOk, IsTrue};
ghost use Rattle.std.specs.Prelude.{if◌then◌else◌, MatchOption, None, Some, OnOk, OnErr};
ghost use Rattle.std.specs.FinMap.{empty, entries, get, contains_key, insert, remove};
ghost use Rattle.std.specs.String.{string_bytes};
ghost use Rattle.tera_meaning.specs.Alike.{MeanTheSame};
ghost use Rattle.tera_meaning.specs.Form.{Form};
ghost use Rattle.tera_meaning.specs.Read.{marked_safe};
ghost use Rattle.tera_meaning.specs.State.{State, extended, IsProperBeginning, states_equal};
ghost use Rattle.tera_meaning.specs.Step.{marking, ExtendTakes};
ghost use Rattle.tera_meaning.specs.WellMade.{IsWellMadeState};
ghost use Rattle.tera_report.specs.Errors.{IsOutOfMemory};
ghost use Rattle.indexmap.specs.IndexMap.{spare};
ghost use Rattle.tera_context.specs.Context.{equal_laws, lent_entries, new_names, state_of};

use crate::by_name::by_name;
use crate::debug::ByName;
use indexmap::IndexMap;
use std::alloc::{AllocError, Global};
use std::marker::Model;
use std::{fmt, mem};
use tera_conversions::ToValue;
use tera_report::TeraResult;
use tera_values::{HashState, Value, is_well_made};

/// Finitely many names, and a value for each. Mirrors `tera::Context`.
pub struct Context {
    alloc: Global,
    values: Names,
}

// Names with their values, hashed under the state of their context.
pub(crate) type Names = IndexMap<String, Value, HashState>;

/// All that it holds ends with it. Where a context ends, this is called, and not written out there.
impl Drop for Context {
    fn drop(self) {
        let Context {
            alloc: _,
            values: _,
        } = self;
    }
}

impl Model for Context {
    ghost use Rattle.tera_meaning.specs.State.{State};
    ghost use Rattle.tera_meaning.specs.Stored.{coded_state};

    ghost Value = { State };

    ghost coded = { coded_state };

    ghost use Rattle.tera_context.specs.Context.{state_of};

    ghost view = { λ c. state_of c.values.entries };
}

/// Two contexts are equal where they hold the same names, and each means the same: the kinds of
/// integers and the safe flags do not count. Mirrors `PartialEq` of `tera::Context`. Takes no
/// memory.
impl PartialEq for Context {
    ghost eq = { states_equal };

    ghost laws = { equal_laws };

    fn eq(&self, other: &Context) -> bool
        ensures value { result ≡ states_equal self.now other.now }
        ensures meaning { IsTrue result ↔ MeanTheSame self.now other.now }
    {
        self.values == other.values
    }
}

/// As a struct shows itself whose names stand in the order of their bytes.
impl fmt::Debug for Context {
    fn fmt<W: fmt::Write>(&self, f: &mut fmt::Formatter<W>) -> fmt::Result {
        f.debug_struct("Context")
            .field("alloc", &self.alloc)
            .field("values", &ByName(&self.values))
            .finish()
    }
}

impl Context {
    /// No names at all, hashed under the fixed state. Mirrors `Context::new`. Takes no memory; what
    /// is kept later takes it from the allocator.
    pub fn new(alloc: Global) -> Context
        ensures { result ≡ empty }
    {
        Context::with_hasher(alloc, HashState::fixed())
    }

    /// No names at all, hashed under a state: no one who does not know it can make names whose
    /// look-ups take long. Takes no memory; what is kept later takes it from the allocator.
    pub fn with_hasher(alloc: Global, state: HashState) -> Context
        ensures { result ≡ empty }
    {
        Context {
            alloc,
            values: IndexMap::with_hasher(alloc, state),
        }
    }

    /// The state that its names are hashed under; a clone has the same. Takes no memory.
    pub fn hasher(&self) -> HashState {
        *self.values.hasher()
    }

    /// Keeps what the source gives under the name, in the place of what was there. Mirrors
    /// `Context::insert`.
    ///
    /// The error is that of the source, or `Out of memory` once the source gave a value for a name
    /// that isn't there; then nothing has changed. Takes memory.
    pub fn insert<T: ToValue>(&mut self, name: &str, source: T) -> TeraResult<()>
        ensures ok { OnOk result ((value : Form) × T.gives source value
            × (self.new ≡ insert self.old name.now value)) }
        ensures err { IfErr result (λ e. T.refuses source e
            ⊎ (IsOutOfMemory e × (get self.old name.now ≡ None)
            × (value : Form) × T.gives source value)) }
        ensures unchanged { OnErr result (self.new ≡ self.old) }
    {
        let value = source.to_value(self.alloc)?;
        self.insert_value(name, value)
    }

    /// Keeps the value under the name, in the place of what was there. Mirrors
    /// `Context::insert_value`.
    ///
    /// The only error is `Out of memory`, and then nothing has changed. Takes memory, but for a
    /// name that is there.
    pub fn insert_value(&mut self, name: &str, value: Value) -> TeraResult<()>
        ensures ok { OnOk result (self.new ≡ insert self.old name.now value) }
        ensures err { IfErr result IsOutOfMemory }
        ensures unchanged { OnErr result (self.new ≡ self.old) }
        ensures absent { OnErr result (get self.old name.now ≡ None) }
    {
        Ok(self.put_value(name, value)?)
    }

    /// Takes over each name of the source with its value, in the place of what was there. Mirrors
    /// `Context::extend`. The source is consumed.
    ///
    /// The only error is `Out of memory`, and then nothing has changed. Takes memory, but does
    /// without for a source whose names are all there.
    pub fn extend(&mut self, source: Context) -> TeraResult<()>
        ensures ok { OnOk result (self.new ≡ extended self.old source) }
        ensures err { IfErr result IsOutOfMemory }
        ensures part { OnErr result ((part : State) × IsProperBeginning part source
            × (self.new ≡ extended self.old part)) }
        ensures unchanged { OnErr result (self.new ≡ self.old) }
        ensures absent { OnErr result (ExtendTakes self.old source) }
        ensures nothing { source ≡ empty → IsOk result }
    {
        let Context {
            alloc: _,
            values: taken,
        } = source;
        Ok(take_over(&mut self.values, taken)?)
    }

    /// A copy, with the kinds of integers and the safe flags. Mirrors `Clone` of `tera::Context`.
    ///
    /// The only error is `Out of memory`. Takes memory, but where no name is held.
    pub fn clone(&self) -> TeraResult<Context>
        ensures ok { IfOk result (λ copy. copy ≡ self.now) }
        ensures err { IfErr result IsOutOfMemory }
        ensures nothing { self.now ≡ empty → IsOk result }
    {
        let len = self.values.len();
        let mut values = IndexMap::with_capacity_and_hasher(self.alloc, len, self.hasher())?;
        fill(&mut values, &self.values, self.alloc)?;
        Ok(Context {
            alloc: self.alloc,
            values,
        })
    }

    /// The value of a name, lent. Mirrors `Context::get`. Takes no memory.
    pub fn get(&self, name: &str) -> Option<&Value>
        ensures { MatchOption result
            (get self.now name.now ≡ None) (λ v. get self.now name.now ≡ Some v.now) }
    {
        self.values.get(name)
    }

    /// Whether the name is there. Mirrors `Context::contains_key`. Takes no memory.
    pub fn contains_key(&self, name: &str) -> bool
        ensures { result ≡ contains_key self.now name.now }
    {
        self.values.contains_key(name)
    }

    /// The names with their values, lent, in the order of the bytes of the names.
    ///
    /// The only error is `Out of memory`. Takes memory, but where no name is held.
    pub fn entries(&self) -> TeraResult<Vec<(&str, &Value)>>
        ensures ok { IfOk result (λ all. lent_entries all.items ≡ entries self.now) }
        ensures err { IfErr result IsOutOfMemory }
        ensures nothing { self.now ≡ empty → IsOk result }
    {
        Ok(by_name(self.alloc, &self.values)?)
    }

    /// Takes the name away, and answers the value that it had. Mirrors `Context::remove`. Takes no
    /// memory.
    pub fn remove(&mut self, name: &str) -> Option<Value>
        ensures result { result ≡ get self.old name.now }
        ensures state { self.new ≡ remove self.old name.now }
    {
        self.values.swap_remove(name)
    }

    /// Each name that a context holds spells characters in UTF-8, and each value is well made. It
    /// only walks over the values, for the sake of the clause. Takes no memory.
    pub fn is_well_made(&self)
        ensures { IsWellMadeState self.now }
    {
        for (_, value) in &self.values {
            is_well_made(value);
        }
    }

    /// Marks the value of the name safe where it is. A name that isn't there stays away. Takes no
    /// memory.
    pub(crate) fn mark_safe(&mut self, name: &str)
        ensures { self.new ≡ marking self.old name.now (get self.old name.now) }
    {
        if let Some(value) = self.values.get_mut(name) {
            mark(value);
        }
    }

    // Keeps the value under the name, in the place of what was there. Takes memory, but for a name
    // that is there.
    #[inline(always)]
    pub(crate) fn put_value(&mut self, name: &str, value: Value) -> Result<(), AllocError>
        ensures ok { OnOk result (self.new ≡ insert self.old name.now value) }
        ensures unchanged { OnErr result (self.new ≡ self.old) }
        ensures absent { OnErr result (get self.old name.now ≡ None) }
    {
        let Some(value) = self.replace(name, value) else {
            return Ok(());
        };
        let name = String::from_str(self.alloc, name)?;
        self.insert_owned(name, value)
    }

    // Puts the value in the place of what the name has. It comes back where the name isn't there.
    fn replace(&mut self, name: &str, value: Value) -> Option<Value>
        ensures { MatchOption result (self.new ≡ insert self.old name.now value)
            (λ back. (back ≡ value) × (self.new ≡ self.old) × (get self.old name.now ≡ None)) }
    {
        let Some(held) = self.values.get_mut(name) else {
            return Some(value);
        };
        drop(mem::replace(held, value));
        None
    }

    /// Keeps a value under a name that comes with its memory, in the place of what was there.
    ///
    /// Takes memory, but for a name that is there. Where memory is refused nothing has changed.
    /// Mirrors `Context::insert_value`, whose name is a text.
    pub fn insert_owned(&mut self, name: String, value: Value) -> Result<(), AllocError>
        ensures ok { OnOk result (self.new ≡ insert self.old (string_bytes name) value) }
        ensures unchanged { OnErr result (self.new ≡ self.old) }
        ensures absent { OnErr result (get self.old (string_bytes name) ≡ None) }
    {
        put(&mut self.values, name, value)
    }

    /// The allocator that new values take their memory from.
    pub(crate) fn allocator(&self) -> Global {
        self.alloc
    }
}

// Puts the value under the name, in the place of what was there. A name that is there takes no
// memory, nor does one that there is room for.
fn put(values: &mut Names, name: String, value: Value) -> Result<(), AllocError>
    ensures ok { OnOk result (state_of values.new.entries
        ≡ insert (state_of values.old.entries) (string_bytes name) value) }
    ensures unchanged { OnErr result
        (state_of values.new.entries ≡ state_of values.old.entries) }
    ensures absent { OnErr result
        (get (state_of values.old.entries) (string_bytes name) ≡ None) }
    ensures room { spare values.old ≤ spare values.new
        + (if contains_key (state_of values.old.entries) (string_bytes name) then 0 else 1) }
    ensures succeeds { 0 < spare values.old → IsOk result }
{
    let held = values.entry(name)?.or_insert(Value::undefined());
    drop(mem::replace(held, value));
    Ok(())
}

// Takes over each name with its value, in the place of what was there.
fn take_over(values: &mut Names, taken: Names) -> Result<(), AllocError>
    ensures ok { OnOk result (state_of values.new.entries
        ≡ extended (state_of values.old.entries) (state_of taken.entries)) }
    ensures unchanged { OnErr result
        (state_of values.new.entries ≡ state_of values.old.entries) }
    ensures absent { OnErr result
        (ExtendTakes (state_of values.old.entries) (state_of taken.entries)) }
    ensures nothing { state_of taken.entries ≡ empty → IsOk result }
{
    // Once there is room, no name wants memory.
    make_room(values, &taken)?;
    put_all(values, taken)
}

// Makes room for as many names as are taken, so that none of them is looked up twice. Where memory
// for these is refused, for those that are new.
fn make_room(values: &mut Names, taken: &Names) -> Result<(), AllocError>
    ensures entries { state_of values.new.entries ≡ state_of values.old.entries }
    ensures ok { OnOk result
        (new_names (state_of values.new.entries) taken.now.entries ≤ spare values.new) }
    ensures wanted { OnErr result
        (0 < new_names (state_of values.old.entries) taken.now.entries) }
{
    if values.reserve(taken.len()).is_ok() {
        return Ok(());
    }
    values.reserve(count_new(values, taken))
}

// How many of the names are new.
fn count_new(values: &Names, taken: &Names) -> usize
    ensures { result ≡ new_names (state_of values.now.entries) taken.now.entries }
{
    let mut count = 0;
    for (name, _) in taken {
        if !values.contains_key(name) {
            count += 1;
        }
    }
    count
}

// Puts each value under its name, in the place of what was there.
fn put_all(values: &mut Names, taken: Names) -> Result<(), AllocError>
    ensures ok { OnOk result (state_of values.new.entries
        ≡ extended (state_of values.old.entries) (state_of taken.entries)) }
    ensures succeeds { new_names (state_of values.old.entries) taken.entries ≤ spare values.old
        → IsOk result }
{
    for (name, value) in taken {
        put(values, name, value)?;
    }
    Ok(())
}

// Fills a map of no names with copies.
fn fill(values: &mut Names, from: &Names, alloc: Global) -> Result<(), AllocError>
    requires { state_of values.old.entries ≡ empty }
    ensures ok { OnOk result (state_of values.new.entries ≡ state_of from.now.entries) }
    ensures nothing { state_of from.now.entries ≡ empty → IsOk result }
{
    for (name, value) in from {
        put_copy(values, name, value, alloc)?;
    }
    Ok(())
}

// Puts a copy of the value under a copy of the name.
fn put_copy(
    values: &mut Names,
    name: &String,
    value: &Value,
    alloc: Global,
) -> Result<(), AllocError>
    ensures { OnOk result (state_of values.new.entries
        ≡ insert (state_of values.old.entries) (string_bytes name.now) value.now) }
{
    let value = value.copy(alloc)?;
    put(values, name.clone()?, value)
}

// Marks the value safe where it is.
fn mark(value: &mut Value)
    ensures { value.new ≡ marked_safe value.old }
{
    let held = mem::replace(value, Value::undefined());
    *value = held.mark_safe();
}
