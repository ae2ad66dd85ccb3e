//! A text as a filter or a function takes it, with its flag.
ghost use Rattle.std.specs.Prelude.{◌≡◌, Bool, ℕ, List, [], Ok, IfOk, IfErr, IsOk, MatchResult};
ghost use Rattle.std.specs.String.{string_bytes};
ghost use Rattle.tera_arguments.specs.Taken.{Denies, as_marked_text};
ghost use Rattle.tera_arguments.specs.Rendered.{Renders, RendersNot};
ghost use Rattle.tera_meaning.specs.Tree.{text};
ghost use Rattle.tera_report.specs.Errors.{IsOutOfMemory};
ghost use Rattle.tera_report.specs.declared.errors.Error.{Error};
ghost use Rattle.tera_values.specs.View.{marked};

use crate::ArgFromValue;
use std::alloc::Global;
use std::borrow::CowStr;
use std::marker::Model;
use tera_report::{Error, TeraResult};
use tera_values::Value;

/// A text with its flag, lent by a value. Mirrors `tera::StringInput`.
#[derive(Debug, Drop)]
pub struct StringInput<'a> {
    text: &'a str,
    safe: bool,
}

impl<'a> Model for StringInput<'a> {
    ghost use Rattle.tera_meaning.specs.Form.{MarkedText};
    ghost use Rattle.tera_meaning.specs.Stored.{coded_marked_text};

    ghost Value = { MarkedText };

    ghost coded = { coded_marked_text };

    ghost view = { λ s. record { spelled = s.text.now; safe = s.safe } };
}

impl<'a> StringInput<'a> {
    /// A copy of the text as a value, with its flag. Mirrors `StringInput::into_value`.
    ///
    /// Takes memory for the text, unless it is empty; the only refusal is want of it, `Out of
    /// memory`.
    pub fn into_value(self, alloc: Global) -> TeraResult<Value>
        ensures ok { IfOk result (λ v. v ≡ text self.entry) }
        ensures err { IfErr result IsOutOfMemory }
        ensures succeeds { self.entry.spelled ≡ [] → IsOk result }
    {
        if self.safe {
            Value::safe_string(alloc, self.text)
        } else {
            Value::normal_string(alloc, self.text)
        }
    }

    /// The text, lent. Mirrors `StringInput::as_str`. Takes no memory.
    pub fn as_str(&self) -> &'a str
        ensures { result.now ≡ self.now.spelled }
    {
        self.text
    }

    /// Whether it is marked safe. Mirrors `StringInput::is_safe`. Takes no memory.
    pub fn is_safe(&self) -> bool
        ensures { result ≡ self.now.safe }
    {
        self.safe
    }

    /// Another text with this flag. Mirrors `StringInput::inherit_safety`. Takes no memory.
    pub fn inherit_safety(&self, output: String) -> Value
        ensures { result ≡ marked (string_bytes output) self.now.safe }
    {
        if self.safe {
            Value::from(output).mark_safe()
        } else {
            Value::from(output)
        }
    }

    /// The text as it is shown: lent where it is marked safe or escaping is off, else escaped.
    /// Mirrors `StringInput::rendered`.
    ///
    /// Takes what memory `escape` takes, and refuses what that refuses; what is lent takes none.
    pub fn rendered<S: Autoescape>(&self, alloc: Global, state: &S) -> TeraResult<CowStr<'a>>
        ensures { MatchResult result
            (Renders S.escapes S.escaped state.now self.now)
            (RendersNot S.escapes S.refuses state.now self.now) }
    {
        if self.safe || !state.autoescaping_enabled() {
            Ok(CowStr::Borrowed(self.text))
        } else {
            Ok(CowStr::Owned(state.escape(alloc, self.text)?))
        }
    }
}

/// A text, lent with its flag. Refuses every other value with ``Invalid type for the value,
/// expected `string` but got `N` ``, N being the name of its kind, without the last blank.
impl<'k> ArgFromValue<'k, Value> for StringInput<'k> {
    type Output = StringInput<'k>;

    ghost takes = { λ value taken. as_marked_text value ≡ Ok taken };

    ghost denies = { λ value e. Denies (as_marked_text value) e };

    fn from_value(alloc: Global, value: &'k Value) -> TeraResult<StringInput<'k>> {
        match value.as_str() {
            Some(text) => Ok(StringInput {
                text,
                safe: value.is_safe(),
            }),
            None => Err(Error::invalid_arg_type(alloc, "string", value.name())),
        }
    }
}

/// Where a text is shown: whether it is escaped there, and how. It stands for what
/// `StringInput::rendered` asks of `tera::State`.
///
/// Each implementation says both as functions of itself and the text, and which errors escaping may
/// answer.
pub trait Autoescape {
    // whether texts that are not marked safe are escaped
    ghost escapes: { Self → Bool };

    // what a text is escaped to
    ghost escaped: { Self → List ℕ → List ℕ };

    // an error that may be answered in its place
    ghost refuses: { Self → List ℕ → Error → Type 0 };

    /// Whether texts that are not marked safe are escaped.
    fn autoescaping_enabled(&self) -> bool
        ensures { result ≡ escapes self.now };

    /// The text, escaped.
    fn escape(&self, alloc: Global, text: &str) -> TeraResult<String>
        ensures ok { IfOk result (λ t. string_bytes t ≡ escaped self.now text.now) }
        ensures err { IfErr result (refuses self.now text.now) };
}
