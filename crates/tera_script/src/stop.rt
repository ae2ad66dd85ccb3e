//! Where a line goes wrong, and what was expected there.
ghost use Rattle.std.specs.Prelude.{◌≡◌, Some};
ghost use Rattle.std.specs.Fmt.{DisplaysOnOk, DisplaysStyledOnOk};
ghost use Rattle.tera_report.specs.Sink.{PutsThese};
ghost use Rattle.tera_script.specs.Expected.{expectation_text, told_expected};

use std::fmt;
use tera_report::sink::Sink;
use tera_scalars::put_integer;

/// What was expected of a bad line, and where.
#[derive(Clone, Copy, Debug)]
pub struct Expected {
    /// What was expected.
    pub what: Expectation,
    /// How many bytes of the line stand before the place.
    pub bytes: usize,
    /// How many characters these bytes are.
    pub characters: usize,
}

impl Expected {
    /// Puts `expected WHAT at character N`, where characters are counted from 1. Answers an error
    /// only where the sink refused a piece. Takes no memory.
    pub fn tell_to<S: Sink>(&self, out: &mut S) -> Result<(), S::Fault>
        ensures { PutsThese S.takes S.fails result (told_expected self.now) out.old out.new }
    {
        out.put("expected ")?;
        out.put(self.what.text())?;
        out.put(" at character ")?;
        put_integer(self.characters as u128 + 1, out)
    }
}

/// What the grammar has at a place.
#[derive(Clone, Copy, Debug)]
pub enum Expectation {
    /// A character: what stands there is no UTF-8.
    Character,
    /// The word of a call.
    Call,
    /// A blank before the next part.
    Blank,
    /// A name.
    Name,
    /// A value.
    Value,
    /// A value, or the end of an array of none.
    ValueOrBracket,
    /// A value behind a comma.
    ValueBehindComma,
    /// A value behind the colon of a pair.
    ValueBehindColon,
    /// What stands behind an item of an array.
    CommaOrBracket,
    /// A key, or the end of a map of none.
    KeyOrBrace,
    /// A key behind a comma.
    KeyBehindComma,
    /// A text as the key of the map of `extend`.
    TextKey,
    /// What stands behind a key.
    Colon,
    /// What stands behind a pair of a map.
    CommaOrBrace,
    /// Fewer levels of arrays and maps.
    FewerLevels,
    /// A digit behind a minus.
    Digit,
    /// The name of a kind behind a number, or nothing.
    Suffix,
    /// A number that its kind holds.
    NumberInRange,
    /// The quote at the end of a text.
    Quote,
    /// An escape.
    Escape,
    /// The digits of a byte, or the quote at the end of a byte string.
    HexDigits,
    /// A text that is not marked safe.
    Text,
    /// A bound of a slice.
    Bound,
    /// An integer type.
    IntegerType,
    /// A map.
    Map,
    /// An arrow and a name, or the end of the line.
    ArrowOrEnd,
    /// The end of the line.
    End,
}

impl Expectation {
    /// The words for it, as they stand behind `expected`. Takes no memory.
    pub fn text(self) -> &'static str
        ensures { result.now ≡ expectation_text self }
    {
        match self {
            Expectation::Character => "UTF-8",
            Expectation::Call => "the word of a call",
            Expectation::Blank => "a blank",
            Expectation::Name => "a name",
            Expectation::Value => "a value",
            Expectation::ValueOrBracket => "a value or ']'",
            Expectation::ValueBehindComma => "a value behind ','",
            Expectation::ValueBehindColon => "a value behind ':'",
            Expectation::CommaOrBracket => "',' or ']'",
            Expectation::KeyOrBrace => "a key or '}'",
            Expectation::KeyBehindComma => "a key behind ','",
            Expectation::TextKey => "a text as the key",
            Expectation::Colon => "':'",
            Expectation::CommaOrBrace => "',' or '}'",
            Expectation::FewerLevels => "no more than 64 arrays and maps one inside another",
            Expectation::Digit => "a digit",
            Expectation::Suffix => "u64, i64, u128, i128 or nothing behind the number",
            Expectation::NumberInRange => "a number that its kind holds",
            Expectation::Quote => "'\"' at the end of the text",
            Expectation::Escape => "one of the escapes \\\", \\\\, \\n, \\r, \\t, \\0 and \\u{..}",
            Expectation::HexDigits => "two hexadecimal digits or '\"'",
            Expectation::Text => "a text",
            Expectation::Bound => "'_' or an integer",
            Expectation::IntegerType => "an integer type, as u8 or i128",
            Expectation::Map => "a map",
            Expectation::ArrowOrEnd => "'->' behind a blank, or the end of the line",
            Expectation::End => "the end of the line",
        }
    }
}

/// The words for it. A width or a fill of the format changes nothing. Takes no memory.
impl fmt::Display for Expectation {
    ghost output = { λ what. Some (expectation_text what) };

    ghost styled_output = { λ what _. Some (expectation_text what) };

    fn fmt<W: fmt::Write>(&self, f: &mut fmt::Formatter<W>) -> fmt::Result
        ensures writes { DisplaysOnOk W.write_str_gives f.old result
            (Some (expectation_text self.now)) f.new }
        ensures styled { DisplaysStyledOnOk W.write_str_gives f.old result
            (Some (expectation_text self.now)) f.new }
    {
        f.write_str(self.text())
    }
}

// The bytes of a line from the place on where it goes wrong, and what was expected there.
#[derive(Clone, Copy)]
pub(crate) struct Stop<'a> {
    pub(crate) rest: &'a [u8],
    pub(crate) what: Expectation,
}

/// That this was expected before these bytes.
pub(crate) fn stop_at(rest: &[u8], what: Expectation) -> Stop<'_>
    ensures { result.rest.now ≡ rest.now }
{
    Stop { rest, what }
}
