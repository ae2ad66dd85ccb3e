//! Why values are not converted, and their conversion to truth values.
ghost use Rattle.std.specs.Prelude.{◌≡◌};
ghost use Rattle.tera_meaning.specs.Conversion.{as_truth};
ghost use Rattle.tera_meaning.specs.Form.{Form};
ghost use Rattle.tera_report.specs.Errors.{Raises};
ghost use Rattle.tera_report.specs.Quoted.{IsText};
ghost use Rattle.tera_report.specs.Refusal.{Refusal, stated, text_of, invalid_argument};
ghost use Rattle.tera_report.specs.Sink.{Puts};
ghost use Rattle.tera_values.specs.Converted.{Gives, IsRefusal, IsDueTo, told_text, range_text};
ghost use Rattle.tera_values.specs.Converted.{RaisesWhy};

use crate::Value;
use crate::print::put_value;
use std::alloc::Global;
use std::fmt;
use tera_report::Error;
use tera_report::sink::Sink;
use tera_report::words::put_all;

/// Why a value was not converted.
#[derive(Debug, Drop)]
pub enum ConversionRefused {
    /// It is of another kind: the name of the type that was asked for, and that of its kind.
    WrongType {
        expected: &'static str,
        actual: &'static str,
    },
    /// It is a number that the type has not: the value, and the name of the type.
    OutOfRange {
        value: Value,
        target: &'static str,
    },
}

impl ConversionRefused {
    /// The error of that refusal: kind `InvalidArgument` with both names, or kind
    /// `OutOfRangeArgument` with the printed value and the name of the type.
    ///
    /// Takes memory for its texts; want of it, `Out of memory`, is answered in its place.
    pub fn into_error(self, alloc: Global) -> Error
        ensures refusal { (value : Form) (refusal : Refusal) → IsRefusal value refusal self
            → Raises (stated refusal) result }
        ensures any { RaisesWhy self result }
    {
        match self {
            ConversionRefused::WrongType { expected, actual } => {
                Error::invalid_arg_type(alloc, expected, actual)
            }
            ConversionRefused::OutOfRange { value, target } => match value.to_text(alloc) {
                Ok(text) => Error::out_of_range_arg(alloc, text.as_str(), target),
                Err(refused) => refused,
            },
        }
    }
}

/// Why a value is not converted to the integer type of that name. Takes no memory.
pub(crate) fn refused(value: Value, target: &'static str) -> ConversionRefused
    ensures { IsDueTo value target.now result }
{
    if value.is_number() {
        ConversionRefused::OutOfRange { value, target }
    } else {
        ConversionRefused::WrongType {
            expected: target,
            actual: value.name(),
        }
    }
}

/// The truth value that it is. Refuses every other value. Mirrors `TryFrom<Value>` of `bool`. Takes
/// no memory.
impl TryFrom<Value> for bool {
    type Error = ConversionRefused;

    ghost try_from_gives = { λ value result. Gives (as_truth value) value result };

    #[tactic(auto, using(crate::proofs::ConvertLemmas::no_truth_is_refused))]
    fn try_from(value: Value) -> Result<bool, ConversionRefused> {
        match value.as_bool() {
            Some(b) => Ok(b),
            None => Err(ConversionRefused::WrongType {
                expected: "bool",
                actual: value.name(),
            }),
        }
    }
}

/// The refusal by its text: ``Invalid type for the value, expected `T` but got `N` ``, or ``Value
/// `V` is out of range for `T` ``, without the last blank. A width or a fill of the format changes
/// nothing. Takes no memory.
impl fmt::Display for ConversionRefused {
    ghost output = { told_text };

    ghost styled_output = { λ refused _. told_text refused };

    fn fmt<W: fmt::Write>(&self, f: &mut fmt::Formatter<W>) -> fmt::Result {
        put_refusal(self, f)
    }
}

/// What a conversion's refusal tells is the text of the refusal that it is, so Display and the
/// error that `into_error` makes can't part. Takes no memory.
pub fn what_is_told_is_the_refusal()
    ensures { (value : Form) (refusal : Refusal) (refused : ConversionRefused)
        → IsRefusal value refusal refused → told_text refused ≡ text_of refusal }
{}

// Puts the text of a refusal.
fn put_refusal<S: Sink>(refused: &ConversionRefused, out: &mut S) -> Result<(), S::Fault>
    ensures { Puts S.takes S.fails result (IsText (told_text refused.now)) out.old out.new }
{
    match refused {
        ConversionRefused::WrongType { expected, actual } => put_wrong_type(expected, actual, out),
        ConversionRefused::OutOfRange { value, target } => put_out_of_range(value, target, out),
    }
}

// Puts the names of the type that was asked for and of the value's own kind.
fn put_wrong_type<S: Sink>(expected: &str, actual: &str, out: &mut S) -> Result<(), S::Fault>
    ensures { Puts S.takes S.fails result
        (IsText (text_of (invalid_argument expected.now actual.now))) out.old out.new }
{
    put_all(
        &[
            "Invalid type for the value, expected `",
            expected,
            "` but got `",
            actual,
            "`",
        ],
        out,
    )
}

// Puts a value and the name of the type that has it not.
fn put_out_of_range<S: Sink>(value: &Value, target: &str, out: &mut S) -> Result<(), S::Fault>
    ensures { Puts S.takes S.fails result (IsText (range_text value.now target.now))
        out.old out.new }
{
    out.put("Value `")?;
    put_value(value, out)?;
    put_all(&["` is out of range for `", target, "`"], out)
}
