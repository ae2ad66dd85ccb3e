//! What a function of templates may answer.
ghost use Rattle.std.specs.Prelude.{IfOk, IfErr};
ghost use Rattle.tera_conversions.specs.Given.{Answers, Fails};
ghost use Rattle.tera_meaning.specs.Form.{Form};
ghost use Rattle.tera_report.specs.declared.errors.Error.{Error};

use crate::ToValue;
use std::alloc::Global;
use tera_report::{Error, TeraResult};
use tera_values::Value;

/// What a function of templates may answer: what can be made a value, or a result of it. Mirrors
/// `tera::FunctionResult`.
pub trait FunctionResult {
    // the value that is answered
    ghost answers: { Self → Form → Type 0 };

    // an error that may be answered in its place
    ghost fails: { Self → Error → Type 0 };

    /// The value that it is, or an error. Takes the memory that its making takes.
    fn into_result(self, alloc: Global) -> TeraResult<Value>
        ensures ok { IfOk result (answers self) }
        ensures err { IfErr result (fails self) };
}

/// The value that is given; the errors are those of `to_value`, as they are. Takes the memory that
/// it takes.
impl<T: ToValue> FunctionResult for T {
    ghost answers = { T.gives };

    ghost fails = { T.refuses };

    fn into_result(self, alloc: Global) -> TeraResult<Value> {
        self.to_value(alloc)
    }
}

/// The value that is given, or the error as it is; the other errors are those of `to_value`, as
/// they are. Takes the memory that it takes, and for an error none.
impl<T: ToValue> FunctionResult for Result<T, Error> {
    ghost answers = { Answers T.gives };

    ghost fails = { Fails T.refuses };

    fn into_result(self, alloc: Global) -> TeraResult<Value> {
        self?.to_value(alloc)
    }
}
