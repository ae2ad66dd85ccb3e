//! An error that is shown in its source.
ghost use Rattle.std.specs.Prelude.{◌≡◌, [], IfOk, IfErr};
ghost use Rattle.std.specs.String.{string_bytes};
ghost use Rattle.tera.specs.Errors.{IsOutOfMemory};
ghost use Rattle.tera.specs.Report.{report_text};

use std::alloc::Global;
use tera::{ReportError, Span, TeraResult};

/// What is shown of an error at a place of a source. `Out of memory` is the only refusal.
pub fn show_error(
    alloc: Global,
    what: &str,
    name: &str,
    text: &str,
    place: &Span,
) -> TeraResult<String>
    ensures ok { IfOk result (λ shown. string_bytes shown ≡ report_text (record {
      message = what.now;
      file = name.now;
      source = text.now;
      span = place.now;
      notes = [];
    })) }
    ensures err { IfErr result IsOutOfMemory }
{
    let what = String::from_str(alloc, what)?;
    ReportError::new(alloc, what, name, text, place)?.generate_report(alloc)
}
