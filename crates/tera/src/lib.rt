//! The value layer of Tera as one crate to import: all that the libraries below it make public,
//! under Tera's own paths. Of its own it has `headline`, which states equality by them, `page`,
//! which shows values, and `laws`.
//!
//! `args`, `context`, `errors`, `utils` and `value` are modules of Tera, and `run` holds calls by
//! name. `quote`, `report`, `sink`, `watch` and `words` are modules of `tera_report`. `meaning` is
//! all of `tera_meaning`, the laws of the model, and `scalars` all of `tera_scalars`.
//!
//! What clauses cite is passed on too: `Rattle.tera.specs.Errors` is `tera_report`'s file of that
//! name. Where two crates have a file of one name, one gets another: `QuotedText` is `Quoted` of
//! `tera_report`, `KindForm` is `Kind` of `tera_values`, and `ShownSteps` is `Steps` of
//! `tera_context`. What a struct or an enum is to a clause stands in `types`, as
//! `Rattle.tera.specs.types.Error.{Error}`. Laws for proofs are in `Rattle.tera.proofs`, where
//! `PutBytesLaws` is `PutLaws` of `tera_report`.
#![tactic(auto)]

pub mod args;
pub mod context;
pub mod errors;
mod escaping_sink;
pub mod headline;
pub mod laws;
pub mod page;
pub mod run;
pub mod utils;
pub mod value;

pub use page::{show_each_in_page, show_in_page};
pub use tera_arguments::{ArgFromValue, Autoescape, Kwargs, KwargsIter, StringInput};
pub use tera_context::{Context, context, insert_entry};
pub use tera_conversions::{FunctionResult, ToKey, ToValue};
pub use tera_meaning as meaning;
pub use tera_report::{
    Error, ErrorKind, ReportError, Span, Spanned, TeraResult, escape_html, escape_text, quote,
    report, sink, watch, words,
};
pub use tera_scalars as scalars;
pub use tera_values::{Key, Map, Number, Value, ValueKind};
