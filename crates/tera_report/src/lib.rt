//! What every refusal says, and the one safe way from a text to HTML.
#![tactic(auto)]

mod errors;
mod escape;
mod growing;
mod pieces;
pub mod quote;
pub mod report;
mod room;
pub mod sink;
mod span;
mod spanned;
pub mod watch;
pub mod words;
mod writer;

pub use errors::{
    Error, ErrorKind, TeraResult, errors_say_the_text_of_their_refusal, kinds_equal_by_refusal,
    refusals_are_told_by_their_text, refusals_of_arithmetic_have_these_texts,
    refusals_of_conversions_have_these_texts, refusals_of_look_ups_have_these_texts,
    shapes_forget_the_kind_alone,
};
pub use escape::{
    escape_html, escape_into_room, escape_text, escape_to, escape_watched, one_decoding,
    one_spelling,
};
pub use report::{ReportError, reports_equal_by_parts};
pub use span::{Span, spans_equal_by_numbers};
pub use spanned::{Spanned, spanned_equal_by_parts};
