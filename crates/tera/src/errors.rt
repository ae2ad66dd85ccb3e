//! Errors, reports, and what they say. They stand in `tera_report`.
pub use tera_report::{
    Error, ErrorKind, ReportError, TeraResult, errors_say_the_text_of_their_refusal,
    kinds_equal_by_refusal, refusals_are_told_by_their_text,
    refusals_of_arithmetic_have_these_texts, refusals_of_conversions_have_these_texts,
    refusals_of_look_ups_have_these_texts, reports_equal_by_parts, shapes_forget_the_kind_alone,
};
