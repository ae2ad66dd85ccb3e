//! Places in sources, and escaping. They stand in `tera_report`.
pub use tera_report::{
    Span, Spanned, escape_html, escape_into_room, escape_text, escape_to, escape_watched,
    one_decoding, one_spelling, spanned_equal_by_parts, spans_equal_by_numbers,
};
