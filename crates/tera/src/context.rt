//! Names with their values. They stand in `tera_context`.
pub use tera_context::Context;
