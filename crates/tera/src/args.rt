//! What values are taken as by filters and functions of templates. It stands in `tera_arguments`.
pub use tera_arguments::{
    ArgFromValue, Autoescape, Kwargs, KwargsIter, KwargsOf, Parts, StringInput,
};
