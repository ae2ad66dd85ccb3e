//! The version of the library, which the file VERSION says too.

pub(crate) const MAJOR: u32 = 0;

pub(crate) const MINOR: u32 = 2;

pub(crate) const PATCH: u32 = 0;
