//! The ranks of values, of which keys have the first three: they decide between two of different
//! sorts.

pub(crate) const TRUTH: u8 = 0;

pub(crate) const NUMBER: u8 = 1;

pub(crate) const TEXT: u8 = 2;

pub(crate) const ARRAY: u8 = 3;

pub(crate) const MAP: u8 = 4;

pub(crate) const BYTES: u8 = 5;

pub(crate) const NONE: u8 = 6;

pub(crate) const UNDEFINED: u8 = 7;
