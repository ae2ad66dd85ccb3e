//! What an export answers, as the header names it.

/// Done.
pub(crate) const DONE: u8 = 0;
/// An answer is want of memory.
pub(crate) const WANTED: u8 = 1;
/// The line or the text is bad.
pub(crate) const BAD: u8 = 2;
/// A room is too small.
pub(crate) const SMALL: u8 = 3;
/// No memory was found for the call itself.
pub(crate) const NO_MEMORY: u8 = 4;
/// The line was run, and no memory was found for its reply.
pub(crate) const NO_REPLY: u8 = 5;
/// The session is closed.
pub(crate) const CLOSED: u8 = 6;
/// The session is open already.
pub(crate) const OPEN: u8 = 7;
/// The session holds no such name.
pub(crate) const MISSING: u8 = 8;
/// A value cannot be had so, and the reply says why.
pub(crate) const REFUSED: u8 = 9;
