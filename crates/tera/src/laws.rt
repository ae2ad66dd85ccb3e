//! Laws for callers: what follows of entries that are put, of keys, of steps that may refuse, of
//! escaped bytes, of what a page shows and of sorted lists. Each function in these modules does
//! nothing: its clauses are the law.
pub mod escaped;
pub mod found;
pub mod held_keys;
pub mod puts;
pub mod shown;
pub mod stepped;
