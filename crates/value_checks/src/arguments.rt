//! Tests of what functions of templates take and give.
mod collections;
pub mod given;
mod inputs;
mod integers;
mod keys;
mod made;
mod named;
mod orders;
mod parts;
mod results;
mod sizes;
mod taken;
