//! What values mean: definitions, and the laws of these definitions.
#![tactic(auto)]

pub mod alike;
pub mod arithmetic;
pub mod decided;
pub mod keys;
pub mod looked_up;
pub mod lookups;
pub mod marks;
pub mod order;
pub mod pairs;
pub mod printed;
pub mod quoted;
pub mod refusals;
pub mod rows;
pub mod runs;
pub mod scripts;
pub mod slices;
pub mod state;
pub mod steps;
pub mod well_made;
