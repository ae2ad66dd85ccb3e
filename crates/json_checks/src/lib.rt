//! Tests of JSON through public calls: documents that Python's `json` made or read, refusals with
//! their places, and keys that are written as texts.
#![tactic(auto)]

#[cfg(test)]
mod held;
#[cfg(test)]
mod reads;
#[cfg(test)]
mod writes;
