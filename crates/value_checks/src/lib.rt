//! Tests of values, of keys and of arguments through their public calls: how they compare, what is
//! read of them, what they become, what keys show, and what functions of templates take and give.
#![tactic(auto)]

#[cfg(test)]
mod arguments;
#[cfg(test)]
mod conversions;
#[cfg(test)]
mod held;
#[cfg(test)]
mod key_texts;
#[cfg(test)]
mod keys;
#[cfg(test)]
mod numbers;
#[cfg(test)]
mod order;
#[cfg(test)]
mod pairs;
#[cfg(test)]
mod printed;
#[cfg(test)]
mod quoted;
#[cfg(test)]
mod read;
