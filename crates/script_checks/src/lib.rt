//! Tests of contexts, of lines and of whole scripts through their public calls.
#![tactic(auto)]

#[cfg(test)]
mod broken;
#[cfg(test)]
mod contexts;
#[cfg(test)]
mod lines;
#[cfg(test)]
mod literals;
#[cfg(test)]
mod replayer;
#[cfg(test)]
mod replays;
#[cfg(test)]
mod scripts;
#[cfg(test)]
mod states;
