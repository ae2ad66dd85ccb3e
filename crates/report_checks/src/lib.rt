//! Tests of errors, reports, spans and escaping through their public calls: texts from outside,
//! and faults of writers.
#![tactic(auto)]

#[cfg(test)]
mod escaping;
#[cfg(test)]
mod failing;
#[cfg(test)]
mod held;
#[cfg(test)]
mod kinds;
#[cfg(test)]
mod made;
#[cfg(test)]
mod reports;
#[cfg(test)]
mod sources;
#[cfg(test)]
mod spans;
#[cfg(test)]
mod texts;
#[cfg(test)]
mod told;
