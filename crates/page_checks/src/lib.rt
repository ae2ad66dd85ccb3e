//! Tests of pages and filters through public calls: templates and values in, texts out.
#![tactic(auto)]

#[cfg(test)]
mod expressions;
#[cfg(test)]
mod filters;
#[cfg(test)]
mod held;
#[cfg(test)]
mod hostile;
#[cfg(test)]
mod pages;
#[cfg(test)]
mod piped;
#[cfg(test)]
mod places;
#[cfg(test)]
mod set;
#[cfg(test)]
mod shop;
#[cfg(test)]
mod unpiped;
