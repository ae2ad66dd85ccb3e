//! How names show themselves, in the order of their bytes.

use crate::context::Names;
use std::fmt;
use tera_values::Value;

/// Shows the names in the order of their bytes, with their values. It takes no memory, and looks
/// for each next name among all.
#[derive(Drop)]
pub(crate) struct ByName<'a>(pub(crate) &'a Names);

impl<'a> fmt::Debug for ByName<'a> {
    fn fmt<W: fmt::Write>(&self, f: &mut fmt::Formatter<W>) -> fmt::Result {
        let mut shown = f.debug_map();
        let mut last = None;
        for _ in 0..self.0.len() {
            if let Some((name, value)) = first_behind(self.0, last) {
                shown.entry(name, value);
                last = Some(name);
            }
        }
        shown.finish()
    }
}

// The first name behind the last one, by their bytes, and its value.
fn first_behind<'a>(
    values: &'a Names,
    last: Option<&'a String>,
) -> Option<(&'a String, &'a Value)> {
    let mut first: Option<(&'a String, &'a Value)> = None;
    for (name, value) in values {
        let is_behind = last.is_none_or(|last| name > last);
        if is_behind && first.is_none_or(|found| name < found.0) {
            first = Some((name, value));
        }
    }
    first
}
