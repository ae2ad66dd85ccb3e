//! What the tests make, and what is told of it. Where memory is wanting, a part is left out: then
//! the test that looks at it fails.
use std::alloc::{AllocError, Global};
use std::fmt::{Debug, Display};
use tera_report::TeraResult;

/// These names.
pub fn names(alloc: Global, texts: &[&str]) -> Vec<String> {
    let mut names = Vec::new(alloc);
    for text in texts {
        let _ = names.push(owned(alloc, text));
    }
    names
}

/// That text, or none.
pub fn owned(alloc: Global, text: &str) -> String {
    String::from_str(alloc, text).unwrap_or(String::new(alloc))
}

/// That letter as many times.
pub fn many(alloc: Global, letter: char, count: usize) -> String {
    let mut text = String::new(alloc);
    for _ in 0..count {
        let _ = text.push(letter);
    }
    text
}

/// The text that was made, or none.
pub fn or_empty(alloc: Global, made: Result<String, AllocError>) -> String {
    made.unwrap_or(String::new(alloc))
}

/// Whether that text was made.
pub fn is_text(made: Result<String, AllocError>, wanted: &str) -> bool {
    match made {
        Ok(text) => is_equal(text, wanted),
        Err(_) => false,
    }
}

fn is_equal(text: String, wanted: &str) -> bool {
    let is_so = text.as_str() == wanted;
    drop(text);
    is_so
}

/// Whether that text was answered.
pub fn is_answer(made: TeraResult<String>, wanted: &str) -> bool {
    match made.ok() {
        Some(text) => is_equal(text, wanted),
        None => false,
    }
}

/// Whether it displays that.
pub fn displays<D: Display>(alloc: Global, it: &D, wanted: &str) -> bool {
    is_text(format!(in alloc; "{it}"), wanted)
}

/// Whether its debug text is that.
pub fn shows<D: Debug>(alloc: Global, it: &D, wanted: &str) -> bool {
    is_text(format!(in alloc; "{it:?}"), wanted)
}
