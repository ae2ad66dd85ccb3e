//! A text in an array is in the debug form that the library gives it, past ASCII too.
use crate::held::{Seen, is_so};
use made_values::{one_item, printed, text};
use std::alloc::Global;
use std::process::Abort;

// The characters of that page of 256, with an apostrophe after each third.
fn page(alloc: Global, number: u32) -> String {
    let mut text = String::new(alloc);
    for low in 0..256u32 {
        if let Some(c) = char::from_u32(number.wrapping_mul(256).wrapping_add(low)) {
            let _ = text.push(c);
            if low % 3 == 0 {
                let _ = text.push('\'');
            }
        }
    }
    text
}

// What the library makes of it.
fn debug_form(alloc: Global, text: &str) -> String {
    format!(in alloc; "[{text:?}]").unwrap_or(String::new(alloc))
}

// An array of that text prints the library's form, which is longer than the text.
fn is_in_debug_form(alloc: Global, of: &str) -> Seen {
    let array = one_item(alloc, text(alloc, of));
    let found = printed(alloc, &array);
    drop(array);
    let wanted = debug_form(alloc, of);
    let holds = found.len() > of.len() && found.as_str() == wanted.as_str();
    is_so(alloc, holds, &found.as_str(), &wanted.as_str())
}

#[test]
fn texts_in_arrays_are_in_debug_form(rt: HostRuntime) {
    let alloc = rt.alloc();
    for number in [0, 1, 3, 0x20, 0x30, 0xD7, 0xE0, 0xFE, 0xFF, 0x1F6, 0x10FF] {
        let text = page(alloc, number);
        if let Err(seen) = is_in_debug_form(alloc, text.as_str()) {
            panic!(rt; "page {number}: {seen}");
        }
    }
}
