//! A text that grows.
ghost use Rattle.std.specs.Prelude.{◌≡◌, ◌≤◌, [], IfOk, IsOk, OnErr, string_bytes};
ghost use Rattle.tera_report.specs.Growing.{grown_bytes, grown_len, grown_capacity, GrowingTakes};
ghost use Rattle.tera_report.specs.Growing.{GrowingFails};
ghost use Rattle.tera_report.specs.Sink.{PutsThese};

use std::alloc::{AllocError, Global};

// What a text with something in it grows by at least.
const LEAST_GROWTH: usize = 256;

/// A text that takes memory as it grows.
#[derive(Drop)]
pub struct Growing {
    text: String,
}

impl Growing {
    /// An empty text. Takes no memory.
    pub fn new(alloc: Global) -> Growing
        ensures empty { grown_bytes result ≡ [] }
        ensures len { grown_len result ≡ 0 }
    {
        Growing {
            text: String::new(alloc),
        }
    }

    /// An empty text with memory for so many bytes. The only refusal is want of it.
    pub fn with_capacity(alloc: Global, capacity: usize) -> Result<Growing, AllocError>
        ensures empty { IfOk result (λ made. grown_bytes made ≡ []) }
        ensures len { IfOk result (λ made. grown_len made ≡ 0) }
        ensures capacity { IfOk result (λ made. capacity ≤ grown_capacity made) }
        ensures succeeds { capacity ≡ 0 → IsOk result }
    {
        Ok(Growing {
            text: String::with_capacity(alloc, capacity)?,
        })
    }

    /// The text so far. Takes no memory.
    pub fn as_str(&self) -> &str
        ensures { result.now ≡ grown_bytes self.now }
    {
        self.text.as_str()
    }

    // Takes a text, or finds no memory for it.
    #[inline(always)]
    pub(crate) fn push(&mut self, text: &str) -> Result<(), AllocError>
        ensures puts { PutsThese GrowingTakes GrowingFails result text.now self.old self.new }
        ensures unchanged { OnErr result (grown_bytes self.new ≡ grown_bytes self.old) }
    {
        if self.text.capacity() - self.text.len() < text.len() {
            self.grow(text.len())?;
        }
        self.text.push_str(text)
    }

    // Gets memory for so many bytes more. A first piece gets what it needs, as it may be the only
    // one; behind a second, others follow.
    #[inline(never)]
    fn grow(&mut self, more: usize) -> Result<(), AllocError>
        ensures bytes { grown_bytes self.new ≡ grown_bytes self.old }
        ensures len { grown_len self.new ≡ grown_len self.old }
        ensures capacity { grown_capacity self.old ≤ grown_capacity self.new }
    {
        let least = if self.text.is_empty() {
            0
        } else {
            LEAST_GROWTH
        };
        self.text.reserve(more.max(least))
    }

    /// The text. Takes no memory.
    pub fn into_text(self) -> String
        ensures { string_bytes result ≡ grown_bytes self }
    {
        self.text
    }
}
