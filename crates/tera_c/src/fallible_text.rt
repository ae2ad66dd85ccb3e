//! A text that grows, and keeps in mind that memory for it was refused.
ghost use Rattle.std.specs.Prelude.{◌≡◌, [], true, false, MatchResult, string_bytes};
ghost use Rattle.tera_c.specs.inner.FallibleText.{TextFails, TextTakes, text_bytes};
ghost use Rattle.tera_c.specs.inner.FallibleTextLaws.{text_nothing, text_joined, text_early};
ghost use Rattle.tera_c.specs.inner.FallibleTextLaws.{text_later};

use std::alloc::{AllocError, Global};
use tera_report::sink::{Growing, Sink};

/// A text that takes memory as it grows. What was put is all there, unless memory was refused.
#[derive(Drop)]
pub(crate) struct FallibleText {
    text: Growing,
    refused: bool,
}

impl FallibleText {
    /// An empty text. Takes no memory.
    pub(crate) fn new(alloc: Global) -> FallibleText
        ensures empty { text_bytes result ≡ [] }
        ensures refused { result.refused ≡ false }
    {
        FallibleText {
            text: Growing::new(alloc),
            refused: false,
        }
    }

    /// The text, where no memory was refused.
    pub(crate) fn whole(self) -> Result<String, AllocError>
        ensures { MatchResult result
            (λ text. (self.refused ≡ false) × (string_bytes text ≡ text_bytes self))
            (λ _. self.refused ≡ true) }
    {
        if self.refused {
            return Err(AllocError);
        }
        Ok(self.text.into_text())
    }
}

/// A piece is refused only where the text had to grow for it and found no memory. It keeps nothing
/// back. Takes memory.
impl Sink for FallibleText {
    type Fault = AllocError;

    ghost takes = { TextTakes };

    ghost fails = { TextFails };

    ghost flushes = { λ old new. new ≡ old };

    ghost flush_fails = { λ _ _. ⊥ };

    fn put(&mut self, text: &str) -> Result<(), AllocError> {
        let put = self.text.put(text);
        if put.is_err() {
            self.refused = true;
        }
        put
    }

    fn flush(&mut self) -> Result<(), AllocError> {
        Ok(())
    }

    ghost nothing = { text_nothing };

    ghost joined = { text_joined };

    ghost failed_early = { text_early };

    ghost failed_later = { text_later };
}
