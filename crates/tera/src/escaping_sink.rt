//! A sink that escapes what it is given.
ghost use Rattle.std.specs.Prelude.{◌≡◌};
ghost use Rattle.tera.specs.inner.EscapingSink.{inner_sink, sink_loan, EscapingTakes};
ghost use Rattle.tera.specs.inner.EscapingSink.{EscapingFails, EscapingFlushes};
ghost use Rattle.tera.specs.inner.EscapingSink.{escaping_nothing, escaping_joined};
ghost use Rattle.tera.specs.inner.EscapingSink.{escaping_early, escaping_later};

use tera_report::escape_to;
use tera_report::sink::Sink;

/// Puts each text that it is given into another sink, escaped. Takes no memory.
#[derive(Drop)]
pub(crate) struct Escaping<'a, S> {
    sink: &'a mut S,
}

impl<'a, S: Sink> Escaping<'a, S> {
    /// Before that sink.
    #[inline(always)]
    pub(crate) fn new(sink: &'a mut S) -> Escaping<'a, S>
        ensures lent { sink_loan result ≡ sink.entry.ghost_name }
        ensures sink { inner_sink result ≡ sink.old }
    {
        Escaping { sink }
    }
}

/// A text is taken where the sink takes its escaped bytes.
impl<S: Sink> Sink for Escaping<'_, S> {
    type Fault = S::Fault;

    ghost takes = { EscapingTakes S.takes };

    ghost fails = { EscapingFails S.fails };

    ghost flushes = { EscapingFlushes S.flushes };

    ghost flush_fails = { EscapingFlushes S.flush_fails };

    #[inline(always)]
    fn put(&mut self, text: &str) -> Result<(), S::Fault> {
        escape_to(text, self.sink)
    }

    fn flush(&mut self) -> Result<(), S::Fault> {
        self.sink.flush()
    }

    ghost nothing = { escaping_nothing S.takes S.nothing };

    ghost joined = { escaping_joined S.takes S.joined };

    ghost failed_early = { escaping_early S.fails S.failed_early };

    ghost failed_later = { escaping_later S.takes S.fails S.failed_later };
}
