//! A sink whose fault says nothing.
ghost use Rattle.std.specs.Prelude.{◌≡◌};
ghost use Rattle.tera_replies.specs.inner.ErrorSink.{lent_sink, sink_loan};
ghost use Rattle.tera_replies.specs.inner.ErrorSink.{ErrorSinkTakes, ErrorSinkFails};
ghost use Rattle.tera_replies.specs.inner.ErrorSink.{ErrorSinkFlushes, ErrorSinkFlushFails};
ghost use Rattle.tera_replies.specs.inner.ErrorSink.{error_nothing, error_joined, error_early};
ghost use Rattle.tera_replies.specs.inner.ErrorSink.{error_later};

use crate::fault::WriteError;
use tera_report::sink::Sink;

/// Puts what it is given into a sink, and answers a fault of it by a `WriteError`: so what prints
/// in several calls hands no error of the system from one to the next.
#[derive(Drop)]
pub(crate) struct ErrorSink<'a, W> {
    sink: &'a mut W,
}

impl<'a, W: Sink> ErrorSink<'a, W> {
    /// An `ErrorSink` over that sink.
    #[inline(always)]
    pub(crate) fn new(sink: &'a mut W) -> ErrorSink<'a, W>
        ensures lent { sink_loan result ≡ sink.entry.ghost_name }
        ensures sink { lent_sink result ≡ sink.old }
    {
        ErrorSink { sink }
    }
}

/// Each put and each flush is one of the sink.
impl<W: Sink> Sink for ErrorSink<'_, W> {
    type Fault = WriteError;

    ghost takes = { ErrorSinkTakes W.takes };

    ghost fails = { ErrorSinkFails W.fails };

    ghost flushes = { ErrorSinkFlushes W.flushes };

    ghost flush_fails = { ErrorSinkFlushFails W.flush_fails };

    #[inline(always)]
    fn put(&mut self, text: &str) -> Result<(), WriteError> {
        match self.sink.put(text) {
            Ok(()) => Ok(()),
            Err(_) => Err(WriteError),
        }
    }

    fn flush(&mut self) -> Result<(), WriteError> {
        match self.sink.flush() {
            Ok(()) => Ok(()),
            Err(_) => Err(WriteError),
        }
    }

    ghost nothing = { error_nothing W.takes W.nothing };

    ghost joined = { error_joined W.takes W.joined };

    ghost failed_early = { error_early W.fails W.failed_early };

    ghost failed_later = { error_later W.takes W.fails W.failed_later };
}
