//! Text that is gathered on the stack, so that many short pieces go on as few long ones.
ghost use Rattle.std.specs.Prelude.{◌≡◌, [], MatchResult};
ghost use Rattle.tera_report.specs.Sink.{PutsThese};
ghost use Rattle.tera_values.specs.inner.Stage.{staged_sink, stage_loan, kept_bytes};
ghost use Rattle.tera_values.specs.inner.Stage.{StageTakes, StageFails, StageSends, StageBreaks};
ghost use Rattle.tera_values.specs.inner.Stage.{StageFlushes, StageFlushFails};
ghost use Rattle.tera_values.specs.inner.Stage.{stage_nothing, stage_joined};
ghost use Rattle.tera_values.specs.inner.Stage.{stage_early, stage_later};

use arrayvec::ArrayString;
use tera_report::sink::Sink;

// How many bytes are gathered.
const SIZE: usize = 256;

/// Keeps back what it is given, and puts it into a sink once no more fits. Whoever has put all
/// sends the rest. Takes no memory.
#[derive(Drop)]
pub(crate) struct Stage<'a, S> {
    sink: &'a mut S,
    kept: ArrayString<SIZE>,
}

impl<'a, S: Sink> Stage<'a, S> {
    /// A stage before that sink, with nothing kept back.
    #[inline(always)]
    pub(crate) fn new(sink: &'a mut S) -> Stage<'a, S>
        ensures lent { stage_loan result ≡ sink.entry.ghost_name }
        ensures sink { staged_sink result ≡ sink.old }
        ensures empty { kept_bytes result ≡ [] }
    {
        Stage {
            sink,
            kept: ArrayString::new(),
        }
    }

    /// Puts what is kept back.
    #[inline(always)]
    pub(crate) fn send(&mut self) -> Result<(), S::Fault>
        ensures { MatchResult result (λ _. StageSends S.takes self.old self.new)
            (λ _. StageBreaks S.fails self.old self.new) }
    {
        self.sink.put(self.kept.as_str())?;
        self.kept.clear();
        Ok(())
    }

    // Puts what is kept back, and then keeps the text, or puts it too where it is too long.
    #[cold]
    #[inline(never)]
    fn pass(&mut self, text: &str) -> Result<(), S::Fault>
        ensures { PutsThese (StageTakes S.takes) (StageFails S.fails) result text.now
            self.old self.new }
    {
        self.send()?;
        if text.len() <= SIZE {
            self.kept.push_str(text);
            return Ok(());
        }
        self.sink.put(text)
    }
}

/// A text that fits is kept back. One that does not is taken once what was kept back is put.
impl<S: Sink> Sink for Stage<'_, S> {
    type Fault = S::Fault;

    ghost takes = { StageTakes S.takes };

    ghost fails = { StageFails S.fails };

    ghost flushes = { StageFlushes S.takes S.flushes };

    ghost flush_fails = { StageFlushFails S.takes S.fails S.flush_fails };

    #[inline(always)]
    fn put(&mut self, text: &str) -> Result<(), S::Fault> {
        if text.len() <= self.kept.remaining_capacity() {
            self.kept.push_str(text);
            return Ok(());
        }
        self.pass(text)
    }

    fn flush(&mut self) -> Result<(), S::Fault> {
        self.send()?;
        self.sink.flush()
    }

    ghost nothing = { stage_nothing S.takes S.nothing };

    ghost joined = { stage_joined S.takes S.joined };

    ghost failed_early = { stage_early S.fails S.failed_early };

    ghost failed_later = { stage_later S.takes S.fails S.failed_later };
}
