//! A writer that is watched, and remembers whether a write of it failed.
ghost use Rattle.std.specs.Prelude.{◌≡◌, ◌||◌, ℕ, List, OnOk, false, MatchResult};
ghost use Rattle.std.specs.Io.{WritesAtMost};
ghost use Rattle.std.specs.Io.KnownBytes.{Keeps, Appends, WriteAppends};
ghost use Rattle.tera_report.specs.Watch.{has_failed, writer_loan, watched_writer, held};
ghost use Rattle.tera_report.specs.declared.watch.Watched.{Watched};
ghost use Rattle.tera_report.specs.Sink.{Sends};
ghost use Rattle.tera_report.specs.Watch.{SameWriter, WatchedTakes, WatchedFails, WatchedFlushes};
ghost use Rattle.tera_report.specs.Writer.{is_fault};

pub use crate::writer::{
    Writer, one_write_passes_or_breaks, what_breaks_is_cut_short, what_passes_is_taken_whole,
};
use std::io;
use std::io::{ErrorKind, Write};

/// Passes writes on to a writer, and remembers whether one of them answered an error or took no
/// byte of some. What it holds is what that writer holds. Takes no memory.
#[derive(Drop)]
pub struct Watched<'a, W> {
    writer: &'a mut W,
    failed: bool,
}

impl<'a, W: Writer> Watched<'a, W> {
    /// Watches that writer from now on. Takes no memory.
    pub fn new(writer: &'a mut W) -> Watched<'a, W>
        ensures lent { writer_loan result ≡ writer.entry.ghost_name }
        ensures writer { watched_writer result ≡ writer.old }
        ensures silent { has_failed result ≡ false }
    {
        Watched {
            writer,
            failed: false,
        }
    }

    /// Whether a write answered an error or took no byte of some since the writer is watched. Takes
    /// no memory.
    pub fn has_failed(&self) -> bool
        ensures { result ≡ has_failed self.now }
    {
        self.failed
    }

    // All of the bytes, by as many writes as it takes. A write that was interrupted is tried again.
    #[cold]
    #[inline(never)]
    fn write_rest(&mut self, bytes: &[u8]) -> io::Result<()>
        ensures { MatchResult result
            (λ _. WatchedTakes W.contents W.wrote self.old bytes.now self.new)
            (λ _. WatchedFails W.contents W.wrote self.old bytes.now self.new) }
    {
        let mut rest = bytes;
        for turn in 0..u64::MAX {
            if rest.is_empty() {
                return Ok(());
            }
            match self.write(rest) {
                Ok(0) => return Err(io::Error::from(ErrorKind::WriteZero)),
                Ok(taken) => rest = &rest[taken..],
                Err(e) => {
                    if !matches!(e.kind(), ErrorKind::Interrupted) {
                        return Err(e);
                    }
                }
            }
        }
        if rest.is_empty() {
            return Ok(());
        }
        Err(io::Error::from(ErrorKind::TimedOut))
    }
}

/// What is written goes to the writer that is watched. Takes no memory of its own.
impl<W: Writer> Write for Watched<'_, W> {
    ghost contents = { held W.contents };

    // One write of the writer with the same bytes, and its answer.
    #[inline(always)]
    fn write(&mut self, buf: &[u8]) -> io::Result<usize>
        ensures bound { WritesAtMost result buf.now }
        ensures bytes { WriteAppends (held W.contents self.old)
            (held W.contents self.new) result buf.now }
        ensures wrote { W.wrote (watched_writer self.old) buf.now result (watched_writer self.new) }
        ensures same { SameWriter self.old self.new }
        ensures told { has_failed self.new ≡ (has_failed self.old || is_fault result buf.now) }
    {
        match self.writer.write_once(buf) {
            Ok(taken) => {
                self.failed = self.failed || taken == 0 && !buf.is_empty();
                Ok(taken)
            }
            Err(e) => {
                self.failed = true;
                Err(e)
            }
        }
    }

    // One flush of the writer, and its answer.
    fn flush(&mut self) -> io::Result<()>
        ensures bytes { Keeps (held W.contents self.old) (held W.contents self.new) }
        ensures flushed { W.flushed (watched_writer self.old) result (watched_writer self.new) }
        ensures same { SameWriter self.old self.new }
        ensures told { has_failed self.new ≡ has_failed self.old }
    {
        self.writer.flush_once()
    }

    // All of the bytes: mostly one write takes them, and else as many as it takes.
    #[inline(always)]
    fn write_all(&mut self, buf: &[u8]) -> io::Result<()>
        ensures bytes { OnOk result
            (Appends (held W.contents self.old) (held W.contents self.new) buf.now) }
        ensures told { MatchResult result
            (λ _. WatchedTakes W.contents W.wrote self.old buf.now self.new)
            (λ _. WatchedFails W.contents W.wrote self.old buf.now self.new) }
    {
        if buf.is_empty() {
            return Ok(());
        }
        match self.write(buf) {
            Ok(0) => Err(io::Error::from(ErrorKind::WriteZero)),
            Ok(taken) if taken == buf.len() => Ok(()),
            Ok(taken) => self.write_rest(&buf[taken..]),
            Err(e) if matches!(e.kind(), ErrorKind::Interrupted) => self.write_rest(buf),
            Err(e) => Err(e),
        }
    }
}

/// What is sent to a watched writer, by puts with or without flushes between them, is appended to
/// what its writer holds.
pub fn what_is_sent_is_appended<W: Writer>()
    ensures { (old : Watched W) (bytes : List ℕ) (new : Watched W)
        → Sends (WatchedTakes W.contents W.wrote) (WatchedFlushes W.contents W.flushed)
        old bytes new
        → Appends (held W.contents old) (held W.contents new) bytes }
{}
