//! Where text goes, piece by piece: a watched writer, a formatter, a room of fixed size, or a text
//! that grows.
ghost use Rattle.std.specs.Prelude.{◌≡◌, ℕ, List, [], ◌++◌, ⊤, OnErr, MatchResult};
ghost use Rattle.tera_report.specs.Growing.{GrowingTakes, GrowingFails, grown_bytes};
ghost use Rattle.tera_report.specs.Room.{RoomTakes, RoomFails, room_bytes};
ghost use Rattle.tera_report.specs.Sink.{PutsThese, FormatterTakes};
ghost use Rattle.tera_report.specs.inner.SinkLaws.{watched_nothing, watched_joined, watched_early};
ghost use Rattle.tera_report.specs.inner.SinkLaws.{watched_later};
ghost use Rattle.tera_report.specs.inner.SinkLaws.{formatter_nothing, formatter_joined};
ghost use Rattle.tera_report.specs.inner.SinkLaws.{room_nothing, room_joined, room_early};
ghost use Rattle.tera_report.specs.inner.SinkLaws.{room_later};
ghost use Rattle.tera_report.specs.inner.SinkLaws.{growing_nothing, growing_joined, growing_early};
ghost use Rattle.tera_report.specs.inner.SinkLaws.{growing_later};
ghost use Rattle.tera_report.specs.Watch.{WatchedTakes, WatchedFails};
ghost use Rattle.tera_report.specs.Watch.{WatchedFlushes, WatchedFlushFails};

pub use crate::growing::Growing;
pub use crate::room::{Full, Room};
use crate::watch::Watched;
use crate::writer::Writer;
use std::alloc::AllocError;
use std::io::Write;
use std::{fmt, io};

/// What takes text. It takes all of a piece, or answers why it did not.
///
/// What is put by several calls is seen as put by one: `takes` and `fails` speak of all the bytes.
/// A flush is none of these, so a call that tells of puts alone makes no flush.
pub trait Sink {
    type Fault: Drop;

    // the bytes were taken, in one piece or in several
    ghost takes: { Self → List ℕ → Self → Type 0 };

    // the bytes were to be put, and a piece of them was refused
    ghost fails: { Self → List ℕ → Self → Type 0 };

    // what was kept back was passed on
    ghost flushes: { Self → Self → Type 0 };

    // what was kept back was to be passed on, and that failed
    ghost flush_fails: { Self → Self → Type 0 };

    /// Puts a piece of text.
    fn put(&mut self, text: &str) -> Result<(), Self::Fault>
        ensures { PutsThese takes fails result text.now self.old self.new };

    /// Passes on what it keeps back.
    fn flush(&mut self) -> Result<(), Self::Fault>
        ensures { MatchResult result (λ _. flushes self.old self.new)
            (λ _. flush_fails self.old self.new) };

    // nothing is taken where no piece is put
    ghost nothing: { (s : Self) → takes s [] s };

    // what is taken in turn is taken together
    ghost joined: { (s : Self) (a : List ℕ) (t : Self) (b : List ℕ) (u : Self)
        → takes s a t → takes t b u → takes s (a ++ b) u };

    // what fails on some bytes fails whatever was to come after them
    ghost failed_early: { (s : Self) (a : List ℕ) (t : Self) (b : List ℕ)
        → fails s a t → fails s (a ++ b) t };

    // what fails after some bytes were taken fails on all of them
    ghost failed_later: { (s : Self) (a : List ℕ) (t : Self) (b : List ℕ) (u : Self)
        → takes s a t → fails t b u → fails s (a ++ b) u };
}

/// All of a piece is passed on, by as many writes as it takes; or one of these writes answered an
/// error or took no byte. A flush is one flush of the writer, with its answer. Takes no memory.
impl<W: Writer> Sink for Watched<'_, W> {
    type Fault = io::Error;

    ghost takes = { WatchedTakes W.contents W.wrote };

    ghost fails = { WatchedFails W.contents W.wrote };

    ghost flushes = { WatchedFlushes W.contents W.flushed };

    ghost flush_fails = { WatchedFlushFails W.contents W.flushed };

    #[inline(always)]
    fn put(&mut self, text: &str) -> io::Result<()> {
        self.write_all(text.as_bytes())
    }

    fn flush(&mut self) -> io::Result<()> {
        Write::flush(self)
    }

    ghost nothing = { watched_nothing W.contents W.wrote };

    ghost joined = { watched_joined W.contents W.wrote };

    ghost failed_early = { watched_early W.contents W.wrote };

    ghost failed_later = { watched_later W.contents W.wrote };
}

/// A piece is written with no width and no fill. When a formatter fails is not told. It keeps
/// nothing back. Takes no memory.
impl<W: fmt::Write> Sink for fmt::Formatter<W> {
    type Fault = fmt::Error;

    ghost takes = { FormatterTakes W.write_str_gives };

    ghost fails = { λ _ _ _. ⊤ };

    ghost flushes = { λ old new. new ≡ old };

    ghost flush_fails = { λ _ _. ⊥ };

    fn put(&mut self, text: &str) -> fmt::Result {
        self.write_str(text)
    }

    fn flush(&mut self) -> fmt::Result {
        Ok(())
    }

    ghost nothing = { formatter_nothing W.write_str_gives };

    ghost joined = { formatter_joined W.write_str_gives };

    ghost failed_early = { λ _ _ _ _ _. tt };

    ghost failed_later = { λ _ _ _ _ _ _ _. tt };
}

/// A piece is taken exactly where it fits, and else the room holds what it held. It keeps nothing
/// back. Takes no memory.
impl Sink for Room {
    type Fault = Full;

    ghost takes = { RoomTakes };

    ghost fails = { RoomFails };

    ghost flushes = { λ old new. new ≡ old };

    ghost flush_fails = { λ _ _. ⊥ };

    fn put(&mut self, text: &str) -> Result<(), Full>
        ensures puts { PutsThese RoomTakes RoomFails result text.now self.old self.new }
        ensures unchanged { OnErr result (room_bytes self.new ≡ room_bytes self.old) }
    {
        self.push(text)
    }

    fn flush(&mut self) -> Result<(), Full> {
        Ok(())
    }

    ghost nothing = { room_nothing };

    ghost joined = { room_joined };

    ghost failed_early = { room_early };

    ghost failed_later = { room_later };
}

/// A piece is refused only where the text had to grow for it and found no memory, and then it is as
/// it was. It keeps nothing back. Takes memory.
impl Sink for Growing {
    type Fault = AllocError;

    ghost takes = { GrowingTakes };

    ghost fails = { GrowingFails };

    ghost flushes = { λ old new. new ≡ old };

    ghost flush_fails = { λ _ _. ⊥ };

    #[inline(always)]
    fn put(&mut self, text: &str) -> Result<(), AllocError>
        ensures puts { PutsThese GrowingTakes GrowingFails result text.now self.old self.new }
        ensures unchanged { OnErr result (grown_bytes self.new ≡ grown_bytes self.old) }
    {
        self.push(text)
    }

    fn flush(&mut self) -> Result<(), AllocError> {
        Ok(())
    }

    ghost nothing = { growing_nothing };

    ghost joined = { growing_joined };

    ghost failed_early = { growing_early };

    ghost failed_later = { growing_later };
}
