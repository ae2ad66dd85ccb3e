//! The replay of a script that comes in pieces, for a loop of a caller's own.
ghost use Rattle.std.specs.Prelude.{◌≡◌, ◌||◌, ℕ, Bool, List, [], ◌∷◌, IfErr, IfOk, IsOk};
ghost use Rattle.std.specs.Prelude.{OnOk};
ghost use Rattle.tera_replies.specs.Output.{Broke, Sent};
ghost use Rattle.tera_replies.specs.Script.{HasNoLineFeed, last_line};
ghost use Rattle.tera_replies.specs.Stretch.{Goes, LineStops, Place, Runs, Stops, start};
ghost use Rattle.tera_replies.specs.inner.Place.{coded_place, place_of};

use crate::fault::Fault;
use crate::feed::Feed;
use std::alloc::Global;
use std::marker::Model;
use tera_context::Context;
use tera_report::sink::Sink;
use tera_values::HashState;

/// A replay whose script comes in pieces: from a socket, a channel, or any loop of a caller's own.
///
/// Each line is answered once its line feed has come, and what follows the last one by `finish`. A
/// fault ends the replay. In a contract it is the place where it stands: the number of the line at
/// hand, what was read of that line, the names, and whether an answer was want of memory.
#[derive(Drop)]
pub struct Replayer {
    feed: Feed,
}

impl Model for Replayer {
    ghost Value = { Place };

    ghost coded = { coded_place };

    ghost view = { λ r. place_of r.feed };

    ghost invariant = { λ r. HasNoLineFeed r.feed.part.items };
}

impl Replayer {
    /// Before the first byte; names and the keys of maps are hashed under the state. Takes no
    /// memory.
    pub fn new(alloc: Global, state: HashState) -> Replayer
        ensures { result ≡ start }
    {
        Replayer {
            feed: Feed::new(alloc, state),
        }
    }

    /// Takes the next piece, and answers each line that is whole now.
    ///
    /// `BadLine` where such a line is bad; the lines before it are answered. `WriteFailed` where
    /// the sink refused a part of a reply. `OutOfMemory` where the replay itself finds no memory,
    /// or has no number for each line that the piece may hold: the last one is 2^128 - 1. Never
    /// `ReadFailed`. A piece of no bytes is taken.
    ///
    /// Takes memory as `answer_line` does, and for the line at hand where it comes in parts.
    pub fn take<W: Sink>(&mut self, alloc: Global, piece: &[u8], out: &mut W) -> Result<(), Fault>
        ensures ok { OnOk result ((text : List ℕ) × Goes self.old piece.now text self.new
            × Sent W.Sink out.old out.new text) }
        ensures err { IfErr result (Stops self.old piece.now
            (Sent W.Sink out.old out.new) (Broke W.Sink out.old out.new)) }
        ensures empty { piece.now ≡ [] → IsOk result }
    {
        if self.feed.has_numbers_for(piece) {
            self.feed.take_piece(alloc, piece, out)
        } else {
            Err(Fault::OutOfMemory)
        }
    }

    /// Answers what follows the last line feed, if it is a line, and says whether any answer was
    /// want of memory. Nothing is to be taken behind it.
    ///
    /// Faults are those of `answer_line`, for that line. Takes memory as that does.
    pub fn finish<W: Sink>(&mut self, alloc: Global, out: &mut W) -> Result<bool, Fault>
        ensures ok { IfOk result (λ wanted. (text : List ℕ) × (last : Bool)
            × Runs self.old.number self.old.state (last_line self.old.part)
            text last self.new.state
            × (wanted ≡ (self.old.wanted || last))
            × Sent W.Sink out.old out.new text) }
        ensures err { IfErr result
            (λ fault. (last_line self.old.part ≡ self.old.part ∷ [])
            × LineStops self.old.number self.old.state self.old.part self.new.state
            (Sent W.Sink out.old out.new []) (Broke W.Sink out.old out.new) fault) }
    {
        self.feed.finish(alloc, out)
    }

    /// What was read of the line at hand.
    pub fn part(&self) -> &[u8]
        ensures { result.now ≡ self.now.part }
    {
        self.feed.part()
    }

    /// The names, as the lines so far have left them.
    pub fn context(&self) -> &Context
        ensures { result.now ≡ self.now.state }
    {
        self.feed.context()
    }
}
