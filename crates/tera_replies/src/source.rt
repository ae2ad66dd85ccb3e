//! Where the script is read from.
ghost use Rattle.std.specs.Prelude.{◌≡◌, ◌<◌, ◌≤◌, ℕ, Bool, List, Option, Result, None, Some};
ghost use Rattle.std.specs.Prelude.{length, IfOk, OnErr};
ghost use Rattle.std.specs.Io.{ReadsAtMost};
ghost use Rattle.std.specs.Io.KnownBytes.{ReadConsumes};
ghost use Rattle.tera_replies.specs.declared.source.ReadError.{ReadError};
ghost use Rattle.tera_replies.specs.Source.{EndIsTold, MayErr, bytes_left, fails_at_end, joined};

use std::io::Read;

/// A read failed.
#[derive(Debug, Drop)]
pub struct ReadError;

/// What bytes are read from. It tells these, whether it fails behind them, and each read. Each
/// `Read` is a source.
///
/// What is proved over this trait holds whatever `gave` is. So a clause that says that a source
/// went from one state to another by some reads says that just these reads were made, each with
/// this answer.
pub trait Source {
    // the bytes that reads will give from here on, where they are known
    ghost left: { Self → Option (List ℕ) };

    // whether it fails after these bytes or ends, where that is known
    ghost fails: { Self → Option Bool };

    // a read with this answer, which left this piece, leads from one state to another
    ghost gave: { Self → List ℕ → Result ℕ ReadError → Self → Type 0 };

    /// Reads some bytes, and answers how many: none only at the end, if there is room for one.
    fn read_piece(&mut self, piece: &mut [u8]) -> Result<usize, ReadError>
        ensures bound { IfOk result (λ n. n ≤ length piece.new) }
        ensures bytes { ReadConsumes (left self.old) (left self.new) result piece.new }
        ensures stays { fails self.new ≡ fails self.old }
        ensures end { IfOk result (λ n. n ≡ 0 → 0 < length piece.new → EndIsTold (fails self.old)) }
        ensures err { OnErr result (MayErr (fails self.old) (left self.old)) }
        ensures told { gave self.old piece.new result self.new };
}

/// Each read is handed on, and its error dropped. Whether a reader fails is not told.
impl<R: Read> Source for R {
    ghost left = { λ reader. R.remaining reader };

    ghost fails = { λ _. None };

    ghost gave = { λ old piece answer new. ReadsAtMost answer piece
        × ReadConsumes (R.remaining old) (R.remaining new) answer piece };

    fn read_piece(&mut self, piece: &mut [u8]) -> Result<usize, ReadError> {
        match self.read(piece) {
            Ok(count) => Ok(count),
            Err(_) => Err(ReadError),
        }
    }
}

/// Pieces of bytes. Reads give these in their order, each some of them, and then an end or a
/// failure. Takes no memory.
#[derive(Drop)]
pub struct InputPieces<'a> {
    pieces: &'a [&'a [u8]],
    /// The place of the piece at hand, and how much of it was given.
    at: usize,
    given: usize,
    fails: bool,
}

impl<'a> InputPieces<'a> {
    /// These pieces, and then an end, or a failure where it `fails`. Takes no memory.
    pub fn new(pieces: &'a [&'a [u8]], fails: bool) -> InputPieces<'a>
        ensures bytes { bytes_left result ≡ joined pieces.now }
        ensures end { fails_at_end result ≡ fails }
    {
        InputPieces {
            pieces,
            at: 0,
            given: 0,
            fails,
        }
    }
}

/// Takes no memory.
impl Source for InputPieces<'_> {
    ghost left = { λ pieces. Some (bytes_left pieces) };

    ghost fails = { λ pieces. Some (fails_at_end pieces) };

    ghost gave = { λ old piece answer new. ReadConsumes (Some (bytes_left old))
        (Some (bytes_left new)) answer piece };

    fn read_piece(&mut self, piece: &mut [u8]) -> Result<usize, ReadError> {
        while self.at < self.pieces.len() {
            let first = self.pieces[self.at];
            if self.given < first.len() {
                let rest = &first[self.given..];
                let count = rest.len().min(piece.len());
                let (front, later) = rest.split_at(count);
                piece[..count].copy_from_slice(front);
                self.given = first.len() - later.len();
                return Ok(count);
            }
            self.at += 1;
            self.given = 0;
        }
        if self.fails { Err(ReadError) } else { Ok(0) }
    }
}
