//! A writer of which a clause can name each write, with the bytes that it was given and its answer.
ghost use Rattle.std.specs.Prelude.{◌≡◌, ◌≢◌, ◌<◌, ◌-◌, ◌^◌, ℕ, List, [], Option, Result, Ok, Err};
ghost use Rattle.std.specs.Prelude.{IsErrAnd, IsTrue, length};
ghost use Rattle.std.specs.Io.{WritesAtMost};
ghost use Rattle.std.specs.Io.KnownBytes.{Keeps, WriteAppends};
ghost use Rattle.std.specs.IoError.{error_kind};
ghost use Rattle.std.specs.List.{AllByRecursion};
ghost use Rattle.std.specs.declared.io.Error.{Error};
ghost use Rattle.std.specs.declared.io.ErrorKind.TheVariants.{Interrupted};
ghost use Rattle.tera_report.specs.Writer.{Passes, Breaks, all_taken, is_fault};

use std::io;
use std::io::Write;

/// A writer whose every write is told of: each `Write` is one.
///
/// What is proved over this trait holds whatever `wrote` is. So a clause that says that a writer
/// went from one state to another by some writes says that just these writes were made, each with
/// these bytes, and answered so.
pub trait Writer {
    // the bytes that it holds, where they are known
    ghost contents: { Self → Option (List ℕ) };

    // a write of these bytes, with this answer, leads from one state to another
    ghost wrote: { Self → List ℕ → Result ℕ Error → Self → Type 0 };

    // a flush with this answer leads from one state to another
    ghost flushed: { Self → Result (Unit {0}) Error → Self → Type 0 };

    /// Writes a beginning of the bytes, and answers how many it took, or an error where it took
    /// none. Whether it takes memory is its own affair.
    fn write_once(&mut self, bytes: &[u8]) -> io::Result<usize>
        ensures bound { WritesAtMost result bytes.now }
        ensures bytes { WriteAppends (contents self.old) (contents self.new) result bytes.now }
        ensures told { wrote self.old bytes.now result self.new };

    /// Passes on what it keeps back, or answers an error. Whether it takes memory is its own
    /// affair.
    fn flush_once(&mut self) -> io::Result<()>
        ensures bytes { Keeps (contents self.old) (contents self.new) }
        ensures told { flushed self.old result self.new };
}

/// Each write and each flush is handed on, and told as `Write` tells it.
impl<W: Write> Writer for W {
    ghost contents = { W.contents };

    ghost wrote = { λ old bytes answer new. WritesAtMost answer bytes
        × WriteAppends (W.contents old) (W.contents new) answer bytes };

    ghost flushed = { λ old _ new. Keeps (W.contents old) (W.contents new) };

    #[inline(always)]
    fn write_once(&mut self, bytes: &[u8]) -> io::Result<usize> {
        self.write(bytes)
    }

    fn flush_once(&mut self) -> io::Result<()> {
        self.flush()
    }
}

/// What passes is taken whole, and a write of it answered an error, or took no byte of some, only
/// where it was interrupted.
pub fn what_passes_is_taken_whole<W: Writer>()
    ensures whole { (old : W) (bytes : List ℕ) (new : W) (passed : Passes W.wrote old bytes new)
        → all_taken passed.attempts ≡ bytes }
    ensures faults { (old : W) (bytes : List ℕ) (new : W) (passed : Passes W.wrote old bytes new)
        → AllByRecursion (λ a. IsTrue (is_fault a.answer a.given)
        → IsErrAnd a.answer (λ e. error_kind e ≡ Interrupted)) passed.attempts }
{}

/// What breaks is cut short: its writes took fewer bytes than it has. Where there are fewer than
/// 2^64 - 1 of them, the last answered an error or took no byte of some.
pub fn what_breaks_is_cut_short<W: Writer>()
    ensures short { (old : W) (bytes : List ℕ) (new : W) (broke : Breaks W.wrote old bytes new)
        → length (all_taken broke.attempts) < length bytes }
    ensures fault { (old : W) (bytes : List ℕ) (new : W) (broke : Breaks W.wrote old bytes new)
        → length broke.attempts < 2 ^ 64 - 1
        → IsTrue (is_fault broke.last.answer broke.last.given) }
{}

/// Some bytes that one write took whole passed. Where it took none, or answered an error and was
/// not interrupted, they broke. Where it was interrupted, they pass where later writes pass them.
pub fn one_write_passes_or_breaks<W: Writer>()
    ensures whole { (old : W) (bytes : List ℕ) (new : W) → bytes ≢ []
        → W.wrote old bytes (Ok (length bytes)) new → Passes W.wrote old bytes new }
    ensures none { (old : W) (bytes : List ℕ) (new : W) → bytes ≢ []
        → W.wrote old bytes (Ok 0) new → Breaks W.wrote old bytes new }
    ensures refused { (old : W) (bytes : List ℕ) (e : Error) (new : W) → bytes ≢ []
        → error_kind e ≢ Interrupted → W.wrote old bytes (Err e) new
        → Breaks W.wrote old bytes new }
    ensures again { (old : W) (bytes : List ℕ) (e : Error) (mid new : W)
        → error_kind e ≡ Interrupted → W.wrote old bytes (Err e) mid
        → Passes W.wrote mid bytes new → Passes W.wrote old bytes new }
{}
