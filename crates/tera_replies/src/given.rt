//! Laws of the bytes that a source gave to a replay.
ghost use Rattle.std.specs.Prelude.{◌≡◌, ℕ, List, [], ◌++◌, None};
ghost use Rattle.tera_replies.specs.Log.{logged, logs};
ghost use Rattle.tera_replies.specs.Replay.{Replays, ReplaysGiven, WereGiven};
ghost use Rattle.tera_replies.specs.Streams.{just_these, reads};

/// Of a source that logs what its reads give, and does not tell it beforehand: the bytes that the
/// clauses `given` speak of are those that the log grew by, and no others. So the replay is that of
/// the log.
pub fn given_bytes_are_those_that_reads_gave()
    ensures grows { (old given new : List ℕ) → WereGiven (reads logs old new) given
        → new ≡ old ++ given }
    ensures replays { (new out broken err : List ℕ) (status : ℕ)
        → ReplaysGiven logged [] new (just_these out broken err) status
        → Replays new None (reads logs [] new) (just_these out broken err) status }
{}
