//! Replays of short scripts, and the exact bytes that answer them; and of one that comes in pieces.
ghost use Rattle.std.specs.List.{flat_map};
ghost use Rattle.std.specs.Prelude.{◌≡◌, ◌≤◌, ◌⊎◌, ◌++◌, ℕ, List, [], IfOk, codes, if◌then◌else◌};
ghost use Rattle.tera_replies.specs.Replay.{IsAnswered};
ghost use Rattle.tera.specs.Room.{HasRoomFor, room_bytes};
ghost use Rattle.tera.specs.Sink.{Sends};

use std::alloc::Global;
use tera::meaning::order::{equality_is_identity, meanings_tie_themselves};
use tera::sink::{Room, Sink};
use tera::value::HashState;
use tera_replies::laws::{
    lines_are_split_one_way, rooms_break_where_they_are_full, scripts_say_one_thing,
    stretches_are_joined, what_a_replayer_took_is_answered,
};
use tera_replies::{Fault, InputPieces, Replayer, replay_from};
use tera_script::{one_command, worked_calls, worked_faults};

/// Replays two calls, which come in two pieces, and answers the status: at 0 both are answered, and
/// nothing is reported. Where there is room for all that it may write, the status is 0, or 1 and it
/// says that it found no memory.
pub fn replay_calls(alloc: Global, out: &mut Room, err: &mut Room) -> u8
    ensures answers { result ≡ 0 → room_bytes out.new
        ≡ room_bytes out.old ++ codes "equal\ntrue\n" }
    ensures silent { result ≡ 0 → err.new ≡ err.old }
    ensures status { result ≤ 1 }
    ensures ample { HasRoomFor out.old 42 → HasRoomFor err.old 21 → (result ≡ 0)
        ⊎ ((result ≡ 1) × (room_bytes err.new
        ≡ room_bytes err.old ++ codes "error: Out of memory\n")) }
{
    worked_calls();
    meanings_tie_themselves();
    equality_is_identity();
    lines_are_split_one_way();
    scripts_say_one_thing();
    rooms_break_where_they_are_full();
    one_command();
    let pieces: [&[u8]; 2] = [b"cmp a b\neq ", b"a b\n"];
    let mut input = InputPieces::new(&pieces, false);
    replay_from(alloc, HashState::fixed(), &mut input, out, err)
}

/// Replays a script whose second line is bad, and answers the status. Where there is room for all
/// that it may write, the first line is answered, the second is reported and the status is 2; or it
/// is 1, and it says that it found no memory.
pub fn replay_bad_line(alloc: Global, out: &mut Room, err: &mut Room) -> u8
    ensures { HasRoomFor out.old 63 → HasRoomFor err.old 54
        → ((result ≡ 2) × (room_bytes out.new ≡ room_bytes out.old ++ codes "true\n")
        × (room_bytes err.new ≡ room_bytes err.old
        ++ codes "error: bad line\n --> line 2:1:1\n  |\n1 | frob\n  | ^^^^\n"))
        ⊎ ((result ≡ 1) × (room_bytes err.new
        ≡ room_bytes err.old ++ codes "error: Out of memory\n")) }
{
    worked_calls();
    worked_faults();
    equality_is_identity();
    lines_are_split_one_way();
    scripts_say_one_thing();
    rooms_break_where_they_are_full();
    one_command();
    let pieces: [&[u8]; 2] = [b"eq a b\nfr", b"ob\neq a b\n"];
    let mut input = InputPieces::new(&pieces, false);
    replay_from(alloc, HashState::fixed(), &mut input, out, err)
}

/// Answers a script that comes in pieces, as those from a socket do, and says whether an answer was
/// want of memory. How the script was cut changes nothing: its lines are answered, each in turn.
pub fn replay_pieces<W: Sink>(alloc: Global, pieces: &[Vec<u8>], out: &mut W) -> Result<bool, Fault>
    ensures { IfOk result (λ wanted. (text : List ℕ)
        × IsAnswered (flat_map (λ piece. piece.items) pieces.now) text [] (if wanted then 1 else 0)
        × Sends W.takes W.flushes out.old text out.new) }
{
    stretches_are_joined();
    what_a_replayer_took_is_answered();
    let mut replayer = Replayer::new(alloc, HashState::fixed());
    for piece in pieces {
        replayer.take(alloc, piece.as_slice(), out)?;
    }
    replayer.finish(alloc, out)
}
