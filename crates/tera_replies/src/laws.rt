//! Laws of the definitions.
ghost use Rattle.std.specs.Prelude.{◌≡◌, ◌↔◌, ◌||◌, ℕ, Bool, List, [], ◌∷◌, ◌++◌, Option, None};
ghost use Rattle.std.specs.Prelude.{Err, Some, codes, if◌then◌else◌, length};
ghost use Rattle.std.specs.declared.io.ErrorKind.{ErrorKind};
ghost use Rattle.tera_report.specs.Refusal.{divided_by_zero, not_utf8, writing_failed};
ghost use Rattle.tera_report.specs.Report.{Report, report_text};
ghost use Rattle.tera_report.specs.Room.{HasRoomFor, RoomFails, RoomTakes};
ghost use Rattle.tera_report.specs.Sink.{Delivers};
ghost use Rattle.tera_report.specs.declared.room.Room.{Room};
ghost use Rattle.tera_meaning.specs.Outcome.{Outcome, out_of_memory};
ghost use Rattle.tera_meaning.specs.Request.{Command};
ghost use Rattle.tera_meaning.specs.Run.{NoneWantsMemory};
ghost use Rattle.tera_meaning.specs.State.{State};
ghost use Rattle.tera_script.specs.Line.{IsBad};
ghost use Rattle.tera_replies.specs.Output.{BrokeOn};
ghost use Rattle.tera_replies.specs.Replay.{IsAnswered, report, status_of};
ghost use Rattle.tera_replies.specs.Reply.{IsFixedReply, IsReply, IsUnbroken};
ghost use Rattle.tera_replies.specs.Script.{BadLine, HasNoLineFeed, Script, Splits};
ghost use Rattle.tera_replies.specs.Script.{without_return, ended, last_line};
ghost use Rattle.tera_replies.specs.Stretch.{Goes, Place, Runs, StopsAtBad, bad_at, start};

use tera_script::{one_command, skipped_says_nothing};

/// All bytes are lines and a part of one.
pub fn bytes_are_lines()
    ensures { (bytes : List ℕ) → (lines : List (List ℕ)) × (part : List ℕ)
        × Splits bytes lines part }
{}

/// Bytes are lines and a part of one in one way only.
pub fn lines_are_split_one_way()
    ensures { (bytes part other : List ℕ) (lines others : List (List ℕ)) → Splits bytes lines part
        → Splits bytes others other → (lines ≡ others) × (part ≡ other) }
{}

/// What lines say is one list of commands, up to one first bad line or none.
pub fn scripts_say_one_thing()
    ensures { (n : ℕ) (lines : List (List ℕ)) (commands others : List Command)
        (bad other : Option BadLine) → Script n lines commands bad → Script n lines others other →
        (commands ≡ others) × (bad ≡ other) }
{
    one_command();
    skipped_says_nothing();
}

/// Two lines as most systems end them, of which the second has no line feed.
pub fn two_lines_are_split()
    ensures split { Splits (codes "eq a b\r\nfrob") (codes "eq a b\r" ∷ []) (codes "frob") }
    ensures first { without_return (codes "eq a b\r") ≡ codes "eq a b" }
    ensures last { last_line (codes "frob") ≡ codes "frob" ∷ [] }
{}

/// Of two carriage returns at a line's end one is dropped, and none from the middle.
pub fn one_return_is_dropped()
    ensures two { without_return (codes "a\r\r") ≡ codes "a\r" }
    ensures middle { without_return (codes "a\rb") ≡ codes "a\rb" }
{}

/// Each outcome has a reply, and one alone, but where a value that is found, or a list of texts,
/// quotes a text past ASCII, and where the text of a refusal is not known.
pub fn outcomes_have_one_reply()
    ensures some { (outcome : Outcome) → (line : List ℕ) × IsReply outcome line }
    ensures one { (outcome : Outcome) (line other : List ℕ) → IsFixedReply outcome
        → IsReply outcome line → IsReply outcome other → line ≡ other }
{}

/// The reply to a refusal says its text, and where that is not known what is known of it.
pub fn refusals_are_replied_by_their_text()
    ensures zero { IsReply (Err divided_by_zero) (codes "error: Cannot divide by 0") }
    ensures memory { IsReply out_of_memory (codes "error: Out of memory") }
    ensures failed { (kind : ErrorKind) (line : List ℕ) → IsReply (Err (writing_failed kind)) line
        → (name : List ℕ)
        × (line ≡ codes "error: Io error while writing rendered value to output: " ++ name) }
{}

/// A reply is one line whatever texts it quotes. A line feed comes only from what stands there as
/// it is: a text that is printed or escaped, bytes in a value, or the words of a refusal.
pub fn replies_that_quote_are_one_line()
    ensures { (outcome : Outcome) (line : List ℕ) → IsUnbroken outcome → IsReply outcome line
        → HasNoLineFeed line }
{}

/// Of all outcomes want of memory alone makes the status 1.
pub fn want_of_memory_alone_makes_status_one()
    ensures refused { status_of None (Err divided_by_zero ∷ Err not_utf8 ∷ []) ≡ 0 }
    ensures wanted { status_of None (out_of_memory ∷ Err not_utf8 ∷ []) ≡ 1 }
    ensures every { (outcomes : List Outcome)
        → (status_of None outcomes ≡ 0) ↔ NoneWantsMemory outcomes }
{}

/// Two stretches that a `Replayer` took one after the other are one, and no bytes are one.
pub fn stretches_are_joined()
    ensures none { Goes start [] [] start }
    ensures joined { (first middle last : Place) (bytes later text more : List ℕ)
        → Goes first bytes text middle → Goes middle later more last
        → Goes first (bytes ++ later) (text ++ more) last }
{}

/// A script that a `Replayer` took from its first byte on is answered by what it put: together with
/// its last line, or up to a bad line, which ends in the last piece or stands at the end.
pub fn what_a_replayer_took_is_answered()
    ensures whole { (bytes text more : List ℕ) (place : Place) (wanted : Bool) (state : State)
        → Goes start bytes text place
        → Runs place.number place.state (last_line place.part) more wanted state
        → IsAnswered bytes (text ++ more) [] (if place.wanted || wanted then 1 else 0) }
    ensures bad { (bytes piece text more : List ℕ) (place : Place) (told : Report)
        → Goes start bytes text place → StopsAtBad place piece told more
        → IsAnswered (bytes ++ piece) (text ++ more) (ended (report_text told)) 2 }
    ensures last { (bytes text : List ℕ) (place : Place) → Goes start bytes text place
        → last_line place.part ≡ place.part ∷ [] → IsBad place.part
        → IsAnswered bytes text (report (Some (bad_at place.number place.part))) 2 }
{}

/// A room to which bytes were delivered took them, and one that broke had no place for what it was
/// to get: so a room with place for all of it does not break.
pub fn rooms_break_where_they_are_full()
    ensures takes { (old : Room) (bytes : List ℕ) (new : Room)
        → Delivers RoomTakes (λ (s t : Room). t ≡ s) old bytes new → RoomTakes old bytes new }
    ensures breaks { (old : Room) (bytes : List ℕ) (new : Room)
        → BrokeOn RoomTakes RoomFails (λ (s t : Room). t ≡ s) (λ (s t : Room). ⊥) old bytes new
        → ¬ HasRoomFor old (length bytes) }
{}
