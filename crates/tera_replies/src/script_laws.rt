//! The law of a context that is written as a script and replayed.
ghost use Rattle.std.specs.Prelude.{◌≡◌, ◌≤◌, ℕ, Bool, false, List, [], Option};
ghost use Rattle.std.specs.FinMap.{entries, get};
ghost use Rattle.std.specs.Option.{option_map};
ghost use Rattle.tera_meaning.specs.Alike.{MeanTheSame};
ghost use Rattle.tera_meaning.specs.State.{State};
ghost use Rattle.tera_meaning.specs.WellMade.{IsWellMadeState};
ghost use Rattle.tera_script.specs.Saved.{script_of, HaveLines};
ghost use Rattle.tera_script.specs.Written.{owned_form};
ghost use Rattle.tera_replies.specs.Replay.{IsAnswered, Replays};
ghost use Rattle.tera_replies.specs.Saved.{made_again, oks};
ghost use Rattle.tera_replies.specs.Streams.{just_these, untold};
ghost use Rattle.tera_replies.specs.Stretch.{Goes, Place, start};

use crate::laws::want_of_memory_alone_makes_status_one;
use tera_meaning::alike::states_that_are_laid_out_the_same_stay_so;
use tera_meaning::runs::{runs_give_their_outcomes, runs_have_outcomes};
use tera_script::{
    one_command, script_lines_are_said, scripts_make_their_states, skipped_says_nothing,
};

/// The script of a state that is well made, replayed from no names, answers `ok` for each name and
/// makes the state again: form by form, with keys that own their texts, so that each name means
/// what it meant. A replay of it in which no answer is want of memory comes to nothing else. A
/// program that ends it with status 0 gave its output these answers, and told no error; no line is
/// bad.
///
/// The premises are those of each context whose script `write_script` puts: `Context::is_well_made`
/// has the first, and that call the second.
pub fn scripts_are_replayed()
    ensures taken { (ascii : Bool) (state : State) → IsWellMadeState state
        → HaveLines (entries state)
        → Goes start (script_of ascii (entries state)) (oks (entries state)) (made_again state) }
    ensures alone { (ascii : Bool) (state : State) (text : List ℕ) (place : Place)
        → IsWellMadeState state → HaveLines (entries state)
        → Goes start (script_of ascii (entries state)) text place → place.wanted ≡ false
        → (text ≡ oks (entries state)) × (place ≡ made_again state) }
    ensures forms { (state : State) (name : List ℕ)
        → get (made_again state).state name ≡ option_map owned_form (get state name) }
    ensures meaning { (state : State) → MeanTheSame (made_again state).state state }
    ensures answered { (ascii : Bool) (state : State) → IsWellMadeState state
        → HaveLines (entries state)
        → IsAnswered (script_of ascii (entries state)) (oks (entries state)) [] 0 }
    ensures status { (ascii : Bool) (state : State) (fails : Option Bool) (out err : List ℕ)
        (status : ℕ) → IsWellMadeState state → HaveLines (entries state)
        → Replays (script_of ascii (entries state)) fails untold (just_these out out err) status
        → (status ≤ 1) × (status ≡ 0 → (out ≡ oks (entries state)) × (err ≡ [])) }
{
    script_lines_are_said();
    scripts_make_their_states();
    one_command();
    skipped_says_nothing();
    states_that_are_laid_out_the_same_stay_so();
    runs_give_their_outcomes();
    runs_have_outcomes();
    want_of_memory_alone_makes_status_one();
}
