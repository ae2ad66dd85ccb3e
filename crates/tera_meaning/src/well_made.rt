//! The laws of well-made forms. Each function here does nothing: its clauses are the law.
ghost use Rattle.std.specs.Prelude.{◌≡◌, ℕ, List, IsSome};
ghost use Rattle.std.specs.FinMap.{empty, get as held_at};
ghost use Rattle.std.specs.Str.{IsUtf8};
ghost use Rattle.tera_meaning.specs.Form.{Form};
ghost use Rattle.tera_meaning.specs.Meaning.{Layout, Meaning, layout, meaning, sorted};
ghost use Rattle.tera_meaning.specs.Run.{IsRun, state_after_all};
ghost use Rattle.tera_meaning.specs.Outcome.{Outcome};
ghost use Rattle.tera_meaning.specs.State.{State, form_at, meaning_at};
ghost use Rattle.tera_meaning.specs.Request.{Command};
ghost use Rattle.tera_meaning.specs.WellMade.{IsWellMade, IsWellMadeLayout, IsWellMadeMeaning};
ghost use Rattle.tera_meaning.specs.WellMade.{IsWellMadeState, AllBringWellMade};

/// Commands that bring well-made values under names that are UTF-8 leave such values and names, and
/// a state that holds nothing is well made. This holds of each run, whatever wants memory.
#[tactic(auto, using(crate::proofs::WellMadeLemmas::laws))]
pub fn what_is_held_stays_well_made()
    ensures empty { IsWellMadeState empty }
    ensures run { (state : State) (commands : List Command) → IsWellMadeState state
        → AllBringWellMade commands → IsWellMadeState (state_after_all state commands) }
    ensures steps { (old : State) (commands : List Command) (outcomes : List Outcome) (new : State)
        → IsWellMadeState old → AllBringWellMade commands → IsRun old commands outcomes new
        → IsWellMadeState new }
{}

/// How a well-made form is laid out, and what it means, is well made: its numbers are those that
/// some kind holds, its texts UTF-8 and its bytes below 256. The keys of each map are distinct, and
/// rise in what it means. Each such layout is that of some well-made form, and so is each such
/// meaning. What any name means in a well-made state is well made, and a name that is held there is
/// UTF-8.
#[tactic(auto, using(crate::proofs::WellMadeLemmas::laws))]
pub fn well_made_forms_mean_what_is_well_made()
    ensures form { (value : Form) → IsWellMade value → IsWellMadeMeaning (meaning value) }
    ensures meant { (x : Meaning) → IsWellMadeMeaning x
        → (value : Form) × IsWellMade value × (meaning value ≡ x) }
    ensures held { (state : State) (name : List ℕ) → IsWellMadeState state
        → IsWellMade (form_at state name) }
    ensures meaning { (state : State) (name : List ℕ) → IsWellMadeState state
        → IsWellMadeMeaning (meaning_at state name) }
    ensures name { (state : State) (name : List ℕ) → IsWellMadeState state
        → IsSome (held_at state name) → IsUtf8 name }
    ensures layout { (value : Form) → IsWellMade value → IsWellMadeLayout (layout value) }
    ensures laid_out { (x : Layout) → IsWellMadeLayout x
        → (value : Form) × IsWellMade value × (layout value ≡ x) }
{}

/// What a well-made layout means is well made. A well-made meaning is a well-made layout, and as
/// one it means itself.
#[tactic(auto, using(crate::proofs::SortedLemmas::laws))]
pub fn meanings_are_layouts_that_mean_themselves()
    ensures sorted { (x : Layout) → IsWellMadeLayout x → IsWellMadeMeaning (sorted x) }
    ensures layout { (x : Meaning) → IsWellMadeMeaning x → IsWellMadeLayout x }
    ensures itself { (x : Meaning) → IsWellMadeMeaning x → sorted x ≡ x }
{}
