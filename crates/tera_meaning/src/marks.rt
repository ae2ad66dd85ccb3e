//! The laws of marking a value safe. Each function here does nothing: its clauses are the law.
ghost use Rattle.std.specs.Prelude.{◌≡◌, ℕ, true, List};
ghost use Rattle.tera_meaning.specs.Alike.{MeanTheSame};
ghost use Rattle.tera_meaning.specs.Form.{Form, MarkedText};
ghost use Rattle.tera_meaning.specs.Meaning.{layout, meaning};
ghost use Rattle.tera_meaning.specs.Read.{marked_safe, safe_in};
ghost use Rattle.tera_meaning.specs.State.{State, meaning_at};
ghost use Rattle.tera_meaning.specs.Request.{mark_safe, asking, asking_into};
ghost use Rattle.tera_meaning.specs.Step.{state_after};
ghost use Rattle.tera_meaning.specs.Tree.{text};
ghost use Rattle.tera_meaning.specs.WellMade.{IsWellMade};

/// A value that is marked means what it meant: it equals the same values and prints the same text.
/// A text that is marked is safe, and marking twice is marking once. What is well made stays so.
pub fn marks_change_no_meaning()
    ensures meaning { (value : Form) → meaning (marked_safe value) ≡ meaning value }
    ensures layout { (value : Form) → layout (marked_safe value) ≡ layout value }
    ensures text { (t : MarkedText) → safe_in (marked_safe (text t)) ≡ true }
    ensures twice { (value : Form) → marked_safe (marked_safe value) ≡ marked_safe value }
    ensures well_made { (value : Form) → IsWellMade value → IsWellMade (marked_safe value) }
{}

/// Marked in its place no name changes its meaning; and what is kept under another name means what
/// it was made from.
#[tactic(auto, using(crate::proofs::StepLaws::marks))]
pub fn marked_names_mean_the_same()
    ensures place { (state : State) (name : List ℕ)
        → MeanTheSame (state_after state (asking (mark_safe name))) state }
    ensures kept { (state : State) (name into : List ℕ)
        → meaning_at (state_after state (asking_into (mark_safe name) into)) into
        ≡ meaning_at state name }
{}
