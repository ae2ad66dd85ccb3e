//! The laws of what a context holds. Each function here does nothing: its clauses are the law.
ghost use Rattle.std.specs.Prelude.{◌≡◌, ◌≢◌, ◌<◌, ◌↔◌, ℕ, IsTrue, List, None, IsSome};
ghost use Rattle.std.specs.Cmp.Lexicographic.{slice_cmp};
ghost use Rattle.std.specs.FinMap.{empty, get, insert, len, remove};
ghost use Rattle.std.specs.Ordering.{nat_cmp};
ghost use Rattle.tera_meaning.specs.Alike.{MeanTheSame};
ghost use Rattle.tera_meaning.specs.Form.{Form};
ghost use Rattle.tera_meaning.specs.Meaning.{meaning};
ghost use Rattle.tera_meaning.specs.State.{State, states_equal, extended, IsProperBeginning};
ghost use Rattle.tera_meaning.specs.State.{meaning_at};
ghost use Rattle.tera_meaning.specs.Tree.{undefined};

use std::cmp::Ordering;

/// After a value is set the name holds it, and each other name what it held.
#[tactic(auto, using(crate::proofs::StateLaws::laws))]
pub fn setting_keeps_other_names()
    ensures set { (state : State) (name : List ℕ) (value : Form)
        → get (insert state name value) name ≡ Some value }
    ensures others { (state : State) (name : List ℕ) (value : Form) (other : List ℕ)
        → other ≢ name → get (insert state name value) other ≡ get state other }
{}

/// After a name is removed it is held no more, and each other name holds what it held. To remove
/// one that is not held changes nothing.
#[tactic(auto, using(crate::proofs::StateLaws::laws))]
pub fn removing_keeps_other_names()
    ensures removed { (state : State) (name : List ℕ) → get (remove state name) name ≡ None }
    ensures others { (state : State) (name : List ℕ) (other : List ℕ) → other ≢ name
        → get (remove state name) other ≡ get state other }
    ensures absent { (state : State) (name : List ℕ) → get state name ≡ None
        → remove state name ≡ state }
{}

/// After a value is set the name means what the value means, and each other name what it meant.
/// Where nothing is held each name reads as undefined.
#[tactic(auto, using(crate::proofs::StateLaws::laws))]
pub fn setting_gives_the_meaning()
    ensures set { (state : State) (name : List ℕ) (value : Form)
        → meaning_at (insert state name value) name ≡ meaning value }
    ensures others { (state : State) (name : List ℕ) (value : Form) (other : List ℕ) → other ≢ name
        → meaning_at (insert state name value) other ≡ meaning_at state other }
    ensures empty { (name : List ℕ) → meaning_at empty name ≡ undefined }
    ensures nothing { (name : List ℕ) → get {X = Form} {R = slice_cmp nat_cmp} empty name ≡ None }
{}

/// What a state holds after it took over a source: what the source names, it decides, and the rest
/// stays.
#[tactic(auto, using(crate::proofs::ExtendLaws::laws))]
pub fn extending_gives_the_values_of_the_source()
    ensures source { (state source : State) (name : List ℕ) → IsSome (get source name)
        → get (extended state source) name ≡ get source name }
    ensures others { (state source : State) (name : List ℕ) → get source name ≡ None
        → get (extended state source) name ≡ get state name }
{}

/// A state has a beginning of each number of names below its own. A beginning holds fewer names
/// than the state, and nothing that the state does not hold. In the order of bytes each of its
/// names comes before each name that the state alone holds.
#[tactic(auto, using(crate::proofs::ExtendLaws::laws))]
pub fn states_have_beginnings()
    ensures some { (whole : State) (n : ℕ) → n < len whole
        → (part : State) × IsProperBeginning part whole × (len part ≡ n) }
    ensures held { (part whole : State) (name : List ℕ) → IsProperBeginning part whole
        → IsSome (get part name) → get whole name ≡ get part name }
    ensures fewer { (part whole : State) → IsProperBeginning part whole → len part < len whole }
    ensures first { (part whole : State) (name later : List ℕ) → IsProperBeginning part whole
        → IsSome (get part name) → IsSome (get whole later) → get part later ≡ None
        → slice_cmp nat_cmp name later ≡ Ordering.Less }
{}

/// States are equal exactly where they hold the same names and each means the same.
#[tactic(auto, using(crate::proofs::EqualLaws::equal_is))]
pub fn equal_states_mean_the_same()
    ensures { (f g : State) → IsTrue (states_equal f g) ↔ MeanTheSame f g }
{}

/// Two states that hold the same at each name are one state.
#[tactic(auto, using(crate::proofs::StateLaws::same_state))]
pub fn states_that_hold_the_same_are_equal()
    ensures { (left right : State) → ((name : List ℕ) → get left name ≡ get right name)
        → left ≡ right }
{}
