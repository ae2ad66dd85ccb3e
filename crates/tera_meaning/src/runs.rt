//! The laws of whole runs. Each function here does nothing: its clauses are the law.
ghost use Rattle.std.specs.Prelude.{◌≡◌, ◌≢◌, ℕ, List, ◌∷◌, ◌++◌, length};
ghost use Rattle.tera_meaning.specs.Alike.{MeanTheSame, AllAskTheSame, AreAlike};
ghost use Rattle.tera_meaning.specs.Form.{Form};
ghost use Rattle.tera_meaning.specs.Outcome.{Outcome};
ghost use Rattle.tera_meaning.specs.Printed.{IsExact};
ghost use Rattle.tera_meaning.specs.Question;
ghost use Rattle.tera_meaning.specs.Question.{Question};
ghost use Rattle.tera_meaning.specs.Request.{Command, set, extend, remove, mark_safe, ask, weigh};
ghost use Rattle.tera_meaning.specs.Request.{find};
ghost use Rattle.tera_meaning.specs.Run.{IsRun, IsAmpleRun, AreOutcomes, AreFixed, state_after_all};
ghost use Rattle.tera_meaning.specs.Run.{IsDoneOf, IsKeepingRun, NoneWantsMemory};
ghost use Rattle.tera_meaning.specs.Search.{Search};
ghost use Rattle.tera_meaning.specs.State.{State, layout_at};
ghost use Rattle.tera_meaning.specs.Step.{IsOutcome, IsFixed, IsStep};
ghost use Rattle.tera_meaning.specs.Weighing.{Weighing};

/// Each command comes to some outcome, whatever the context holds, and to one alone where its
/// outcome is fixed. So it is for all commands but those that print or escape, and for these where
/// what they print is exact.
#[tactic(auto, using(crate::proofs::RunLemmas::one_outcome))]
pub fn commands_have_outcomes()
    ensures some { (state : State) (command : Command)
        → (outcome : Outcome) × IsOutcome state command outcome }
    ensures one { (state : State) (command : Command) (outcome other : Outcome)
        → IsFixed state command.request → IsOutcome state command outcome
        → IsOutcome state command other → outcome ≡ other }
    ensures set { (state : State) (name : List ℕ) (value : Form) → IsFixed state (set name value) }
    ensures extend { (state source : State) → IsFixed state (extend source) }
    ensures remove { (state : State) (name : List ℕ) → IsFixed state (remove name) }
    ensures mark { (state : State) (name : List ℕ) → IsFixed state (mark_safe name) }
    ensures ask { (state : State) (question : Question) (name : List ℕ)
        → question ≢ Question.print → question ≢ Question.escape
        → IsFixed state (ask question name) }
    ensures weigh { (state : State) (weighing : Weighing) (left right : List ℕ)
        → IsFixed state (weigh weighing left right) }
    ensures find { (state : State) (search : Search) → IsFixed state (find search) }
    ensures print { (state : State) (name : List ℕ) → IsExact (layout_at state name)
        → IsFixed state (ask Question.print name) }
    ensures escape { (state : State) (name : List ℕ) → IsExact (layout_at state name)
        → IsFixed state (ask Question.escape name) }
{}

/// An outcome in a run is that of the command in the same place, in a step from the state that the
/// commands before it leave to the one from which those after it start.
pub fn each_outcome_is_that_of_its_command()
    ensures { (old : State) (first : List Command) (command : Command) (later : List Command)
        (os : List Outcome) (o : Outcome) (ps : List Outcome) (new : State)
        → length first ≡ length os → IsRun old (first ++ command ∷ later) (os ++ o ∷ ps) new
        → (mid next : State) × IsRun old first os mid × IsStep mid command o next
        × IsRun next later ps new }
{}

/// The steps that want memory can be left out of a run; an `extend` among them becomes an `extend`
/// of the names that were taken. What is left is a run to the same state in which no step wants
/// memory, and the other outcomes are unchanged. Where no step wants memory nothing is left out.
#[tactic(auto, using(crate::proofs::RunLemmas::done_of_run, crate::proofs::RunLemmas::all_done))]
pub fn wants_of_memory_can_be_left_out()
    ensures done { (old : State) (commands : List Command) (outcomes : List Outcome) (new : State)
        → IsRun old commands outcomes new
        → (done : List Command) × (answers : List Outcome) × IsDoneOf commands outcomes done answers
        × IsAmpleRun old done answers new }
    ensures ample { (commands done : List Command) (outcomes answers : List Outcome)
        → NoneWantsMemory outcomes → IsDoneOf commands outcomes done answers
        → (done ≡ commands) × (answers ≡ outcomes) }
{}

/// A run in which no step wants memory gives outcomes of its commands, one after another, and
/// leaves the state after them; and whatever they come to is given by such a run.
#[tactic(auto, using(crate::proofs::RunLemmas::laws))]
pub fn runs_give_their_outcomes()
    ensures outcomes { (old : State) (commands : List Command) (outcomes : List Outcome)
        (new : State) → IsAmpleRun old commands outcomes new → AreOutcomes old commands outcomes }
    ensures state { (old : State) (commands : List Command) (outcomes : List Outcome) (new : State)
        → IsAmpleRun old commands outcomes new → new ≡ state_after_all old commands }
    ensures given { (old : State) (commands : List Command) (outcomes : List Outcome)
        → AreOutcomes old commands outcomes
        → IsAmpleRun old commands outcomes (state_after_all old commands) }
{}

/// A run in which what is refused changes nothing is a run, and a run in which no step wants memory
/// is one: what is refused otherwise changes nothing of itself.
#[tactic(auto, using(crate::proofs::RunLaws::laws))]
pub fn what_is_refused_changes_nothing()
    ensures run { (old : State) (commands : List Command) (outcomes : List Outcome) (new : State)
        → IsKeepingRun old commands outcomes new → IsRun old commands outcomes new }
    ensures ample { (old : State) (commands : List Command) (outcomes : List Outcome) (new : State)
        → IsAmpleRun old commands outcomes new → IsKeepingRun old commands outcomes new }
{}

/// Each list of commands comes to some outcomes, and to one list alone where all that they print is
/// exact: nothing else is left open.
#[tactic(auto, using(crate::proofs::RunLemmas::some_outcomes, crate::proofs::RunLemmas::ample_one))]
pub fn runs_have_outcomes()
    ensures some { (state : State) (commands : List Command)
        → (outcomes : List Outcome) × AreOutcomes state commands outcomes }
    ensures one { (old : State) (commands : List Command) (outcomes others : List Outcome)
        (new also : State) → AreFixed old commands → IsAmpleRun old commands outcomes new
        → IsAmpleRun old commands others also → outcomes ≡ others }
{}

/// Two runs of commands of equal meaning, from states of equal meaning, in which no step wants
/// memory, come to outcomes of equal shapes wherever these are settled, and end in states of equal
/// meaning.
#[tactic(auto, using(crate::proofs::RunLemmas::laws))]
pub fn runs_depend_on_meaning()
    ensures outcomes { (f g : State) (commands also : List Command) (outcomes others : List Outcome)
        (f' g' : State) → MeanTheSame f g → AllAskTheSame commands also
        → IsAmpleRun f commands outcomes f'
        → IsAmpleRun g also others g' → AreAlike f g commands also outcomes others }
    ensures state { (f g : State) (commands also : List Command) (outcomes others : List Outcome)
        (f' g' : State) → MeanTheSame f g → AllAskTheSame commands also
        → IsAmpleRun f commands outcomes f' → IsAmpleRun g also others g' → MeanTheSame f' g' }
{}
