//! Answers depend on meanings alone: not on the kind of an integer, the safe flag of a text, how a
//! key holds its text, or the order in which a map's pairs were inserted. Each function here does
//! nothing: its clauses are the law.
ghost use Rattle.std.specs.Prelude.{◌≡◌, ◌≢◌, ◌↔◌, ℕ, List, length, Option};
ghost use Rattle.tera_meaning.specs.Alike.{meaning_held, MeanTheSame, AskTheSame, AllAskTheSame};
ghost use Rattle.tera_meaning.specs.Alike.{AnswerAlike, AreAlike, AreToldApartBy, RunsAreToldApart};
ghost use Rattle.tera_meaning.specs.Alike.{IsSettled, IsAlwaysSettled, LaidOutTheSame, probe};
ghost use Rattle.tera_meaning.specs.Alike.{found_layout, outcome_layout};
ghost use Rattle.std.specs.FinMap.{insert};
ghost use Rattle.std.specs.Str.{IsUtf8};
ghost use Rattle.tera_meaning.specs.Form.{Form};
ghost use Rattle.tera_meaning.specs.Meaning.{layout, meaning};
ghost use Rattle.tera_meaning.specs.Outcome.{Outcome, shape};
ghost use Rattle.tera_meaning.specs.Printed.{IsExact};
ghost use Rattle.tera_meaning.specs.Question;
ghost use Rattle.tera_meaning.specs.Request.{Command, set, extend, remove, mark_safe, ask, weigh};
ghost use Rattle.tera_meaning.specs.Request.{find};
ghost use Rattle.tera_meaning.specs.Run.{AreOutcomes, state_after_all};
ghost use Rattle.tera_meaning.specs.Search.{Search, found_at};
ghost use Rattle.tera_meaning.specs.State.{State, form_at, layout_at};
ghost use Rattle.tera_meaning.specs.Step.{IsOutcome, state_after};
ghost use Rattle.tera_meaning.specs.Weighing.{Weighing};
ghost use Rattle.tera_meaning.specs.WellMade.{IsWellMadeState, AllBringWellMade};

/// Each command asks the same as itself, and so do lists of them. To set a value asks the same as
/// to set one that means the same, and to take over a source the same as to take over one that
/// means the same.
#[tactic(auto, using(crate::proofs::AlikeLemmas::all_ask_the_same))]
pub fn commands_ask_the_same_as_themselves()
    ensures one { (command : Command) → AskTheSame command command }
    ensures all { (commands : List Command) → AllAskTheSame commands commands }
    ensures set { (name : List ℕ) (v w : Form) (into : Option (List ℕ)) → meaning v ≡ meaning w
        → AskTheSame (record { request = set name v; into = into })
        (record { request = set name w; into = into }) }
    ensures extend { (source other : State) (into : Option (List ℕ)) → MeanTheSame source other
        → AskTheSame (record { request = extend source; into = into })
        (record { request = extend other; into = into }) }
{}

/// From states of equal meaning, commands of equal meaning come to outcomes of equal shapes, where
/// these are settled, and leave states of equal meaning. A walk is settled where the values are
/// laid out alike, and what is printed or escaped where they are and this is exact.
#[tactic(auto, using(crate::proofs::AlikeLemmas::laws))]
pub fn answers_depend_on_meaning()
    ensures answer { (f g : State) (command also : Command) (outcome other : Outcome)
        → MeanTheSame f g → AskTheSame command also → IsOutcome f command outcome
        → IsOutcome g also other → IsSettled f g command.request → shape outcome ≡ shape other }
    ensures state { (f g : State) (command also : Command) → MeanTheSame f g
        → AskTheSame command also → MeanTheSame (state_after f command) (state_after g also) }
{}

/// States are laid out the same where they hold the same names, each with a value that is laid out
/// the same; and so they mean the same. After the same commands they are still laid out the same:
/// what is printed, escaped and walked in the middle of a run goes by layouts too.
#[tactic(auto, using(crate::proofs::LaidOutLemmas::laws))]
pub fn states_that_are_laid_out_the_same_stay_so()
    ensures after { (f g : State) (command : Command) → LaidOutTheSame f g
        → LaidOutTheSame (state_after f command) (state_after g command) }
    ensures after_all { (f g : State) (commands : List Command) → LaidOutTheSame f g
        → LaidOutTheSame (state_after_all f commands) (state_after_all g commands) }
    ensures layout { (f g : State) (name : List ℕ) → LaidOutTheSame f g
        → layout_at f name ≡ layout_at g name }
    ensures meaning { (f g : State) → LaidOutTheSame f g → MeanTheSame f g }
    ensures set { (state : State) (name : List ℕ) (v w : Form) → layout v ≡ layout w
        → LaidOutTheSame (insert state name v) (insert state name w) }
{}

/// From states that are laid out the same, a search finds what is laid out the same, or nothing in
/// both, or refuses in both with refusals of one shape; and a command comes to outcomes that are
/// laid out the same, where these are settled.
#[tactic(auto, using(crate::proofs::LaidOutLemmas::outcome_laws))]
pub fn what_is_found_is_laid_out_the_same()
    ensures found { (f g : State) (search : Search) → LaidOutTheSame f g
        → found_layout (found_at f search) ≡ found_layout (found_at g search) }
    ensures answer { (f g : State) (command : Command) (outcome other : Outcome)
        → LaidOutTheSame f g → IsOutcome f command outcome → IsOutcome g command other
        → IsSettled f g command.request → outcome_layout outcome ≡ outcome_layout other }
{}

/// Whatever two states hold, the outcomes of these requests are settled: of all but the questions
/// for the safe flag and the kind, for the walk, and for what is printed or escaped. The walk is
/// settled where the layouts are equal, and these two where they are equal and exact.
pub fn most_outcomes_are_settled()
    ensures set { (name : List ℕ) (value : Form) → IsAlwaysSettled (set name value) }
    ensures extend { (source : State) → IsAlwaysSettled (extend source) }
    ensures remove { (name : List ℕ) → IsAlwaysSettled (remove name) }
    ensures mark { (name : List ℕ) → IsAlwaysSettled (mark_safe name) }
    ensures has { (name : List ℕ) → IsAlwaysSettled (ask Question.has name) }
    ensures truthy { (name : List ℕ) → IsAlwaysSettled (ask Question.truthy name) }
    ensures len { (name : List ℕ) → IsAlwaysSettled (ask Question.len name) }
    ensures fields { (name : List ℕ) → IsAlwaysSettled (ask Question.fields name) }
    ensures weigh { (weighing : Weighing) (left right : List ℕ)
        → IsAlwaysSettled (weigh weighing left right) }
    ensures find { (search : Search) → IsAlwaysSettled (find search) }
    ensures walk { (f g : State) (name : List ℕ) → layout_at f name ≡ layout_at g name
        → IsSettled f g (ask Question.walk name) }
    ensures print { (f g : State) (name : List ℕ) → layout_at f name ≡ layout_at g name
        → IsExact (layout_at f name) → IsSettled f g (ask Question.print name) }
    ensures escape { (f g : State) (name : List ℕ) → layout_at f name ≡ layout_at g name
        → IsExact (layout_at f name) → IsSettled f g (ask Question.escape name) }
{}

/// From states of equal meaning, lists of commands of equal meaning, however long, come to outcomes
/// that are alike, and leave states of equal meaning.
#[tactic(auto, using(crate::proofs::AlikeLemmas::laws))]
pub fn all_answers_depend_on_meaning()
    ensures answers { (f g : State) (commands also : List Command) (outcomes others : List Outcome)
        → MeanTheSame f g → AllAskTheSame commands also → AreOutcomes f commands outcomes
        → AreOutcomes g also others → AreAlike f g commands also outcomes others }
    ensures state { (f g : State) (commands also : List Command) → MeanTheSame f g
        → AllAskTheSame commands also
        → MeanTheSame (state_after_all f commands) (state_after_all g also) }
{}

/// Lists of outcomes that are alike are as long as the lists of commands.
#[tactic(auto, using(crate::proofs::AlikeLemmas::as_many))]
pub fn outcomes_that_are_alike_are_as_many()
    ensures commands { (f g : State) (commands also : List Command) (outcomes others : List Outcome)
        → AreAlike f g commands also outcomes others → length commands ≡ length outcomes }
    ensures outcomes { (f g : State) (commands also : List Command) (outcomes others : List Outcome)
        → AreAlike f g commands also outcomes others → length outcomes ≡ length others }
    ensures also { (f g : State) (commands also : List Command) (outcomes others : List Outcome)
        → AreAlike f g commands also outcomes others → length also ≡ length others }
{}

/// States answer alike exactly where they mean the same: the same names are held, and each means
/// the same.
pub fn states_answer_alike_where_they_mean_the_same()
    ensures { (f g : State) → MeanTheSame f g ↔ AnswerAlike f g }
{}

/// States of unequal meaning are told apart by some list of commands. Those that mean different
/// things at a name are told apart by whether they hold it, or by setting one value under another
/// name and comparing the two. So are the runs of these commands, which bring what is well made
/// where the states are.
#[tactic(auto, using(crate::proofs::ApartLemmas::laws))]
pub fn unequal_meanings_are_told_apart()
    ensures name { (f g : State) (name : List ℕ) → meaning_held f name ≢ meaning_held g name
        → AreToldApartBy (probe name (form_at f name)) f g }
    ensures states { (f g : State) → (MeanTheSame f g → ⊥)
        → (commands : List Command) × AreToldApartBy commands f g }
    ensures runs { (f g : State) (name : List ℕ) → meaning_held f name ≢ meaning_held g name
        → RunsAreToldApart (probe name (form_at f name)) f g }
    ensures brings { (f g : State) (name : List ℕ) → IsWellMadeState f → IsWellMadeState g
        → meaning_held f name ≢ meaning_held g name
        → IsUtf8 name × AllBringWellMade (probe name (form_at f name)) }
    ensures well_made { (f g : State) → IsWellMadeState f → IsWellMadeState g
        → (MeanTheSame f g → ⊥)
        → (name : List ℕ) × IsUtf8 name × AllBringWellMade (probe name (form_at f name))
        × RunsAreToldApart (probe name (form_at f name)) f g }
{}
