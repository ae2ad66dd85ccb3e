//! The laws of single steps. Each function here does nothing: its clauses are the law.
ghost use Rattle.std.specs.Prelude.{◌≡◌, ◌≢◌, ℕ, pos, Bool, true, false, [], List, Option, Some};
ghost use Rattle.std.specs.Prelude.{◌↔◌, None, Ok, Err, IsErr, IsOk, IsSome};
ghost use Rattle.std.specs.FinMap.{contains_key, get as held_at, insert, remove as without};
ghost use Rattle.tera_report.specs.Escaping.{escaped};
ghost use Rattle.tera_report.specs.Refusal.{Operator, Refusal};
ghost use Rattle.tera_meaning.specs.Answer;
ghost use Rattle.tera_meaning.specs.Arithmetic.{calculated, negated};
ghost use Rattle.tera_meaning.specs.Conversion.{IntegerType, read_as};
ghost use Rattle.tera_meaning.specs.Decided.{decided};
ghost use Rattle.tera_meaning.specs.Search;
ghost use Rattle.tera_meaning.specs.Search.{Search, found_at, CopyTakes};
ghost use Rattle.tera_meaning.specs.Fields.{fields, shown_in};
ghost use Rattle.tera_meaning.specs.Form.{Form};
ghost use Rattle.tera_meaning.specs.Integer.{u64, i64, i128};
ghost use Rattle.tera_meaning.specs.Kind.{kind_in, undefined_kind};
ghost use Rattle.tera_meaning.specs.Lookup.{holds};
ghost use Rattle.tera_meaning.specs.Meaning.{layout, meaning};
ghost use Rattle.tera_meaning.specs.Order.{compare, same};
ghost use Rattle.tera_meaning.specs.Outcome.{Outcome, out_of_memory};
ghost use Rattle.tera_meaning.specs.Printed.{IsExact, printed, shown_in_page};
ghost use Rattle.tera_meaning.specs.Printed.{PrintsNothing};
ghost use Rattle.tera_meaning.specs.Read.{iterable_in, marked_safe, safe_in, size_in, truthy_in};
ghost use Rattle.tera_meaning.specs.Question;
ghost use Rattle.tera_meaning.specs.Question.{Question, IsAnswered, TakesMemory};
ghost use Rattle.tera_meaning.specs.Request.{Request, Command, set, remove, mark_safe, ask, weigh};
ghost use Rattle.tera_meaning.specs.Request.{extend, find, heeds_into, asking, asking_into};
ghost use Rattle.tera_meaning.specs.Rows.{integer};
ghost use Rattle.tera_meaning.specs.State.{State, extended, form_at, layout_at, meaning_at};
ghost use Rattle.tera_meaning.specs.Step.{ComesTo, ComesOnlyTo, IsOutcome, IsStep};
ghost use Rattle.tera_meaning.specs.Step.{leaves, LeavesInWant, marking, MayWant, MayWantMemory};
ghost use Rattle.tera_meaning.specs.Step.{state_after};
ghost use Rattle.tera_meaning.specs.Steps.{AbsentAnswers, BothAbsentAnswer, ExactAnswers};
ghost use Rattle.tera_meaning.specs.Steps.{HasOneAnswer, HasOneStep, HeldAnswers, OnlyFinds};
ghost use Rattle.tera_meaning.specs.Steps.{StepsOnlyTo};
ghost use Rattle.tera_meaning.specs.Tree.{undefined};
ghost use Rattle.tera_meaning.specs.Weighing;
ghost use Rattle.tera_meaning.specs.Weighing.{Weighing, weighed};

use std::cmp::Ordering;

/// What a name holds is what is found, removed, counted, judged, printed, escaped and walked there,
/// and whose fields are named.
pub fn what_is_held_is_read()
    ensures get { HeldAnswers (λ name. find (Search.get name))
        (λ value. Answer.found (Some value)) }
    ensures remove { HeldAnswers remove (λ value. Answer.found (Some value)) }
    ensures has { HeldAnswers (ask Question.has) (λ value. Answer.truth true) }
    ensures len { HeldAnswers (ask Question.len) (λ value. Answer.size (size_in (meaning value))) }
    ensures truthy { HeldAnswers (ask Question.truthy)
        (λ value. Answer.truth (truthy_in (meaning value))) }
    ensures kind { HeldAnswers (ask Question.kind) (λ value. Answer.kind (kind_in value)) }
    ensures safe { HeldAnswers (ask Question.is_safe) (λ value. Answer.truth (safe_in value)) }
    ensures print { ExactAnswers (ask Question.print)
        (λ value. Answer.text (printed (layout value))) }
    ensures escape { ExactAnswers (ask Question.escape)
        (λ value. Answer.text (escaped (printed (layout value)))) }
    ensures fields { HeldAnswers (ask Question.fields) (λ value. Answer.texts (fields value)) }
    ensures walk { HeldAnswers (ask Question.walk) (λ value. Answer.walked (shown_in value)) }
{}

/// Where the layout of what a name holds is exact, it prints one text, and escapes to one. With
/// what `is_safe` answers these are what a page shows of it.
pub fn what_is_exact_prints_one_text()
    ensures print { (state : State) (name : List ℕ) → IsExact (layout_at state name)
        → ComesOnlyTo state (ask Question.print name)
        (Ok (Answer.text (printed (layout_at state name)))) }
    ensures escape { (state : State) (name : List ℕ) → IsExact (layout_at state name)
        → ComesOnlyTo state (ask Question.escape name)
        (Ok (Answer.text (escaped (printed (layout_at state name))))) }
    ensures safe { (state : State) (name : List ℕ) → safe_in (form_at state name) ≡ true
        → shown_in_page (form_at state name) ≡ printed (layout_at state name) }
    ensures other { (state : State) (name : List ℕ) → safe_in (form_at state name) ≡ false
        → shown_in_page (form_at state name) ≡ escaped (printed (layout_at state name)) }
{}

/// What is set is what is compared from then on; the other side of a comparison means what it
/// meant.
#[tactic(auto, using(crate::proofs::StateLaws::laws))]
pub fn what_is_set_is_compared()
    ensures equal { (state : State) (name : List ℕ) (value : Form) (other : List ℕ) → other ≢ name
        → ComesOnlyTo (state_after state (asking (set name value)))
        (weigh Weighing.equal name other)
        (Ok (Answer.truth (same (meaning value) (meaning_at state other)))) }
    ensures compare { (state : State) (name : List ℕ) (value : Form) (other : List ℕ) → other ≢ name
        → ComesOnlyTo (state_after state (asking (set name value)))
        (weigh Weighing.compare name other)
        (Ok (Answer.order (Some (compare (meaning value) (meaning_at state other))))) }
{}

/// Two values are weighed as the definitions say: by whether they mean the same, by the total
/// order, by the partial one, which may decide nothing, and by whether the one holds the other.
pub fn weighings_answer_what_is_defined()
    ensures equal { (v w : Form)
        → weighed Weighing.equal v w ≡ Ok (Answer.truth (same (meaning v) (meaning w))) }
    ensures compare { (v w : Form) → weighed Weighing.compare v w
        ≡ Ok (Answer.order (Some (compare (meaning v) (meaning w)))) }
    ensures try_compare { (v w : Form) → weighed Weighing.try_compare v w
        ≡ Ok (Answer.order (decided (meaning v) (meaning w))) }
    ensures holds { (v w : Form) (told : Bool) → holds v w ≡ Ok told
        → weighed Weighing.contains v w ≡ Ok (Answer.truth told) }
    ensures refused { (v w : Form) (refusal : Refusal) → holds v w ≡ Err refusal
        → weighed Weighing.contains v w ≡ Err refusal }
    ensures less { weighed Weighing.try_compare (integer u64 (pos 1)) (integer i64 (pos 2))
        ≡ Ok (Answer.order (Some Ordering.Less)) }
    ensures greater { weighed Weighing.try_compare (integer i128 (pos 2)) (integer u64 (pos 1))
        ≡ Ok (Answer.order (Some Ordering.Greater)) }
    ensures undecided { weighed Weighing.try_compare undefined (integer u64 (pos 1))
        ≡ Ok (Answer.order None) }
{}

/// A name that is not held reads as undefined: nothing is found, printed or named there.
pub fn absent_names_read_as_undefined()
    ensures get { AbsentAnswers (λ name. find (Search.get name)) (Answer.found None) }
    ensures remove { AbsentAnswers remove (Answer.found None) }
    ensures has { AbsentAnswers (ask Question.has) (Answer.truth false) }
    ensures len { AbsentAnswers (ask Question.len) (Answer.size None) }
    ensures truthy { AbsentAnswers (ask Question.truthy) (Answer.truth false) }
    ensures kind { AbsentAnswers (ask Question.kind) (Answer.kind undefined_kind) }
    ensures safe { AbsentAnswers (ask Question.is_safe) (Answer.truth true) }
    ensures print { AbsentAnswers (ask Question.print) (Answer.text []) }
    ensures escape { AbsentAnswers (ask Question.escape) (Answer.text []) }
    ensures fields { AbsentAnswers (ask Question.fields) (Answer.texts []) }
    ensures walk { AbsentAnswers (ask Question.walk) (Answer.walked []) }
    ensures equal { BothAbsentAnswer (weigh Weighing.equal) (Answer.truth true) }
    ensures compare { BothAbsentAnswer (weigh Weighing.compare)
        (Answer.order (Some Ordering.Equal)) }
    ensures try_compare { BothAbsentAnswer (weigh Weighing.try_compare)
        (Answer.order (Some Ordering.Equal)) }
{}

/// Only what finds something, and `mark_safe`, heed the name under which it is to be kept. To set,
/// to take over, to remove, to ask and to weigh do not.
pub fn other_requests_heed_no_name_for_what_they_find()
    ensures outcome { (state : State) (request : Request) (into other : Option (List ℕ))
        (outcome : Outcome) → heeds_into request ≡ false → ComesTo state request into outcome
        → ComesTo state request other outcome }
    ensures state { (state : State) (request : Request) (into other : Option (List ℕ))
        → heeds_into request ≡ false → leaves state request into ≡ leaves state request other }
    ensures set { (name : List ℕ) (value : Form) → heeds_into (set name value) ≡ false }
    ensures extend { (source : State) → heeds_into (extend source) ≡ false }
    ensures remove { (name : List ℕ) → heeds_into (remove name) ≡ false }
    ensures ask { (question : Question) (name : List ℕ) → heeds_into (ask question name) ≡ false }
    ensures weigh { (weighing : Weighing) (left right : List ℕ)
        → heeds_into (weigh weighing left right) ≡ false }
{}

/// With a name for it, the form that is found is kept there, and the answer says just that it was
/// done. Where nothing is found nothing is kept, and the answer says that nothing was found; a
/// refusal is passed on and keeps nothing; and without such a name nothing changes. What `get`
/// finds is what is held.
pub fn what_is_found_is_kept()
    ensures get { (state : State) (name : List ℕ)
        → found_at state (Search.get name) ≡ Ok (held_at state name) }
    ensures done { (state : State) (search : Search) (into : List ℕ) (value : Form)
        (outcome : Outcome) → found_at state search ≡ Ok (Some value)
        → IsOutcome state (asking_into (find search) into) outcome → outcome ≡ Ok Answer.done }
    ensures kept { (state : State) (search : Search) (into : List ℕ) (value : Form)
        → found_at state search ≡ Ok (Some value)
        → state_after state (asking_into (find search) into) ≡ insert state into value }
    ensures nothing { (state : State) (search : Search) (into : Option (List ℕ)) (outcome : Outcome)
        → found_at state search ≡ Ok None → ComesTo state (find search) into outcome
        → outcome ≡ Ok (Answer.found None) }
    ensures absent { (state : State) (search : Search) (into : Option (List ℕ))
        → found_at state search ≡ Ok None → leaves state (find search) into ≡ state }
    ensures refused { (state : State) (search : Search) (into : Option (List ℕ)) (refusal : Refusal)
        (outcome : Outcome) → found_at state search ≡ Err refusal
        → ComesTo state (find search) into outcome → outcome ≡ Err refusal }
    ensures unchanged { (state : State) (search : Search) (into : Option (List ℕ))
        (refusal : Refusal) → found_at state search ≡ Err refusal
        → leaves state (find search) into ≡ state }
    ensures alone { (state : State) (search : Search)
        → state_after state (asking (find search)) ≡ state }
{}

/// Marking is always done. Without a name for it the form is marked in its place, and a name that
/// is not held stays absent. With one the marked form is kept there, undefined for a name that is
/// not held, and the name that it was made from holds what it held.
#[tactic(auto, using(crate::proofs::StepLaws::marks))]
pub fn what_is_marked_is_kept()
    ensures done { (state : State) (name : List ℕ) (into : Option (List ℕ)) (outcome : Outcome)
        → ComesTo state (mark_safe name) into outcome → outcome ≡ Ok Answer.done }
    ensures place { (state : State) (name : List ℕ) (value : Form) → held_at state name ≡ Some value
        → state_after state (asking (mark_safe name)) ≡ insert state name (marked_safe value) }
    ensures absent { (state : State) (name : List ℕ) → held_at state name ≡ None
        → state_after state (asking (mark_safe name)) ≡ state }
    ensures kept { (state : State) (name into : List ℕ)
        → held_at (state_after state (asking_into (mark_safe name) into)) into
        ≡ Some (marked_safe (form_at state name)) }
    ensures undefined { (state : State) (name into : List ℕ) → held_at state name ≡ None
        → held_at (state_after state (asking_into (mark_safe name) into)) into ≡ Some undefined }
    ensures source { (state : State) (name into other : List ℕ) → other ≢ into
        → held_at (state_after state (asking_into (mark_safe name) into)) other
        ≡ held_at state other }
{}

/// Only a command that may want memory comes to want of it, and each that may can. This changes
/// nothing; but of `extend` some first names of its source, fewer than all, may be taken over.
pub fn wants_of_memory_change_nothing()
    ensures { (old new : State) (command : Command) → IsStep old command out_of_memory new
        ↔ (MayWantMemory old command × LeavesInWant old command.request new) }
{}

/// These never want memory, whatever name is given for what they find: each has one answer and
/// leaves one state. Nor does a question whose answer takes none, nor a weighing that is not
/// refused. Where no name is given, a number that is computed or read wants none, and marking wants
/// none.
pub fn these_requests_never_want_memory()
    ensures remove { HasOneStep remove (λ old name. Answer.found (held_at old name))
        (λ old name. without old name) }
    ensures has { HasOneAnswer (ask Question.has)
        (λ old name. Answer.truth (contains_key old name)) }
    ensures len { HasOneAnswer (ask Question.len)
        (λ old name. Answer.size (size_in (meaning_at old name))) }
    ensures truthy { HasOneAnswer (ask Question.truthy)
        (λ old name. Answer.truth (truthy_in (meaning_at old name))) }
    ensures kind { HasOneAnswer (ask Question.kind)
        (λ old name. Answer.kind (kind_in (form_at old name))) }
    ensures safe { HasOneAnswer (ask Question.is_safe)
        (λ old name. Answer.truth (safe_in (form_at old name))) }
    ensures ask { (question : Question) (old new : State) (name : List ℕ)
        (into : Option (List ℕ)) (outcome : Outcome) → ¬ TakesMemory question (form_at old name)
        → IsStep old (record { request = ask question name; into = into }) outcome new
        → IsAnswered question (held_at old name) outcome × (new ≡ old) }
    ensures weigh { (weighing : Weighing) (old new : State) (left right : List ℕ)
        (into : Option (List ℕ)) (outcome : Outcome)
        → IsOk (weighed weighing (form_at old left) (form_at old right))
        → IsStep old (record { request = weigh weighing left right; into = into }) outcome new
        → (outcome ≡ weighed weighing (form_at old left) (form_at old right)) × (new ≡ old) }
    ensures calculate { (operator : Operator) (state : State) (left right : List ℕ) (value : Form)
        → calculated operator (form_at state left) (form_at state right) ≡ Ok value
        → OnlyFinds state (Search.calculate operator left right) value }
    ensures negate { (state : State) (name : List ℕ) (value : Form)
        → negated (form_at state name) ≡ Ok value → OnlyFinds state (Search.negate name) value }
    ensures read { (type : IntegerType) (state : State) (name : List ℕ) (value : Form)
        → read_as type (form_at state name) ≡ Ok value
        → OnlyFinds state (Search.read type name) value }
    ensures mark { (state : State) (name : List ℕ) → StepsOnlyTo state (mark_safe name) None
        Answer.done (marking state name (held_at state name)) }
{}

/// What takes no memory wants none. A value is set under a name that is held, and each name of a
/// source that is taken over is held. Nothing is found. What is found, or marked, is no text, no
/// bytes, no array and no map, or it is empty; and it is answered, or kept under a name that is
/// held. Nothing is printed, and there are no names to tell.
pub fn what_takes_no_memory_wants_none()
    ensures set { (state : State) (name : List ℕ) (value : Form) (into : Option (List ℕ))
        → IsSome (held_at state name)
        → StepsOnlyTo state (set name value) into Answer.done (insert state name value) }
    ensures extend { (state source : State) (into : Option (List ℕ))
        → ((name : List ℕ) → IsSome (held_at source name) → IsSome (held_at state name))
        → StepsOnlyTo state (extend source) into Answer.done (extended state source) }
    ensures nothing { (state : State) (search : Search) (into : Option (List ℕ))
        → found_at state search ≡ Ok None
        → StepsOnlyTo state (find search) into (Answer.found None) state }
    ensures found { (state : State) (search : Search) (value : Form)
        → found_at state search ≡ Ok (Some value) → iterable_in value ≡ false
        → OnlyFinds state search value }
    ensures empty { (state : State) (search : Search) (value : Form)
        → found_at state search ≡ Ok (Some value) → truthy_in (meaning value) ≡ false
        → OnlyFinds state search value }
    ensures kept { (state : State) (search : Search) (into : List ℕ) (value : Form)
        → found_at state search ≡ Ok (Some value) → ¬ CopyTakes value
        → IsSome (held_at state into)
        → StepsOnlyTo state (find search) (Some into) Answer.done (insert state into value) }
    ensures marked { (state : State) (name into : List ℕ)
        → ¬ CopyTakes (form_at state name) → IsSome (held_at state into)
        → StepsOnlyTo state (mark_safe name) (Some into) Answer.done
        (insert state into (marked_safe (form_at state name))) }
    ensures print { (state : State) (name : List ℕ) (into : Option (List ℕ))
        → PrintsNothing (layout_at state name)
        → StepsOnlyTo state (ask Question.print name) into (Answer.text []) state }
    ensures escape { (state : State) (name : List ℕ) (into : Option (List ℕ))
        → PrintsNothing (layout_at state name)
        → StepsOnlyTo state (ask Question.escape name) into (Answer.text []) state }
    ensures fields { (state : State) (name : List ℕ) (into : Option (List ℕ))
        → fields (form_at state name) ≡ []
        → StepsOnlyTo state (ask Question.fields name) into (Answer.texts []) state }
    ensures walk { (state : State) (name : List ℕ) (into : Option (List ℕ))
        → shown_in (form_at state name) ≡ []
        → StepsOnlyTo state (ask Question.walk name) into (Answer.walked []) state }
{}

/// These may want memory: a value for a name that is new, and a source that holds such a name; a
/// text, bytes, an array or a map that is found or marked, where it is not empty; a name that is
/// new for what is found, or marked; a text that is printed, and names that are told; and the text
/// of a refusal.
#[tactic(auto, using(crate::proofs::StepLaws::copy_takes))]
pub fn what_takes_memory_may_want_it()
    ensures set { (state : State) (name : List ℕ) (value : Form) (into : Option (List ℕ))
        → held_at state name ≡ None → MayWant state (set name value) into }
    ensures extend { (state source : State) (name : List ℕ) (into : Option (List ℕ))
        → IsSome (held_at source name) → held_at state name ≡ None
        → MayWant state (extend source) into }
    ensures found { (state : State) (search : Search) (value : Form) (into : Option (List ℕ))
        → found_at state search ≡ Ok (Some value) → CopyTakes value
        → MayWant state (find search) into }
    ensures kept { (state : State) (search : Search) (value : Form) (into : List ℕ)
        → found_at state search ≡ Ok (Some value) → held_at state into ≡ None
        → MayWant state (find search) (Some into) }
    ensures refused { (state : State) (search : Search) (refusal : Refusal)
        (into : Option (List ℕ)) → found_at state search ≡ Err refusal
        → MayWant state (find search) into }
    ensures marked { (state : State) (name into : List ℕ) → CopyTakes (form_at state name)
        → MayWant state (mark_safe name) (Some into) }
    ensures placed { (state : State) (name into : List ℕ) → held_at state into ≡ None
        → MayWant state (mark_safe name) (Some into) }
    ensures weighed { (state : State) (weighing : Weighing) (left right : List ℕ)
        (into : Option (List ℕ))
        → IsErr (weighed weighing (form_at state left) (form_at state right))
        → MayWant state (weigh weighing left right) into }
    ensures print { (state : State) (name : List ℕ) (into : Option (List ℕ))
        → ¬ PrintsNothing (layout_at state name) → MayWant state (ask Question.print name) into }
    ensures escape { (state : State) (name : List ℕ) (into : Option (List ℕ))
        → ¬ PrintsNothing (layout_at state name) → MayWant state (ask Question.escape name) into }
    ensures fields { (state : State) (name : List ℕ) (into : Option (List ℕ))
        → fields (form_at state name) ≢ [] → MayWant state (ask Question.fields name) into }
    ensures walk { (state : State) (name : List ℕ) (into : Option (List ℕ))
        → shown_in (form_at state name) ≢ [] → MayWant state (ask Question.walk name) into }
{}
