//! Steps that may refuse, one after another.
ghost use Rattle.std.specs.FinMap.{get, insert};
ghost use Rattle.std.specs.Prelude.{◌≡◌, ◌++◌, ◌∷◌, ℕ, Bool, IsTrue, List, Result, Ok, Err};
ghost use Rattle.std.specs.Prelude.{is_some};
ghost use Rattle.tera_meaning.specs.Arithmetic.{and_then};
ghost use Rattle.tera_meaning.specs.Form.{Form};
ghost use Rattle.tera_meaning.specs.State.{State};
ghost use Rattle.tera_report.specs.Errors.{Refuses};
ghost use Rattle.tera_report.specs.Refusal.{Refusal};
ghost use Rattle.tera_report.specs.declared.errors.Error.{Error};
ghost use Rattle.tera.specs.Stepped.{stepped};

/// Steps that go through refuse none: each of them gave the state that the next one took. The first
/// one that is refused gives the refusal. What holds before them and is kept by each step holds in
/// the end. This holds of any states and any steps.
pub fn steps_that_go_through_refuse_none<S, X>()
    ensures joined { (step : S → X → Result S Refusal) (state : S) (xs ys : List X)
        → stepped step state (xs ++ ys)
        ≡ and_then (stepped step state xs) (λ mid. stepped step mid ys) }
    ensures through { (step : S → X → Result S Refusal) (state : S) (xs : List X) (x : X)
        (ys : List X) (last : S) → stepped step state (xs ++ x ∷ ys) ≡ Ok last
        → (mid next : S) × (stepped step state xs ≡ Ok mid) × (step mid x ≡ Ok next)
        × (stepped step next ys ≡ Ok last) }
    ensures refused { (step : S → X → Result S Refusal) (state mid : S) (xs : List X) (x : X)
        (ys : List X) (refusal : Refusal) → stepped step state xs ≡ Ok mid
        → step mid x ≡ Err refusal → stepped step state (xs ++ x ∷ ys) ≡ Err refusal }
    ensures refuses { (step : S → X → Result S Refusal) (state mid : S) (xs : List X) (x : X)
        (ys : List X) (e : Error) → stepped step state xs ≡ Ok mid
        → Refuses (step mid x) e → Refuses (stepped step state (xs ++ x ∷ ys)) e }
    ensures kept { (step : S → X → Result S Refusal) (holds : S → Bool)
        → ((s : S) (x : X) (t : S) → step s x ≡ Ok t → IsTrue (holds s) → IsTrue (holds t))
        → (state : S) (xs : List X) (last : S) → stepped step state xs ≡ Ok last
        → IsTrue (holds state) → IsTrue (holds last) }
{}

/// Names that are held stay held where a value is kept under a name, and over steps that go through
/// where each step keeps them.
pub fn names_stay_held<X>()
    ensures insert { (state : State) (into : List ℕ) (value : Form) (name : List ℕ)
        → IsTrue (is_some (get state name))
        → IsTrue (is_some (get (insert state into value) name)) }
    ensures steps { (step : State → X → Result State Refusal)
        → ((s : State) (x : X) (t : State) (name : List ℕ) → step s x ≡ Ok t
        → IsTrue (is_some (get s name)) → IsTrue (is_some (get t name)))
        → (state : State) (xs : List X) (last : State) (name : List ℕ)
        → stepped step state xs ≡ Ok last → IsTrue (is_some (get state name))
        → IsTrue (is_some (get last name)) }
{}
