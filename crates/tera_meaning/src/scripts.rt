//! Small runs, from a context that holds nothing. Each function here does nothing: its clauses are
//! the runs.
ghost use Rattle.std.specs.Prelude.{codes, true, false, [], ◌∷◌, Ok, Some, None};
ghost use Rattle.std.specs.FinMap.{empty, insert};
ghost use Rattle.tera_meaning.specs.Kind.{text_kind, undefined_kind};
ghost use Rattle.tera_meaning.specs.Rows.{normal, marked};
ghost use Rattle.tera_meaning.specs.Answer;
ghost use Rattle.tera_meaning.specs.Search;
ghost use Rattle.tera_meaning.specs.Question;
ghost use Rattle.tera_meaning.specs.Request.{set, extend, remove, mark_safe, ask, weigh, find};
ghost use Rattle.tera_meaning.specs.Request.{asking, asking_into};
ghost use Rattle.tera_meaning.specs.Run.{AreOutcomes};
ghost use Rattle.tera_meaning.specs.Weighing;

/// A copy that is marked is safe and equal, and what it was made from is as it was.
pub fn marked_copies_are_safe()
    ensures { AreOutcomes empty
        (asking (set (codes "t") (normal (codes "<")))
        ∷ asking_into (mark_safe (codes "t")) (codes "u")
        ∷ asking (ask Question.is_safe (codes "t"))
        ∷ asking (ask Question.is_safe (codes "u"))
        ∷ asking (weigh Weighing.equal (codes "t") (codes "u")) ∷ [])
        (Ok Answer.done ∷ Ok Answer.done ∷ Ok (Answer.truth false) ∷ Ok (Answer.truth true)
        ∷ Ok (Answer.truth true) ∷ []) }
{}

/// A marked copy of a name that is not held is undefined, and the name stays absent.
pub fn marked_copies_of_nothing_are_undefined()
    ensures { AreOutcomes empty
        (asking_into (mark_safe (codes "nope")) (codes "u")
        ∷ asking (ask Question.has (codes "u"))
        ∷ asking (ask Question.has (codes "nope"))
        ∷ asking (ask Question.kind (codes "u")) ∷ [])
        (Ok Answer.done ∷ Ok (Answer.truth true) ∷ Ok (Answer.truth false)
        ∷ Ok (Answer.kind undefined_kind) ∷ []) }
{}

/// What is found is kept with its flag; nothing is kept where nothing is found.
pub fn copies_keep_their_flags()
    ensures { AreOutcomes empty
        (asking (set (codes "t") (marked (codes "<")))
        ∷ asking_into (find (Search.get (codes "t"))) (codes "u")
        ∷ asking (remove (codes "t"))
        ∷ asking (ask Question.is_safe (codes "u"))
        ∷ asking_into (find (Search.get (codes "t"))) (codes "u")
        ∷ asking (ask Question.kind (codes "u")) ∷ [])
        (Ok Answer.done ∷ Ok Answer.done ∷ Ok (Answer.found (Some (marked (codes "<"))))
        ∷ Ok (Answer.truth true) ∷ Ok (Answer.found None) ∷ Ok (Answer.kind text_kind) ∷ []) }
{}

/// What is taken over replaces what was there, and all else stays.
pub fn what_is_taken_over_replaces()
    ensures { AreOutcomes empty
        (asking (set (codes "a") (normal (codes "1")))
        ∷ asking (set (codes "b") (normal (codes "2")))
        ∷ asking (extend (insert (insert empty (codes "b") (normal (codes "3")))
        (codes "d") (normal (codes "4"))))
        ∷ asking (find (Search.get (codes "a")))
        ∷ asking (find (Search.get (codes "b")))
        ∷ asking (find (Search.get (codes "d"))) ∷ [])
        (Ok Answer.done ∷ Ok Answer.done ∷ Ok Answer.done
        ∷ Ok (Answer.found (Some (normal (codes "1"))))
        ∷ Ok (Answer.found (Some (normal (codes "3"))))
        ∷ Ok (Answer.found (Some (normal (codes "4")))) ∷ []) }
{}
