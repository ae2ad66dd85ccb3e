//! What pages bring. Each function here does nothing: its clauses are the law.
ghost use Rattle.std.specs.Prelude.{◌≡◌, ◌++◌, ℕ, false, true, List, Ok, Some, if◌then◌else◌};
ghost use Rattle.std.specs.Prelude.{IfErr, length, slice_get};
ghost use Rattle.std.specs.FinMap.{insert};
ghost use Rattle.tera.specs.Entities.{SpecialBeginEntities};
ghost use Rattle.tera.specs.Form.{Form};
ghost use Rattle.tera.specs.InPage.{ShowsInPage};
ghost use Rattle.tera.specs.State.{State};
ghost use Rattle.tera_filters.specs.Marks.{makes};
ghost use Rattle.tera_filters.specs.declared.filter.Filter.{Filter};
ghost use Rattle.tera_page.specs.Grammar.{Spells};
ghost use Rattle.tera_page.specs.Headline.{BringsNoTag, is_marked};
ghost use Rattle.tera_page.specs.Places.{EndsWith};
ghost use Rattle.tera_page.specs.Rendering.{IsPageOf, Names, Piece, Pieces, ShowsPiece};
ghost use Rattle.tera_page.specs.Rendering.{all_pieces, joined, pieces, turn_names, turns, under};
ghost use Rattle.tera_page.specs.Template.{Argument, Bound, Expression, Parts, Written, assign};
ghost use Rattle.tera_page.specs.Template.{choice, followed, loop, part, piped};
ghost use Rattle.tera_page.specs.Values.{is_true, value_of};

use tera_filters::laws::made_texts_are_not_safe;

/// What a page shows of a value brings none of `<`, `>`, `"` and `'`, and no `&` but that of an
/// entity, unless the template shows the value as it prints, or it is a text with a safe flag. So
/// every page is one of pieces that bring no tag but those of the template and of what is marked.
#[tactic(auto, using(crate::proofs::Plainly::laws))]
pub fn values_bring_no_tag()
    ensures piece { (piece : Piece) (shown : List ℕ) → ShowsPiece piece shown
        → is_marked piece ≡ false → SpecialBeginEntities shown }
    ensures page { (pieces : Pieces) (page : List ℕ) → IsPageOf pieces page
        → BringsNoTag pieces page }
{}

/// A loop has a turn for each of its parts, and each has the names of its part, and behind them
/// those of its place among all.
pub fn turns_are_those_of_the_parts()
    ensures many { (state : State) (owns : List Names) → length (turns state owns) ≡ length owns }
    ensures each { (state : State) (owns : List Names) (own : Names) (i : ℕ)
        → slice_get owns i ≡ Some own
        → slice_get (turns state owns) i ≡ Some (under state (own ++ turn_names i (length owns))) }
{}

/// A name that is set stands for its value in all that follows, up to the end of the turn around
/// it: behind a loop the state is what it was before it.
pub fn set_names_stand_for_their_values()
    ensures stands { (name : List ℕ) (value : Written) (rest : Parts) (state : State) (v : Form)
        → value_of value.expression state ≡ Ok v
        → all_pieces (part (assign name value) rest) state
        ≡ all_pieces rest (insert state name v) }
    ensures ends { (bound : Bound) (over : Written) (body otherwise rest : Parts) (state : State)
        → all_pieces (part (loop bound over body otherwise) rest) state
        ≡ joined (pieces (loop bound over body otherwise) state) (all_pieces rest state) }
{}

/// A choice is the parts that it takes, in its place: what these set stands behind it.
pub fn choices_are_what_they_take()
    ensures { (test : Written) (chosen otherwise rest : Parts) (state : State) (v : Form)
        → value_of test.expression state ≡ Ok v
        → all_pieces (part (choice test chosen otherwise) rest) state
        ≡ all_pieces (followed (if is_true v then chosen else otherwise) rest) state }
{}

/// A text that a filter makes is not safe, whatever is safe in what it is made of. So what a page
/// shows of it brings no tag, unless the template shows it as it prints.
pub fn made_texts_bring_no_tag()
    ensures { (filter : Filter) (e : Expression) (given : List Argument) (state : State)
        (made : Form) (shown : List ℕ) → makes filter ≡ true
        → value_of (piped filter e given) state ≡ Ok made → ShowsInPage made shown
        → SpecialBeginEntities shown }
{
    values_bring_no_tag();
    made_texts_are_not_safe();
}

/// What is refused of a template that a text spells stands in that text, which ends with the
/// template from that tag on.
pub fn refusals_stand_in_the_text()
    ensures { (parts : Parts) (text : List ℕ) (state : State) → Spells parts text
        → IfErr (all_pieces parts state) (λ failure. EndsWith text failure.from) }
{}
