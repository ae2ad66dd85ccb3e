//! Laws of the scripts that are written. Each function does nothing, and its contract is the law.
ghost use Rattle.std.specs.Prelude.{◌≡◌, List, [], ◌∷◌, ℕ, Bool, true, not, IfSome, Ok, codes, map};
ghost use Rattle.std.specs.FinMap.{empty, entries, get};
ghost use Rattle.std.specs.List.{AllByRecursion, AllZip, list_all};
ghost use Rattle.std.specs.Option.{option_map};
ghost use Rattle.tera_meaning.specs.Answer.{done};
ghost use Rattle.tera_meaning.specs.Form.{Form};
ghost use Rattle.tera_meaning.specs.Run.{IsAmpleRun};
ghost use Rattle.tera_meaning.specs.State.{State};
ghost use Rattle.tera_meaning.specs.Tree.{none, truth};
ghost use Rattle.tera_meaning.specs.WellMade.{IsWellMadeState};
ghost use Rattle.tera_report.specs.Quoted.{is_control};
ghost use Rattle.tera_script.specs.Line.{Says};
ghost use Rattle.tera_script.specs.Saved.{set_line, script_of, commands_of, HaveLines};
ghost use Rattle.tera_script.specs.Saved.{owned_state};
ghost use Rattle.tera_script.specs.Written.{owned_form};

use tera_context::Context;

/// Where each entry of a well made state has a line, these lines say the commands that set the
/// names to the forms, with keys that own their texts, and no control byte stands in them.
pub fn script_lines_are_said()
    ensures said { (ascii : Bool) (state : State) → IsWellMadeState state
        → HaveLines (entries state)
        → AllZip Says (map (set_line ascii) (entries state)) (commands_of (entries state)) }
    ensures control { (ascii : Bool) (state : State) → IsWellMadeState state
        → HaveLines (entries state)
        → AllByRecursion (λ line. list_all (λ byte. not (is_control byte)) line ≡ true)
        (map (set_line ascii) (entries state)) }
{}

/// A run of these commands from no names is done, step by step, and leaves the state with keys that
/// own their texts; and it is the very state, where all keys of its forms do.
pub fn scripts_make_their_states()
    ensures run { (state : State) → IsAmpleRun empty (commands_of (entries state))
        (map (λ entry. Ok done) (entries state)) (owned_state state) }
    ensures forms { (state : State) (name : List ℕ)
        → get (owned_state state) name ≡ option_map owned_form (get state name) }
    ensures same { (state : State)
        → ((name : List ℕ) → IfSome (get state name) (λ form. owned_form form ≡ form))
        → owned_state state ≡ state }
{}

/// The lines of the script of a context say the commands that set each of its names to its form,
/// with keys that own their texts. The function only walks through the values, for the sake of the
/// clause. Takes no memory.
pub fn written_contexts_are_said(context: &Context)
    ensures { (ascii : Bool) → HaveLines (entries context.now)
        → AllZip Says (map (set_line ascii) (entries context.now))
        (commands_of (entries context.now)) }
{
    context.is_well_made();
}

/// Scripts of some entries.
pub fn worked_scripts()
    ensures none { script_of true [] ≡ [] }
    ensures order { script_of true ((codes "B", truth true) ∷ (codes "a", none) ∷ [])
        ≡ codes "set B true\nset a none\n" }
{}
