//! The laws of steps that may refuse, one after another. Each function here does nothing: its
//! clauses are the law.
ghost use Rattle.std.specs.Prelude.{◌≡◌, Result, Ok, IsOk};
ghost use Rattle.tera_meaning.specs.Arithmetic.{and_then};
ghost use Rattle.tera_meaning.specs.Form.{Form};
ghost use Rattle.tera_report.specs.Errors.{Refuses};
ghost use Rattle.tera_report.specs.Refusal.{Refusal};
ghost use Rattle.tera_report.specs.declared.errors.Error.{Error};

/// What the first of two steps refuses, both of them refuse. Where both give a value, so does the
/// first, and the second gives it of that one.
#[tactic(auto, using(crate::proofs::RefusalLaws::laws))]
pub fn refusals_are_passed_on()
    ensures refused { (first : Result Form Refusal) (next : Form → Result Form Refusal) (e : Error)
        → Refuses first e → Refuses (and_then first next) e }
    ensures begun { (first : Result Form Refusal) (next : Form → Result Form Refusal)
        → IsOk (and_then first next) → IsOk first }
    ensures given { (first : Result Form Refusal) (next : Form → Result Form Refusal) (given : Form)
        → and_then first next ≡ Ok given
        → (v : Form) × (first ≡ Ok v) × (next v ≡ Ok given) }
{}
