//! The laws of printing every text by rule. Each function here does nothing: its clauses are the
//! law.
ghost use Rattle.std.specs.Prelude.{◌≡◌, ℕ, List};
ghost use Rattle.tera_meaning.specs.KeyMeaning.{KeyMeaning};
ghost use Rattle.tera_meaning.specs.Meaning.{Layout};
ghost use Rattle.tera_meaning.specs.Printed.{IsExact, IsExactInside, IsExactKey};
ghost use Rattle.tera_meaning.specs.Printed.{printed, printed_key, printed_with};
ghost use Rattle.tera_meaning.specs.Quoted.{Prints, PrintsInside, PrintsKey};
ghost use Rattle.tera_report.specs.Quoted.{quoted};

/// Where each text that is quoted is ASCII, what is printed by rule is the one printed text: by
/// itself, inside arrays and maps, and as a key.
#[tactic(auto, using(crate::proofs::QuotedLaws::laws))]
pub fn exact_layouts_print_one_text()
    ensures alone { (x : Layout) (written : List ℕ) → IsExact x → Prints x written
        → written ≡ printed x }
    ensures inside { (x : Layout) (written : List ℕ) → IsExactInside x → PrintsInside x written
        → written ≡ printed_with quoted x }
    ensures key { (k : KeyMeaning) (written : List ℕ) → IsExactKey k → PrintsKey k written
        → written ≡ printed_key k }
{}

/// Each layout and each key prints a text by rule, whatever its bytes are: that in which each
/// character past ASCII stands for itself.
#[tactic(auto, using(crate::proofs::QuotedLaws::laws))]
pub fn each_layout_prints_a_text()
    ensures alone { (x : Layout) → Prints x (printed x) }
    ensures inside { (x : Layout) → PrintsInside x (printed_with quoted x) }
    ensures key { (k : KeyMeaning) → PrintsKey k (printed_key k) }
{}
