//! The laws of printing. Each function here does nothing: its clauses are the law.
ghost use Rattle.std.specs.Prelude.{◌≡◌, ◌↔◌, ℕ, Bool, ℤ, IsTrue, List, []};
ghost use Rattle.std.specs.List.{All};
ghost use Rattle.std.specs.Str.{IsAscii, IsUtf8};
ghost use Rattle.tera_meaning.specs.Fields.{shown_in};
ghost use Rattle.tera_meaning.specs.Form.{Form};
ghost use Rattle.tera_meaning.specs.KeyMeaning.{KeyMeaning, truth_key, number_key, text_key};
ghost use Rattle.tera_meaning.specs.Meaning.{Layout, layout, meaning};
ghost use Rattle.tera_meaning.specs.Order.{same};
ghost use Rattle.tera_meaning.specs.Printed.{IsExact, IsExactInside, IsExactKey, PrintsNothing};
ghost use Rattle.tera_meaning.specs.Printed.{is_exact_inside, printed, printed_with};
ghost use Rattle.tera_meaning.specs.Quoted.{Prints, PrintsInside};
ghost use Rattle.tera_report.specs.Quoted.{quoted};
ghost use Rattle.tera_meaning.specs.Tree.{undefined, none, truth, number, text, bytes, array};
ghost use Rattle.tera_meaning.specs.Tree.{object, items, members};
ghost use Rattle.tera_meaning.specs.WellMade.{IsWellMade, IsWellMadeLayout};

/// Values that are laid out alike print equal bytes where each text that is quoted is ASCII, by
/// themselves and inside arrays and maps: kinds of integers and flags of texts change no byte. What
/// one of them prints, or may print, the other does; and what the keys of one print, those of the
/// other do, pair by pair. Such values are equal.
#[tactic(auto, using(crate::proofs::ReadLemmas::shown_by_layout))]
pub fn equal_layouts_print_alike()
    ensures alone { (v w : Form) (written other : List ℕ) → layout v ≡ layout w
        → IsExact (layout v) → Prints (layout v) written → Prints (layout w) other
        → written ≡ other }
    ensures inside { (v w : Form) (written other : List ℕ) → layout v ≡ layout w
        → IsTrue (is_exact_inside (layout v)) → PrintsInside (layout v) written
        → PrintsInside (layout w) other → written ≡ other }
    ensures texts { (v w : Form) → layout v ≡ layout w
        → printed (layout v) ≡ printed (layout w) }
    ensures exact { (v w : Form) → layout v ≡ layout w
        → (IsExact (layout v) ↔ IsExact (layout w)) }
    ensures prints { (v w : Form) (written : List ℕ) → layout v ≡ layout w
        → (Prints (layout v) written ↔ Prints (layout w) written) }
    ensures walk { (v w : Form) → layout v ≡ layout w → shown_in v ≡ shown_in w }
    ensures equal { (v w : Form) → layout v ≡ layout w → meaning v ≡ meaning w }
{}

/// Of equal values that are well made all or none are exact: the order in which pairs stand leaves
/// open no text.
#[tactic(auto, using(crate::proofs::WellMadeLemmas::exact))]
pub fn equal_values_are_exact_together()
    ensures { (v w : Form) → IsWellMade v → IsWellMade w → IsTrue (same (meaning v) (meaning w))
        → (IsExact (layout v) ↔ IsExact (layout w)) }
{}

/// By itself each value but an array or a map has one printed text. An array has where its items
/// have one inside it, and a map where its keys and values have.
#[tactic(auto, using(crate::proofs::PrintedLemmas::laws))]
pub fn exactness_comes_from_the_parts()
    ensures undefined { IsExact undefined }
    ensures none { IsExact none }
    ensures truth { (b : Bool) → IsExact (truth b) }
    ensures number { (z : ℤ) → IsExact (number z) }
    ensures text { (t : List ℕ) → IsExact (text t) }
    ensures bytes { (bs : List ℕ) → IsExact (bytes bs) }
    ensures array { (xs : List Layout) → IsExact (array (items xs)) ↔ All IsExactInside xs }
    ensures map { (ps : List (KeyMeaning × Layout))
        → IsExact (object (members ps)) ↔ All (λ p. IsExactKey p.0 × IsExactInside p.1) ps }
{}

/// Inside arrays and maps, and as a key, a text has one printed form where it is ASCII. All else
/// has one inside where it has one by itself.
#[tactic(auto, using(crate::proofs::PrintedLemmas::ascii_is))]
pub fn texts_inside_are_exact_where_they_are_ascii()
    ensures undefined { IsExactInside undefined }
    ensures none { IsExactInside none }
    ensures truth { (b : Bool) → IsExactInside (truth b) }
    ensures number { (z : ℤ) → IsExactInside (number z) }
    ensures text { (t : List ℕ) → IsExactInside (text t) ↔ IsAscii t }
    ensures bytes { (bs : List ℕ) → IsExactInside (bytes bs) }
    ensures array { (xs : List Layout)
        → IsExactInside (array (items xs)) ↔ IsExact (array (items xs)) }
    ensures map { (ps : List (KeyMeaning × Layout))
        → IsExactInside (object (members ps)) ↔ IsExact (object (members ps)) }
    ensures truth_key { (b : Bool) → IsExactKey (truth_key b) }
    ensures number_key { (z : ℤ) → IsExactKey (number_key z) }
    ensures text_key { (t : List ℕ) → IsExactKey (text_key t) ↔ IsAscii t }
{}

/// It is known that these print nothing: undefined, none, the empty text and no bytes.
pub fn these_print_nothing()
    ensures undefined { PrintsNothing undefined }
    ensures none { PrintsNothing none }
    ensures text { PrintsNothing (text []) }
    ensures bytes { PrintsNothing (bytes []) }
{}

/// What is printed of a well-made layout is UTF-8, by itself and inside arrays and maps.
#[tactic(auto, using(crate::proofs::Utf8Lemmas::laws))]
pub fn what_is_printed_is_utf8()
    ensures alone { (x : Layout) → IsWellMadeLayout x → IsUtf8 (printed x) }
    ensures inside { (x : Layout) → IsWellMadeLayout x → IsUtf8 (printed_with quoted x) }
{}
