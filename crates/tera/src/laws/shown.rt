//! What a page shows of a value.
ghost use Rattle.std.specs.Prelude.{◌≡◌, ℕ, false, List};
ghost use Rattle.tera.specs.Entities.{SpecialBeginEntities};
ghost use Rattle.tera.specs.InPage.{ShowsInPage};
ghost use Rattle.tera_meaning.specs.Form.{Form};
ghost use Rattle.tera_meaning.specs.Meaning.{layout};
ghost use Rattle.tera_meaning.specs.Printed.{IsExact, shown_in_page};
ghost use Rattle.tera_meaning.specs.Read.{safe_in};

/// A value with one printed text shows one text. A value that is not safe shows no special byte but
/// the `&` of an entity.
pub fn pages_show_values()
    ensures known { (value : Form) (shown : List ℕ) → IsExact (layout value)
        → ShowsInPage value shown → shown ≡ shown_in_page value }
    ensures escaped { (value : Form) (shown : List ℕ) → safe_in value ≡ false
        → ShowsInPage value shown → SpecialBeginEntities shown }
{}
