//! Escaped bytes.
ghost use Rattle.std.specs.List.{AllByRecursion};
ghost use Rattle.std.specs.Prelude.{ℕ, List};
ghost use Rattle.tera_report.specs.Escaping.{Spells};
ghost use Rattle.tera.specs.Entities.{IsPlainOrAmpersand, SpecialBeginEntities};

/// Escaped bytes have none of `<`, `>`, `"` and `'`, and no `&` but that of an entity.
pub fn special_bytes_are_those_of_entities()
    ensures special { (bytes text : List ℕ) → Spells bytes text
        → AllByRecursion IsPlainOrAmpersand bytes }
    ensures entities { (bytes text : List ℕ) → Spells bytes text → SpecialBeginEntities bytes }
{}
