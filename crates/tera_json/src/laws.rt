//! The laws of documents that are read and written again.
ghost use Rattle.std.specs.Prelude.{◌≡◌, ℕ, List, [], Some};
ghost use Rattle.std.specs.Option.{option_map};
ghost use Rattle.json.specs.Json.{document};
ghost use Rattle.json.specs.Strict.{HasUniqueKeys};
ghost use Rattle.tera_json.specs.Documents.{IsRead, most_levels};
ghost use Rattle.tera_json.specs.Tidied.{tidied};
ghost use Rattle.tera_json.specs.Written.{document_of, value_misfits};
ghost use Rattle.tera_json.specs.declared.write.Lacking.{Lacking};
ghost use Rattle.tera_meaning.specs.Form.{Form};
ghost use Rattle.tera_meaning.specs.WellMade.{IsWellMade};

/// What is read and written again is the same document, but that -0 is 0, and that of equal names
/// the first has its place and the last its value. Blanks, and how texts are spelled, are no part
/// of a document. What is read is never refused where it is written. Takes no memory.
pub fn what_is_read_is_written_again()
    ensures same { (bytes : List ℕ) (v : Form) → IsRead bytes v
        → option_map tidied (document bytes) ≡ Some (document_of v) }
    ensures fits { (bytes : List ℕ) (v : Form) → IsRead bytes v → (lacking : Lacking)
        → value_misfits lacking most_levels v ≡ [] }
{}

/// Of a value that is not refused, no two members of an object are written by one name, at any
/// depth: that a key which is no text is also there as one is all that is refused of keys. Takes no
/// memory.
pub fn no_two_keys_are_written_alike()
    ensures { (v : Form) (lacking : Lacking) → IsWellMade v
        → value_misfits lacking most_levels v ≡ [] → HasUniqueKeys (document_of v) }
{}
