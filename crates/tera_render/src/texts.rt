//! Texts by their names.
ghost use Rattle.std.specs.Prelude.{ℕ, List, Result, String};
ghost use Rattle.std.specs.declared.alloc.Global.{Global};
ghost use Rattle.tera_render.specs.declared.fault.Unread.{Unread};

use crate::fault::Unread;

/// Where texts are read by their names.
///
/// What is proved over this trait holds whatever `gave` is. So a clause that says that a name gave
/// a text says that a call with this name had this answer.
pub(crate) trait Texts {
    // the name was read with this answer
    ghost gave: { Self → List ℕ → Result (String Global) Unread → Type 0 };

    /// The text of that name.
    fn text(&self, name: &str) -> Result<String, Unread>
        ensures { gave self.now name.now result };
}
