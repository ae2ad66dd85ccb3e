//! Files by their names.
ghost use Rattle.std.specs.Prelude.{ℕ, Bool, List, Option};

use std::io::BufRead;
use tera_replies::Source;

/// Where scripts are opened and written by their names.
///
/// What is proved over this trait holds whatever `opened` and `wrote` are. So a clause that says
/// that a name was opened says that it was opened by a call with this answer, and one that says
/// that the files are as they were says that none was written.
pub(crate) trait Files {
    type Script: Source + Drop;

    type Lines: BufRead + Drop;

    // the name was opened with this answer
    ghost opened: { Self → List ℕ → Option Self.Script → Type 0 };

    // the name was opened with this answer, line by line
    ghost opened_lines: { Self → List ℕ → Option Self.Lines → Type 0 };

    // the text was to be written to the file of that name, which was answered by whether it was
    ghost wrote: { Self → List ℕ → List ℕ → Bool → Self → Type 0 };

    /// The script of that name, where it can be read.
    fn open(&self, name: &str) -> Option<Self::Script>
        ensures { opened self.now name.now result };

    /// Its lines, where it can be read.
    fn open_lines(&self, name: &str) -> Option<Self::Lines>
        ensures { opened_lines self.now name.now result };

    /// Writes a text to the file of that name, in the place of what it holds, and says whether all
    /// of it was written.
    fn write(&mut self, name: &str, text: &str) -> bool
        ensures { wrote self.old name.now text.now result self.new };
}
