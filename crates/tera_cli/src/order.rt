//! What a line of a conversation asks for.
ghost use Rattle.std.specs.Prelude.{◌≡◌, ◌≢◌, ◌∷◌, ℕ, List, MatchOption};
ghost use Rattle.std.specs.Bool.{MatchBool};
ghost use Rattle.tera_cli.specs.Order.{IsOrder, NamesFile, NamesNoFile};

/// What a line of a conversation asks for.
#[derive(Clone, Copy)]
pub(crate) enum Order<'a> {
    /// An answer, as a line of a script does.
    Answer,
    /// The end.
    Quit,
    /// The words that there are.
    Help,
    /// The names that there are.
    Names,
    /// The answers to the script in the file of this name.
    Load(&'a [u8]),
    /// The same of no file, which none is.
    LoadNone,
    /// The names and their values as a script, in the file of this name.
    Save(&'a [u8]),
    /// The same in no file, which none is.
    SaveNone,
    /// Nothing: it begins with a colon, and is none of these words.
    Unknown,
}

/// What a line asks for. No line of a script begins with a colon, behind blanks or not. Takes no
/// memory.
pub(crate) fn order_of(line: &[u8]) -> Order<'_>
    ensures { IsOrder line.now result }
{
    let word = line.trim_ascii();
    if !begins_with_colon(word) {
        Order::Answer
    } else if word == b":quit".as_slice() {
        Order::Quit
    } else if word == b":help".as_slice() {
        Order::Help
    } else if word == b":names".as_slice() {
        Order::Names
    } else if word == b":load".as_slice() {
        Order::LoadNone
    } else if word == b":save".as_slice() {
        Order::SaveNone
    } else if let Some(name) = file_behind(word, b":load".as_slice()) {
        Order::Load(name)
    } else if let Some(name) = file_behind(word, b":save".as_slice()) {
        Order::Save(name)
    } else {
        Order::Unknown
    }
}

// Whether a colon is the first byte.
fn begins_with_colon(word: &[u8]) -> bool
    ensures { MatchBool result ((order : List ℕ) × (word.now ≡ 58 ∷ order))
        ((order : List ℕ) → word.now ≢ 58 ∷ order) }
{
    if let Some(_) = word.strip_prefix(b":".as_slice()) {
        true
    } else {
        false
    }
}

// The name of a file behind a word and blanks.
fn file_behind<'a>(order: &'a [u8], word: &[u8]) -> Option<&'a [u8]>
    ensures { MatchOption result (NamesNoFile order.now word.now)
        (λ name. NamesFile order.now word.now name.now) }
{
    let Some(behind) = order.strip_prefix(word) else {
        return None;
    };
    let Some((first, _)) = behind.split_first() else {
        return None;
    };
    if first.is_ascii_whitespace() {
        Some(behind.trim_ascii())
    } else {
        None
    }
}
