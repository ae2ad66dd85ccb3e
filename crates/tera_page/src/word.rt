//! The words of tags, and texts between marks.
ghost use Rattle.std.specs.Prelude.{◌≡◌, ◌++◌, ◌≤◌, ◌<◌, [], ◌∷◌, ℕ, IfSome, length, take};
ghost use Rattle.std.specs.Prelude.{slice_index, true, false};
ghost use Rattle.std.specs.List.{list_all};
ghost use Rattle.tera_filters.specs.Parts.{NotBefore};
ghost use Rattle.tera_page.specs.Grammar.{begins_blank};
ghost use Rattle.tera_page.specs.Words.{AreBlanks, IsNext, IsPlace, Words, are_elements, is_blank};
ghost use Rattle.tera_page.specs.Words.{is_loop_name, is_name, is_name_byte, is_name_start};
ghost use Rattle.tera_page.specs.Words.{is_word_of_language, place_text};
ghost use Rattle.tera_page.specs.View.{place_of};

use crate::tree::Place;

/// Whether a byte is a space, a tab, a line feed or a carriage return.
pub(crate) fn is_blank(byte: u8) -> bool
    ensures { result ≡ is_blank byte }
{
    byte == b' ' || byte == b'\t' || byte == b'\n' || byte == b'\r'
}

fn is_name_start(byte: u8) -> bool
    ensures { result ≡ is_name_start byte }
{
    byte.is_ascii_alphabetic() || byte == b'_'
}

/// Whether a byte is a letter, a digit or `_`.
pub(crate) fn is_name_byte(byte: u8) -> bool
    ensures { result ≡ is_name_byte byte }
{
    byte.is_ascii_alphanumeric() || byte == b'_'
}

/// What stands before a mark, and what stands after it, where it stands in the text first.
pub(crate) fn cut_at<'a>(text: &'a str, mark: &'static str) -> Option<(&'a str, &'a str)>
    ensures whole { IfSome result (λ cut. text.now ≡ cut.0.now ++ (mark.now ++ cut.1.now)) }
    ensures first { IfSome result (λ cut. NotBefore mark.now (length cut.0.now) text.now) }
{
    text.split_once(mark)
}

/// What stands before a mark, and what stands after it, where it stands in the text last.
pub(crate) fn cut_last<'a>(text: &'a str, mark: &'static str) -> Option<(&'a str, &'a str)>
    ensures { IfSome result (λ cut. text.now ≡ cut.0.now ++ (mark.now ++ cut.1.now)) }
{
    text.rsplit_once(mark)
}

/// What stands behind a mark, where the text begins with it.
pub(crate) fn behind<'a>(text: &'a str, mark: &'static str) -> Option<&'a str>
    ensures { IfSome result (λ rest. text.now ≡ mark.now ++ rest.now) }
{
    text.strip_prefix(mark)
}

/// The next word, which is empty where there is none, and what stands behind it.
pub(crate) fn next_word(text: &str) -> (&str, &str)
    ensures { IsNext text.now result.0.now result.1.now }
{
    let (_, rest) = text.split_at(blanks(text.as_bytes()));
    rest.split_at(word_len(rest.as_bytes()))
}

/// The blanks that stand at the front, and what stands behind them.
pub(crate) fn past_blanks(text: &str) -> (&str, &str)
    ensures whole { text.now ≡ result.0.now ++ result.1.now }
    ensures blanks { AreBlanks result.0.now }
    ensures all { begins_blank result.1.now ≡ false }
{
    text.split_at(blanks(text.as_bytes()))
}

// How many blanks stand at the front.
#[tactic(auto, using(crate::proofs::Fronts::blanks_before))]
fn blanks(bytes: &[u8]) -> usize
    ensures within { result ≤ length bytes.now }
    ensures blanks { AreBlanks (take result bytes.now) }
    ensures each { (i : ℕ) → i < result → is_blank (slice_index bytes.now i) ≡ true }
    ensures all { result < length bytes.now → is_blank (slice_index bytes.now result) ≡ false }
{
    for at in 0..bytes.len() {
        if !is_blank(bytes[at]) {
            return at;
        }
    }
    bytes.len()
}

// How many bytes that are no blank stand at the front.
fn word_len(bytes: &[u8]) -> usize
    ensures within { result ≤ length bytes.now }
    ensures ends { result < length bytes.now → is_blank (slice_index bytes.now result) ≡ true }
{
    for at in 0..bytes.len() {
        if is_blank(bytes[at]) {
            return at;
        }
    }
    bytes.len()
}

/// Whether no word is left.
pub(crate) fn are_blanks(bytes: &[u8]) -> bool
    ensures { result ≡ list_all is_blank bytes.now }
{
    bytes.iter().all(|byte| is_blank(*byte))
}

/// The only word of a text, where it has one.
pub(crate) fn only_word(text: &str) -> Option<&str>
    ensures { IfSome result (λ word. Words (word.now ∷ []) text.now) }
{
    let (word, rest) = next_word(text);
    if are_blanks(rest.as_bytes()) {
        Some(word)
    } else {
        None
    }
}

/// The place that a word writes: a name, and maybe a path behind a dot; or a name of a loop's turn.
pub(crate) fn place_in(word: &str) -> Option<Place<'_>>
    ensures written { IfSome result (λ at. word.now ≡ place_text (place_of at)) }
    ensures proper { IfSome result (λ at. IsPlace (place_of at)) }
{
    if is_loop_name(word) {
        return Some(Place {
            name: word,
            to: None,
        });
    }
    match cut_at(word, ".") {
        Some((name, to)) => {
            if is_name(name) && are_elements(to.as_bytes()) {
                Some(Place { name, to: Some(to) })
            } else {
                None
            }
        }
        None => {
            if is_name(word) {
                Some(Place {
                    name: word,
                    to: None,
                })
            } else {
                None
            }
        }
    }
}

// Whether a word is a name of a loop's turn.
fn is_loop_name(word: &str) -> bool
    ensures { result ≡ is_loop_name word.now }
{
    word == "loop.first" || word == "loop.index" || word == "loop.index0" || word == "loop.last"
}

/// Whether a word is a name: letters, digits and `_`, with no digit first, and no word of the
/// language.
pub(crate) fn is_name(word: &str) -> bool
    ensures { result ≡ is_name word.now }
{
    match word.as_bytes() {
        [] => false,
        [first, others @ ..] => {
            is_name_start(*first) && are_name_bytes(others) && !is_word_of_language(word)
        }
    }
}

fn are_name_bytes(bytes: &[u8]) -> bool
    ensures { result ≡ list_all is_name_byte bytes.now }
{
    bytes.iter().all(|byte| is_name_byte(*byte))
}

// Whether a word is one of the language, and so no name.
fn is_word_of_language(word: &str) -> bool
    ensures { result ≡ is_word_of_language word.now }
{
    word == "and"
        || word == "false"
        || word == "in"
        || word == "is"
        || word == "loop"
        || word == "none"
        || word == "not"
        || word == "or"
        || word == "true"
}

// Whether elements with dots between them are made of letters, digits and `_`, and none is empty.
fn are_elements(bytes: &[u8]) -> bool
    ensures { result ≡ are_elements false bytes.now }
{
    let mut begun = false;
    for byte in bytes {
        if *byte == b'.' {
            if !begun {
                return false;
            }
            begun = false;
        } else {
            if !is_name_byte(*byte) {
                return false;
            }
            begun = true;
        }
    }
    begun
}
