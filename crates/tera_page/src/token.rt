//! What a template is read in: runs of text, comments, values and tags.
ghost use Rattle.std.specs.Prelude.{◌≡◌, ◌++◌, ◌-◌, ◌≤◌, ◌<◌, ◌∷◌, [], ℕ, List, IfSome, IfNone};
ghost use Rattle.std.specs.Prelude.{true, false, cond, take, drop, codes, length, slice_index};
ghost use Rattle.std.specs.Option.{IsSomeAnd};
ghost use Rattle.tera_filters.specs.Parts.{NotBefore};
ghost use Rattle.tera_page.specs.Grammar.{Binds, DashFirst, DashLast, Filtered, InTag, IsBound};
ghost use Rattle.tera_page.specs.Grammar.{IsPlain, Marked, NoneOpens, closing, filter_of};
ghost use Rattle.tera_page.specs.Grammar.{leaves_out, opening, opens, opens_dashed};
ghost use Rattle.tera_page.specs.Tokens.{IsBareTag, IsForTag, IsLastRun, IsSetTag, SpellsToken};
ghost use Rattle.tera_page.specs.Tokens.{begins, mark_of, tag_of};
ghost use Rattle.tera_page.specs.View.{bound_of, showing_of};
ghost use Rattle.tera_page.specs.Words.{AreBlanks, is_blank};

use crate::tree::{Bound, Showing};
use crate::word::{
    are_blanks, behind, cut_at, cut_last, is_blank, is_name, next_word, only_word, past_blanks,
};

/// What a tag says: of an expression its text, which is not read yet.
#[derive(Clone, Copy)]
pub(crate) enum Tag<'a> {
    If(&'a str),
    Elif(&'a str),
    Else,
    EndIf,
    For(Bound<'a>, &'a str),
    EndFor,
    Set(&'a str, &'a str),
}

/// The next thing in a template.
#[derive(Clone, Copy)]
pub(crate) enum Token<'a> {
    /// A text in which nothing begins.
    Run(&'a str),
    Comment(&'a str),
    Show(&'a str, Showing),
    Tag(Tag<'a>),
}

/// What a value, a tag or a comment stands between.
#[derive(Clone, Copy)]
pub(crate) enum Mark {
    Value,
    Tag,
    Comment,
}

fn opening(mark: Mark) -> &'static str
    ensures { result.now ≡ opening (mark_of mark) }
{
    match mark {
        Mark::Value => "{{",
        Mark::Tag => "{%",
        Mark::Comment => "{#",
    }
}

fn closing(mark: Mark) -> &'static str
    ensures { result.now ≡ closing (mark_of mark) }
{
    match mark {
        Mark::Value => "}}",
        Mark::Tag => "%}",
        Mark::Comment => "#}",
    }
}

/// The first token of a text, and what stands behind it. None where none is spelled, as of an empty
/// text.
pub(crate) fn take_token(text: &str) -> Option<(Token<'_>, &str)>
    ensures spelled { IfSome result (λ taken. SpellsToken taken.0 text.now taken.1.now) }
    ensures shorter { IfSome result (λ taken. length taken.1.now < length text.now) }
    ensures plain { IsPlain text.now → 0 < length text.now
        → IsSomeAnd result (λ taken. IsLastRun taken.0 taken.1.now) }
{
    let run = run_len(text.as_bytes());
    if run > 0 {
        let (run, rest) = text.split_at(run);
        return Some((Token::Run(run), rest));
    }
    if let Some((said, rest)) = marked(text, Mark::Value) {
        let (shown, how) = show_in(said);
        return Some((Token::Show(shown, how), rest));
    }
    if let Some((said, rest)) = marked(text, Mark::Tag) {
        return Some((Token::Tag(tag_in(said)?), rest));
    }
    let (said, rest) = marked(text, Mark::Comment)?;
    Some((Token::Comment(said), rest))
}

// What is said between two marks, which begin a text maybe behind blanks that are left out, and
// what stands behind them and behind blanks that are left out.
fn marked(text: &str, mark: Mark) -> Option<(&str, &str)>
    ensures marked { (0 < length text.now → begins text.now ≡ true)
        → IfSome result (λ found. Marked (mark_of mark) found.0.now text.now found.1.now) }
    ensures shorter { IfSome result (λ found. length found.1.now < length text.now) }
{
    let (_, front) = past_blanks(text);
    let (inner, behind) = between(front, mark)?;
    let (_, ahead) = dash_first(inner);
    let (last, said) = dash_last(ahead);
    if last {
        let (_, rest) = past_blanks(behind);
        Some((said, rest))
    } else {
        Some((said, behind))
    }
}

// What stands between a mark at the front of a text and the first that closes it, and behind them.
fn between(text: &str, mark: Mark) -> Option<(&str, &str)>
    ensures whole { IfSome result (λ found. text.now
        ≡ opening (mark_of mark) ++ (found.0.now ++ (closing (mark_of mark) ++ found.1.now))) }
    ensures first { IfSome result (λ found. NotBefore (closing (mark_of mark))
        (length found.0.now) (found.0.now ++ (closing (mark_of mark) ++ found.1.now))) }
{
    cut_at(behind(text, opening(mark))?, closing(mark))
}

// Whether a `-` is first, and what stands behind it, or all.
fn dash_first(text: &str) -> (bool, &str)
    ensures { DashFirst result.0 text.now result.1.now }
{
    match text.strip_prefix('-') {
        Some(rest) => (true, rest),
        None => (false, text),
    }
}

// Whether a `-` is last, and what stands before it, or all.
fn dash_last(text: &str) -> (bool, &str)
    ensures { DashLast result.0 text.now result.1.now }
{
    match text.strip_suffix('-') {
        Some(front) => (true, front),
        None => (false, text),
    }
}

// How many bytes stand before the first place where something begins, without blanks that it
// leaves out.
fn run_len(bytes: &[u8]) -> usize
    ensures within { result ≤ length bytes.now }
    ensures run { NoneOpens result bytes.now }
    ensures solid { leaves_out (drop result bytes.now) ≡ true → 0 < result
        → is_blank (slice_index bytes.now (result - 1)) ≡ false }
    ensures ascii { result < length bytes.now → slice_index bytes.now result < 128 }
    ensures begins { 0 < length bytes.now → result ≡ 0 → begins bytes.now ≡ true }
    ensures plain { IsPlain bytes.now → result ≡ length bytes.now }
{
    let mut solid = 0usize;
    for at in 0..bytes.len() {
        if opens(&bytes[at..]) {
            return if opens_dashed(&bytes[at..]) {
                solid
            } else {
                at
            };
        }
        solid = at_blank(bytes[at], solid, at + 1);
    }
    bytes.len()
}

// The first of two numbers at a blank, and else the second.
fn at_blank(byte: u8, kept: usize, other: usize) -> usize
    ensures { result ≡ cond (is_blank byte) kept other }
{
    if is_blank(byte) { kept } else { other }
}

// Whether something begins there.
fn opens(bytes: &[u8]) -> bool
    ensures { result ≡ opens bytes.now }
{
    match bytes {
        [first, second, ..] => {
            *first == b'{' && (*second == b'{' || *second == b'%' || *second == b'#')
        }
        _ => false,
    }
}

// Whether something begins there with a `-`.
fn opens_dashed(bytes: &[u8]) -> bool
    ensures { result ≡ opens_dashed bytes.now }
{
    match bytes {
        [first, second, third, ..] => opens(&[*first, *second]) && *third == b'-',
        _ => false,
    }
}

// The text of the expression that is shown, and how it is.
fn show_in(inner: &str) -> (&str, Showing)
    ensures { Filtered result.0.now (showing_of result.1) inner.now }
{
    match filtered(inner) {
        Some(shown) => shown,
        None => (inner, Showing::InPage),
    }
}

// What stands before the last `|`, and what the filter behind it asks for.
fn filtered(inner: &str) -> Option<(&str, Showing)>
    ensures { IfSome result (λ shown. Filtered shown.0.now (showing_of shown.1) inner.now) }
{
    let (left, right) = cut_last(inner, "|")?;
    Some((left, filter(only_word(right)?)?))
}

// What a filter asks for.
fn filter(word: &str) -> Option<Showing>
    ensures { IfSome result (λ how. word.now ≡ filter_of (showing_of how)) }
{
    if word == "safe" {
        Some(Showing::AsPrinted)
    } else if word == "escape" {
        Some(Showing::InPage)
    } else {
        None
    }
}

// What a tag says.
fn tag_in(inner: &str) -> Option<Tag<'_>>
    ensures { IfSome result (λ tag. InTag (tag_of tag) inner.now) }
{
    let (verb, rest) = next_word(inner);
    if verb == "if" {
        Some(Tag::If(rest))
    } else if verb == "elif" {
        Some(Tag::Elif(rest))
    } else if verb == "for" {
        for_in(rest)
    } else if verb == "set" {
        set_in(rest)
    } else {
        bare_tag(verb, rest)
    }
}

// What a `for` tag says behind its first word.
fn for_in(text: &str) -> Option<Tag<'_>>
    ensures { IfSome result (λ tag. IsForTag (tag_of tag) text.now) }
{
    let (bound, rest) = bound_in(text)?;
    let (between, rest) = next_word(rest);
    if between == "in" {
        Some(Tag::For(bound, rest))
    } else {
        None
    }
}

// What a `set` tag says behind its first word.
fn set_in(text: &str) -> Option<Tag<'_>>
    ensures { IfSome result (λ tag. IsSetTag (tag_of tag) text.now) }
{
    let (left, said) = cut_at(text, "=")?;
    let name = only_word(left)?;
    if is_name(name) {
        Some(Tag::Set(name, said))
    } else {
        None
    }
}

// What a loop binds, and what stands behind it.
fn bound_in(text: &str) -> Option<(Bound<'_>, &str)>
    ensures proper { IfSome result (λ bound. IsBound (bound_of bound.0)) }
    ensures binds { IfSome result (λ bound. Binds (bound_of bound.0) text.now bound.1.now) }
{
    match pair_in(text) {
        Some(bound) => Some(bound),
        None => item_in(text),
    }
}

// The two names that a loop binds, and what stands behind them.
fn pair_in(text: &str) -> Option<(Bound<'_>, &str)>
    ensures proper { IfSome result (λ bound. IsBound (bound_of bound.0)) }
    ensures binds { IfSome result (λ bound. Binds (bound_of bound.0) text.now bound.1.now) }
{
    let (left, right) = cut_at(text, ",")?;
    let key = only_word(left)?;
    let (value, rest) = next_word(right);
    if is_name(key) && is_name(value) {
        Some((Bound::Pair(key, value), rest))
    } else {
        None
    }
}

// The one name that a loop binds, and what stands behind it.
fn item_in(text: &str) -> Option<(Bound<'_>, &str)>
    ensures proper { IfSome result (λ bound. IsBound (bound_of bound.0)) }
    ensures binds { IfSome result (λ bound. Binds (bound_of bound.0) text.now bound.1.now) }
{
    let (name, rest) = next_word(text);
    if is_name(name) {
        Some((Bound::Item(name), rest))
    } else {
        None
    }
}

// What a tag of one word says.
fn bare_tag<'a>(verb: &'a str, rest: &'a str) -> Option<Tag<'a>>
    ensures { IfSome result (λ tag. IsBareTag (tag_of tag) verb.now × AreBlanks rest.now) }
{
    if !are_blanks(rest.as_bytes()) {
        None
    } else if verb == "else" {
        Some(Tag::Else)
    } else if verb == "endif" {
        Some(Tag::EndIf)
    } else if verb == "endfor" {
        Some(Tag::EndFor)
    } else {
        None
    }
}
