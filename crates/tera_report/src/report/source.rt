//! The lines of a source.
ghost use Rattle.std.specs.Prelude.{◌≡◌, ◌<◌, ◌-◌, ◌++◌, ◌∷◌, ◌⊎◌, length, drop, IfSome, IfNone};
ghost use Rattle.tera_report.specs.Parts.{HasNoLineFeed, line_feed};
ghost use Rattle.tera_report.specs.Report.{numbered_line, pieces_of};

use memchr::memchr;

/// The line of that number, counted from 1, without its line feed; empty where there is none.
#[tactic(auto, using(crate::proofs::PartLaws::line_from, crate::proofs::PartLaws::no_line_of))]
pub(super) fn numbered_line(source: &str, number: usize) -> &str
    ensures { result.now ≡ numbered_line source.now number }
{
    match from_line(source, number) {
        Some(rest) => first_line(rest),
        None => "",
    }
}

/// The source from the line of that number on, counted from 1, if it has one. Takes no memory.
pub fn from_line(source: &str, number: usize) -> Option<&str>
    ensures found { IfSome result (λ rest. (0 < number)
        × (pieces_of rest.now ≡ drop (number - 1) (pieces_of source.now))) }
    ensures none { IfNone result ((number ≡ 0) ⊎ (length (pieces_of source.now) < number)) }
{
    let before = number.checked_sub(1)?;
    let mut rest = source;
    for line in 0..before {
        let (_, later) = split_line(rest)?;
        rest = later;
    }
    Some(rest)
}

// What stands before the first line feed, or all where there is none.
#[tactic(auto, using(crate::proofs::PartLaws::first_line, crate::proofs::PartLaws::only_line))]
fn first_line(text: &str) -> &str
    ensures { result.now ≡ numbered_line text.now 1 }
{
    match split_line(text) {
        Some((line, _)) => line,
        None => text,
    }
}

// What stands before the first line feed, and after it.
fn split_line(text: &str) -> Option<(&str, &str)>
    ensures found { IfSome result (λ parts. HasNoLineFeed parts.0.now
        × (text.now ≡ parts.0.now ++ line_feed ∷ parts.1.now)) }
    ensures none { IfNone result (HasNoLineFeed text.now) }
{
    let at = memchr(b'\n', text.as_bytes())?;
    Some((&text[..at], &text[at + 1..]))
}
