//! Reads templates: what a text spells as a tree, or where it spells none.
ghost use Rattle.std.specs.Prelude.{◌≡◌, ◌<◌, ◌≤◌, [], IfOk, IfErr, IfSome, IsTrue};
ghost use Rattle.std.specs.Prelude.{MatchResult, None, Some, length};
ghost use Rattle.std.specs.Option.{option_map};
ghost use Rattle.std.specs.Result.{IsOkAnd};
ghost use Rattle.tera.specs.Errors.{IsOutOfMemory};
ghost use Rattle.tera_page.specs.Grammar.{IsPlain, Spells, SpellsElse, SpellsEnd, SpellsTag};
ghost use Rattle.tera_page.specs.Grammar.{elif_tag, else_tag};
ghost use Rattle.tera_page.specs.Places.{EndsWith};
ghost use Rattle.tera_page.specs.Reading.{IsChoice, IsFaultOf, IsLastStep, IsLoop, IsSection};
ghost use Rattle.tera_page.specs.Reading.{IsStep, IsSyntaxError, StopsAt, end_tag, rest_of};
ghost use Rattle.tera_page.specs.declared.fault.Fault.TheVariants.{Memory};
ghost use Rattle.tera_page.specs.Tokens.{tag_of};
ghost use Rattle.tera_page.specs.Expressions.{Writes};
ghost use Rattle.tera_page.specs.View.{bound_of, parts_of, tree_of, written_of};

use crate::expression::read_written;
use crate::fault::Fault;
use crate::symbol::Unread;
use crate::token::{Tag, Token, take_token};
use crate::tree::{Bound, Node, Template, Written};
use std::alloc::Global;
use tera::TeraResult;

/// How deep `if`, `elif` and `for` may nest. Each `elif` is a level deeper than what is before it.
pub const LEVELS: usize = 64;

/// The template that a text spells. A text that holds none of `{{`, `{%` and `{#` spells one.
///
/// Refuses a text that it does not read with a report of the text: `This is not read` at the first
/// thing that it does not read, or at the end; `More than 64 levels` at a tag inside as many
/// others; `More than 128 words and signs` where a longer expression stands; and `There is no such
/// filter` where one is named that there is not. Takes memory; want of it, `Out of memory`, is
/// answered in the place of all else. The place is one in the text. No clause says which of these
/// is due when, nor at which of its places.
pub fn parse(alloc: Global, text: &str) -> TeraResult<Template<'_>>
    ensures ok { IfOk result (λ template. Spells (tree_of template) text.now) }
    ensures err { IfErr result (IsSyntaxError [] text.now) }
    ensures plain { IsPlain text.now → IfErr result IsOutOfMemory }
{
    parse_named(alloc, "", text)
}

/// The template that the text of a file of that name spells: what `parse` answers, but with the
/// name in the report of what is refused.
pub fn parse_named<'a>(alloc: Global, name: &str, text: &'a str) -> TeraResult<Template<'a>>
    ensures ok { IfOk result (λ template. Spells (tree_of template) text.now) }
    ensures err { IfErr result (IsSyntaxError name.now text.now) }
    ensures plain { IsPlain text.now → IfErr result IsOutOfMemory }
{
    match read_template(alloc, text) {
        Ok(template) => Ok(template),
        Err(fault) => Err(fault.into_error(alloc, name, text)),
    }
}

// The template that a text spells.
fn read_template(alloc: Global, text: &str) -> Result<Template<'_>, Fault<'_>>
    ensures ok { IfOk result (λ template. Spells (tree_of template) text.now) }
    ensures err { IfErr result (IsFaultOf text.now) }
    ensures plain { IsPlain text.now → IfErr result (λ fault. fault ≡ Memory) }
{
    let read = read_nodes(alloc, text, LEVELS)?;
    match read.stop {
        Some(_) => Err(Fault::Bad(read.at)),
        None => Ok(Template::new(read.nodes)),
    }
}

// The parts up to a tag that is none of theirs, or up to the end.
#[derive(Drop)]
struct Section<'a> {
    nodes: Vec<Node<'a>>,
    // that tag
    stop: Option<Tag<'a>>,
    // the text from that tag on, and the text behind it
    at: &'a str,
    rest: &'a str,
}

// Reads parts.
#[cycle(read)]
fn read_nodes<'a>(alloc: Global, text: &'a str, levels: usize) -> Result<Section<'a>, Fault<'a>>
    ensures ok { IfOk result (λ read. IsSection read text.now) }
    ensures err { IfErr result (IsFaultOf text.now) }
    ensures within { IfOk result (λ read. length read.rest.now ≤ length text.now) }
    ensures plain { IsPlain text.now
        → MatchResult result (λ read. read.stop ≡ None) (λ fault. fault ≡ Memory) }
{
    let mut nodes = Vec::new(alloc);
    let mut rest = text;
    'parts: while !rest.is_empty() {
        match read_node(alloc, rest, levels)? {
            Step::Node(node, after) => {
                nodes.push(node)?;
                rest = after;
            }
            Step::Stop(tag, after) => {
                return Ok(Section {
                    nodes,
                    stop: Some(tag),
                    at: rest,
                    rest: after,
                });
            }
        }
    }
    Ok(Section {
        nodes,
        stop: None,
        at: rest,
        rest,
    })
}

// What is next in a template: a part, or a tag that is none of a part's beginning.
#[derive(Drop)]
enum Step<'a> {
    Node(Node<'a>, &'a str),
    Stop(Tag<'a>, &'a str),
}

// Reads a part.
#[cycle(read)]
fn read_node<'a>(alloc: Global, text: &'a str, levels: usize) -> Result<Step<'a>, Fault<'a>>
    ensures ok { IfOk result (λ step. IsStep step text.now) }
    ensures err { IfErr result (IsFaultOf text.now) }
    ensures shorter { IfOk result (λ step. length (rest_of step) < length text.now) }
    ensures plain { IsPlain text.now → 0 < length text.now → IsOkAnd result IsLastStep }
{
    let Some((token, rest)) = take_token(text) else {
        return Err(Fault::Bad(text));
    };
    match token {
        Token::Run(run) => Ok(Step::Node(Node::Text(run), rest)),
        Token::Comment(said) => Ok(Step::Node(Node::Comment(said), rest)),
        Token::Show(said, how) => {
            let written = written_in(alloc, said, text)?;
            Ok(Step::Node(Node::Show { written, how }, rest))
        }
        Token::Tag(tag) => read_tag(alloc, tag, text, rest, levels),
    }
}

// The expression that a text writes, in the tag that begins `from`.
fn written_in<'a>(alloc: Global, said: &'a str, from: &'a str) -> Result<Written<'a>, Fault<'a>>
    ensures ok { IfOk result (λ written. Writes (written_of written) said.now from.now) }
    ensures err { IfErr result (IsFaultOf from.now) }
{
    match read_written(alloc, said, from) {
        Ok(written) => Ok(written),
        Err(Unread::Memory) => Err(Fault::Memory),
        Err(Unread::Bad) => Err(Fault::Bad(from)),
        Err(Unread::Long) => Err(Fault::Long(from)),
        Err(Unread::Unnamed) => Err(Fault::Unnamed(from)),
    }
}

// Reads what a tag begins, which begins `from`.
#[cycle(read)]
fn read_tag<'a>(
    alloc: Global,
    tag: Tag<'a>,
    from: &'a str,
    rest: &'a str,
    levels: usize,
) -> Result<Step<'a>, Fault<'a>>
    ensures step { IfOk result (λ step. SpellsTag (tag_of tag.entry) from.now rest.now
        → IsStep step from.now) }
    ensures err { IfErr result (λ fault. SpellsTag (tag_of tag.entry) from.now rest.now
        → IsFaultOf from.now fault) }
    ensures within { IfOk result (λ step. length (rest_of step) ≤ length rest.now) }
{
    match tag {
        Tag::If(said) => {
            let (node, rest) = read_if(alloc, said, from, rest, levels)?;
            Ok(Step::Node(node, rest))
        }
        Tag::For(bound, said) => {
            let (node, rest) = read_for(alloc, bound, said, from, rest, levels)?;
            Ok(Step::Node(node, rest))
        }
        Tag::Set(name, said) => {
            let written = written_in(alloc, said, from)?;
            Ok(Step::Node(Node::Set { name, written }, rest))
        }
        other => Ok(Step::Stop(other, rest)),
    }
}

// Reads what stands behind an `if` or an `elif` tag, which begins `from`, up to the end of the
// choice.
#[cycle(read)]
fn read_if<'a>(
    alloc: Global,
    said: &'a str,
    from: &'a str,
    text: &'a str,
    levels: usize,
) -> Result<(Node<'a>, &'a str), Fault<'a>>
    ensures read { IfOk result
        (λ read. IsChoice said.now from.now read.0 text.now read.1.now) }
    ensures err { IfErr result (λ fault. EndsWith from.now text.now → IsFaultOf from.now fault) }
    ensures within { IfOk result (λ read. length read.1.now ≤ length text.now) }
{
    if levels == 0 {
        return Err(Fault::Deep(from));
    }
    let test = written_in(alloc, said, from)?;
    let Section {
        nodes,
        stop,
        at,
        rest,
    } = read_nodes(alloc, text, levels - 1)?;
    let (otherwise, rest) = read_else(alloc, stop, at, rest, levels - 1)?;
    Ok((
        Node::If {
            test,
            then: nodes,
            otherwise,
        },
        rest,
    ))
}

// Reads what stands behind a `for` tag, which begins `from`, up to the end of the loop.
#[cycle(read)]
fn read_for<'a>(
    alloc: Global,
    bound: Bound<'a>,
    said: &'a str,
    from: &'a str,
    text: &'a str,
    levels: usize,
) -> Result<(Node<'a>, &'a str), Fault<'a>>
    ensures read { IfOk result
        (λ read. IsLoop (bound_of bound.entry) said.now from.now read.0 text.now
        read.1.now) }
    ensures err { IfErr result (λ fault. EndsWith from.now text.now → IsFaultOf from.now fault) }
    ensures within { IfOk result (λ read. length read.1.now ≤ length text.now) }
{
    if levels == 0 {
        return Err(Fault::Deep(from));
    }
    let over = written_in(alloc, said, from)?;
    let Section {
        nodes,
        stop,
        at,
        rest,
    } = read_nodes(alloc, text, levels - 1)?;
    let (otherwise, rest) = read_end(alloc, End::For, stop, at, rest, levels - 1)?;
    Ok((
        Node::For {
            bound,
            over,
            body: nodes,
            otherwise,
        },
        rest,
    ))
}

// Reads what a choice has otherwise, where its first parts stopped at a tag.
#[cycle(read)]
fn read_else<'a>(
    alloc: Global,
    stop: Option<Tag<'a>>,
    at: &'a str,
    rest: &'a str,
    levels: usize,
) -> Result<(Vec<Node<'a>>, &'a str), Fault<'a>>
    ensures spells { IfOk result (λ read. StopsAt stop.entry at.now rest.now
        → SpellsElse (parts_of read.0.items) at.now read.1.now) }
    ensures err { IfErr result (λ fault. StopsAt stop.entry at.now rest.now
        → IsFaultOf at.now fault) }
    ensures within { IfOk result (λ read. length read.1.now ≤ length rest.now) }
{
    let Some(next) = elif(stop) else {
        return read_end(alloc, End::If, stop, at, rest, levels);
    };
    let (node, rest) = read_if(alloc, next, at, rest, levels)?;
    let mut otherwise = Vec::new(alloc);
    otherwise.push(node)?;
    Ok((otherwise, rest))
}

// What an `elif` tag says behind its word.
fn elif<'a>(stop: Option<Tag<'a>>) -> Option<&'a str>
    ensures { IfSome result
        (λ said. option_map tag_of stop.entry ≡ Some (elif_tag said.now)) }
{
    match stop? {
        Tag::Elif(said) => Some(said),
        _ => None,
    }
}

/// Which tag ends what is opened.
#[derive(Clone, Copy)]
pub(crate) enum End {
    If,
    For,
}

// Reads what a choice or a loop has otherwise, up to its end, where its first parts stopped at a
// tag.
#[cycle(read)]
fn read_end<'a>(
    alloc: Global,
    end: End,
    stop: Option<Tag<'a>>,
    at: &'a str,
    rest: &'a str,
    levels: usize,
) -> Result<(Vec<Node<'a>>, &'a str), Fault<'a>>
    ensures spells { IfOk result (λ read. StopsAt stop.entry at.now rest.now
        → SpellsEnd (end_tag end) (parts_of read.0.items) at.now read.1.now) }
    ensures err { IfErr result (λ fault. StopsAt stop.entry at.now rest.now
        → IsFaultOf at.now fault) }
    ensures within { IfOk result (λ read. length read.1.now ≤ length rest.now) }
{
    if is_end(end, stop) {
        return Ok((Vec::new(alloc), rest));
    }
    if !is_else(stop) {
        return Err(Fault::Bad(at));
    }
    let Section {
        nodes,
        stop,
        at,
        rest,
    } = read_nodes(alloc, rest, levels)?;
    if is_end(end, stop) {
        Ok((nodes, rest))
    } else {
        Err(Fault::Bad(at))
    }
}

// Whether a tag is `else`.
fn is_else(stop: Option<Tag<'_>>) -> bool
    ensures { IsTrue result → option_map tag_of stop.entry ≡ Some else_tag }
{
    matches!(stop, Some(Tag::Else))
}

// Whether a tag is the end.
fn is_end(end: End, stop: Option<Tag<'_>>) -> bool
    ensures { IsTrue result → option_map tag_of stop.entry ≡ Some (end_tag end) }
{
    match (end, stop) {
        (End::If, Some(Tag::EndIf)) => true,
        (End::For, Some(Tag::EndFor)) => true,
        _ => false,
    }
}
