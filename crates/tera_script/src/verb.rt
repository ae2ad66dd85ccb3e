//! The words of the calls, and the request that each makes of its operands.
ghost use Rattle.std.specs.Prelude.{◌≡◌, true, false, IfSome, IsSome};
ghost use Rattle.std.specs.Option.{option_map};
ghost use Rattle.std.specs.Cow.{cow_str_bytes};
ghost use Rattle.tera_meaning.specs.Request.{ask, find, weigh};
ghost use Rattle.tera_meaning.specs.Search.{calculate};
ghost use Rattle.tera_scalars.specs.Operation.{operator_of};
ghost use Rattle.tera_values.specs.Converted.{integer_type};
ghost use Rattle.tera_context.specs.Request.{question_of, request_form, weighing_of};
ghost use Rattle.tera_script.specs.inner.Call.{IsKnown, IsLike, IsVerbOf, request_in};
ghost use Rattle.tera_script.specs.Verb.{row_of, word_of};
ghost use Rattle.tera_script.specs.declared.verb.Shape.TheVariants as shape;
ghost use Rattle.tera_script.specs.declared.verb.Verb.{Verb as VerbOf};

use crate::bound::Bounds;
use std::borrow::CowStr;
use tera_context::{BinaryOp, Context, IntType, Question, Request, Search, Weighing};
use tera_values::Value;

// A call, by its word.
#[derive(Clone, Copy)]
pub(crate) enum Verb {
    Set,
    Extend,
    Remove,
    Has,
    Get,
    Path,
    Attr,
    Item,
    Slice,
    Reverse,
    Add,
    Sub,
    Mul,
    Rem,
    FloorDiv,
    Pow,
    Negate,
    Read,
    Len,
    Truthy,
    Kind,
    IsSafe,
    MarkSafe,
    Equal,
    Compare,
    TryCompare,
    Contains,
    Print,
    Escape,
    Fields,
    Walk,
}

// What stands behind the word of a call.
#[derive(Clone, Copy)]
pub(crate) enum Shape {
    Name,
    Names,
    // A name and a text.
    Text,
    // A name and three bounds.
    Bounds,
    // An integer type and a name.
    Type,
    // A name and a literal.
    Literal,
    // A map whose keys are all texts.
    Map,
}

// A verb, what stands behind its word, and whether a name for what is found may follow that.
#[derive(Clone, Copy)]
pub(crate) struct Known {
    pub(crate) verb: Verb,
    pub(crate) shape: Shape,
    pub(crate) keeps: bool,
}

/// What is known of the verb of a word. `None` where it is no verb's. Takes no memory.
pub(crate) fn verb_in(word: &[u8]) -> Option<Known>
    ensures { IsVerbOf word.now result }
{
    let (first, others) = word.split_first()?;
    let (second, _) = others.split_first()?;
    let (known, spelled) = likely_verb(word.len(), *first, *second)?;
    if spelled == word { Some(known) } else { None }
}

// The one verb whose word has that length and begins with those two bytes, and its word.
fn likely_verb(len: usize, first: u8, second: u8) -> Option<(Known, &'static [u8])>
    ensures known { IfSome result (λ likely. IsKnown likely.0) }
    ensures word { IfSome result (λ likely. word_of likely.0.verb ≡ likely.1.now) }
    ensures like { IfSome result (λ likely. IsLike (word_of likely.0.verb) len first second) }
    ensures found { (verb : VerbOf) → IsLike (word_of verb) len first second → IsSome result }
{
    match (len, first, second) {
        (2, b'e', b'q') => Some((plain(Verb::Equal, Shape::Names), b"eq")),
        (3, b'a', b'd') => Some((keeping(Verb::Add, Shape::Names), b"add")),
        (3, b'c', b'm') => Some((plain(Verb::Compare, Shape::Names), b"cmp")),
        (3, b'g', b'e') => Some((keeping(Verb::Get, Shape::Name), b"get")),
        (3, b'h', b'a') => Some((plain(Verb::Has, Shape::Name), b"has")),
        (3, b'l', b'e') => Some((plain(Verb::Len, Shape::Name), b"len")),
        (3, b'm', b'u') => Some((keeping(Verb::Mul, Shape::Names), b"mul")),
        (3, b'p', b'o') => Some((keeping(Verb::Pow, Shape::Names), b"pow")),
        (3, b'r', b'e') => Some((keeping(Verb::Rem, Shape::Names), b"rem")),
        (3, b's', b'e') => Some((plain(Verb::Set, Shape::Literal), b"set")),
        (3, b's', b'u') => Some((keeping(Verb::Sub, Shape::Names), b"sub")),
        (4, b'a', b't') => Some((keeping(Verb::Attr, Shape::Text), b"attr")),
        (4, b'i', b't') => Some((keeping(Verb::Item, Shape::Names), b"item")),
        (4, b'k', b'i') => Some((plain(Verb::Kind, Shape::Name), b"kind")),
        (4, b'p', b'a') => Some((keeping(Verb::Path, Shape::Text), b"path")),
        (4, b'r', b'e') => Some((keeping(Verb::Read, Shape::Type), b"read")),
        (4, b'w', b'a') => Some((plain(Verb::Walk, Shape::Name), b"walk")),
        (5, b'p', b'r') => Some((plain(Verb::Print, Shape::Name), b"print")),
        (5, b's', b'l') => Some((keeping(Verb::Slice, Shape::Bounds), b"slice")),
        (6, b'e', b's') => Some((plain(Verb::Escape, Shape::Name), b"escape")),
        (6, b'e', b'x') => Some((plain(Verb::Extend, Shape::Map), b"extend")),
        (6, b'f', b'i') => Some((plain(Verb::Fields, Shape::Name), b"fields")),
        (6, b'n', b'e') => Some((keeping(Verb::Negate, Shape::Name), b"negate")),
        (6, b'r', b'e') => Some((plain(Verb::Remove, Shape::Name), b"remove")),
        (6, b't', b'r') => Some((plain(Verb::Truthy, Shape::Name), b"truthy")),
        (7, b'r', b'e') => Some((keeping(Verb::Reverse, Shape::Name), b"reverse")),
        (7, b't', b'r') => Some((plain(Verb::TryCompare, Shape::Names), b"try_cmp")),
        (7, b'i', b's') => Some((plain(Verb::IsSafe, Shape::Name), b"is_safe")),
        (8, b'c', b'o') => Some((plain(Verb::Contains, Shape::Names), b"contains")),
        (9, b'f', b'l') => Some((keeping(Verb::FloorDiv, Shape::Names), b"floor_div")),
        (9, b'm', b'a') => Some((keeping(Verb::MarkSafe, Shape::Name), b"mark_safe")),
        _ => None,
    }
}

// A verb behind which no name for what is found may stand.
fn plain(verb: Verb, shape: Shape) -> Known
    ensures { result ≡ record { verb = verb; shape = shape; keeps = false } }
{
    Known {
        verb,
        shape,
        keeps: false,
    }
}

// A verb behind which a name for what is found may stand.
fn keeping(verb: Verb, shape: Shape) -> Known
    ensures { result ≡ record { verb = verb; shape = shape; keeps = true } }
{
    Known {
        verb,
        shape,
        keeps: true,
    }
}

/// The request that a verb makes of a name. `None` where its operands are of another shape.
#[inline(always)]
pub(crate) fn request_of_name(verb: Verb, name: &str) -> Option<Request<'_>>
    ensures { option_map request_form result ≡ request_in (row_of verb).making shape.Name name.now }
{
    match verb {
        Verb::Remove => Some(Request::Remove { name }),
        Verb::MarkSafe => Some(Request::MarkSafe { name }),
        Verb::Get => Some(Request::Find(Search::Get { name })),
        Verb::Reverse => Some(Request::Find(Search::Reverse { of: name })),
        Verb::Negate => Some(Request::Find(Search::Negate { of: name })),
        Verb::Has => Some(asked(Question::Has, name)),
        Verb::Len => Some(asked(Question::Len, name)),
        Verb::Truthy => Some(asked(Question::Truthy, name)),
        Verb::Kind => Some(asked(Question::Kind, name)),
        Verb::IsSafe => Some(asked(Question::IsSafe, name)),
        Verb::Print => Some(asked(Question::Print, name)),
        Verb::Escape => Some(asked(Question::Escape, name)),
        Verb::Fields => Some(asked(Question::Fields, name)),
        Verb::Walk => Some(asked(Question::Walk, name)),
        _ => None,
    }
}

/// The request that a verb makes of two names. `None` where its operands are of another shape.
#[inline(always)]
pub(crate) fn request_of_names<'a>(verb: Verb, left: &'a str, right: &'a str) -> Option<Request<'a>>
    ensures { option_map request_form result
        ≡ request_in (row_of verb).making shape.Names (left.now, right.now) }
{
    match verb {
        Verb::Equal => Some(weighed(Weighing::Equal, left, right)),
        Verb::Compare => Some(weighed(Weighing::Compare, left, right)),
        Verb::TryCompare => Some(weighed(Weighing::TryCompare, left, right)),
        Verb::Contains => Some(weighed(Weighing::Contains, left, right)),
        Verb::Item => Some(Request::Find(Search::Item {
            of: left,
            item: right,
        })),
        Verb::Add => Some(computed(BinaryOp::Add, left, right)),
        Verb::Sub => Some(computed(BinaryOp::Sub, left, right)),
        Verb::Mul => Some(computed(BinaryOp::Mul, left, right)),
        Verb::Rem => Some(computed(BinaryOp::Rem, left, right)),
        Verb::FloorDiv => Some(computed(BinaryOp::FloorDiv, left, right)),
        Verb::Pow => Some(computed(BinaryOp::Pow, left, right)),
        _ => None,
    }
}

/// The request that a verb makes of a name and a text. `None` where its operands are of another
/// shape.
#[inline(always)]
pub(crate) fn request_of_text<'a>(verb: Verb, of: &'a str, text: CowStr<'a>) -> Option<Request<'a>>
    ensures { option_map request_form result
        ≡ request_in (row_of verb).making shape.Text (of.now, cow_str_bytes text.entry) }
{
    match verb {
        Verb::Path => Some(Request::Find(Search::Path { of, path: text })),
        Verb::Attr => Some(Request::Find(Search::Attr { of, attr: text })),
        _ => None,
    }
}

/// The request that a verb makes of a name and three bounds. `None` where its operands are of
/// another shape.
#[inline(always)]
pub(crate) fn request_of_bounds(verb: Verb, of: &str, bounds: Bounds) -> Option<Request<'_>>
    ensures { option_map request_form result
        ≡ request_in (row_of verb).making shape.Bounds (of.now, bounds) }
{
    match verb {
        Verb::Slice => Some(Request::Find(Search::Slice {
            of,
            start: bounds.start,
            end: bounds.end,
            step: bounds.step,
        })),
        _ => None,
    }
}

/// The request that a verb makes of an integer type and a name. `None` where its operands are of
/// another shape.
#[inline(always)]
pub(crate) fn request_of_type(verb: Verb, to: IntType, of: &str) -> Option<Request<'_>>
    ensures { option_map request_form result
        ≡ request_in (row_of verb).making shape.Type (integer_type to, of.now) }
{
    match verb {
        Verb::Read => Some(Request::Find(Search::Read { of, to })),
        _ => None,
    }
}

/// The request that a verb makes of a name and a value. `None` where its operands are of another
/// shape.
#[inline(always)]
pub(crate) fn request_of_literal(verb: Verb, name: &str, value: Value) -> Option<Request<'_>>
    ensures { option_map request_form result
        ≡ request_in (row_of verb).making shape.Literal (name.now, value) }
{
    match verb {
        Verb::Set => Some(Request::Set { name, value }),
        _ => None,
    }
}

/// The request that a verb makes of a source. `None` where its operands are of another shape.
#[inline(always)]
pub(crate) fn request_of_map<'a>(verb: Verb, source: Context) -> Option<Request<'a>>
    ensures { option_map request_form result
        ≡ request_in (row_of verb).making shape.Map source }
{
    match verb {
        Verb::Extend => Some(Request::Extend { source }),
        _ => None,
    }
}

// A question about the value of a name.
#[inline(always)]
fn asked(question: Question, name: &str) -> Request<'_>
    ensures { request_form result ≡ ask (question_of question) name.now }
{
    Request::Ask { question, name }
}

// A weighing of the values of two names.
#[inline(always)]
fn weighed<'a>(weighing: Weighing, left: &'a str, right: &'a str) -> Request<'a>
    ensures { request_form result ≡ weigh (weighing_of weighing) left.now right.now }
{
    Request::Weigh {
        weighing,
        left,
        right,
    }
}

// What an operator computes of the numbers of two names.
#[inline(always)]
fn computed<'a>(op: BinaryOp, left: &'a str, right: &'a str) -> Request<'a>
    ensures { request_form result ≡ find (calculate (operator_of op) left.now right.now) }
{
    Request::Find(Search::Binary { op, left, right })
}
