//! The line that answers a call.
ghost use Rattle.std.specs.Prelude.{◌≡◌, ℕ, List, ◌++◌, false, Ok, Err, Some, IfOk, IfErr};
ghost use Rattle.std.specs.Prelude.{codes, decimal, map};
ghost use Rattle.std.specs.String.{string_bytes};
ghost use Rattle.tera_report.specs.Errors.{kind_of, refusal_of};
ghost use Rattle.tera_report.specs.Quoted.{QuotesList};
ghost use Rattle.tera_report.specs.Refusal.{Tells};
ghost use Rattle.tera_report.specs.Sink.{Puts, PutsThese};
ghost use Rattle.tera_meaning.specs.Answer.{found};
ghost use Rattle.tera_meaning.specs.Arithmetic.{as_i128};
ghost use Rattle.tera_meaning.specs.Meaning.{layout};
ghost use Rattle.tera_meaning.specs.Outcome.{is_want};
ghost use Rattle.tera_meaning.specs.Quoted.{Prints};
ghost use Rattle.tera_context.specs.Call.{answer_of};
ghost use Rattle.tera_context.specs.Known.{known_form};
ghost use Rattle.tera_context.specs.Lent.{lent_form, printed};
ghost use Rattle.tera_replies.specs.Output.{Broke, Sent};
ghost use Rattle.tera_replies.specs.Reply.{IsFormOf, IsLentLine, IsListedLine};
ghost use Rattle.tera_replies.specs.Reply.{IsReplyLine, order_name};
ghost use Rattle.tera_replies.specs.Script.{ended};
ghost use Rattle.tera_replies.specs.inner.Stated.{outcome_stated};
ghost use Rattle.tera_replies.specs.inner.Endings.{ReplyStops};

use crate::error_sink::ErrorSink;
use crate::fault::{Fault, WriteError, put, written};
use itoa::Buffer;
use std::cmp::Ordering;
use tera_context::{Answer, Known, Lent};
use tera_report::quote::put_quoted_list;
use tera_report::sink::Sink;
use tera_report::{Error, ErrorKind, TeraResult};
use tera_values::Value;

/// Writes the line that answers a call, with its line feed, and says whether the answer is want of
/// memory. Takes no memory, and fails only where a write does.
pub(crate) fn write_answer<W: Sink>(answer: &TeraResult<Answer>, out: &mut W) -> Result<bool, Fault>
    ensures ok { IfOk result (λ wanted. (line : List ℕ)
        × IsReplyLine (outcome_stated answer.now) line
        × Sent W.Sink out.old out.new line
        × (wanted ≡ is_want (outcome_stated answer.now))) }
    ensures err { IfErr result (ReplyStops (IsReplyLine (outcome_stated answer.now))
        (Broke W.Sink out.old out.new)) }
{
    match answer {
        Ok(answer) => {
            written(put_answer(answer, out))?;
            Ok(false)
        }
        Err(error) => {
            written(put_refusal(error, out))?;
            Ok(is_want(error))
        }
    }
}

/// Writes the line that answers a call by what the context lends, with its line feed. Takes no
/// memory, and fails only where a write does. No such answer is want of memory.
pub(crate) fn write_lent<W: Sink>(lent: Lent<'_>, out: &mut W) -> Result<bool, Fault>
    ensures ok { IfOk result (λ wanted. (line : List ℕ)
        × IsLentLine (lent_form lent.entry) line
        × Sent W.Sink out.old out.new line
        × (wanted ≡ false)) }
    ensures err { IfErr result (ReplyStops (IsLentLine (lent_form lent.entry))
        (Broke W.Sink out.old out.new)) }
{
    written(put_lent(lent, out))?;
    Ok(false)
}

// Whether the error is want of memory. No other is.
fn is_want(error: &Error) -> bool
    ensures { result ≡ is_want (Err (refusal_of (kind_of error.now))) }
{
    matches!(error.kind(), ErrorKind::OutOfMemory)
}

// Puts the line for what is given where nothing is refused.
fn put_answer<W: Sink>(answer: &Answer, out: &mut W) -> Result<(), WriteError>
    ensures { Puts W.takes W.fails result
        (IsReplyLine (Ok (answer_of answer.now))) out.old out.new }
{
    match answer {
        Answer::Done => put("ok\n", out),
        Answer::Truth(truth) => put_known(Known::Truth(*truth), out),
        Answer::Order(order) => put_known(Known::Order(*order), out),
        Answer::Found(None) => put("nothing\n", out),
        Answer::Found(Some(value)) => put_value(value, out),
        Answer::Size(size) => put_known(Known::Size(*size), out),
        Answer::Kind(kind) => put_known(Known::Kind(*kind), out),
        Answer::Text(text) => put_line("text ", text.as_str(), out),
        Answer::Texts(names) => put_texts("fields ", names.as_slice(), out),
        Answer::Walked(names) => put_texts("walk ", names.as_slice(), out),
    }
}

// Puts the line for what the context lends.
fn put_lent<W: Sink>(lent: Lent<'_>, out: &mut W) -> Result<(), WriteError>
    ensures { Puts W.takes W.fails result (IsLentLine (lent_form lent.entry)) out.old out.new }
{
    match lent {
        Lent::Found(None) => put("nothing\n", out),
        Lent::Found(Some(value)) => put_value(value, out),
        Lent::Print(value) => put_printed(value, out),
        Lent::Tell(known) => put_known(known, out),
    }
}

// Puts the line for an answer that takes no memory.
fn put_known<W: Sink>(known: Known, out: &mut W) -> Result<(), WriteError>
    ensures { Puts W.takes W.fails result (IsReplyLine (Ok (known_form known))) out.old out.new }
{
    match known {
        Known::Truth(true) => put("true\n", out),
        Known::Truth(false) => put("false\n", out),
        Known::Order(order) => put(order_line(order), out),
        Known::Size(None) => put("nothing\n", out),
        Known::Size(Some(size)) => put_size(size, out),
        Known::Kind(kind) => put_line("kind ", kind.name(), out),
        Known::Number(number) => put_number(number, out),
    }
}

// Puts the line for a number that was computed.
#[inline(never)]
fn put_number<W: Sink>(number: i128, out: &mut W) -> Result<(), WriteError>
    ensures { Puts W.takes W.fails result
        (IsReplyLine (Ok (found (Some (as_i128 number))))) out.old out.new }
{
    let value = Value::from(number);
    put_value(&value, out)
}

fn order_line(order: Option<Ordering>) -> &'static str
    ensures { result.now ≡ ended (order_name order) }
{
    match order {
        None => "undecided\n",
        Some(Ordering::Less) => "less\n",
        Some(Ordering::Equal) => "equal\n",
        Some(Ordering::Greater) => "greater\n",
    }
}

// Puts the line for a length.
#[inline(never)]
fn put_size<W: Sink>(size: usize, out: &mut W) -> Result<(), WriteError>
    ensures { PutsThese W.takes W.fails result
        (ended (codes "size " ++ decimal size)) out.old out.new }
{
    let mut digits = Buffer::new();
    put_line("size ", digits.format(size), out)
}

// Puts the line for some texts, behind a word.
#[inline(never)]
fn put_texts<W: Sink>(word: &str, texts: &[String], out: &mut W) -> Result<(), WriteError>
    ensures { Puts W.takes W.fails result
        (IsListedLine word.now (map string_bytes texts.now)) out.old out.new }
{
    put(word, out)?;
    put_list(texts, out)?;
    put("\n", out)
}

// Puts some texts in debug form.
fn put_list<W: Sink>(texts: &[String], out: &mut W) -> Result<(), WriteError>
    ensures { Puts W.takes W.fails result
        (QuotesList (map string_bytes texts.now)) out.old out.new }
{
    put_quoted_list(texts, &mut ErrorSink::new(out))
}

// Puts the line for a value.
#[inline(never)]
fn put_value<W: Sink>(value: &Value, out: &mut W) -> Result<(), WriteError>
    ensures { Puts W.takes W.fails result
        (IsReplyLine (Ok (found (Some value.now)))) out.old out.new }
{
    put("value ", out)?;
    put_form(value, out)?;
    put("\n", out)
}

// Puts a value: undefined and none by their names, and any other as it prints inside an array.
fn put_form<W: Sink>(value: &Value, out: &mut W) -> Result<(), WriteError>
    ensures { Puts W.takes W.fails result (IsFormOf value.now) out.old out.new }
{
    if value.is_undefined() {
        return put("undefined", out);
    }
    if value.is_none() {
        return put("none", out);
    }
    value.print_inside_to(&mut ErrorSink::new(out))
}

// Puts the line for the text that a value prints, which is put where it goes.
#[inline(never)]
fn put_printed<W: Sink>(value: &Value, out: &mut W) -> Result<(), WriteError>
    ensures { Puts W.takes W.fails result (IsLentLine (printed value.now)) out.old out.new }
{
    put("text ", out)?;
    put_text(value, out)?;
    put("\n", out)
}

// Puts the text that a value prints.
fn put_text<W: Sink>(value: &Value, out: &mut W) -> Result<(), WriteError>
    ensures { Puts W.takes W.fails result (Prints (layout value.now)) out.old out.new }
{
    value.print_to(&mut ErrorSink::new(out))
}

// Puts the line for a refusal.
#[inline(never)]
fn put_refusal<W: Sink>(error: &Error, out: &mut W) -> Result<(), WriteError>
    ensures { Puts W.takes W.fails result
        (IsReplyLine (Err (refusal_of (kind_of error.now)))) out.old out.new }
{
    put("error: ", out)?;
    put_words(error, out)?;
    put("\n", out)
}

// Puts what tells a refusal.
fn put_words<W: Sink>(error: &Error, out: &mut W) -> Result<(), WriteError>
    ensures { Puts W.takes W.fails result
        (Tells (refusal_of (kind_of error.now))) out.old out.new }
{
    error.tell_to(&mut ErrorSink::new(out))
}

// Puts a text as it is behind a word, line feeds and all.
#[inline(always)]
fn put_line<W: Sink>(word: &str, text: &str, out: &mut W) -> Result<(), WriteError>
    ensures { PutsThese W.takes W.fails result (ended (word.now ++ text.now)) out.old out.new }
{
    put(word, out)?;
    put(text, out)?;
    put("\n", out)
}
