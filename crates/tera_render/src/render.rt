//! From the names of a template and of a document to a page, or to what is told in its place.
ghost use Rattle.std.specs.Prelude.{IfOk, IfErr, Ok, option_copied};
ghost use Rattle.std.specs.String.{string_bytes};
ghost use Rattle.tera_render.specs.Page.{GivesNames, GivesNoNames, GivesNoPage, GivesPage};
ghost use Rattle.tera_render.specs.Page.{GivesNoText};
ghost use Rattle.tera_render.specs.Rendered.{IsSent, Renders, SendsPage, TellsFault};

use crate::fault::{Fault, Unread, put_fault, refused};
use crate::names::names_of;
use crate::page::page_of;
use crate::texts::Texts;
use std::alloc::Global;
use tera::Context;
use tera::sink::Sink;
use tera::value::HashState;

/// Writes the page of the template of a name, over the names of the document of another, or over
/// none, and answers the exit status: 0.
///
/// Where there is no page nothing of it is written. Then what is wrong is told, and the status is
/// 2 where the template or the document is refused, and 1 where one is not read, where no memory
/// is found, and where writing failed.
pub(crate) fn render_named<T: Texts, W: Sink, E: Sink>(
    alloc: Global,
    state: HashState,
    texts: &T,
    page: &str,
    document: Option<&str>,
    out: &mut W,
    err: &mut E,
) -> u8
    ensures { Renders (GivesPage (T.gave texts.now) page.now (option_copied document.entry))
        (GivesNoPage (T.gave texts.now) page.now (option_copied document.entry))
        W.takes W.fails W.flushes W.flush_fails E.takes E.fails (out.old, err.old) result
        (out.new, err.new) }
{
    match page_named(alloc, state, texts, page, document) {
        Ok(text) => send(text.as_str(), out, err),
        Err(fault) => tell_fault(&fault, err),
    }
}

// The page of the template of a name, over the names of a document.
fn page_named<'a, T: Texts>(
    alloc: Global,
    state: HashState,
    texts: &T,
    page: &'a str,
    document: Option<&'a str>,
) -> Result<String, Fault<'a>>
    ensures ok { IfOk result (λ text.
        GivesPage (T.gave texts.now) page.now (option_copied document.entry) (string_bytes text)) }
    ensures err { IfErr result
        (GivesNoPage (T.gave texts.now) page.now (option_copied document.entry)) }
{
    let text = text_named(texts, page)?;
    let names = names_named(alloc, state, texts, document)?;
    page_of(alloc, page, text.as_str(), &names)
}

// The names of the document of a name, or none.
fn names_named<'a, T: Texts>(
    alloc: Global,
    state: HashState,
    texts: &T,
    document: Option<&'a str>,
) -> Result<Context, Fault<'a>>
    ensures ok { IfOk result (GivesNames (T.gave texts.now) (option_copied document.entry)) }
    ensures err { IfErr result (GivesNoNames (T.gave texts.now) (option_copied document.entry)) }
{
    let Some(name) = document else {
        return Ok(Context::with_hasher(alloc, state));
    };
    let text = text_named(texts, name)?;
    match names_of(alloc, state, text.as_str()) {
        Ok(names) => Ok(names),
        Err(error) => Err(refused(name, error)),
    }
}

// The text of a name.
fn text_named<'a, T: Texts>(texts: &T, name: &'a str) -> Result<String, Fault<'a>>
    ensures ok { IfOk result (λ text. T.gave texts.now name.now (Ok text)) }
    ensures err { IfErr result (GivesNoText (T.gave texts.now) name.now) }
{
    match texts.text(name) {
        Ok(text) => Ok(text),
        Err(Unread::Failed) => Err(Fault::Unread(name)),
        Err(Unread::NoMemory) => Err(Fault::NoMemory),
    }
}

// Writes a page, and answers the exit status.
fn send<W: Sink, E: Sink>(text: &str, out: &mut W, err: &mut E) -> u8
    ensures { SendsPage W.takes W.fails W.flushes W.flush_fails E.takes E.fails text.now
        (out.old, err.old) result (out.new, err.new) }
{
    if is_sent(text, out) {
        return 0;
    }
    let _ = err.put("error: writing failed\n");
    1
}

// Writes a text whole, and says whether that went well.
fn is_sent<W: Sink>(text: &str, out: &mut W) -> bool
    ensures { IsSent W.takes W.fails W.flushes W.flush_fails text.now out.old result out.new }
{
    match out.put(text) {
        Ok(()) => match out.flush() {
            Ok(()) => true,
            Err(_) => false,
        },
        Err(_) => false,
    }
}

// Tells why there is no page, where the sink takes it, and answers the exit status.
fn tell_fault<E: Sink>(fault: &Fault<'_>, err: &mut E) -> u8
    ensures { TellsFault E.takes E.fails fault.now err.old result err.new }
{
    let _ = put_fault(fault, err);
    match fault {
        Fault::Unread(_) | Fault::NoMemory => 1,
        Fault::NoPage(_) | Fault::Refused(_, _) => 2,
    }
}
