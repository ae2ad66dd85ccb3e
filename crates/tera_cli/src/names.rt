//! The names of a conversation, as they are shown.
ghost use Rattle.std.specs.Prelude.{◌≡◌, ◌≢◌, ◌⊎◌, codes, IfErr, OnOk, map};
ghost use Rattle.std.specs.Bool.{MatchBool};
ghost use Rattle.std.specs.FinMap.{empty};
ghost use Rattle.std.specs.List.{list_all};
ghost use Rattle.tera_cli.specs.Names.{IsListOf, Lists, WritesName};
ghost use Rattle.tera_replies.specs.Output.{BrokeOn, TakesOrFails};
ghost use Rattle.tera_replies.specs.declared.fault.Fault.TheVariants.{WriteFailed};
ghost use Rattle.tera_report.specs.Sink.{Delivers, Puts};
ghost use Rattle.tera_script.specs.Word.{IsName, is_name_byte, is_name_start};

use crate::diagnostics::tell_no_memory;
use crate::lines::pass_on;
use tera_context::Context;
use tera_replies::Fault;
use tera_report::quote::put_quoted;
use tera_report::sink::Sink;
use tera_values::Value;

/// Shows the names, each on a line of its own, in the order of their bytes. One that is none of the
/// language stands as a text does in a script. Where no memory is found for the list, tells that.
pub(crate) fn show_names<W: Sink, E: Sink>(
    context: &Context,
    out: &mut W,
    err: &mut E,
) -> Result<(), Fault>
    ensures ok { OnOk result
        ((Lists (Delivers W.takes W.flushes) context.now out.old out.new × (err.new ≡ err.old))
        ⊎ ((context.now ≢ empty) × (out.new ≡ out.old)
        × TakesOrFails E.takes E.fails err.old (codes "error: Out of memory\n") err.new)) }
    ensures err { IfErr result (λ fault. (fault ≡ WriteFailed) × (err.new ≡ err.old)
        × Lists (BrokeOn W.takes W.fails W.flushes W.flush_fails) context.now out.old out.new) }
{
    let Ok(entries) = context.entries() else {
        tell_no_memory(err);
        return Ok(());
    };
    match put_names(entries.as_slice(), out) {
        Ok(()) => pass_on(out),
        Err(_) => Err(Fault::WriteFailed),
    }
}

// Puts each name with a line feed behind it.
fn put_names<W: Sink>(entries: &[(&str, &Value)], out: &mut W) -> Result<(), W::Fault>
    ensures { Puts W.takes W.fails result (IsListOf (map (λ entry. entry.0.now) entries.now))
        out.old out.new }
{
    for (name, _) in entries {
        put_name(name, out)?;
        out.put("\n")?;
    }
    Ok(())
}

// Puts a name as a script writes it.
fn put_name<W: Sink>(name: &str, out: &mut W) -> Result<(), W::Fault>
    ensures { Puts W.takes W.fails result (WritesName name.now) out.old out.new }
{
    if is_name(name.as_bytes()) {
        out.put(name)
    } else {
        put_quoted(name, out)
    }
}

// Whether they are a letter or `_`, and then letters, digits and `_`.
fn is_name(bytes: &[u8]) -> bool
    ensures { MatchBool result (IsName bytes.now) (¬ IsName bytes.now) }
{
    match bytes.split_first() {
        Some((first, others)) => is_name_start(*first) && are_name_bytes(others),
        None => false,
    }
}

fn are_name_bytes(bytes: &[u8]) -> bool
    ensures { result ≡ list_all is_name_byte bytes.now }
{
    bytes.iter().all(|byte| is_name_byte(*byte))
}

fn is_name_start(byte: u8) -> bool
    ensures { result ≡ is_name_start byte }
{
    byte.is_ascii_alphabetic() || byte == b'_'
}

fn is_name_byte(byte: u8) -> bool
    ensures { result ≡ is_name_byte byte }
{
    byte.is_ascii_alphanumeric() || byte == b'_'
}
