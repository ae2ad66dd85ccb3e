//! What a page shows of a value, and of several.
ghost use Rattle.std.specs.Prelude.{◌≡◌, ℕ, List};
ghost use Rattle.tera_meaning.specs.Meaning.{layout};
ghost use Rattle.tera_meaning.specs.Printed.{IsExact, shown_in_page};
ghost use Rattle.tera_meaning.specs.Quoted.{Prints};
ghost use Rattle.tera_report.specs.Escaping.{escaped};
ghost use Rattle.tera_report.specs.Sink.{Puts, PutsThese};
ghost use Rattle.tera.specs.InPage.{ShowsInPage};
ghost use Rattle.tera.specs.InTurn.{ShownInTurn};

use crate::escaping_sink::Escaping;
use tera_report::sink::Sink;
use tera_values::Value;

/// Puts what a page shows of a value, piece by piece: its printed text as it is where the value is
/// safe, and else escaped. The bytes are known where the value has one printed text.
///
/// Answers an error only where the sink refused a piece. Takes no memory of its own.
pub fn show_in_page<S: Sink>(value: &Value, out: &mut S) -> Result<(), S::Fault>
    ensures shown { Puts S.takes S.fails result (ShowsInPage value.now) out.old out.new }
    ensures known { IsExact (layout value.now)
        → PutsThese S.takes S.fails result (shown_in_page value.now) out.old out.new }
{
    if value.is_safe() {
        value.print_to(out)
    } else {
        put_escaped(value, out)
    }
}

/// Puts what a page shows of each value, one after another.
///
/// Answers an error only where the sink refused a piece. Takes no memory of its own.
pub fn show_each_in_page<S: Sink>(values: &[Value], out: &mut S) -> Result<(), S::Fault>
    ensures { Puts S.takes S.fails result (ShownInTurn ShowsInPage values.now) out.old out.new }
{
    for value in values {
        show_in_page(value, out)?;
    }
    Ok(())
}

// Puts the printed text, escaped.
fn put_escaped<S: Sink>(value: &Value, out: &mut S) -> Result<(), S::Fault>
    ensures { Puts S.takes S.fails result
        (λ shown. (text : List ℕ) × Prints (layout value.now) text × (shown ≡ escaped text))
        out.old out.new }
{
    value.print_to(&mut Escaping::new(out))
}
