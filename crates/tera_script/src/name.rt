//! Names as texts.
ghost use Rattle.std.specs.Prelude.{◌≡◌};
ghost use Rattle.tera_script.specs.Word.{IsName};

use std::str;

/// A name as a text. It is ASCII, so nothing is left to be found out.
#[tactic(auto, using(crate::proofs::Utf8::name_utf8))]
pub(crate) fn name_in(name: &[u8]) -> &str
    requires { IsName name.now }
    ensures { result.now ≡ name.now }
{
    unsafe { str::from_utf8_unchecked(name) }
}
