//! Numbers of documents: what integer a text is, and the text of an integer.
ghost use Rattle.std.specs.Prelude.{◌≡◌, None, pos};
ghost use Rattle.std.specs.Option.{option_map};
ghost use Rattle.tera_json.specs.Numbers.{integer_in, read_in};
ghost use Rattle.tera_meaning.specs.Integer.{i64 as kind_i64, u64 as kind_u64};
ghost use Rattle.tera_meaning.specs.Integer.{i128 as kind_i128, u128 as kind_u128};
ghost use Rattle.tera_meaning.specs.Tree.{number};

use tera_values::Value;

/// The value of a number's text, in the first of i64, u64, i128 and u128 that holds it; `None` of a
/// fraction, of an exponent and past these kinds. Takes no memory.
pub(crate) fn integer_in(text: &str) -> Option<Value>
    ensures { result ≡ option_map number (integer_in text.now) }
{
    if let Some(number) = as_i64(text) {
        return Some(Value::from(number));
    }
    if let Some(number) = as_u64(text) {
        return Some(Value::from(number));
    }
    if let Some(number) = as_i128(text) {
        return Some(Value::from(number));
    }
    if let Some(number) = as_u128(text) {
        return Some(Value::from(number));
    }
    None
}

#[tactic(auto, using(crate::proofs::Numbers::reads_i64))]
fn as_i64(text: &str) -> Option<i64>
    ensures { result ≡ read_in kind_i64 text.now }
{
    text.parse::<i64>().ok()
}

#[tactic(auto, using(crate::proofs::Numbers::reads_u64))]
fn as_u64(text: &str) -> Option<u64>
    ensures { read_in kind_i64 text.now ≡ None
        → option_map (λ n. pos n) result ≡ read_in kind_u64 text.now }
{
    text.parse::<u64>().ok()
}

#[tactic(auto, using(crate::proofs::Numbers::reads_i128))]
fn as_i128(text: &str) -> Option<i128>
    ensures { result ≡ read_in kind_i128 text.now }
{
    text.parse::<i128>().ok()
}

#[tactic(auto, using(crate::proofs::Numbers::reads_u128))]
fn as_u128(text: &str) -> Option<u128>
    ensures { read_in kind_i64 text.now ≡ None
        → option_map (λ n. pos n) result ≡ read_in kind_u128 text.now }
{
    text.parse::<u128>().ok()
}
