//! Escapes inside the texts of a script.
#![tactic(auto)]

ghost use Rattle.std.specs.Prelude.{◌≡◌, ◌<◌, length, IfSome};
ghost use Rattle.std.specs.Option.{option_map};
ghost use Rattle.tera_script.specs.TextParts.{escape_at, at_letter, at_brace, char_rest};

/// The character of an escape, and the bytes after the escape. The bytes begin behind its
/// backslash. `None` where they begin with no escape.
#[tactic(auto, using(crate::proofs::Fronts::ascii), unfolding(crate::specs::TextParts::escape_at))]
pub(crate) fn take_escape(bytes: &[u8]) -> Option<(char, &[u8])>
    ensures escape { option_map char_rest result ≡ escape_at bytes.now at_letter }
    ensures shorter { IfSome result (λ found. length found.1.now < length bytes.now) }
{
    let (letter, rest) = bytes.split_first()?;
    match *letter {
        b'"' => Some(('"', rest)),
        b'\\' => Some(('\\', rest)),
        b'n' => Some(('\n', rest)),
        b'r' => Some(('\r', rest)),
        b't' => Some(('\t', rest)),
        b'0' => Some(('\0', rest)),
        b'u' => take_number(rest),
        _ => None,
    }
}

/// The character whose number stands in braces at the front of the bytes, by one to six hexadecimal
/// digits, and the bytes after the braces. `None` where they begin with no such number.
#[tactic(auto, using(crate::proofs::Texts::powers), unfolding(crate::specs::TextParts::escape_at))]
fn take_number(bytes: &[u8]) -> Option<(char, &[u8])>
    ensures escape { option_map char_rest result ≡ escape_at bytes.now at_brace }
    ensures shorter { IfSome result (λ found. length found.1.now < length bytes.now) }
{
    let (brace, digits) = bytes.split_first()?;
    if *brace != b'{' {
        return None;
    }
    let mut number: u32 = 0;
    for (place, byte) in digits.iter().enumerate() {
        if *byte == b'}' && place > 0 {
            let character = char::from_u32(number)?;
            return Some((character, &digits[place + 1..]));
        }
        let digit = char::from(*byte).to_digit(16)?;
        if place == 6 {
            return None;
        }
        number = number * 16 + digit;
    }
    None
}
