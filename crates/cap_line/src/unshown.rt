//! The name that a terminal shows as a text.
ghost use Rattle.std.specs.Prelude.{◌≡◌, ◌++◌, ◌∷◌, ◌<◌, [], IfOk, IsFalse, MatchOption, None, Some, chars, false};
ghost use Rattle.std.specs.Prelude.{List, length, string_bytes, ℕ};
ghost use Rattle.std.specs.Char.Escape.{escape_unicode};
ghost use Rattle.std.specs.List.{starts_with};
ghost use Rattle.std.specs.Prelude.{◌==◌};
ghost use Rattle.std.specs.Str.{IsUtf8};
ghost use Rattle.cap_line.specs.Shown.{escaped_first, hex_code, shown_text, spells_hidden, unshown_past, unshown_text};

use crate::shown::is_hidden;
use std::alloc::{AllocError, Global};

// The code that the hexadecimal digits write which a text begins with, of which the first four count.
fn hex_code(text: &str) -> u32
    ensures { result ≡ hex_code (chars text.now) }
{
    let mut rest = text.chars();
    let mut code = 0u32;
    for place in 0u32..4 {
        match rest.next() {
            Some(c) => match c.to_digit(16) {
                Some(digit) => code = code * 16 + digit,
                None => return code,
            },
            None => return code,
        }
    }
    code
}

// What follows the escape of a character in a text that begins with that.
fn behind_escape(text: &str, c: char) -> Option<&str>
    ensures { MatchOption result (starts_with ◌==◌ (chars text.now) (escape_unicode c) ≡ false)
        (λ behind. (chars text.now ≡ escape_unicode c ++ chars behind.now)
        × (length behind.now < length text.now)) }
{
    let mut rest = text.chars();
    let mut escape = c.escape_unicode();
    while let Some(letter) = escape.next() {
        if rest.next()? != letter {
            return None;
        }
    }
    Some(rest.as_str())
}

// The hidden character whose escape a text begins with, and what follows that.
fn escaped_first(text: &str) -> Option<(char, &str)>
    ensures { MatchOption result (escaped_first (chars text.now) ≡ None)
        (λ found. (escaped_first (chars text.now) ≡ Some found.0)
        × (chars text.now ≡ escape_unicode found.0 ++ chars found.1.now)
        × (length found.1.now < length text.now)) }
{
    let c = char::from_u32(hex_code(text.strip_prefix("\\u{")?))?;
    if is_hidden(c) {
        Some((c, behind_escape(text, c)?))
    } else {
        None
    }
}

// The first character of the name of which a text is shown, and the text behind it.
fn unshown_first(text: &str) -> Option<(char, &str)>
    ensures { MatchOption result (text.now ≡ [])
        (λ found. (unshown_past 0 (chars text.now) ≡ found.0 ∷ unshown_past 0 (chars found.1.now))
        × (length found.1.now < length text.now)) }
{
    if let Some((c, behind)) = escaped_first(text) {
        return Some((c, behind));
    }
    let mut rest = text.chars();
    let c = rest.next()?;
    Some((c, rest.as_str()))
}

/// The name of which `escape` gives a text: the code of each hidden character, as `\u{1b}`, is that character, and any
/// other character is itself. A name that has such a code spelled out in it is taken for another. `AllocError` comes if
/// a growth is refused.
pub fn unescape(alloc: Global, text: &str) -> Result<String, AllocError>
    ensures text { IfOk result (λ s. string_bytes s ≡ unshown_text text.now) }
    ensures back { IfOk result (λ s. (name : List ℕ) → IsUtf8 name → IsFalse (spells_hidden (chars name))
        → text.now ≡ shown_text false name → string_bytes s ≡ name) }
{
    let mut name = String::new(alloc);
    let mut rest = text;
    while let Some((c, behind)) = unshown_first(rest) {
        name.push(c)?;
        rest = behind;
    }
    Ok(name)
}
