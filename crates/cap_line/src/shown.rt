//! What a terminal shows of a text that someone else chose: a name, or a word of the command line.
ghost use Rattle.std.specs.Prelude.{◌≡◌, ◌++◌, All, IfOk, OnOk, chars, encode_utf8_all, false, string_bytes, true};
ghost use Rattle.std.specs.Char.Escape.{escape_unicode};
ghost use Rattle.cap_line.specs.Shown.{IsSeen, IsSeenOrLine, is_between, is_hidden, shown_char, shown_text};

use std::alloc::{AllocError, Global};

// Whether a code is one of those from `low` to `high`.
fn is_between(low: u32, high: u32, code: u32) -> bool
    ensures { result ≡ is_between low high code }
{
    low <= code && code <= high
}

/// Whether a character does something to a terminal in place of being shown: it controls it, separates lines, or turns
/// the direction of what follows.
pub fn is_hidden(c: char) -> bool
    ensures { result ≡ is_hidden c }
{
    let code = c as u32;
    is_between(0, 0x1f, code)
        || is_between(0x7f, 0x9f, code)
        || code == 0x61c
        || is_between(0x200e, 0x200f, code)
        || is_between(0x2028, 0x202e, code)
        || is_between(0x2066, 0x2069, code)
}

// Adds the code of a character, as `\u{1b}`.
fn put_escape(text: &mut String, c: char) -> Result<(), AllocError>
    ensures { OnOk result (string_bytes text.new ≡ string_bytes text.old ++ encode_utf8_all (escape_unicode c)) }
{
    let mut escape = c.escape_unicode();
    while let Some(letter) = escape.next() {
        text.push(letter)?;
    }
    Ok(())
}

// Adds a character, or its code if it is a hidden one. The end of a line is added as it is if lines are kept.
fn put_char(text: &mut String, keeps_lines: bool, c: char) -> Result<(), AllocError>
    ensures { OnOk result (string_bytes text.new ≡ string_bytes text.old
        ++ encode_utf8_all (shown_char keeps_lines c)) }
{
    if is_hidden(c) && !(keeps_lines && c == '\n') {
        put_escape(text, c)
    } else {
        text.push(c)
    }
}

// A text with each hidden character as its code, in one line or in those that it has.
fn escape_by(alloc: Global, text: &str, keeps_lines: bool) -> Result<String, AllocError>
    ensures { IfOk result (λ s. string_bytes s ≡ shown_text keeps_lines text.now) }
{
    let mut shown = String::new(alloc);
    let mut rest = text.chars();
    while let Some(c) = rest.next() {
        put_char(&mut shown, keeps_lines, c)?;
    }
    Ok(shown)
}

/// A text as one line for a terminal: each control character, separator of lines and mark of direction is replaced by
/// its code, as `\u{1b}`. A text that has none is the same.
pub fn escape(alloc: Global, text: &str) -> Result<String, AllocError>
    ensures text { IfOk result (λ s. string_bytes s ≡ shown_text false text.now) }
    ensures seen { IfOk result (λ s. All IsSeen (chars (string_bytes s))) }
    ensures same { IfOk result (λ s. All IsSeen (chars text.now) → string_bytes s ≡ text.now) }
{
    escape_by(alloc, text, false)
}

/// A text of several lines for a terminal: as `escape`, but the ends of its lines stay.
pub fn escape_lines(alloc: Global, text: &str) -> Result<String, AllocError>
    ensures text { IfOk result (λ s. string_bytes s ≡ shown_text true text.now) }
    ensures seen { IfOk result (λ s. All IsSeenOrLine (chars (string_bytes s))) }
    ensures same { IfOk result (λ s. All IsSeenOrLine (chars text.now) → string_bytes s ≡ text.now) }
{
    escape_by(alloc, text, true)
}
