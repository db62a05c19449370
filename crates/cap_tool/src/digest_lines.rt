//! The lines that `capt digest --names` printed, as `--verify` reads them.
ghost use Rattle.std.specs.Prelude.{◌≡◌, ◌⊎◌, ◌++◌, ◌∷◌, [], ℕ, IfErr, IfOk, MatchOption, None, Some, codes, map};
ghost use Rattle.std.specs.Prelude.{option_map, string_bytes};
ghost use Rattle.cap_tool.specs.DigestLines.{IsFirstOther, entries_in, entry_by, entry_in, entry_of, fields_of};
ghost use Rattle.cap_tool.specs.DigestLines.{number_before};

use crate::listed::split_piece;
use crate::outcomes::{Outcome, RunStop};
use cap_bytes::Fault;
use cap_line::{escape, number_of, unescape};
use std::alloc::{AllocError, Global};
use std::str;

/// A line that `capt digest --names` printed of a file.
#[derive(Debug, Drop)]
pub struct DigestLine {
    /// The number that the line has.
    pub number: u32,
    /// The name that it has.
    pub name: String,
    /// The line with its end.
    pub text: String,
}

// The number of a file, by what stands before its name in a line.
fn number_before(front: &str) -> Option<u32>
    ensures { result ≡ number_before front.now }
{
    let (digits, _) = front.strip_prefix("digest ")?.split_once(" ")?;
    if digits.starts_with("0") {
        return None;
    }
    number_of(digits)
}

// The number of a file in a line, and its name as a terminal shows it.
fn fields_of(line: &str) -> Option<(u32, &str)>
    ensures { MatchOption result (fields_of line.now ≡ None)
        (λ fields. fields_of line.now ≡ Some (fields.0, fields.1.now)) }
{
    let (front, shown) = line.split_once(" name ")?;
    Some((number_before(front)?, shown))
}

// A line with its end.
fn with_end(alloc: Global, line: &str) -> Result<String, AllocError>
    ensures { IfOk result (λ text. string_bytes text ≡ line.now ++ codes "\n") }
{
    let mut text = String::from_str(alloc, line)?;
    text.push_str("\n")?;
    Ok(text)
}

// What a line has whose fields are those.
fn entry_by(
    alloc: Global,
    line: &str,
    number: u32,
    shown: &str,
) -> Result<Option<DigestLine>, AllocError>
    ensures { IfOk result (λ entry. option_map entry_of entry ≡ entry_by line.now (number, shown.now)) }
{
    if escape(alloc, shown)?.as_str() != shown {
        return Ok(None);
    }
    let name = unescape(alloc, shown)?;
    let text = with_end(alloc, line)?;
    Ok(Some(DigestLine { number, name, text }))
}

// What a line has, if `digest --names` can have printed it.
fn entry_in(alloc: Global, line: &[u8]) -> Result<Option<DigestLine>, AllocError>
    ensures { IfOk result (λ entry. option_map entry_of entry ≡ entry_in line.now) }
{
    let Ok(text) = str::from_utf8(line) else {
        return Ok(None);
    };
    match fields_of(text) {
        Some((number, shown)) => entry_by(alloc, text, number, shown),
        None => Ok(None),
    }
}

/// The lines of a list, of which an end of a line ends each, or the list's end the last. Returns `Outcome::ListLine`
/// with the number, from 1, of the first line that `capt digest --names` doesn't print, as far as it takes to know its
/// file; and `Fault::Memory` if a growth is refused.
pub fn lines_in(alloc: Global, list: &[u8]) -> Result<Vec<DigestLine>, RunStop>
    ensures lines { IfOk result (λ lines. map (λ l. Some (entry_of l)) lines.items ≡ entries_in list.now) }
    ensures stops { IfErr result (λ stop. (stop.outcome ≡ Outcome.Fault Fault.Memory)
        ⊎ ((line : ℕ) × IsFirstOther list.now line × (stop.outcome ≡ Outcome.ListLine line))) }
{
    let mut lines = Vec::new(alloc);
    let mut rest = list;
    while !rest.is_empty() {
        let (line, behind) = split_piece(b'\n', rest);
        match entry_in(alloc, line) {
            Ok(Some(entry)) => {
                if lines.push(entry).is_err() {
                    return Err(RunStop::memory());
                }
            }
            Ok(None) => return Err(RunStop::list_line(lines.len() as u64 + 1)),
            Err(_) => return Err(RunStop::memory()),
        }
        rest = behind;
    }
    Ok(lines)
}

/// The names that some lines have, and behind them the list's own name. `AllocError` comes if a growth is refused.
pub fn line_names<'a>(
    alloc: Global,
    lines: &'a [DigestLine],
    list: &'a str,
) -> Result<Vec<&'a str>, AllocError>
    ensures { IfOk result (λ texts. map (λ t. t.now) texts.items
        ≡ map (λ l. string_bytes l.name) lines.now ++ list.now ∷ []) }
{
    let mut texts = Vec::new(alloc);
    for line in lines.iter() {
        texts.push(line.name.as_str())?;
    }
    texts.push(list)?;
    Ok(texts)
}
