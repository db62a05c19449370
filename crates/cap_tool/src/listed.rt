//! The captures that a list names, in place of the words of the command line.
ghost use Rattle.std.specs.Prelude.{◌≡◌, ◌≢◌, ◌⊎◌, ◌<◌, ◌++◌, ◌∷◌, [], IfErr, IfOk, IsFalse, IsTrue, OnOk, length, map};
ghost use Rattle.std.specs.Prelude.{string_bytes};
ghost use Rattle.cap_tool.specs.Outcomes.{is_help};
ghost use Rattle.cap_tool.specs.ListedNames.{ReadsList, StopsReading, listed_fault, listed_name, listed_names, pieces};

use crate::causes::Cause;
use crate::openers::Opener;
use crate::outcomes::{Outcome, RunStop};
use crate::regular::FileType;
use cap_bytes::{Broken, Fault, Source};
use cap_line::{LineFault, Task, files_limit, standard_inputs};
use memchr::memchr;
use std::alloc::{AllocError, Global};
use std::str;

// No bytes.
const NONE: &[u8] = b"";

// How many bytes of a list are read at a time.
const PIECE: usize = 4096;

// Adds the next bytes that a source gives to a list, with a buffer for them, and returns whether it was at its end.
fn take_piece<R: Source>(
    source: &mut R,
    piece: &mut [u8],
    list: &mut Vec<u8>,
) -> Result<bool, RunStop>
    requires { 0 < length piece.old }
    ensures bytes { OnOk result (IsTrue (R.tells_coming source.old)
        → list.new.items ++ R.coming source.new ≡ list.old.items ++ R.coming source.old) }
    ensures end { IfOk result (λ is_end. IsTrue is_end → IsTrue (R.tells_coming source.old)
        → R.coming source.new ≡ []) }
    ensures told { IsTrue (R.tells_coming source.old) → IsTrue (R.tells_coming source.new) }
    ensures cannot { IsTrue (R.can_fail source.new) → IsTrue (R.can_fail source.old) }
    ensures room { length piece.new ≡ length piece.old }
    ensures stops { IfErr result (λ stop. ((stop.outcome ≡ Outcome.List) × IsTrue (R.can_fail source.old))
        ⊎ (stop.outcome ≡ Outcome.Fault Fault.Memory)) }
{
    let count = match source.take(piece) {
        Ok(count) => count,
        Err(Broken) => return Err(RunStop::list(Cause::Unknown)),
    };
    if list.extend_from_slice(piece.split_at(count).0).is_err() {
        return Err(RunStop::memory());
    }
    Ok(count == 0)
}

// Adds all that a source gives to a list.
fn read_all<R: Source>(source: &mut R, list: &mut Vec<u8>) -> Result<(), RunStop>
    ensures bytes { OnOk result (IsTrue (R.tells_coming source.old)
        → list.new.items ≡ list.old.items ++ R.coming source.old) }
    ensures stops { IfErr result (λ stop. ((stop.outcome ≡ Outcome.List) × IsTrue (R.can_fail source.old))
        ⊎ (stop.outcome ≡ Outcome.Fault Fault.Memory)) }
{
    let mut piece = [0u8; PIECE];
    // no list has more pieces than that
    for _ in 0..u64::MAX {
        if take_piece(source, &mut piece, list)? {
            return Ok(());
        }
    }
    Err(RunStop::memory())
}

// Why a list of that type can't be read.
fn stop_at(stop: RunStop, file_type: FileType) -> RunStop
    ensures { result.outcome ≡ stop.outcome }
{
    match file_type {
        FileType::Folder => RunStop::because(stop.outcome, Cause::Folder),
        _ => stop,
    }
}

/// Reads the list of that name whole. Returns `Outcome::List` if it can't be opened or read, and why, and
/// `Fault::Memory` if a growth is refused.
pub fn read_list<O: Opener>(opener: &O, alloc: Global, name: &str) -> Result<Vec<u8>, RunStop>
    ensures read { IfOk result (λ list. ReadsList (O.gives opener.now) (λ s. record {
      told = O.Reader.tells_coming s;
      bytes = O.Reader.coming s;
      can_fail = O.Reader.can_fail s;
    }) name.now list.items) }
    ensures stops { IfErr result (StopsReading (O.gives opener.now) (λ s. record {
      told = O.Reader.tells_coming s;
      bytes = O.Reader.coming s;
      can_fail = O.Reader.can_fail s;
    }) name.now) }
{
    let (mut source, file_type) = match opener.open(name) {
        Ok(opened) => opened,
        Err(cause) => return Err(RunStop::list(cause)),
    };
    let mut list = Vec::new(alloc);
    match read_all(&mut source, &mut list) {
        Ok(()) => Ok(list),
        Err(stop) => Err(stop_at(stop, file_type)),
    }
}

/// The bytes before the first that is `end`, and those behind it: all, and none, if no byte is.
pub(crate) fn split_piece(end: u8, list: &[u8]) -> (&[u8], &[u8])
    requires { list.now ≢ [] }
    ensures pieces { pieces end list.now ≡ result.0.now ∷ pieces end result.1.now }
    ensures less { length result.1.now < length list.now }
{
    match memchr(end, list) {
        Some(place) => {
            let (piece, rest) = list.split_at(place);
            (piece, rest.split_at(1).1)
        }
        None => (list, NONE),
    }
}

// The name that some bytes give.
fn name_of(alloc: Global, bytes: &[u8]) -> Result<String, AllocError>
    ensures { IfOk result (λ name. string_bytes name ≡ listed_name bytes.now) }
{
    if let Ok(name) = str::from_utf8(bytes) {
        return String::from_str(alloc, name);
    }
    let mut name = String::from_utf8_lossy(alloc, bytes)?;
    name.push('\0')?;
    Ok(name)
}

/// The names that a list has: a NUL ends each, or the list's end the last. One that isn't UTF-8 has U+FFFD for what
/// isn't, and a NUL behind, so that no file of that name can be opened. `AllocError` comes if a growth is refused.
pub fn names_in(alloc: Global, list: &[u8]) -> Result<Vec<String>, AllocError>
    ensures { IfOk result (λ names. map string_bytes names.items ≡ listed_names list.now) }
{
    let mut names = Vec::new(alloc);
    let mut rest = list;
    while !rest.is_empty() {
        let (piece, behind) = split_piece(0, rest);
        names.push(name_of(alloc, piece)?)?;
        rest = behind;
    }
    Ok(names)
}

/// The names that a list has, as `names_in` gives them, and behind them the list's own name.
pub fn names_and_list(alloc: Global, list: &[u8], name: &str) -> Result<Vec<String>, AllocError>
    ensures { IfOk result (λ names. map string_bytes names.items ≡ listed_names list.now ++ name.now ∷ []) }
{
    let mut names = names_in(alloc, list)?;
    names.push(String::from_str(alloc, name)?)?;
    Ok(names)
}

/// The texts of some names. `AllocError` comes if a growth is refused.
pub fn texts_of<'a>(alloc: Global, names: &'a [String]) -> Result<Vec<&'a str>, AllocError>
    ensures { IfOk result (λ texts. map (λ t. t.now) texts.items ≡ map string_bytes names.now) }
{
    let mut texts = Vec::new(alloc);
    for name in names.iter() {
        texts.push(name.as_str())?;
    }
    Ok(texts)
}

/// Tests the names that a list has, for a task; `list` is the list's own name. Returns the first of these faults:
/// `Files` if there are more than the task takes, `Input` if standard input, `-`, is named twice, where the list counts
/// too.
pub fn check_listed(task: Task, list: &str, names: &[&str]) -> Result<(), LineFault>
    ensures answer { result ≡ listed_fault task list.now (map (λ n. n.now) names.now) }
    ensures help { IfErr result (λ fault. IsFalse (is_help (Outcome.Line fault))) }
{
    if names.len() > files_limit(task) {
        return Err(LineFault::Files);
    }
    let named = standard_inputs(names);
    if named > 1 || (named == 1 && list == "-") {
        return Err(LineFault::Input);
    }
    Ok(())
}
