//! What each command writes and answers, over readers and writers in memory.
mod blocks;
mod blocks_json;
mod captures;
mod check;
mod convert;
mod diff;
mod digest;
mod jobs;
mod join;
mod list;
mod list_json;
mod merge;

use crate::checks::same;
use crate::files::roomy;
use cap_bytes::{Fault, Pieces, Refusal, Room, Rule};
use std::alloc::Global;
use std::process::Abort;

/// What is answered of a file that is read to its end, or refused there by that rule.
pub(crate) fn answer_of_file(ending: Result<(), (u64, Rule)>) -> Result<(), Fault> {
    match ending {
        Ok(()) => Ok(()),
        Err((offset, rule)) => Err(Fault::Refused(Refusal {
            file: 1,
            offset,
            rule,
        })),
    }
}

/// The bytes of a text in hex, if at most one growth is refused.
pub(crate) fn decoded(rt: &impl Abort, alloc: Global, text: &str) -> Vec<u8> {
    match hex::decode(alloc, text) {
        Ok(bytes) => bytes,
        Err(_) => hex::decode(alloc, text).expect(rt, "bytes in hex"),
    }
}

/// A reader of a text in hex by 4,096 bytes at a time, if at most one growth is refused.
pub(crate) fn reader_again(rt: &impl Abort, alloc: Global, text: &str) -> Pieces {
    Pieces::new(decoded(rt, alloc, text), 4096, None)
}

/// A writer with room for 512 bytes, if at most one growth is refused.
pub(crate) fn room_again(rt: &impl Abort, alloc: Global) -> Room {
    Room::new(roomy(rt, alloc, 512))
}

// That an answer is as with memory after all of the bytes, or `Memory` after a prefix of them.
fn ask_front_of(rt: &impl Abort, answer: Result<(), Fault>, written: &[u8], wanted: &[u8]) {
    let taken = written.len();
    same!(rt; Some(written), wanted.get(..taken));
    if answer == Ok(()) {
        same!(rt; taken, wanted.len());
    } else {
        same!(rt; answer, Err(Fault::Memory));
    }
}

/// That an answer is as with memory after all that a text in hex says, or `Memory` after a prefix of it, if at most one
/// growth is refused.
pub(crate) fn ask_front(
    rt: &impl Abort,
    alloc: Global,
    answer: Result<(), Fault>,
    written: &[u8],
    text: &str,
) {
    let wanted = decoded(rt, alloc, text);
    ask_front_of(rt, answer, written, wanted.as_slice());
}
