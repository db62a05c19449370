//! Readers of worked files, and what is made of them.
ghost use Rattle.std.specs.Prelude.{◌≤◌};

use crate::checks::{holds, same};
use crate::hex_vectors::File;
use cap_bytes::{Fault, Pieces, Refusal, Room, Rule, Source, Tail};
use cap_merge::{Merged, merge_files};
use cap_source::{Capture, PacketFeed};
use cap_talks::report;
use std::alloc::Global;
use std::process::Abort;

/// The bytes of a file, which is texts in hex.
pub(crate) fn bytes_of(rt: &impl Abort, alloc: Global, file: &[&str]) -> Vec<u8> {
    let mut bytes = Vec::new(alloc);
    for part in file {
        let decoded = hex::decode(alloc, *part).expect(rt, "bytes in hex");
        bytes
            .extend_from_slice(decoded.as_slice())
            .expect(rt, "memory");
    }
    bytes
}

/// A reader of a file by `piece` bytes at a time.
pub(crate) fn reader_of(rt: &impl Abort, alloc: Global, file: &[&str], piece: usize) -> Pieces
    requires { 1 ≤ piece }
{
    Pieces::new(bytes_of(rt, alloc, file), piece, None)
}

/// Readers of files that are one text each, by `piece` bytes at a time.
pub(crate) fn readers_of(
    rt: &impl Abort,
    alloc: Global,
    files: &[&str],
    piece: usize,
) -> Vec<Pieces>
    requires { 1 ≤ piece }
{
    let mut sources = Vec::new(alloc);
    for file in files {
        sources
            .push(reader_of(rt, alloc, &[*file], piece))
            .expect(rt, "memory");
    }
    sources
}

/// Readers of files by `piece` bytes at a time.
pub(crate) fn sources_of(
    rt: &impl Abort,
    alloc: Global,
    files: &[File],
    piece: usize,
) -> Vec<Pieces>
    requires { 1 ≤ piece }
{
    let mut sources = Vec::new(alloc);
    for file in files {
        sources
            .push(reader_of(rt, alloc, *file, piece))
            .expect(rt, "memory");
    }
    sources
}

/// Room for that many, if at most one growth is refused.
pub(crate) fn roomy<T>(rt: &impl Abort, alloc: Global, count: usize) -> Vec<T> {
    match Vec::with_capacity(alloc, count) {
        Ok(room) => room,
        Err(_) => Vec::with_capacity(alloc, count).expect(rt, "room"),
    }
}

/// Two readers, if at most one growth is refused.
pub(crate) fn pair_of<R: Source>(rt: &impl Abort, alloc: Global, first: R, second: R) -> Vec<R> {
    let mut sources = roomy(rt, alloc, 2);
    sources.push(first).expect(rt, "memory");
    sources.push(second).expect(rt, "memory");
    sources
}

/// An empty writer with room for that many bytes.
pub(crate) fn room_of(rt: &impl Abort, alloc: Global, count: usize) -> Room {
    Room::new(Vec::with_capacity(alloc, count).expect(rt, "room"))
}

/// That what was answered and written is that answer and the bytes of a file.
pub(crate) fn ask_written(
    rt: &impl Abort,
    alloc: Global,
    found: (Result<(), Fault>, &[u8]),
    answer: Result<(), Fault>,
    file: &[&str],
) {
    let bytes = bytes_of(rt, alloc, file);
    same!(rt; found, (answer, bytes.as_slice()), file);
}

/// What is answered of files that are read to their ends, or of which one is refused there by that rule.
pub(crate) fn answer_of_files(ending: Result<(), (u32, u64, Rule)>) -> Result<(), Fault> {
    match ending {
        Ok(()) => Ok(()),
        Err((file, offset, rule)) => Err(Fault::Refused(Refusal { file, offset, rule })),
    }
}

/// The run of 1 to 32 readers.
pub(crate) fn merged_of(
    rt: &impl Abort,
    alloc: Global,
    sources: Vec<Pieces>,
) -> Merged<Capture<Pieces>> {
    holds!(rt; !sources.is_empty());
    holds!(rt; sources.len() <= 32);
    merge_files(alloc, sources, Tail::Refuse).expect(rt, "a run")
}

/// That a read fails before the first packet, which is reported so, and again.
pub(crate) fn fails_twice<F: PacketFeed>(rt: &impl Abort, mut feed: F, fault: Fault) {
    same!(rt; feed.head(), Err(fault));
    same!(rt; feed.head(), Err(fault));
    holds!(rt; feed.feed_held().failed);
}

/// What a report of 1 to 32 files answers.
pub(crate) fn report_to(
    rt: &impl Abort,
    alloc: Global,
    sources: Vec<Pieces>,
    tail: Tail,
    writer: &mut Room,
) -> Result<(), Fault> {
    holds!(rt; !sources.is_empty());
    holds!(rt; sources.len() <= 32);
    report(alloc, sources, tail, writer)
}
