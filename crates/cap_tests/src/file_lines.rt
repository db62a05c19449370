//! The lines of files: worked files of both formats.
ghost use Rattle.std.specs.Prelude.{◌≤◌};

use crate::checks::{holds, same};
use crate::files::{room_of, sources_of};
use crate::hex_vectors::{
    CARRY_PCAP, CUT_PCAP, File, HEADER_ONLY, OPTIONS_PCAPNG, RUNS_BACK, SIMPLE_PACKET,
};
use cap_bytes::{Fault, Sink, Source, Tail};
use cap_talks::file_lines;
use std::alloc::Global;
use std::process::Abort;

const CARRY_LINE: &str = "files 1\nfile 1 pcap packets 1 bytes 4 truncated 0 skipped 0 \
    first 2+500000/1000000 last 2+500000/1000000\n";

const HEADER_LINE: &str =
    "files 1\nfile 1 pcap packets 0 bytes 0 truncated 0 skipped 0 first - last -\n";

const CUT_LINE: &str =
    "files 1\nfile 1 pcap packets 0 bytes 0 truncated 0 skipped 0 first - last - cut\n";

const OPTIONS_LINE: &str = "files 1\nfile 1 pcapng packets 1 bytes 4 truncated 0 skipped 1 \
    first 2+500000/1000000 last 2+500000/1000000\n";

const SIMPLE_LINE: &str =
    "files 1\nfile 1 pcapng packets 1 bytes 10 truncated 1 skipped 0 first - last -\n";

const TWO_LINES: &str = "files 2\n\
    file 1 pcap packets 2 bytes 0 truncated 0 skipped 0 first 1+0/1000000 last 5+0/1000000\n\
    file 2 pcapng packets 1 bytes 4 truncated 0 skipped 1 first 2+500000/1000000 last 2+500000/1000000\n";

// Files, whether a cut end is dropped, and what is reported of them.
type Told = (&'static [File], Tail, &'static str);

const TOLD: [Told; 7] = [
    (&[CARRY_PCAP], Tail::Refuse, CARRY_LINE),
    (&[HEADER_ONLY], Tail::Refuse, HEADER_LINE),
    (&[CUT_PCAP], Tail::Accept, CUT_LINE),
    (&[OPTIONS_PCAPNG], Tail::Refuse, OPTIONS_LINE),
    (&[SIMPLE_PACKET], Tail::Refuse, SIMPLE_LINE),
    (&[RUNS_BACK, OPTIONS_PCAPNG], Tail::Refuse, TWO_LINES),
    (&[RUNS_BACK, OPTIONS_PCAPNG], Tail::Accept, TWO_LINES),
];

// What the lines of 1 to 32 files answer.
fn tell<R: Source, W: Sink>(
    rt: &impl Abort,
    alloc: Global,
    sources: Vec<R>,
    tail: Tail,
    writer: &mut W,
) -> Result<(), Fault> {
    holds!(rt; !sources.is_empty());
    holds!(rt; sources.len() <= 32);
    file_lines(alloc, sources, tail, writer)
}

// What is reported of files by `piece` bytes at a time.
fn tells(rt: &impl Abort, alloc: Global, row: &Told, piece: usize)
    requires { 1 ≤ piece }
{
    let (files, tail, wanted) = *row;
    let mut writer = room_of(rt, alloc, 512);
    let sources = sources_of(rt, alloc, files, piece);
    let answer = tell(rt, alloc, sources, tail, &mut writer);
    same!(rt; (answer, writer.bytes()), (Ok(()), wanted.as_bytes()));
}

#[test]
fn always_memory_files_are_told(rt: HostRuntime) {
    for row in &TOLD {
        for piece in [1, 4096] {
            tells(&rt, rt.alloc(), row, piece);
        }
    }
}
