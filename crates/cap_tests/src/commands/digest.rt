//! Digests of worked captures: the SHA-256 of canonical texts that were written down by hand, by Python's hashlib.
ghost use Rattle.std.specs.Prelude.{◌≤◌};

use crate::checks::{holds, same};
use crate::files::{bytes_of, reader_of, room_of, sources_of};
use crate::hex_vectors::{
    CARRY_PCAP, CARRY_PCAPNG, CUT_PCAP, File, HEADER_ONLY, RUNS_BACK, SIMPLE_PACKET,
};
use cap_bytes::{Pieces, Tail};
use cap_check::{CheckLine, check_all_to, check_to};
use cap_digest::{PacketDigest, lowest_terms};
use cap_print::{Form, TimeForm};
use cap_source::{Capture, PacketFeed, next_packet};
use std::alloc::Global;
use std::process::Abort;

// The line of a packet of 4 bytes at 2 seconds and a half: link type 1, lengths 4 and 4, seconds 2, 1/2, 01020304.
const CARRIED: &str = "digest 1 sha256 \
    ae7312267c797be18247384507fd1956f2af9397397bd84f72a62298f1352b4e packets 1\n";

const CARRIED_JSON: &str = "{\"type\":\"digest\",\"file\":1,\"sha256\":\
    \"ae7312267c797be18247384507fd1956f2af9397397bd84f72a62298f1352b4e\",\"packets\":1,\"cut\":false}\n";

// The lines of no packet, of a whole file and of one whose end was dropped; of two without bytes, at 5 seconds and at
// 1; and of one without a time, of which 4 of 10 bytes were captured.
const NONE: &str = "digest 1 sha256 \
    e3b0c44298fc1c149afbf4c8996fb92427ae41e4649b934ca495991b7852b855 packets 0\n";

const NONE_CUT: &str = "digest 1 sha256 \
    e3b0c44298fc1c149afbf4c8996fb92427ae41e4649b934ca495991b7852b855 packets 0 cut\n";

const EMPTY: &str = "digest 1 sha256 \
    f8d0d0e8bc5e60d706c8fb428dce68f694a91befa2cd8e62f22c36c10c9610d6 packets 2\n";

const UNTIMED: &str = "digest 1 sha256 \
    1397c28e7b685b7f53beb784d4e806f7286b89e923fbd78abfbe09734038e06a packets 1\n";

// The lines of a file whose end is cut, and that of a check that has a digest of it.
const REFUSED: &str = "digest 1 refused offset 24 rule 3 cut\n";

const REFUSED_JSON: &str = "{\"type\":\"digest\",\"file\":1,\
    \"refused\":{\"offset\":24,\"rule\":3,\"name\":\"cut\"}}\n";

const CHECK_REFUSED: &str = "check 1 pcap packets 0 bytes 0 first - last - \
    backward 0 untimed 0 truncated 0 skipped 0 interfaces 1 sha256 - \
    refused offset 24 rule 3 cut\n";

const CHECK_REFUSED_JSON: &str =
    "{\"type\":\"check\",\"file\":1,\"format\":\"pcap\",\"packets\":0,\"bytes\":0,\
    \"first\":null,\"last\":null,\"backward\":0,\
    \"untimed\":0,\"truncated\":0,\"skipped\":0,\"interfaces\":1,\"sha256\":null,\
    \"refused\":{\"offset\":24,\"rule\":3,\"name\":\"cut\"}}\n";

const CHECK_CARRIED: &str =
    "check 1 pcap packets 1 bytes 4 first 2+500000/1000000 last 2+500000/1000000 \
    backward 0 untimed 0 truncated 0 skipped 0 interfaces 1 sha256 \
    ae7312267c797be18247384507fd1956f2af9397397bd84f72a62298f1352b4e whole\n";

const CHECK_NONE_CUT: &str = "check 1 pcap packets 0 bytes 0 first - last - \
    backward 0 untimed 0 truncated 0 skipped 0 interfaces 1 sha256 \
    e3b0c44298fc1c149afbf4c8996fb92427ae41e4649b934ca495991b7852b855 whole cut\n";

// A file, whether a cut end is dropped, the line and its form, what is printed, and whether the file is whole.
type Row = (File, Tail, CheckLine, Form, &'static str, bool);

const TEXT: Form = Form::Text(TimeForm::Exact);

const DIGEST: CheckLine = CheckLine::Digest;

const BOTH: CheckLine = CheckLine::CountsAndDigest;

const DIGESTED: [Row; 13] = [
    (CARRY_PCAP, Tail::Refuse, DIGEST, TEXT, CARRIED, true),
    (CARRY_PCAPNG, Tail::Refuse, DIGEST, TEXT, CARRIED, true),
    (HEADER_ONLY, Tail::Refuse, DIGEST, TEXT, NONE, true),
    (RUNS_BACK, Tail::Refuse, DIGEST, TEXT, EMPTY, true),
    (SIMPLE_PACKET, Tail::Refuse, DIGEST, TEXT, UNTIMED, true),
    (CUT_PCAP, Tail::Accept, DIGEST, TEXT, NONE_CUT, true),
    (CUT_PCAP, Tail::Refuse, DIGEST, TEXT, REFUSED, false),
    (
        CARRY_PCAPNG,
        Tail::Refuse,
        DIGEST,
        Form::Json(TimeForm::Exact),
        CARRIED_JSON,
        true,
    ),
    (
        CUT_PCAP,
        Tail::Refuse,
        DIGEST,
        Form::Json(TimeForm::Exact),
        REFUSED_JSON,
        false,
    ),
    (CARRY_PCAP, Tail::Refuse, BOTH, TEXT, CHECK_CARRIED, true),
    (CUT_PCAP, Tail::Accept, BOTH, TEXT, CHECK_NONE_CUT, true),
    (CUT_PCAP, Tail::Refuse, BOTH, TEXT, CHECK_REFUSED, false),
    (
        CUT_PCAP,
        Tail::Refuse,
        BOTH,
        Form::Json(TimeForm::Exact),
        CHECK_REFUSED_JSON,
        false,
    ),
];

// What is printed of a file by `piece` bytes at a time.
fn prints(rt: &impl Abort, alloc: Global, row: &Row, piece: usize)
    requires { 1 ≤ piece }
{
    let (file, tail, which, form, line, is_whole) = *row;
    let mut writer = room_of(rt, alloc, 512);
    let source = reader_of(rt, alloc, file, piece);
    let answer = check_to(alloc, Some(source), 1, tail, which, form, b"", &mut writer);
    same!(rt; (answer, writer.bytes()), (Ok(is_whole), line.as_bytes()));
}

#[test]
fn always_memory_a_capture_has_a_digest(rt: HostRuntime) {
    for row in &DIGESTED {
        for piece in [1, 4096] {
            prints(&rt, rt.alloc(), row, piece);
        }
    }
    lowest_terms();
}

// Of three files the second is refused: each has a line.
#[test]
fn always_memory_digests_go_on_behind_a_refusal(rt: HostRuntime) {
    let alloc = rt.alloc();
    let files = [CARRY_PCAP, CUT_PCAP, HEADER_ONLY];
    let sources = sources_of(&rt, alloc, files.as_slice(), 4096);
    holds!(&rt; sources.len() <= 32);
    let mut writer = room_of(&rt, alloc, 512);
    let answer = check_all_to(alloc, sources, Tail::Refuse, DIGEST, TEXT, &mut writer);
    let lines = "digest 1 sha256 \
    ae7312267c797be18247384507fd1956f2af9397397bd84f72a62298f1352b4e packets 1\n\
    digest 2 refused offset 24 rule 3 cut\n\
    digest 3 sha256 \
    e3b0c44298fc1c149afbf4c8996fb92427ae41e4649b934ca495991b7852b855 packets 0\n";
    same!(&rt; (answer, writer.bytes()), (Ok(false), lines.as_bytes()));
}

// The 43rd read of one byte fails, in the record at 24; and a file that could not be opened.
#[test]
fn always_memory_a_failed_read_has_no_digest(rt: HostRuntime) {
    let alloc = rt.alloc();
    let source = Pieces::new(bytes_of(&rt, alloc, CARRY_PCAP), 1, Some(43));
    let mut writer = room_of(&rt, alloc, 512);
    let answer = check_to(
        alloc,
        Some(source),
        2,
        Tail::Refuse,
        DIGEST,
        TEXT,
        b"",
        &mut writer,
    );
    let line = "digest 2 read offset 24\n";
    same!(&rt; (answer, writer.bytes()), (Ok(false), line.as_bytes()));
}

#[test]
fn always_memory_a_file_that_is_not_opened_has_no_digest(rt: HostRuntime) {
    let alloc = rt.alloc();
    let unopened: Option<Pieces> = None;
    let mut writer = room_of(&rt, alloc, 512);
    let name = b" name a";
    let answer = check_to(
        alloc,
        unopened,
        3,
        Tail::Refuse,
        DIGEST,
        TEXT,
        name,
        &mut writer,
    );
    let line = "digest 3 open name a\n";
    same!(&rt; (answer, writer.bytes()), (Ok(false), line.as_bytes()));
}

// The digest of no packet, and that of the packet of CARRIED, as it comes.
#[test]
fn always_memory_packets_are_digested_as_they_come(rt: HostRuntime) {
    let alloc = rt.alloc();
    let source = reader_of(&rt, alloc, CARRY_PCAPNG, 4096);
    let mut capture = Capture::new(alloc, source, 1, Tail::Refuse);
    let Ok(Some(meta)) = next_packet(&mut capture) else {
        panic!(&rt; "a packet");
    };
    let mut digest = PacketDigest::new();
    digest.take(&meta, capture.frame());
    holds!(&rt; digest.finish().starts_with(&[0xae, 0x73, 0x12, 0x26]));
    holds!(&rt; PacketDigest::new().finish().starts_with(&[0xe3, 0xb0, 0xc4, 0x42]));
}
