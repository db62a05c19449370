//! The example of docs/LIBRARY.md: the report over a file that is in memory.
use libcapt::bytes::{Pieces, Room, Tail};
use libcapt::report::report;
use std::test::Fail;

// A pcap file of one packet of 4 bytes, whose fraction of a second carries.
const FILE: &str = "d4c3b2a1020004000000000000000000000004000100000001000000\
    60e31600040000000400000001020304";

const REPORT: &str = "files 1\n\
    file 1 pcap packets 1 bytes 4 truncated 0 skipped 0 first 2+500000/1000000 last 2+500000/1000000\n\
    total packets 1 bytes 4 truncated 0\n\
    frames other-link 0 not-ipv4 0 short 1 cut 0 bad 0 unjoined 0 counted 0\n\
    joined 0 given-up 0\n\
    talks 0\n";

#[test]
fn a_report(rt: HostRuntime) -> Result<(), Fail> {
    let mut sources = Vec::new(rt.alloc());
    sources.push(Pieces::new(hex::decode(rt.alloc(), FILE)?, 4_096, None))?;
    let mut text = Room::new(Vec::with_capacity(rt.alloc(), 1_024)?);
    report(rt.alloc(), sources, Tail::Refuse, &mut text)?;
    assert_eq!(rt; text.bytes(), REPORT.as_bytes());
    Ok(())
}
