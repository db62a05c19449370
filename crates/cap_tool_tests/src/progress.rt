//! The line that shows how far a run is, and devices that are watched.

use crate::rooms::room_of;
use cap_bytes::{Device, Pieces, Sink, Source};
use cap_tool::{Progress, ProgressDevice, progress_line};
use std::process::Abort;

// Bytes that are read, of how many, after how many milliseconds, and the line.
const LINES: [(u64, Option<u64>, u64, &str); 6] = [
    (
        120_400_000,
        Some(4_800_000_000),
        2_000,
        "  120.4 MB of 4.8 GB, 60.2 MB a second, 1 min left",
    ),
    (
        3_000_000_000,
        Some(4_000_000_000),
        3_000,
        "  3.0 GB of 4.0 GB, 1.0 GB a second, 1 s left",
    ),
    (999_999_999, None, 2_500, "  999.9 MB, 399.9 MB a second"),
    (
        0,
        Some(1_000_000),
        2_000,
        "  0.0 MB of 1.0 MB, 0.0 MB a second",
    ),
    (
        5_000_000,
        Some(5_000_000),
        2_000,
        "  5.0 MB of 5.0 MB, 2.5 MB a second",
    ),
    (
        u64::MAX,
        Some(u64::MAX),
        u64::MAX,
        "  18446744073.7 GB of 18446744073.7 GB, 0.0 MB a second",
    ),
];

#[test]
fn a_line_tells_bytes_rate_and_time_left(rt: HostRuntime) {
    for (read, total, millis, wanted) in &LINES {
        assert_eq!(rt;
            progress_line(*read, *total, *millis).as_slice(),
            wanted.as_bytes()
        );
    }
}

// A reader gives "cap", and then fails.
fn gives_three_and_fails<R: Source>(rt: &impl Abort, source: &mut R) {
    let mut buffer = [0; 8];
    assert_eq!(rt; source.take(&mut buffer), Ok(3));
    assert_eq!(rt; &buffer[..3], b"cap".as_slice());
    assert!(rt; source.take(&mut buffer).is_err());
    assert!(rt; source.failed());
}

#[test]
fn a_watched_reader_does_what_its_inner_one_does(rt: HostRuntime) {
    let progress = Progress::new(&rt, None, true, Some(4));
    let bytes = b"capt".to_vec(rt.alloc()).expect(&rt, "memory");
    let mut source = ProgressDevice::new(Pieces::new(bytes, 3, Some(2)), &progress);
    gives_three_and_fails(&rt, &mut source);
}

// A writer takes three bytes, and then fails.
fn takes_three_and_fails<W: Sink>(rt: &impl Abort, sink: &mut W) {
    assert_eq!(rt; sink.give(b"ca"), Ok(2));
    assert_eq!(rt; sink.give(b"pt"), Ok(1));
    assert!(rt; sink.give(b"t").is_err());
}

#[test]
fn a_watched_writer_does_what_its_inner_one_does(rt: HostRuntime) {
    let progress = Progress::new(&rt, None, true, Some(4));
    let mut sink = ProgressDevice::new(room_of(&rt, rt.alloc(), 3), &progress);
    takes_three_and_fails(&rt, &mut sink);
    assert_eq!(rt; sink.into_inner().bytes(), b"cap".as_slice());
}
