//! Packets of several files in the order of exact time: lists of packets, and files that are read.
ghost use Rattle.std.specs.Prelude.{◌≡◌, ◌≤◌, ◌∷◌, [], IfOk, length};
ghost use Rattle.cap_source.specs.Feed.{HasFile};
ghost use Rattle.cap_merge.specs.Parts.{merged_feed};
ghost use Rattle.cap_merge.specs.inner.View.{parts_of};

use crate::checks::{holds, same};
use crate::files::{bytes_of, fails_twice, merged_of, pair_of, reader_of, sources_of};
use crate::hex_vectors::{File, PACKET, RUNS_BACK, RUNS_ON, SECTION};
use cap_bytes::{Fault, Pieces, Refusal, Rule};
use cap_merge::Merged;
use cap_source::{Ending, Format, Head, Listed, NO_KINDS, PacketFeed};
use cap_time::{Interface, Resolution, Stamp};
use std::alloc::{AllocError, Global};
use std::process::Abort;

// A file's clock by its code, the times of its packets, and whether it is broken.
type Side = (u8, &'static [u64], bool);

// A file without packets.
const NOTHING: Side = (0, &[], false);

// The file of that number, whose packets have no bytes, with a cut after them if it is broken.
fn make_listed(rt: &impl Abort, alloc: Global, file: u32, side: Side) -> Listed
    ensures { (⟦<Listed as PacketFeed>⟧.feed result).files ≡ file ∷ [] }
{
    let (code, times, broken) = side;
    let interface = interface_of(code).expect(rt, "an allowed code");
    let end = if broken { Some(Rule::Cut) } else { None };
    let times = times.to_vec(alloc).expect(rt, "memory");
    Listed::new(file, interface, times, end)
}

// Two files as one.
fn merge_of(alloc: Global, first: Listed, second: Listed) -> Result<Merged<Listed>, AllocError>
    requires first { (⟦<Listed as PacketFeed>⟧.feed first).files ≡ 1 ∷ [] }
    requires second { (⟦<Listed as PacketFeed>⟧.feed second).files ≡ 2 ∷ [] }
    ensures { IfOk result (λ m. HasFile (merged_feed (parts_of m)).files 2) }
{
    let mut feeds = Vec::new(alloc);
    feeds.push(first)?;
    feeds.push(second)?;
    Ok(Merged::new(feeds))
}

// The files 1 and 2 as one.
fn sides_of(rt: &impl Abort, alloc: Global, one: Side, two: Side) -> Merged<Listed>
    ensures { HasFile (merged_feed (parts_of result)).files 2 }
{
    let first = make_listed(rt, alloc, 1, one);
    let second = make_listed(rt, alloc, 2, two);
    merge_of(alloc, first, second).expect(rt, "memory")
}

// Files, numbered from 1, as one.
fn many_of(rt: &impl Abort, alloc: Global, sides: &[Side]) -> Merged<Listed>
    requires some { 1 ≤ length sides.now }
    requires most { length sides.now ≤ 32 }
{
    let mut feeds = Vec::new(alloc);
    let mut file = 1;
    for side in sides {
        feeds
            .push(make_listed(rt, alloc, file, *side))
            .expect(rt, "memory");
        file += 1;
    }
    Merged::new(feeds)
}

// An interface whose clock counts as the code says.
fn interface_of(code: u8) -> Option<Interface> {
    Some(Interface {
        link: 1,
        snaplen: 0,
        resolution: Resolution::from_code(code)?,
        offset: 0,
    })
}

// The time of units of a clock that counts as the code says.
fn time(units: u64, code: u8) -> Option<Stamp> {
    Some(Stamp::new(units, &interface_of(code)?))
}

// The file and the time of a packet that comes, in units and by the code of its clock.
type Came = (u32, u64, u8);

// Two files, the packets that come, and the file and the offset of the refusal that ends them. Row by row: files that
// run back; refusals that are read ahead; equal times of different forms, where the file decides; a file without
// packets.
const MERGED: [(Side, Side, &[Came], Option<(u32, u64)>); 6] = [
    (
        (0, &[5, 1], false),
        (0, &[2, 5], false),
        &[(2, 2, 0), (1, 5, 0), (1, 5, 0), (2, 5, 0)],
        None,
    ),
    ((0, &[5], true), (0, &[1], true), &[(2, 1, 0)], Some((2, 1))),
    ((0, &[1], true), (0, &[5], true), &[(1, 1, 0)], Some((1, 1))),
    (
        (0x8a, &[512], false),
        (1, &[5], false),
        &[(1, 512, 0x8a), (2, 5, 1)],
        None,
    ),
    (
        (1, &[5], false),
        (0x8a, &[512], false),
        &[(1, 5, 1), (2, 512, 0x8a)],
        None,
    ),
    (
        NOTHING,
        (0, &[7, 8, 9], false),
        &[(2, 7, 0), (2, 8, 0), (2, 9, 0)],
        None,
    ),
];

// Many files, the packets that come, and the file and the offset of the refusal that ends them. Row by row: equal
// clocks, and files whose times go backward; equal times of many forms; refusals among packets of the same clock, and
// later; a refusal before all packets.
const MANY: [(&[Side], &[Came], Option<(u32, u64)>); 4] = [
    (
        &[
            (0, &[5, 9], false),
            (0, &[5], false),
            (0, &[1, 5], false),
            NOTHING,
            (0, &[9, 2], false),
            (0, &[5], false),
            (0, &[2, 2], false),
            (0, &[9], false),
            (0, &[1, 6], false),
            (0, &[5], false),
        ],
        &[
            (3, 1, 0),
            (9, 1, 0),
            (7, 2, 0),
            (7, 2, 0),
            (1, 5, 0),
            (2, 5, 0),
            (3, 5, 0),
            (6, 5, 0),
            (10, 5, 0),
            (9, 6, 0),
            (1, 9, 0),
            (5, 9, 0),
            (5, 9, 0),
            (8, 9, 0),
        ],
        None,
    ),
    (
        &[
            (9, &[500_000_001], false),
            (0x8a, &[512], false),
            (1, &[5], false),
            (3, &[499, 500], false),
            (0x81, &[1], false),
            (6, &[500_000, 500_001], false),
            (9, &[500_000_000], false),
            (0x8a, &[511, 513], false),
            (0, &[0, 1], false),
            (3, &[500], false),
        ],
        &[
            (9, 0, 0),
            (4, 499, 3),
            (8, 511, 0x8a),
            (2, 512, 0x8a),
            (3, 5, 1),
            (4, 500, 3),
            (5, 1, 0x81),
            (6, 500_000, 6),
            (7, 500_000_000, 9),
            (10, 500, 3),
            (1, 500_000_001, 9),
            (6, 500_001, 6),
            (8, 513, 0x8a),
            (9, 1, 0),
        ],
        None,
    ),
    (
        &[
            (0, &[4, 5], false),
            (0, &[1], false),
            (0, &[4], false),
            (0, &[6], true),
            (0, &[2, 4], false),
            (0, &[4], false),
            (0, &[3, 4], true),
            (0, &[4], false),
            (0, &[3], false),
            NOTHING,
            (0, &[4], false),
            (0, &[0], false),
        ],
        &[
            (12, 0, 0),
            (2, 1, 0),
            (5, 2, 0),
            (7, 3, 0),
            (9, 3, 0),
            (1, 4, 0),
            (3, 4, 0),
            (5, 4, 0),
            (6, 4, 0),
            (7, 4, 0),
        ],
        Some((7, 2)),
    ),
    (
        &[
            (0, &[0], false),
            (0, &[0], false),
            (0, &[0], true),
            (0, &[0], false),
            (0, &[0], false),
            (0, &[0], false),
            (0, &[], true),
            (0, &[0], false),
            (0, &[], true),
        ],
        &[],
        Some((7, 0)),
    ),
];

// The file and the clock of the packet that comes, which has no bytes and is passed.
fn next_of(rt: &impl Abort, feed: &mut Merged<Listed>) -> (u32, Option<Stamp>) {
    same!(rt; feed.peek(), Ok(true));
    let meta = *feed.packet();
    same!(rt; feed.head(), Ok(Head::Packet(meta)));
    let clock = feed.clock();
    let next = feed.next_packet();
    same!(rt; (*next.clock, *next.meta), (clock, meta));
    holds!(rt; next.frame.is_empty());
    holds!(rt; feed.frame().is_empty());
    feed.pass();
    (meta.file, clock)
}

// Next come these packets.
fn gives(rt: &impl Abort, feed: &mut Merged<Listed>, came: &[Came]) {
    for (file, units, code) in came {
        let next = next_of(rt, feed);
        same!(rt; next, (*file, time(*units, *code)));
    }
}

// A refusal of a cut file at a place, or the end.
fn end_of(refusal: Option<(u32, u64)>) -> Head {
    match refusal {
        Some((file, offset)) => Head::Refused(Refusal {
            file,
            offset,
            rule: Rule::Cut,
        }),
        None => Head::End,
    }
}

// Whether a packet comes, at that end.
fn found_at(end: Head) -> Result<bool, Fault> {
    match end {
        Head::Refused(refusal) => Err(Fault::Refused(refusal)),
        _ => Ok(false),
    }
}

// Next comes that end, again and again.
fn ends_by<F: PacketFeed>(rt: &impl Abort, feed: &mut F, end: Head) {
    same!(rt; feed.peek(), found_at(end));
    same!(rt; feed.head(), Ok(end));
    same!(rt; feed.head(), Ok(end), "again");
}

// Two files give these packets, and then that end.
fn merges(rt: &impl Abort, feed: &mut Merged<Listed>, came: &[Came], end: Head) {
    same!(rt; feed.files(), 2);
    same!(rt; feed.backward(), 0);
    gives(rt, feed, came);
    ends_by(rt, feed, end);
}

#[test]
fn two_files_in_order(rt: HostRuntime) {
    for (one, two, came, refusal) in &MERGED {
        let mut feed = sides_of(&rt, rt.alloc(), *one, *two);
        merges(&rt, &mut feed, *came, end_of(*refusal));
    }
}

#[test]
fn many_files_in_order(rt: HostRuntime) {
    for (sides, came, refusal) in &MANY {
        holds!(&rt; (1..=32).contains(&sides.len()));
        let mut feed = many_of(&rt, rt.alloc(), *sides);
        gives(&rt, &mut feed, *came);
        ends_by(&rt, &mut feed, end_of(*refusal));
    }
}

// Each of the files 1 to `files` has a packet of that time.
fn gives_of_each(rt: &impl Abort, feed: &mut Merged<Listed>, files: u32, units: u64) {
    for file in 1..=files {
        let next = next_of(rt, feed);
        same!(rt; next, (file, time(units, 0)));
    }
}

// Two packets of each of 1 to 32 files, at two seconds: of each second they come by their files.
#[test]
fn equal_clocks_of_any_number_of_files(rt: HostRuntime) {
    let sides: [Side; 32] = [(0, &[7, 8], false); 32];
    for files in 1..=32 {
        let mut feed = many_of(&rt, rt.alloc(), &sides[..files]);
        same!(&rt; feed.files() as usize, files);
        gives_of_each(&rt, &mut feed, files as u32, 7);
        gives_of_each(&rt, &mut feed, files as u32, 8);
        ends_by(&rt, &mut feed, Head::End);
    }
}

#[test]
fn endings(rt: HostRuntime) {
    let mut feed = sides_of(&rt, rt.alloc(), NOTHING, NOTHING);
    same!(&rt; feed.head(), Ok(Head::End));
    let ending = Ending {
        format: Format::Pcap,
        skipped: 0,
        cut: None,
    };
    same!(&rt; feed.ending(2), ending);
    same!(&rt; feed.skipped_kinds(2), NO_KINDS);
    same!(&rt; feed.comments(2), None);
}

// An interface of Ethernet without options, once and twice in front of a packet.
const PLAIN: &str = "0100000014000000010000000000040014000000";

const ONE_INTERFACE: File = &[SECTION, PLAIN, PACKET];

const TWO_INTERFACES: File = &[SECTION, PLAIN, PLAIN, PACKET];

// What is held is the greatest of any file's, before a read and then.
fn holds_greatest<F: PacketFeed>(rt: &impl Abort, feed: &mut F) {
    let held = feed.feed_held();
    same!(rt; (held.window, held.interfaces, held.failed), (0, 0, false));
    holds!(rt; feed.head().is_ok());
    let held = feed.feed_held();
    same!(rt; (held.interfaces, held.failed), (2, false));
    holds!(rt; (1..=524_288).contains(&held.window));
}

#[test]
fn what_is_held(rt: HostRuntime) {
    let files = [ONE_INTERFACE, RUNS_BACK, TWO_INTERFACES, RUNS_ON];
    let sources = sources_of(&rt, rt.alloc(), &files, 1);
    let mut feed = merged_of(&rt, rt.alloc(), sources);
    holds_greatest(&rt, &mut feed);
}

// Byte 30 of the second file, which is of its first record, can't be read.
#[test]
fn a_failed_read_comes_again(rt: HostRuntime) {
    let first = reader_of(&rt, rt.alloc(), RUNS_BACK, 1);
    let second = Pieces::new(bytes_of(&rt, rt.alloc(), RUNS_ON), 1, Some(30));
    let feed = merged_of(&rt, rt.alloc(), pair_of(&rt, rt.alloc(), first, second));
    fails_twice(
        &rt,
        feed,
        Fault::Read {
            file: 2,
            offset: 24,
        },
    );
}
