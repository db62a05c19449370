//! What readers and joiners hold: a skipped block of 64 MiB, and a datagram whose blocks come every other one.
ghost use Rattle.std.specs.Prelude.{◌≤◌, length};

use crate::checks::{holds, same};
use crate::runs::Run;
use cap_bytes::{Tail, Tracked};
use cap_join::Put;
use cap_source::{Capture, Head, PacketFeed};
use std::alloc::Global;
use std::io;
use std::io::Read;
use std::process::Abort;

// A section, and the head of a block of kind 40000001 that has 67,108,864 bytes.
const FRONT: [u8; 36] = [
    0x0a, 0x0d, 0x0d, 0x0a, 0x1c, 0, 0, 0, 0x4d, 0x3c, 0x2b, 0x1a, 1, 0, 0, 0, 0xff, 0xff, 0xff,
    0xff, 0xff, 0xff, 0xff, 0xff, 0x1c, 0, 0, 0, 1, 0, 0, 0x40, 0, 0, 0, 4,
];

// Where that block's second length begins.
const BACK_AT: u64 = 28 + 67_108_864 - 4;

// That length, and the interface and the packet of CARRY_PCAPNG.
const BACK: [u8; 72] = [
    0, 0, 0, 4, 1, 0, 0, 0, 0x20, 0, 0, 0, 1, 0, 0, 0, 0, 0, 4, 0, 9, 0, 1, 0, 6, 0, 0, 0, 0, 0, 0,
    0, 0x20, 0, 0, 0, 6, 0, 0, 0, 0x24, 0, 0, 0, 0, 0, 0, 0, 0, 0, 0, 0, 0xa0, 0x25, 0x26, 0, 4, 0,
    0, 0, 4, 0, 0, 0, 1, 2, 3, 4, 0x24, 0, 0, 0,
];

// A reader that makes the file's bytes as they are read. In the block's body it leaves what the buffer holds.
#[derive(Drop)]
struct Made {
    place: u64,
}

// Copies what is left of some bytes from a place on, as much as fits, and answers how much that was.
fn copy_from(bytes: &[u8], place: u64, buffer: &mut [u8]) -> usize
    ensures { result ≤ length buffer.old }
{
    let from = (place as usize).min(bytes.len());
    let (_, rest) = bytes.split_at(from);
    let count = rest.len().min(buffer.len());
    let (front, _) = rest.split_at(count);
    let (room, _) = buffer.split_at_mut(count);
    room.copy_from_slice(front);
    count
}

impl Read for Made {
    fn read(&mut self, buffer: &mut [u8]) -> io::Result<usize> {
        let count = if self.place < 36 {
            copy_from(&FRONT, self.place, buffer)
        } else if self.place < BACK_AT {
            (BACK_AT - self.place).min(buffer.len() as u64) as usize
        } else {
            copy_from(&BACK, self.place - BACK_AT, buffer)
        };
        self.place = self.place.saturating_add(count as u64);
        Ok(count)
    }
}

// A feed holds 524,288 bytes of a window at most.
fn holds_little<F: PacketFeed>(rt: &impl Abort, feed: &F) {
    holds!(rt; feed.feed_held().window <= 524_288);
}

// The one packet comes after the skipped block, and then the end; never is more held.
fn gives_packet_behind<F: PacketFeed>(rt: &impl Abort, mut feed: F) {
    holds_little(rt, &feed);
    same!(rt; feed.peek(), Ok(true));
    holds_little(rt, &feed);
    same!(rt; (feed.packet().offset, feed.packet().skipped), (67_108_924, 1));
    feed.pass();
    holds_little(rt, &feed);
    same!(rt; feed.head(), Ok(Head::End));
    holds_little(rt, &feed);
}

#[test]
fn a_skipped_block_of_64_mib_is_never_held(rt: HostRuntime) {
    let source = Tracked::new(Made { place: 0 });
    let capture = Capture::new(rt.alloc(), source, 1, Tail::Refuse);
    gives_packet_behind(&rt, capture);
}

// A fragment of 8 bytes at that block, with more to come.
fn fragment_at(block: u16) -> [u8; 28] {
    let [high, low] = block.to_be_bytes();
    [
        0x45,
        0,
        0,
        28,
        0,
        9,
        high | 0x20,
        low,
        64,
        17,
        0,
        0,
        10,
        0,
        0,
        1,
        10,
        0,
        0,
        2,
        1,
        2,
        3,
        4,
        5,
        6,
        7,
        8,
    ]
}

// The blocks from one on, every other of 4,094, are kept, and the group holds 65,504 bytes.
fn keeps_every_other(rt: &impl Abort, run: &mut Run, first: u16)
    requires { first ≤ 1 }
{
    for count in 0..4_094_u16 {
        let put = run.put(rt, None, &fragment_at(first + 2 * count));
        holds!(rt; matches!(put, Ok(Put::Kept)));
    }
    same!(rt; run.joiner.held_bytes(), 65_504);
}

// The last fragment, 11 bytes from 65,504 on.
const LAST: [u8; 31] = [
    0x45, 0, 0, 31, 0, 9, 0x1f, 0xfc, 64, 17, 0, 0, 10, 0, 0, 1, 10, 0, 0, 2, 1, 2, 3, 4, 5, 6, 7,
    8, 9, 10, 11,
];

// The last fragment joins them all.
fn joins_all(rt: &impl Abort, run: &mut Run) {
    let Ok(Put::Joined(datagram)) = run.put(rt, None, &LAST) else {
        panic!(rt; "not joined");
    };
    same!(rt; (datagram.payload.len(), datagram.frames), (65_515, 8_189));
}

#[test]
fn odd_blocks_and_then_even_ones_are_held_in_one_buffer(rt: HostRuntime) {
    let mut run = Run::new(rt.alloc());
    keeps_every_other(&rt, &mut run, 1);
    keeps_every_other(&rt, &mut run, 0);
    joins_all(&rt, &mut run);
}
