//! Fragments of one datagram and of many, made by hand from the fields of their headers.
ghost use Rattle.std.specs.Prelude.{◌≤◌};

use crate::checks::{holds, same};
use crate::runs::{DATA, FRAGMENTS, Run};
use cap_bytes::{Order, put_u16};
use cap_ip::Key;
use cap_join::{Datagram, JoinFault, Put, places_law, worked_rows};
use std::alloc::Global;
use std::process::Abort;

// A fragment's packet: its identification, in blocks of 8 bytes where its data begins, whether more
// follow, and its data.
fn packet(
    rt: &impl Abort,
    alloc: Global,
    identification: u16,
    block: u16,
    more: bool,
    piece: &[u8],
) -> Vec<u8> {
    let flags = block % 0x2000 + u16::from(more) * 0x2000;
    let total = 20 + piece.len().min(60_000) as u16;
    let mut head = [
        0x45, 0, 0, 0, 0, 0, 0, 0, 0x40, 0x11, 0, 0, 10, 0, 0, 1, 10, 0, 0, 2,
    ];
    put_u16(Order::Big, &mut head, 2, total);
    put_u16(Order::Big, &mut head, 4, identification);
    put_u16(Order::Big, &mut head, 6, flags);
    let mut packet = head.to_vec(alloc).expect(rt, "memory");
    packet.extend_from_slice(piece).expect(rt, "memory");
    packet
}

// The key of those packets.
fn key(identification: u16) -> Key {
    Key {
        source: 0x0a00_0001,
        destination: 0x0a00_0002,
        protocol: 17,
        identification,
    }
}

// The datagram of an answer.
fn joined(rt: &impl Abort, answer: Result<Put, JoinFault>) -> Datagram {
    match answer {
        Ok(Put::Joined(datagram)) => datagram,
        Ok(Put::Kept) => panic!(rt; "kept"),
        Err(fault) => panic!(rt; "{fault:?}"),
    }
}

// Whether an answer is that the fragment is kept.
fn is_kept(answer: Result<Put, JoinFault>) -> bool {
    matches!(&answer, Ok(Put::Kept))
}

// Whether a packet is kept at a clock.
fn keeps_at(rt: &impl Abort, run: &mut Run, clock: Option<u64>, packet: &[u8]) -> bool {
    is_kept(run.put(rt, clock, packet))
}

const SECOND: u64 = 1_000_000;

// The front of a datagram, which says a length of that many bytes.
fn front(rt: &impl Abort, alloc: Global, identification: u16, length: u8) -> Vec<u8> {
    let data = [0x03, 0xe8, 0x07, 0xd0, 0, length, 0, 0];
    packet(rt, alloc, identification, 0, true, &data)
}

// A fragment of datagram 7 is kept, and that many bytes are held then.
fn keeps(rt: &impl Abort, run: &mut Run, packet: &[u8], held: usize) {
    holds!(rt; keeps_at(rt, run, None, packet));
    same!(rt; run.joiner.held_bytes(), held);
}

// All fragments of the map but its front are kept.
fn keeps_rest(rt: &impl Abort, alloc: Global, run: &mut Run) {
    let middle = [0xa0, 0xa1, 0xa2, 0xa3, 0xa4, 0xa5, 0xa6, 0xa7];
    keeps(rt, run, &packet(rt, alloc, 7, 1, true, &middle), 16);
    let short = [0xc0, 0xc1, 0xc2];
    keeps(rt, run, &packet(rt, alloc, 7, 2, false, &short), 24);
    let last = [0xd0, 0xd1, 0xd2, 0xd3, 0xd4, 0xd5, 0xd6, 0xd7];
    keeps(rt, run, &packet(rt, alloc, 7, 3, false, &last), 32);
}

// The datagram of the map.
const MAP: [u8; 32] = [
    0x03, 0xe8, 0x07, 0xd0, 0, 0x20, 0, 0, 0xa0, 0xa1, 0xa2, 0xa3, 0xa4, 0xa5, 0xa6, 0xa7, 0xc0,
    0xc1, 0xc2, 0, 0, 0, 0, 0, 0xd0, 0xd1, 0xd2, 0xd3, 0xd4, 0xd5, 0xd6, 0xd7,
];

// A datagram of four frames has that data, and that many bytes in its frames.
fn has_data(rt: &impl Abort, datagram: &Datagram, data: &[u8], bytes: u128) {
    holds!(rt; datagram.payload.as_slice() == data);
    same!(rt; datagram.frames, 4);
    same!(rt; datagram.bytes, bytes);
}

// A datagram's frames have no times.
fn is_untimed(rt: &impl Abort, datagram: &Datagram) {
    holds!(rt; datagram.first.is_none());
    holds!(rt; datagram.last.is_none());
}

// The front joins the map, and nothing is held then.
fn joins_map(rt: &impl Abort, mut run: Run, front: &[u8]) {
    same!(rt; run.joiner.open_count(), 1);
    let datagram = joined(rt, run.put(rt, None, front));
    has_data(rt, &datagram, &MAP, 28 + 23 + 28 + 28);
    is_untimed(rt, &datagram);
    same!(rt; run.joiner.open_count(), 0);
    same!(rt; run.joiner.held_bytes(), 0);
}

#[test]
fn overlap_map(rt: HostRuntime) {
    let front = front(&rt, rt.alloc(), 7, 0x20);
    let mut run = Run::new(rt.alloc());
    keeps_rest(&rt, rt.alloc(), &mut run);
    joins_map(&rt, run, &front);
}

// The first three of the worked fragments are kept, one a second.
fn keeps_three(rt: &impl Abort, run: &mut Run) {
    let [last, front, again, _] = &FRAGMENTS;
    holds!(rt; keeps_at(rt, run, Some(SECOND), last));
    holds!(rt; keeps_at(rt, run, Some(2 * SECOND), front));
    holds!(rt; keeps_at(rt, run, Some(3 * SECOND), again));
}

// The last of the worked fragments joins them.
fn joins_worked(rt: &impl Abort, run: &mut Run) {
    let datagram = joined(rt, run.put(rt, Some(4 * SECOND), &FRAGMENTS[3]));
    has_data(rt, &datagram, &DATA, 112);
    same!(rt; datagram.header.key(), key(7));
    same!(rt; datagram.first.map(|frame| frame.place), Some(0));
    same!(rt; datagram.last.map(|frame| frame.place), Some(3));
}

#[test]
fn overlapped_fragments(rt: HostRuntime) {
    let mut run = Run::new(rt.alloc());
    keeps_three(&rt, &mut run);
    joins_worked(&rt, &mut run);
}

// The two fragments of the row: one that ends a datagram of 16 bytes, and its front.
fn two_fragments(rt: &impl Abort, alloc: Global) -> (Vec<u8>, Vec<u8>) {
    (
        packet(rt, alloc, 9, 1, false, &[0, 1, 2, 3, 4, 5, 6, 7]),
        front(rt, alloc, 9, 0x10),
    )
}

// Clocks of the two fragments, and whether they are joined: at 30 seconds, past them, and without a first clock.
const THIRTY_SECONDS: [(Option<u64>, u64, bool); 3] = [
    (Some(SECOND), 31 * SECOND, true),
    (Some(SECOND), 31 * SECOND + 1, false),
    (None, 1_000 * SECOND, true),
];

// The second fragment joins both, or is kept alone.
fn joins_or_keeps(rt: &impl Abort, run: &Run, put: Put, is_joined: bool, second: u64) {
    match put {
        Put::Joined(datagram) => {
            same!(rt; datagram.frames, 2);
            same!(rt; datagram.payload.len(), 16);
            holds!(rt; is_joined, second);
        }
        Put::Kept => {
            same!(rt; run.joiner.open_count(), 1);
            same!(rt; run.joiner.held_bytes(), 8);
            same!(rt; run.joiner.given_up(), 0);
            holds!(rt; !is_joined, second);
        }
    }
}

// Puts the two fragments at the clocks of a row.
fn puts_both(
    rt: &impl Abort,
    run: &mut Run,
    last: &[u8],
    front: &[u8],
    clocks: (Option<u64>, u64, bool),
) {
    let (first, second, is_joined) = clocks;
    holds!(rt; keeps_at(rt, run, first, last));
    let put = run.put(rt, Some(second), front).expect(rt, "memory");
    joins_or_keeps(rt, run, put, is_joined, second);
}

#[test]
fn always_memory_thirty_seconds(rt: HostRuntime) {
    let (last, front) = two_fragments(&rt, rt.alloc());
    for &clocks in &THIRTY_SECONDS {
        let mut run = Run::new(rt.alloc());
        puts_both(&rt, &mut run, &last, &front, clocks);
    }
}

// A group is dropped by its own key alone.
fn flushes(rt: &impl Abort, run: &mut Run, last: &[u8], front: &[u8]) {
    holds!(rt; keeps_at(rt, run, Some(SECOND), last));
    run.joiner.flush(key(9));
    same!(rt; run.joiner.open_count(), 0);
    holds!(rt; keeps_at(rt, run, Some(3 * SECOND), front));
    run.joiner.flush(key(8));
    same!(rt; run.joiner.open_count(), 1);
}

#[test]
fn a_whole_datagram_flushes(rt: HostRuntime) {
    let (last, front) = two_fragments(&rt, rt.alloc());
    let mut run = Run::new(rt.alloc());
    flushes(&rt, &mut run, &last, &front);
}

// What the two fragments join to.
const JOINED: [u8; 16] = [
    0x03, 0xe8, 0x07, 0xd0, 0, 0x10, 0, 0, 0, 1, 2, 3, 4, 5, 6, 7,
];

// Checks how many bytes an open group holds, and how many are kept for later groups.
fn holds_bytes(rt: &impl Abort, run: &Run, held: usize, spare: usize) {
    same!(rt; run.joiner.held_bytes(), held);
    same!(rt; run.joiner.held_spare(), spare);
}

// Keeps a fragment of the block 8,188, and flushes it: its buffer is kept.
fn leaves_a_buffer(rt: &impl Abort, alloc: Global, run: &mut Run) {
    let far = packet(rt, alloc, 9, 8_188, true, &[0xff; 8]);
    holds!(rt; keeps_at(rt, run, Some(SECOND), &far));
    holds_bytes(rt, run, 65_512, 0);
    run.joiner.flush(key(9));
    holds_bytes(rt, run, 0, 65_512);
}

// Joins two fragments in that buffer, which is kept again.
fn joins_in_it(rt: &impl Abort, run: &mut Run, last: &[u8], front: &[u8]) {
    holds!(rt; keeps_at(rt, run, Some(SECOND), last));
    holds_bytes(rt, run, 16, 65_496);
    let datagram = joined(rt, run.put(rt, Some(SECOND), front));
    same!(rt; datagram.payload.as_slice(), JOINED.as_slice());
    holds_bytes(rt, run, 0, 65_512);
}

#[test]
fn a_buffer_serves_again(rt: HostRuntime) {
    let mut run = Run::new(rt.alloc());
    leaves_a_buffer(&rt, rt.alloc(), &mut run);
    let (last, front) = two_fragments(&rt, rt.alloc());
    joins_in_it(&rt, &mut run, &last, &front);
}

// A run with groups of the identifications from 0 up to a number, all at 1 second.
fn many_groups(rt: &impl Abort, alloc: Global, count: u16) -> Run {
    let mut run = Run::new(alloc);
    for identification in 0..count {
        let front = front(rt, alloc, identification, 0x10);
        holds!(rt; keeps_at(rt, &mut run, Some(SECOND), &front));
    }
    run
}

// A fragment is kept at a clock: that many groups were given up then, and that many are open.
fn keeps_one(rt: &impl Abort, run: &mut Run, clock: u64, next: &[u8], given_up: u64, open: usize) {
    holds!(rt; keeps_at(rt, run, Some(clock), next));
    same!(rt; run.joiner.given_up(), given_up);
    same!(rt; run.joiner.open_count(), open);
}

// With 1,024 groups open, one more gives up the oldest.
fn gives_up_one(rt: &impl Abort, mut run: Run, next: &[u8]) {
    same!(rt; run.joiner.open_count(), 1024);
    same!(rt; run.joiner.given_up(), 0);
    keeps_one(rt, &mut run, 31 * SECOND, next, 1, 1024);
}

#[test]
fn open_limit(rt: HostRuntime) {
    let next = front(&rt, rt.alloc(), 1024, 0x10);
    gives_up_one(&rt, many_groups(&rt, rt.alloc(), 1024), &next);
    let mut late = many_groups(&rt, rt.alloc(), 1024);
    keeps_one(&rt, &mut late, 31 * SECOND + 1, &next, 0, 1);
}

// The clock of a fragment that begins a datagram, its identification, and how many groups are open after it.
type Front = (Option<u64>, u16, usize);

// A clock that falls: the second group is too old for the last fragment, and the first isn't.
const FALLING: [Front; 4] = [
    (Some(40 * SECOND), 1, 1),
    (Some(SECOND), 2, 2),
    (Some(31 * SECOND), 3, 3),
    (Some(32 * SECOND), 4, 3),
];

// A group without a clock before groups that grow old one by one.
const UNTIMED_FIRST: [Front; 5] = [
    (None, 1, 1),
    (Some(SECOND), 2, 2),
    (Some(2 * SECOND), 3, 3),
    (Some(31 * SECOND + 1), 4, 3),
    (Some(32 * SECOND + 1), 4, 2),
];

// A group without a clock between groups that grow old one by one; the last fragment is of that one.
const UNTIMED_BETWEEN: [Front; 5] = [
    (Some(SECOND), 1, 1),
    (None, 2, 2),
    (Some(2 * SECOND), 3, 3),
    (Some(31 * SECOND + 1), 4, 3),
    (Some(32 * SECOND + 1), 2, 2),
];

// Fragments that begin datagrams are kept one by one.
fn opens(rt: &impl Abort, alloc: Global, fronts: &[Front]) {
    let mut run = Run::new(alloc);
    for &(clock, identification, open) in fronts {
        let front = front(rt, alloc, identification, 0x10);
        holds!(rt; keeps_at(rt, &mut run, clock, &front), identification);
        same!(rt; run.joiner.open_count(), open, identification);
    }
}

#[test]
fn old_groups_in_any_order_of_clocks(rt: HostRuntime) {
    opens(&rt, rt.alloc(), &FALLING);
    opens(&rt, rt.alloc(), &UNTIMED_FIRST);
    opens(&rt, rt.alloc(), &UNTIMED_BETWEEN);
}

// Puts a packet, and once more if it ran out of memory: the joiner is then as it was.
fn put_again(rt: &impl Abort, run: &mut Run, clock: u64, packet: &[u8]) -> Result<Put, JoinFault> {
    let open = run.joiner.open_count();
    let held = run.joiner.held_bytes();
    match run.put(rt, Some(clock), packet) {
        Err(JoinFault::Memory) => {
            same!(rt; run.joiner.open_count(), open);
            same!(rt; run.joiner.held_bytes(), held);
            run.put(rt, Some(clock), packet)
        }
        answer => answer,
    }
}

// Two fragments are joined, each put again after a refused growth.
fn joins_again(rt: &impl Abort, run: &mut Run, last: &[u8], front: &[u8]) {
    holds!(rt; is_kept(put_again(rt, run, SECOND, last)));
    same!(rt; run.joiner.open_count(), 1);
    let datagram = joined(rt, put_again(rt, run, 31 * SECOND, front));
    same!(rt; datagram.frames, 2);
    same!(rt; datagram.payload.len(), 16);
}

#[test]
fn a_refused_growth_leaves_the_joiner(rt: HostRuntime) {
    let last = [
        0x45, 0, 0, 28, 0, 9, 0, 1, 0x40, 0x11, 0, 0, 10, 0, 0, 1, 10, 0, 0, 2, 0, 1, 2, 3, 4, 5,
        6, 7,
    ];
    let front = [
        0x45, 0, 0, 28, 0, 9, 0x20, 0, 0x40, 0x11, 0, 0, 10, 0, 0, 1, 10, 0, 0, 2, 0x03, 0xe8,
        0x07, 0xd0, 0, 0x10, 0, 0,
    ];
    let mut run = Run::new(rt.alloc());
    joins_again(&rt, &mut run, &last, &front);
}

#[test]
fn laws() {
    places_law();
    worked_rows();
}
