//! A joiner that is given packet after packet, and the worked fragments.
ghost use Rattle.std.specs.Prelude.{◌≤◌, ◌<ℤ◌, ◌^◌, pos, IfSome};
ghost use Rattle.cap_time.specs.Stamp.{seconds_of};

use crate::checks::holds;
use cap_class::{Classified, classify, stamped_of};
use cap_ip::{Header, HeaderOr};
use cap_join::{JoinFault, Joiner, Put, Stamped};
use cap_source::Meta;
use cap_time::{Interface, Resolution, Stamp};
use std::alloc::Global;
use std::process::Abort;

// Four packets from 10.0.0.1 to 10.0.0.2 of identification 7: data from 16 on, the last; data from 0 on, twice; data
// from 8 on.
pub(crate) const FRAGMENTS: [[u8; 28]; 4] = [
    [
        0x45, 0, 0, 0x1c, 0, 7, 0, 2, 0x40, 0x11, 0, 0, 10, 0, 0, 1, 10, 0, 0, 2, 0xb0, 0xb1, 0xb2,
        0xb3, 0xb4, 0xb5, 0xb6, 0xb7,
    ],
    [
        0x45, 0, 0, 0x1c, 0, 7, 0x20, 0, 0x40, 0x11, 0, 0, 10, 0, 0, 1, 10, 0, 0, 2, 0x03, 0xe8,
        0x07, 0xd0, 0, 0x18, 0, 0,
    ],
    [
        0x45, 0, 0, 0x1c, 0, 7, 0x20, 0, 0x40, 0x11, 0, 0, 10, 0, 0, 1, 10, 0, 0, 2, 0x03, 0xe9,
        0x07, 0xd1, 0, 0x18, 0, 0,
    ],
    [
        0x45, 0, 0, 0x1c, 0, 7, 0x20, 1, 0x40, 0x11, 0, 0, 10, 0, 0, 1, 10, 0, 0, 2, 0xa0, 0xa1,
        0xa2, 0xa3, 0xa4, 0xa5, 0xa6, 0xa7,
    ],
];

// What they join to: the later bytes from 0 on.
pub(crate) const DATA: [u8; 24] = [
    0x03, 0xe9, 0x07, 0xd1, 0, 0x18, 0, 0, 0xa0, 0xa1, 0xa2, 0xa3, 0xa4, 0xa5, 0xa6, 0xa7, 0xb0,
    0xb1, 0xb2, 0xb3, 0xb4, 0xb5, 0xb6, 0xb7,
];

// The time of a number of microseconds.
fn at(rt: &impl Abort, microseconds: u64) -> Stamp
    ensures { seconds_of result <ℤ pos (2 ^ 65) }
{
    let Some(resolution) = Resolution::from_code(6) else {
        panic!(rt; "no resolution");
    };
    let interface = Interface {
        link: 101,
        snaplen: 0,
        resolution,
        offset: 0,
    };
    Stamp::new(microseconds, &interface)
}

// The time of a number of microseconds, if there is one.
fn time_at(rt: &impl Abort, clock: Option<u64>) -> Option<Stamp>
    ensures { IfSome result (λ c. seconds_of c <ℤ pos (2 ^ 65)) }
{
    match clock {
        Some(microseconds) => Some(at(rt, microseconds)),
        None => None,
    }
}

/// A joiner, and the place of the next packet.
#[derive(Drop)]
pub(crate) struct Run {
    pub joiner: Joiner,
    pub place: u64,
    ghost ordered: { joiner.next ≤ place },
}

impl Run {
    pub(crate) fn new(alloc: Global) -> Run {
        Run {
            joiner: Joiner::new(alloc),
            place: 0,
        }
    }

    /// Puts a packet at a clock of that many microseconds, which is its frame's own time too.
    pub(crate) fn put(
        &mut self,
        rt: &impl Abort,
        clock: Option<u64>,
        packet: &[u8],
    ) -> Result<Put, JoinFault> {
        let HeaderOr::Header(header, held) = Header::read(packet, true) else {
            panic!(rt; "no header");
        };
        let Some(_) = header.fragment() else {
            panic!(rt; "no fragment");
        };
        holds!(rt; self.place < 1_000_000);
        holds!(rt; packet.len() < 100_000);
        let time = time_at(rt, clock);
        let stamped = Stamped {
            time,
            place: self.place,
            original: packet.len() as u32,
        };
        let put = self.joiner.put(time, &header, held, stamped)?;
        self.place += 1;
        Ok(put)
    }

    /// Puts the fragment that a packet without a clock is seen as.
    pub(crate) fn put_seen(&mut self, rt: &impl Abort, meta: &Meta, frame: &[u8]) -> Put {
        holds!(rt; self.place < 1_000);
        let Classified::Fragment(header, data) = classify(meta, frame) else {
            panic!(rt; "no fragment");
        };
        let stamped = stamped_of(self.place, meta.time(), meta);
        match self.joiner.put(None, &header, data, stamped) {
            Ok(put) => {
                self.place += 1;
                put
            }
            Err(fault) => panic!(rt; "{fault:?}"),
        }
    }
}
