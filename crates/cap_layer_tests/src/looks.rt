//! Packets as they are seen: the worked fragments, and a whole datagram.
ghost use Rattle.std.specs.Prelude.{◌<◌};

use crate::checks::{holds, same};
use crate::frames::PACKET;
use crate::packets::meta_of;
use crate::runs::{DATA, FRAGMENTS, Run};
use cap_class::{Classified, classify, stamped_of};
use cap_join::Put;
use cap_source::Meta;
use std::process::Abort;

// The fragment of that place is kept.
fn keeps(rt: &impl Abort, run: &mut Run, meta: &Meta, place: usize)
    requires { place < 4 }
{
    holds!(rt; matches!(run.put_seen(rt, meta, &FRAGMENTS[place]), Put::Kept));
}

// The last fragment joins them all.
fn joins(rt: &impl Abort, run: &mut Run, meta: &Meta) {
    let Put::Joined(datagram) = run.put_seen(rt, meta, &FRAGMENTS[3]) else {
        panic!(rt; "not joined");
    };
    holds!(rt; datagram.payload.as_slice() == DATA.as_slice());
    same!(rt; datagram.frames, 4);
    same!(rt; datagram.bytes, 112);
}

// That many groups are open.
fn holds_open(rt: &impl Abort, run: &Run, groups: usize) {
    same!(rt; run.joiner.open_count(), groups);
}

#[test]
fn the_worked_fragments_join(rt: HostRuntime) {
    let meta = meta_of(101, 28);
    let mut run = Run::new(rt.alloc());
    keeps(&rt, &mut run, &meta, 0);
    keeps(&rt, &mut run, &meta, 1);
    keeps(&rt, &mut run, &meta, 2);
    holds_open(&rt, &run, 1);
    joins(&rt, &mut run, &meta);
    holds_open(&rt, &run, 0);
}

#[test]
fn a_whole_datagram_is_seen(rt: HostRuntime) {
    let meta = meta_of(101, 30);
    let Classified::Datagram(header, captured) = classify(&meta, &PACKET) else {
        panic!(&rt; "no datagram");
    };
    same!(&rt; header.data_length(), 10);
    holds!(&rt; captured == &PACKET[20..]);
    let stamped = stamped_of(7, meta.time(), &meta);
    same!(&rt; (stamped.place, stamped.original, stamped.time.is_none()), (7, 30, true));
}
