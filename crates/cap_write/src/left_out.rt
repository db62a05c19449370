//! The packets of a run that are in no written datagram, counted by their class.
ghost use Rattle.std.specs.Prelude.{◌≡◌, ◌+◌, ◌≤◌, ◌<◌, ◌^◌, IfSome, length};
ghost use Rattle.cap_class.specs.Counting.{sum_of};
ghost use Rattle.cap_write.specs.inner.LeftCounts.{HasRoom, MovesFew, truncated_one, with_class};
ghost use Rattle.cap_write.specs.inner.LeftCounts.{with_datagram, with_joined};
ghost use Rattle.std.specs.Option.{option_map};

use cap_class::{Class, ClassCounts, NO_PACKETS, class_of, joined_class, with_frames, with_group};
use cap_ip::{Header, transport};
use cap_join::Datagram;

/// How many packets of a run `join` leaves out, by their class in a report of the run.
#[derive(Clone, Copy, Debug, PartialEq, Eq)]
pub struct LeftOut {
    /// How many packets of each class there are. All are left out but those of `Counted`.
    pub classes: ClassCounts,
    /// How many of `Counted` are left out too: whole datagrams, some of whose data was not captured.
    pub truncated: u64,
}

/// Nothing was left out of no packets.
pub const NO_PACKETS_LEFT_OUT: LeftOut = LeftOut {
    classes: NO_PACKETS,
    truncated: 0,
};

/// Counts one packet more of a class, if packets are counted.
pub(crate) fn count_class(left: &mut Option<LeftOut>, class: Class)
    requires { HasRoom left.old }
    ensures { left.new ≡ option_map (with_class class) left.old }
{
    if let Some(counted) = left {
        counted.classes = with_frames(counted.classes, class, 1);
    }
}

// One, if a datagram of a class counts and not all of its data was captured.
fn truncated_one(class: Class, captured: usize, length: u32) -> u64
    ensures { result ≡ truncated_one class captured length }
{
    match class {
        Class::Counted if captured != length as usize => 1,
        _ => 0,
    }
}

/// Counts a whole datagram, if packets are counted.
pub(crate) fn count_datagram(left: &mut Option<LeftOut>, header: &Header, captured: &[u8])
    requires { HasRoom left.old }
    ensures { left.new ≡ option_map (with_datagram header.now captured.now) left.old }
{
    if let Some(counted) = left {
        let length = header.data_length();
        let class = class_of(transport(header.key().protocol, captured, length));
        counted.classes = with_frames(counted.classes, class, 1);
        counted.truncated += truncated_one(class, captured.len(), length);
    }
}

/// Counts the fragment that completes a datagram, if packets are counted: all fragments of it get its class.
pub(crate) fn count_group(left: &mut Option<LeftOut>, datagram: &Datagram)
    requires room { HasRoom left.old }
    requires unjoined { MovesFew datagram.now left.old }
    requires short { length datagram.now.payload.items ≤ 65520 }
    ensures { left.new ≡ option_map (with_joined datagram.now) left.old }
{
    if let Some(counted) = left {
        counted.classes = with_group(counted.classes, joined_class(datagram), datagram.frames);
    }
}
