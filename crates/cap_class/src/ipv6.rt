//! IPv6 packets of captured frames, and their classes in a report that reads them.
ghost use Rattle.std.specs.Prelude.{◌≡◌, ℕ, Option, is_some, option_map};
ghost use Rattle.std.specs.Bool.{OnTrue};
ghost use Rattle.cap_class.specs.Ipv6.{IsPlain, ipv6_class, ipv6_read};
ghost use Rattle.cap_class.specs.Taken.{classify, taken};
ghost use Rattle.cap_ipv6.specs.Seen.{packet_seen};
ghost use Rattle.cap_time.specs.declared.stamps.Stamp.{Stamp};

use crate::classes::Class;
use crate::reported::class_of;
use cap_ip::transport;
use cap_ipv6::{Ipv6Packet, read};
use cap_link::ipv6_packet;
use cap_source::Meta;

/// What the IPv6 packet of a captured frame is by itself; `None` if the frame carries none. `meta` is what is known of
/// it beside its bytes: its link type and how many bytes it had. `classify` calls such a packet `Plain`, of the class
/// `NotIpv4`, or `OtherLink` if its link type is 229 IPV6.
#[inline(always)]
#[tactic(auto, unfolding(crate::specs::Ipv6::ipv6_read))]
pub fn read_ipv6<'a>(meta: &Meta, frame: &'a [u8]) -> Option<Ipv6Packet<'a>>
    ensures value { option_map packet_seen result ≡ ipv6_read meta.now frame.entry.now }
    ensures plain { (clock : Option Stamp) (place : ℕ) → OnTrue (is_some (ipv6_read meta.now frame.entry.now))
        (IsPlain (classify place (taken clock meta.now frame.entry.now))) }
{
    let whole = frame.len() >= meta.original as usize;
    match ipv6_packet(meta.interface.link, frame) {
        None => None,
        Some(bytes) => Some(read(bytes, whole)),
    }
}

/// The class of an IPv6 packet in a report that reads them: `Unjoined` of a fragment, since those of IPv6 aren't
/// joined; of a whole datagram it is that of its ports, as of IPv4.
#[inline(always)]
pub fn ipv6_class(packet: &Ipv6Packet<'_>) -> Class
    ensures { result ≡ ipv6_class (packet_seen packet.now) }
{
    match packet {
        Ipv6Packet::Datagram(header, captured) => {
            class_of(transport(header.protocol, captured, header.data_length))
        }
        Ipv6Packet::Fragment(_) => Class::Unjoined,
        Ipv6Packet::Bad(_) => Class::Bad,
        Ipv6Packet::Cut(_) => Class::Cut,
    }
}
