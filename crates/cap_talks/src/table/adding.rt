//! Units that packets complete, and how they are added to the conversations.
ghost use Rattle.std.specs.Prelude.{◌≡◌, ◌+◌, ◌++◌, ◌<◌, ◌≤◌, ◌^◌, List, length, IfSome, OnOk, OnErr};
ghost use Rattle.std.specs.Option.{option_map};
ghost use Rattle.cap_ip.specs.Transport.{transport_of};
ghost use Rattle.cap_talks.specs.table.Rows.{TalksStandFor, IsUnitInOrder, frames_in, bytes_in};
ghost use Rattle.cap_talks.specs.table.Conversations.{frames_of, units_bytes};
ghost use Rattle.cap_talks.specs.declared.table.units.CountedUnit.{CountedUnit};
ghost use Rattle.cap_ipv6.specs.Seen.{packet_seen};
ghost use Rattle.cap_talks.specs.inner.table.Adding.{datagram_unit, is_over};
ghost use Rattle.cap_talks.specs.inner.table.Ipv4Units.{unit_of_ipv4};
ghost use Rattle.cap_talks.specs.inner.table.Tallies.{LimitBy};
ghost use Rattle.cap_talks.specs.table.CountedUnits.{ipv6_unit, listed, whole_unit};

use crate::table::conversations::{Conversations, ConversationsFault};
use crate::table::ipv4_units::{Ipv4End, Ipv4Ends, Ipv4Unit};
use crate::table::units::{Address, CountedUnit, ends_of, ports_seen, timed_frame};
use cap_ip::{Header, Transport, transport};
use cap_ipv6::Ipv6Packet;
use cap_join::{Datagram, Stamped};

/// The unit that a whole datagram is, of which some data was captured.
#[inline(always)]
pub(crate) fn whole_unit(
    header: &Header,
    captured: &[u8],
    seen: Transport,
    stamped: Stamped,
) -> Option<Ipv4Unit>
    requires { seen ≡ transport_of header.now.key.protocol captured.now header.now.data_length }
    ensures { option_map unit_of_ipv4 result ≡ whole_unit header.now captured.now stamped }
{
    let key = header.key();
    let (source, destination) = ports_seen(seen)?;
    let ends = Ipv4Ends {
        protocol: key.protocol,
        source: Ipv4End {
            address: key.source,
            port: source,
        },
        destination: Ipv4End {
            address: key.destination,
            port: destination,
        },
    };
    Some(Ipv4Unit {
        ends,
        frame: stamped,
    })
}

/// The unit that a joined datagram is.
#[tactic(auto, unfolding(crate::specs::inner::table::Adding::datagram_unit))]
pub(crate) fn joined_unit(datagram: &Datagram) -> Option<CountedUnit>
    requires short { length datagram.now.payload.items ≤ 65520 }
    ensures { result ≡ datagram_unit datagram.now }
{
    let key = datagram.header.key();
    let bytes = datagram.payload.as_slice();
    let seen = transport(key.protocol, bytes, bytes.len() as u32);
    let (source, destination) = ends_of(
        Address::Ipv4(key.source),
        Address::Ipv4(key.destination),
        seen,
    )?;
    Some(CountedUnit {
        protocol: key.protocol,
        source,
        destination,
        frames: datagram.frames,
        bytes: datagram.bytes,
        first: timed_frame(datagram.first),
        last: timed_frame(datagram.last),
    })
}

/// The unit that an IPv6 packet is, if it is a whole datagram.
#[inline(always)]
pub(crate) fn ipv6_unit(read: &Ipv6Packet<'_>, stamped: Stamped) -> Option<CountedUnit>
    ensures { result ≡ ipv6_unit (packet_seen read.now) stamped }
{
    let Ipv6Packet::Datagram(header, captured) = read else {
        return None;
    };
    let seen = transport(header.protocol, captured, header.data_length);
    let (source, destination) = ends_of(
        Address::Ipv6(header.source),
        Address::Ipv6(header.destination),
        seen,
    )?;
    Some(CountedUnit {
        protocol: header.protocol,
        source,
        destination,
        frames: 1,
        bytes: u128::from(stamped.original),
        first: timed_frame(Some(stamped)),
        last: timed_frame(Some(stamped)),
    })
}

/// Adds a unit of IPv4 to the conversations, if there is one.
#[inline(always)]
pub(crate) fn add_ipv4(
    talks: &mut Conversations,
    unit: &Option<Ipv4Unit>,
) -> Result<(), ConversationsFault>
    requires frames { frames_in talks.old.rows + frames_of (listed (option_map unit_of_ipv4 unit.now)) < 2 ^ 64 }
    requires bytes { bytes_in talks.old.rows + units_bytes (listed (option_map unit_of_ipv4 unit.now)) < 2 ^ 128 }
    requires unit { IfSome (option_map unit_of_ipv4 unit.now) IsUnitInOrder }
    ensures stands { OnOk result ((units : List CountedUnit) → TalksStandFor talks.old units
        → TalksStandFor talks.new (units ++ listed (option_map unit_of_ipv4 unit.now))) }
    ensures frames { OnOk result (frames_in talks.new.rows
        ≡ frames_in talks.old.rows + frames_of (listed (option_map unit_of_ipv4 unit.now))) }
    ensures bytes { OnOk result (bytes_in talks.new.rows
        ≡ bytes_in talks.old.rows + units_bytes (listed (option_map unit_of_ipv4 unit.now))) }
    ensures limit { LimitBy result (is_over talks.old.rows (option_map unit_of_ipv4 unit.now)) }
    ensures err { OnErr result (talks.new ≡ talks.old) }
{
    match unit {
        None => Ok(()),
        Some(unit) => talks.add_ipv4(unit),
    }
}

/// Adds a unit to the conversations, if there is one.
#[inline(always)]
pub(crate) fn add_unit(
    talks: &mut Conversations,
    unit: &Option<CountedUnit>,
) -> Result<(), ConversationsFault>
    requires frames { frames_in talks.old.rows + frames_of (listed unit.now) < 2 ^ 64 }
    requires bytes { bytes_in talks.old.rows + units_bytes (listed unit.now) < 2 ^ 128 }
    requires unit { IfSome unit.now IsUnitInOrder }
    ensures stands { OnOk result ((units : List CountedUnit) → TalksStandFor talks.old units
        → TalksStandFor talks.new (units ++ listed unit.now)) }
    ensures frames { OnOk result (frames_in talks.new.rows ≡ frames_in talks.old.rows + frames_of (listed unit.now)) }
    ensures bytes { OnOk result (bytes_in talks.new.rows ≡ bytes_in talks.old.rows + units_bytes (listed unit.now)) }
    ensures limit { LimitBy result (is_over talks.old.rows unit.now) }
    ensures err { OnErr result (talks.new ≡ talks.old) }
{
    match unit {
        None => Ok(()),
        Some(unit) => talks.add(unit),
    }
}
