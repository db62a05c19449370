//! Units of IPv4 that came whole, which most packets are. They have ends of that network alone, and one frame, so that
//! nothing of them need be in memory.
ghost use Rattle.std.specs.Prelude.{◌≡◌, IfSome, is_some};
ghost use Rattle.cap_talks.specs.inner.table.Ipv4Units.{unit_between};
ghost use Rattle.cap_talks.specs.inner.table.Packed.{is_ipv4_key};
ghost use Rattle.cap_talks.specs.table.Conversations.{is_forward, talk_key};

use crate::table::units::{Address, CountedUnit};
use cap_join::Stamped;

/// An end of IPv4: an address, and a port if the protocol has ports.
#[derive(Clone, Copy)]
pub(crate) struct Ipv4End {
    /// The address.
    pub(crate) address: u32,
    /// The port; `None` if the protocol has none.
    pub(crate) port: Option<u16>,
}

/// The ends of a unit of IPv4, which take a fraction of the room of ends of either network, and its protocol.
#[derive(Clone, Copy)]
pub(crate) struct Ipv4Ends {
    /// The number of the protocol that its data is of.
    pub(crate) protocol: u8,
    /// Where it comes from.
    pub(crate) source: Ipv4End,
    /// Where it goes to.
    pub(crate) destination: Ipv4End,
}

/// A unit of IPv4 that came whole, in one frame.
#[derive(Clone, Copy)]
pub(crate) struct Ipv4Unit {
    /// Its ends.
    pub(crate) ends: Ipv4Ends,
    /// The frame.
    pub(crate) frame: Stamped,
}

impl Ipv4Ends {
    /// The ends of a unit; `None` if one is of IPv6.
    pub(crate) fn of(unit: &CountedUnit) -> Option<Ipv4Ends>
        ensures key { IfSome result (λ ends. talk_key (unit_between ends) ≡ talk_key unit.now) }
        ensures forward { IfSome result (λ ends. is_forward (unit_between ends) ≡ is_forward unit.now) }
        ensures ipv4 { is_some result ≡ is_ipv4_key (talk_key unit.now) }
    {
        let Address::Ipv4(source) = unit.source.address else {
            return None;
        };
        let Address::Ipv4(destination) = unit.destination.address else {
            return None;
        };
        Some(Ipv4Ends {
            protocol: unit.protocol,
            source: Ipv4End {
                address: source,
                port: unit.source.port,
            },
            destination: Ipv4End {
                address: destination,
                port: unit.destination.port,
            },
        })
    }
}
