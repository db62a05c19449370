//! How many packets there are of each network other than IPv4.
ghost use Rattle.std.specs.Prelude.{◌≡◌, ◌+◌, ◌<◌, ◌^◌};
ghost use Rattle.cap_talks.specs.inner.table.Others.{with_network};
ghost use Rattle.cap_talks.specs.table.OtherNetworks.{sum_of_networks};

use cap_link::OtherNetwork;

/// How many packets of the class `NotIpv4` there are of each network.
#[derive(Clone, Copy, Debug, PartialEq, Eq)]
pub struct OtherCounts {
    /// How many are of `OtherNetwork::Ipv6`.
    pub ipv6: u64,
    /// How many are of `OtherNetwork::Arp`.
    pub arp: u64,
    /// How many are of `OtherNetwork::Other`.
    pub other: u64,
}

/// No packet of any network.
pub const NO_OTHERS: OtherCounts = OtherCounts {
    ipv6: 0,
    arp: 0,
    other: 0,
};

/// The counts with one packet more, of that network; the same counts if it is IPv4, or its network isn't known.
pub(crate) fn with_network(counts: OtherCounts, network: Option<OtherNetwork>) -> OtherCounts
    requires few { sum_of_networks counts + 1 < 2 ^ 64 }
    ensures { result ≡ with_network network counts }
{
    let mut counts = counts;
    match network {
        Some(OtherNetwork::Ipv6) => counts.ipv6 += 1,
        Some(OtherNetwork::Arp) => counts.arp += 1,
        Some(OtherNetwork::Other) => counts.other += 1,
        None => {}
    }
    counts
}
