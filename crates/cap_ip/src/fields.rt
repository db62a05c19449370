//! The fields of an IPv4 header, by their places in its first 20 bytes (RFC 791, 3.1).
ghost use Rattle.std.specs.Prelude.{◌≡◌, ◌+◌, ◌*◌, ◌≤◌, length};
ghost use Rattle.cap_ip.specs.Fields.{version, header_length, service, total_length, identification, more_fragments};
ghost use Rattle.cap_ip.specs.Fields.{offset, time_to_live, protocol, source, destination, data_length, is_fragment};

use cap_bytes::{Order, u16_at, u32_at};

#[tactic(auto, unfolding(crate::specs::Fields::version))]
pub(crate) fn version(bytes: &[u8]) -> u8
    requires { 20 ≤ length bytes.now }
    ensures { result ≡ version bytes.now }
{
    bytes[0] / 16
}

/// The header's length, in bytes: at most 60.
#[tactic(auto, unfolding(crate::specs::Fields::header_length))]
pub(crate) fn header_length(bytes: &[u8]) -> u16
    requires { 20 ≤ length bytes.now }
    ensures { result ≡ header_length bytes.now }
{
    4 * u16::from(bytes[0] % 16)
}

#[tactic(auto, unfolding(crate::specs::Fields::service))]
pub(crate) fn service(bytes: &[u8]) -> u8
    requires { 20 ≤ length bytes.now }
    ensures { result ≡ service bytes.now }
{
    bytes[1]
}

/// The length of header and data, in bytes.
#[tactic(auto, unfolding(crate::specs::Fields::total_length))]
pub(crate) fn total_length(bytes: &[u8]) -> u16
    requires { 20 ≤ length bytes.now }
    ensures { result ≡ total_length bytes.now }
{
    u16_at(Order::Big, bytes, 2)
}

#[tactic(auto, unfolding(crate::specs::Fields::identification))]
pub(crate) fn identification(bytes: &[u8]) -> u16
    requires { 20 ≤ length bytes.now }
    ensures { result ≡ identification bytes.now }
{
    u16_at(Order::Big, bytes, 4)
}

#[tactic(auto, unfolding(crate::specs::Fields::more_fragments))]
pub(crate) fn more_fragments(bytes: &[u8]) -> bool
    requires { 20 ≤ length bytes.now }
    ensures { result ≡ more_fragments bytes.now }
{
    u16_at(Order::Big, bytes, 6) / 0x2000 % 2 == 1
}

/// Where the data begins in its datagram, in bytes: at most 65,528.
#[tactic(auto, unfolding(crate::specs::Fields::offset))]
pub(crate) fn offset(bytes: &[u8]) -> u32
    requires { 20 ≤ length bytes.now }
    ensures value { result ≡ offset bytes.now }
    ensures bound { result ≤ 65528 }
{
    8 * u32::from(u16_at(Order::Big, bytes, 6) % 0x2000)
}

#[tactic(auto, unfolding(crate::specs::Fields::time_to_live))]
pub(crate) fn time_to_live(bytes: &[u8]) -> u8
    requires { 20 ≤ length bytes.now }
    ensures { result ≡ time_to_live bytes.now }
{
    bytes[8]
}

#[tactic(auto, unfolding(crate::specs::Fields::protocol))]
pub(crate) fn protocol(bytes: &[u8]) -> u8
    requires { 20 ≤ length bytes.now }
    ensures { result ≡ protocol bytes.now }
{
    bytes[9]
}

#[tactic(auto, unfolding(crate::specs::Fields::source))]
pub(crate) fn source(bytes: &[u8]) -> u32
    requires { 20 ≤ length bytes.now }
    ensures { result ≡ source bytes.now }
{
    u32_at(Order::Big, bytes, 12)
}

#[tactic(auto, unfolding(crate::specs::Fields::destination))]
pub(crate) fn destination(bytes: &[u8]) -> u32
    requires { 20 ≤ length bytes.now }
    ensures { result ≡ destination bytes.now }
{
    u32_at(Order::Big, bytes, 16)
}

/// Whether a packet is a fragment: more follow, or its data doesn't begin its datagram.
#[tactic(auto, unfolding(crate::specs::Fields::is_fragment))]
pub(crate) fn is_fragment(bytes: &[u8]) -> bool
    requires { 20 ≤ length bytes.now }
    ensures { result ≡ is_fragment bytes.now }
{
    more_fragments(bytes) || offset(bytes) != 0
}

/// The length of the data, in bytes.
#[tactic(auto, unfolding(crate::specs::Fields::data_length))]
pub(crate) fn data_length(bytes: &[u8]) -> u32
    requires least { 20 ≤ length bytes.now }
    requires within { header_length bytes.now ≤ total_length bytes.now }
    ensures value { result ≡ data_length bytes.now }
    ensures bound { result + header_length bytes.now ≤ 65535 }
{
    u32::from(total_length(bytes) - header_length(bytes))
}
