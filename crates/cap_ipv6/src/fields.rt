//! The fields of an IPv6 header, by their places in its 40 bytes (RFC 8200, 3).
ghost use Rattle.std.specs.Prelude.{◌≡◌, ◌≤◌, length};
ghost use Rattle.cap_ipv6.specs.Fields.{destination, next_header, payload_length, source, version};

use byteorder::{BigEndian, ByteOrder};
use cap_bytes::{Order, u16_at};

#[tactic(auto, unfolding(crate::specs::Fields::version))]
pub(crate) fn version(bytes: &[u8]) -> u8
    requires { 40 ≤ length bytes.now }
    ensures { result ≡ version bytes.now }
{
    bytes[0] / 16
}

/// The length of what follows the header, extension headers among it, in bytes.
#[tactic(auto, unfolding(crate::specs::Fields::payload_length))]
pub(crate) fn payload_length(bytes: &[u8]) -> u16
    requires { 40 ≤ length bytes.now }
    ensures { result ≡ payload_length bytes.now }
{
    u16_at(Order::Big, bytes, 4)
}

/// What follows the header: a kind of extension header, or the protocol of the data.
#[tactic(auto, unfolding(crate::specs::Fields::next_header))]
pub(crate) fn next_header(bytes: &[u8]) -> u8
    requires { 40 ≤ length bytes.now }
    ensures { result ≡ next_header bytes.now }
{
    bytes[6]
}

#[tactic(auto, unfolding(crate::specs::Fields::source))]
pub(crate) fn source(bytes: &[u8]) -> u128
    requires { 40 ≤ length bytes.now }
    ensures { result ≡ source bytes.now }
{
    let (_, rest) = bytes.split_at(8);
    BigEndian::read_u128(rest)
}

#[tactic(auto, unfolding(crate::specs::Fields::destination))]
pub(crate) fn destination(bytes: &[u8]) -> u128
    requires { 40 ≤ length bytes.now }
    ensures { result ≡ destination bytes.now }
{
    let (_, rest) = bytes.split_at(24);
    BigEndian::read_u128(rest)
}
