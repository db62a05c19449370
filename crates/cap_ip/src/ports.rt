//! The ports of UDP (RFC 768) and TCP (RFC 9293, 3.1).
ghost use Rattle.std.specs.Prelude.{◌≡◌, ◌≤◌, length};
ghost use Rattle.cap_ip.specs.Transport.{ports_of, udp_length, udp_of, tcp_header_length, tcp_of, transport_of};

use crate::transports::Transport;
use cap_bytes::{Order, u16_at};

// The protocol's number of UDP.
pub(crate) const UDP: u8 = 17;
// The protocol's number of TCP.
const TCP: u8 = 6;
// The length of a UDP header, in bytes.
pub(crate) const UDP_HEADER: u32 = 8;
// The length of the shortest TCP header, in bytes.
pub(crate) const LEAST_TCP_HEADER: u32 = 20;

#[tactic(auto, unfolding(crate::specs::Transport::ports_of))]
fn ports(captured: &[u8]) -> Transport
    requires { 4 ≤ length captured.now }
    ensures { result ≡ ports_of captured.now }
{
    Transport::Ports(
        u16_at(Order::Big, captured, 0),
        u16_at(Order::Big, captured, 2),
    )
}

#[tactic(auto, unfolding(crate::specs::Transport::udp_length))]
fn udp_length(captured: &[u8]) -> u32
    requires { 8 ≤ length captured.now }
    ensures { result ≡ udp_length captured.now }
{
    u32::from(u16_at(Order::Big, captured, 4))
}

#[tactic(auto, unfolding(crate::specs::Transport::udp_of))]
fn udp(captured: &[u8], length: u32) -> Transport
    ensures { result ≡ udp_of captured.now length }
{
    if length < UDP_HEADER {
        return Transport::Bad;
    }
    if captured.len() < UDP_HEADER as usize {
        return Transport::Cut;
    }
    if udp_length(captured) < UDP_HEADER || udp_length(captured) > length {
        return Transport::Bad;
    }
    ports(captured)
}

#[tactic(auto, unfolding(crate::specs::Transport::tcp_header_length))]
fn tcp_header_length(captured: &[u8]) -> u32
    requires { 20 ≤ length captured.now }
    ensures { result ≡ tcp_header_length captured.now }
{
    4 * u32::from(captured[12] / 16)
}

#[tactic(auto, unfolding(crate::specs::Transport::tcp_of))]
fn tcp(captured: &[u8], length: u32) -> Transport
    ensures { result ≡ tcp_of captured.now length }
{
    if length < LEAST_TCP_HEADER {
        return Transport::Bad;
    }
    if captured.len() < LEAST_TCP_HEADER as usize {
        return Transport::Cut;
    }
    if tcp_header_length(captured) < LEAST_TCP_HEADER || tcp_header_length(captured) > length {
        return Transport::Bad;
    }
    ports(captured)
}

/// What a datagram's data says of its ports, by the protocol's number. `captured` is the part of the
/// data that was captured, from its front, and `length` the length of all of it, in bytes.
///
/// UDP, 17 (RFC 768): a length below 8 is `Bad`; fewer than 8 bytes captured are `Cut`; a UDP length
/// below 8 or above the data's is `Bad`. TCP, 6 (RFC 9293, 3.1): a length below 20 is `Bad`; fewer
/// than 20 bytes captured are `Cut`; a data offset below 5 words of four bytes, or above the data's
/// length, is `Bad`. Other protocols are `NoPorts`, whatever was captured.
#[tactic(auto, unfolding(crate::specs::Transport::transport_of))]
pub fn transport(protocol: u8, captured: &[u8], length: u32) -> Transport
    ensures { result ≡ transport_of protocol captured.now length }
{
    match protocol {
        UDP => udp(captured, length),
        TCP => tcp(captured, length),
        _ => Transport::NoPorts,
    }
}
