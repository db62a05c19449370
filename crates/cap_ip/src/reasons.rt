//! Why a packet is bad or cut.
ghost use Rattle.std.specs.Prelude.{◌≡◌, ◌≤◌, length};
ghost use Rattle.cap_ip.specs.Fields.{header_length, total_length};
ghost use Rattle.cap_ip.specs.Reasons.{fragment_reason, header_reason, reason_name, tcp_reason, transport_reason};
ghost use Rattle.cap_ip.specs.Reasons.{udp_reason};

use crate::fields::{data_length, header_length, more_fragments, offset, total_length, version};
use crate::headers::{BLOCK, LEAST_HEADER, LONGEST_DATA, VERSION, is_overstated};
use crate::ports::{LEAST_TCP_HEADER, UDP, UDP_HEADER};

/// Why a packet is bad or cut: the first step of its reading that it fails. The names are printed, and never change.
#[derive(Clone, Copy, Debug, PartialEq, Eq)]
pub enum Reason {
    /// The frame ends inside its link header or a tag, and wasn't captured whole.
    LinkShort,
    /// The packet, or what was captured of it, ends inside its IPv4 header, or its IPv6 header of 40 bytes.
    HeaderShort,
    /// The version isn't 4, or not 6 where IPv6 was announced.
    Version,
    /// The length of the IPv4 header is below 20 bytes.
    HeaderLength,
    /// The total length is 0.
    LengthZero,
    /// The total length is below the length of the IPv4 header.
    LengthShort,
    /// The packet was captured whole, and has fewer bytes than its total length, or than its IPv6 header and payload.
    BeyondFrame,
    /// A fragment has no data.
    FragmentEmpty,
    /// More fragments follow a fragment the length of whose data isn't a multiple of 8 bytes.
    FragmentBlock,
    /// A fragment ends past byte 65,515 of its datagram's data, the end of the longest one, or past 65,535 in IPv6.
    FragmentBeyond,
    /// Some data of a fragment wasn't captured.
    FragmentCut,
    /// An extension header of IPv6 reaches past the payload.
    ExtensionPast,
    /// An extension header of IPv6 wasn't captured whole.
    ExtensionCut,
    /// The data of the datagram, or what was captured of it, is shorter than a UDP header, 8 bytes.
    UdpShort,
    /// The UDP length is below 8, or above the length of the datagram's data.
    UdpLength,
    /// The data of the datagram, or what was captured of it, is shorter than the least TCP header, 20 bytes.
    TcpShort,
    /// The TCP data offset is below 5 words of four bytes, or past the datagram's data.
    TcpOffset,
}

impl Reason {
    /// The name that is printed, as `udp-length`: at most 15 bytes.
    pub fn name(self) -> &'static str
        ensures value { result.now ≡ reason_name self }
        ensures bound { length result.now ≤ 15 }
    {
        match self {
            Reason::LinkShort => "link-short",
            Reason::HeaderShort => "header-short",
            Reason::Version => "version",
            Reason::HeaderLength => "header-length",
            Reason::LengthZero => "length-zero",
            Reason::LengthShort => "length-short",
            Reason::BeyondFrame => "beyond-frame",
            Reason::FragmentEmpty => "fragment-empty",
            Reason::FragmentBlock => "fragment-block",
            Reason::FragmentBeyond => "fragment-beyond",
            Reason::FragmentCut => "fragment-cut",
            Reason::ExtensionPast => "extension-past",
            Reason::ExtensionCut => "extension-cut",
            Reason::UdpShort => "udp-short",
            Reason::UdpLength => "udp-length",
            Reason::TcpShort => "tcp-short",
            Reason::TcpOffset => "tcp-offset",
        }
    }
}

// Why a fragment is bad or cut.
#[tactic(auto, unfolding(crate::specs::Reasons::fragment_reason))]
fn fragment_reason(bytes: &[u8]) -> Reason
    requires least { 20 ≤ length bytes.now }
    requires within { header_length bytes.now ≤ total_length bytes.now }
    ensures { result ≡ fragment_reason bytes.now }
{
    let length = data_length(bytes);
    if length == 0 {
        return Reason::FragmentEmpty;
    }
    if more_fragments(bytes) && length % BLOCK != 0 {
        return Reason::FragmentBlock;
    }
    if offset(bytes) + length > LONGEST_DATA {
        return Reason::FragmentBeyond;
    }
    Reason::FragmentCut
}

/// Why the packet of these bytes is bad or cut, if `Header::read` finds that it is. `captured_whole` says that no byte
/// of the packet is missing after them.
///
/// The first of these that holds (RFC 791, 3.1): fewer than 20 bytes, `HeaderShort`; the version isn't 4, `Version`;
/// the header's length is below 20, `HeaderLength`; the total length is 0, `LengthZero`, or below the header's length,
/// `LengthShort`; fewer bytes than the header's length, `HeaderShort`; captured whole, and fewer bytes than the total
/// length, `BeyondFrame`. Else the packet is a fragment: without data, `FragmentEmpty`; the length of its data isn't a
/// multiple of 8 though more follow, `FragmentBlock`; it ends past 65,515, `FragmentBeyond`; else `FragmentCut`.
#[tactic(auto, unfolding(crate::specs::Reasons::header_reason))]
pub fn header_reason(bytes: &[u8], captured_whole: bool) -> Reason
    ensures { result ≡ header_reason bytes.now captured_whole }
{
    if bytes.len() < usize::from(LEAST_HEADER) {
        return Reason::HeaderShort;
    }
    if version(bytes) != VERSION {
        return Reason::Version;
    }
    if header_length(bytes) < LEAST_HEADER {
        return Reason::HeaderLength;
    }
    if total_length(bytes) == 0 {
        return Reason::LengthZero;
    }
    if total_length(bytes) < header_length(bytes) {
        return Reason::LengthShort;
    }
    if bytes.len() < usize::from(header_length(bytes)) {
        return Reason::HeaderShort;
    }
    if is_overstated(bytes, captured_whole) {
        return Reason::BeyondFrame;
    }
    fragment_reason(bytes)
}

// Why a datagram of UDP is bad or cut.
#[tactic(auto, unfolding(crate::specs::Reasons::udp_reason))]
fn udp_reason(captured: &[u8], length: u32) -> Reason
    ensures { result ≡ udp_reason captured.now length }
{
    if length < UDP_HEADER || captured.len() < UDP_HEADER as usize {
        Reason::UdpShort
    } else {
        Reason::UdpLength
    }
}

// Why a datagram of TCP is bad or cut.
#[tactic(auto, unfolding(crate::specs::Reasons::tcp_reason))]
fn tcp_reason(captured: &[u8], length: u32) -> Reason
    ensures { result ≡ tcp_reason captured.now length }
{
    if length < LEAST_TCP_HEADER || captured.len() < LEAST_TCP_HEADER as usize {
        Reason::TcpShort
    } else {
        Reason::TcpOffset
    }
}

/// Why a datagram is bad or cut by the header of its protocol, 17 UDP or 6 TCP, if `transport` finds that it is.
/// `captured` is the part of its data that was captured, from its front, and `length` the length of all of it, in
/// bytes.
///
/// UDP (RFC 768): if either is below 8, `UdpShort`; else `UdpLength`. TCP (RFC 9293, 3.1): if either is below 20,
/// `TcpShort`; else `TcpOffset`.
#[tactic(auto, unfolding(crate::specs::Reasons::transport_reason))]
pub fn transport_reason(protocol: u8, captured: &[u8], length: u32) -> Reason
    ensures { result ≡ transport_reason protocol captured.now length }
{
    if protocol == UDP {
        udp_reason(captured, length)
    } else {
        tcp_reason(captured, length)
    }
}
