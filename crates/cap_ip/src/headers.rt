//! IPv4 headers (RFC 791, 3.1).
ghost use Rattle.std.specs.Prelude.{◌≡◌, ◌≤◌, false, length};
ghost use Rattle.std.specs.Bool.{OnFalse};
ghost use Rattle.cap_ip.specs.Fields.{header_length, total_length};
ghost use Rattle.cap_ip.specs.Header.{IsWellFormed};
ghost use Rattle.cap_ip.specs.Read.{header_seen, ended_in_header, packet_key, fragment_of, is_malformed, lacks_data};
ghost use Rattle.cap_ip.specs.Read.{is_overstated};
ghost use Rattle.cap_ip.specs.Read.{is_misfit, is_partial, fields_of, data_of, read_of};

use crate::fields::{
    data_length, destination, header_length, identification, is_fragment, more_fragments, offset,
    protocol, service, source, time_to_live, total_length, version,
};
use std::marker::Model;

// The length of the shortest header, in bytes.
pub(crate) const LEAST_HEADER: u16 = 20;
// The version of an IPv4 packet.
pub(crate) const VERSION: u8 = 4;
// A fragment's data begins at a multiple of that many bytes, and ends at one if more follow.
pub(crate) const BLOCK: u32 = 8;
// The most data of a datagram: 65,535 bytes less the shortest header.
pub(crate) const LONGEST_DATA: u32 = 65_515;

/// What names a datagram among those on the way: its fragments have the same (RFC 791, 3.2).
#[derive(Clone, Copy, Debug, PartialEq, Eq, Hash)]
pub struct Key {
    /// The source address, its first byte the highest.
    pub source: u32,
    /// The destination address, its first byte the highest.
    pub destination: u32,
    /// The number of the protocol that the data is of: 6 TCP, 17 UDP.
    pub protocol: u8,
    /// What the sender gave all fragments of one datagram.
    pub identification: u16,
}

/// Where a fragment's data lies in its datagram's.
#[derive(Clone, Copy, Debug, PartialEq, Eq)]
pub struct Fragment {
    /// The place of the first byte, a multiple of 8.
    pub start: u32,
    /// The number of bytes, at least 1; a multiple of 8 if more follow.
    pub length: u32,
    /// Whether more fragments follow: the flag MF.
    pub more: bool,
}

/// What an IPv4 header says, as `Header::read` found it. Its options, its flag DF and its checksum aren't
/// kept.
#[derive(Clone, Copy, Debug, PartialEq, Eq)]
pub struct Header {
    key: Key,
    service: u8,
    time_to_live: u8,
    data_length: u32,
    fragment: Option<Fragment>,
}

impl Model for Header {
    ghost use Rattle.cap_ip.specs.Header.{HeaderFields, IsWellFormed};

    ghost Value = { HeaderFields };

    ghost use Rattle.cap_ip.specs.inner.HeaderView.{header_view};

    ghost view = { header_view };

    ghost invariant = { λ h. IsWellFormed (header_view h) };

    ghost inverse = { λ v. record {
      key = v.key;
      service = v.service;
      time_to_live = v.time_to_live;
      data_length =
          v.data_length;
      fragment = v.fragment;
    } };
}

/// What reading a header returns.
#[derive(Clone, Copy, Debug, PartialEq, Eq)]
pub enum HeaderOr<'a> {
    /// A header and the captured part of its data, without padding: all of it for a fragment.
    Header(Header, &'a [u8]),
    /// The packet breaks RFC 791's form.
    Bad,
    /// Too little of the packet was captured.
    Cut,
}

// What a packet is that ends inside its header.
#[tactic(auto, unfolding(crate::specs::Read::ended_in_header))]
fn ended<'a>(whole: bool) -> HeaderOr<'a>
    ensures { header_seen result ≡ ended_in_header whole }
{
    if whole { HeaderOr::Bad } else { HeaderOr::Cut }
}

#[tactic(auto, unfolding(crate::specs::Read::packet_key))]
fn key_of(bytes: &[u8]) -> Key
    requires { 20 ≤ length bytes.now }
    ensures { result ≡ packet_key bytes.now }
{
    Key {
        source: source(bytes),
        destination: destination(bytes),
        protocol: protocol(bytes),
        identification: identification(bytes),
    }
}

#[tactic(auto, unfolding(crate::specs::Read::fragment_of))]
#[inline(always)]
fn fragment_of(bytes: &[u8]) -> Option<Fragment>
    requires least { 20 ≤ length bytes.now }
    requires within { header_length bytes.now ≤ total_length bytes.now }
    ensures { result ≡ fragment_of bytes.now }
{
    if is_fragment(bytes) {
        Some(Fragment {
            start: offset(bytes),
            length: data_length(bytes),
            more: more_fragments(bytes),
        })
    } else {
        None
    }
}

// The version isn't 4, or the lengths of header and packet can't be.
#[tactic(auto, unfolding(crate::specs::Read::is_malformed))]
fn is_malformed(bytes: &[u8]) -> bool
    requires { 20 ≤ length bytes.now }
    ensures value { result ≡ is_malformed bytes.now }
    ensures least { OnFalse result (20 ≤ header_length bytes.now) }
    ensures within { OnFalse result (header_length bytes.now ≤ total_length bytes.now) }
{
    version(bytes) != VERSION
        || header_length(bytes) < LEAST_HEADER
        || total_length(bytes) < header_length(bytes)
}

// Some of the data isn't captured.
#[tactic(auto, unfolding(crate::specs::Read::lacks_data))]
fn lacks_data(bytes: &[u8]) -> bool
    requires { 20 ≤ length bytes.now }
    ensures { result ≡ lacks_data bytes.now }
{
    bytes.len() < usize::from(total_length(bytes))
}

// A packet that was captured whole is shorter than it says.
#[tactic(auto, unfolding(crate::specs::Read::is_overstated))]
pub(crate) fn is_overstated(bytes: &[u8], captured_whole: bool) -> bool
    requires { 20 ≤ length bytes.now }
    ensures { result ≡ is_overstated bytes.now captured_whole }
{
    captured_whole && lacks_data(bytes)
}

// A fragment's data is empty, or doesn't end at a whole block if more follow, or lies beyond the
// longest datagram.
#[tactic(auto, unfolding(crate::specs::Read::is_misfit))]
fn is_misfit(bytes: &[u8]) -> bool
    requires least { 20 ≤ length bytes.now }
    requires within { header_length bytes.now ≤ total_length bytes.now }
    ensures { result ≡ is_misfit bytes.now }
{
    let length = data_length(bytes);
    is_fragment(bytes)
        && (length == 0
            || (more_fragments(bytes) && length % BLOCK != 0)
            || offset(bytes) + length > LONGEST_DATA)
}

// A fragment some of whose data isn't captured.
#[tactic(auto, unfolding(crate::specs::Read::is_partial))]
fn is_partial(bytes: &[u8]) -> bool
    requires { 20 ≤ length bytes.now }
    ensures { result ≡ is_partial bytes.now }
{
    is_fragment(bytes) && lacks_data(bytes)
}

// The captured part of the data.
#[tactic(auto, unfolding(crate::specs::Read::data_of))]
fn data_of(bytes: &[u8]) -> &[u8]
    requires least { 20 ≤ length bytes.now }
    requires within { header_length bytes.now ≤ total_length bytes.now }
    requires captured { header_length bytes.now ≤ length bytes.now }
    ensures { result.now ≡ data_of bytes.now }
{
    let (_, rest) = bytes.split_at(usize::from(header_length(bytes)));
    let (captured, _) = rest.split_at(rest.len().min(data_length(bytes) as usize));
    captured
}

// What a well-formed header says.
#[tactic(auto, unfolding(crate::specs::Read::fields_of))]
#[inline(always)]
fn header_of(bytes: &[u8]) -> Header
    requires least { 20 ≤ length bytes.now }
    requires shortest { 20 ≤ header_length bytes.now }
    requires within { header_length bytes.now ≤ total_length bytes.now }
    requires fits { is_misfit bytes.now ≡ false }
    ensures value { result ≡ fields_of bytes.now }
    ensures form { IsWellFormed result }
{
    Header {
        key: key_of(bytes),
        service: service(bytes),
        time_to_live: time_to_live(bytes),
        data_length: data_length(bytes),
        fragment: fragment_of(bytes),
    }
}

impl Header {
    ghost use Rattle.std.specs.Prelude.{IfSome};
    ghost use Rattle.cap_ip.specs.Header.{IsPiece};
    ghost use Rattle.cap_ip.specs.Read.{IfFound, IsShapedPacket};

    /// The header at the front of a packet's bytes, with the captured part of its data.
    /// `captured_whole` says that no byte of the packet is missing after them.
    ///
    /// The first of these that holds (RFC 791, 3.1):
    ///
    /// 1. fewer than 20 bytes: `Bad` if captured whole, else `Cut`;
    /// 2. the version isn't 4, the header's length is below 20, or the total length below the
    ///    header's: `Bad`;
    /// 3. fewer bytes than the header's length: `Bad` if captured whole, else `Cut`;
    /// 4. captured whole, and fewer bytes than the total length: `Bad`;
    /// 5. a fragment without data, or whose data's length isn't a multiple of 8 if more follow, or
    ///    that ends past 65,515: `Bad`;
    /// 6. a fragment of fewer bytes than the total length: `Cut`;
    /// 7. else the header, with the data up to the total length or the last byte.
    ///
    /// The data that comes with a fragment is all of its data, so it isn't empty, and `fragment` says
    /// where it lies.
    #[tactic(auto, unfolding(crate::specs::Read::read_of))]
    #[inline(always)]
    pub fn read(bytes: &[u8], captured_whole: bool) -> HeaderOr<'_>
        ensures value { header_seen result ≡ read_of bytes.now captured_whole }
        ensures shaped { IfFound (header_seen result) IsShapedPacket }
    {
        if bytes.len() < usize::from(LEAST_HEADER) {
            return ended(captured_whole);
        }
        if is_malformed(bytes) {
            return HeaderOr::Bad;
        }
        if bytes.len() < usize::from(header_length(bytes)) {
            return ended(captured_whole);
        }
        if is_overstated(bytes, captured_whole) {
            return HeaderOr::Bad;
        }
        if is_misfit(bytes) {
            return HeaderOr::Bad;
        }
        if is_partial(bytes) {
            return HeaderOr::Cut;
        }
        HeaderOr::Header(header_of(bytes), data_of(bytes))
    }

    /// What names its datagram.
    pub fn key(&self) -> Key
        ensures { result ≡ self.now.key }
    {
        self.key
    }

    /// The type of service.
    pub fn service(&self) -> u8
        ensures { result ≡ self.now.service }
    {
        self.service
    }

    /// The time to live.
    pub fn time_to_live(&self) -> u8
        ensures { result ≡ self.now.time_to_live }
    {
        self.time_to_live
    }

    /// The length of the packet's data in bytes, captured or not: at most 65,515.
    pub fn data_length(&self) -> u32
        ensures value { result ≡ self.now.data_length }
        ensures bound { result ≤ 65515 }
    {
        self.data_length
    }

    /// Where the data of a fragment lies in its datagram's; `None` for a whole datagram. A fragment
    /// has the flag MF set, or an offset that isn't 0 (RFC 791, 3.2). Its length is `data_length`, and it
    /// ends at most at 65,515.
    pub fn fragment(&self) -> Option<Fragment>
        ensures value { result ≡ self.now.fragment }
        ensures piece { IfSome result (IsPiece self.now.data_length) }
    {
        self.fragment
    }
}
