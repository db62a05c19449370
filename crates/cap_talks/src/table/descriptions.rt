//! What a packet is by itself, and why.
ghost use Rattle.std.specs.Prelude.{◌≡◌, ◌+◌, ◌≤◌, ◌∷◌, [], length};
ghost use Rattle.cap_ip.specs.Read.{read_of};
ghost use Rattle.cap_ip.specs.Reasons.{header_reason};
ghost use Rattle.cap_print.specs.Facts.{fields_in};
ghost use Rattle.cap_print.specs.Lines.{room_in, text_in};
ghost use Rattle.cap_class.specs.Classes.{lone_class};
ghost use Rattle.cap_class.specs.Ipv6.{lone_class_for};
ghost use Rattle.cap_ipv6.specs.Seen.{packet_seen};
ghost use Rattle.cap_talks.specs.table.Descriptions.{class_field, describe_between, describe_datagram};
ghost use Rattle.cap_talks.specs.table.Descriptions.{describe_endless};
ghost use Rattle.cap_talks.specs.table.Descriptions.{describe_for, describe_ipv6, describe_of, describe_unread};
ghost use Rattle.cap_talks.specs.table.Descriptions.{describe_read, described_class, description_fields, reason_field};
ghost use Rattle.cap_talks.specs.table.Descriptions.{talk_between};
ghost use Rattle.cap_talks.specs.declared.table.descriptions.Description.TheVariants as described;

use crate::table::rows::TalkKey;
use crate::table::talk_lines::put_key;
use crate::table::units::{Address, Endpoint, ends_of, is_greater};
use cap_class::read_ipv6;
use cap_ip::{Header, HeaderOr, Reason, Transport, header_reason, transport, transport_reason};
use cap_ipv6::Ipv6Packet;
use cap_link::{Network, network};
use cap_print::{Form, Line};
use cap_source::Meta;

/// What a packet is by itself, and why: one case for each class of a packet in a report of it alone.
#[derive(Clone, Copy)]
pub enum Description {
    /// Its link type isn't looked into.
    OtherLink,
    /// It isn't an IPv4 packet.
    NotIpv4,
    /// It isn't an IPv4 packet, nor an IPv6 packet where those are read.
    NotIp,
    /// It ends inside its link header or a tag, and was captured whole.
    Short,
    /// It isn't well-formed, for this reason.
    Bad(Reason),
    /// Not enough of it was captured, for this reason.
    Cut(Reason),
    /// It is a fragment of a datagram.
    Fragment {
        /// What the sender gave all fragments of the datagram: 16 bits in IPv4.
        identification: u32,
        /// Where the fragment's data begins in the datagram's data, in bytes: a multiple of 8.
        offset: u32,
    },
    /// It is a datagram that counts in this conversation.
    Counted(TalkKey),
}

// The conversation of a datagram between two ends.
fn talk_between(protocol: u8, source: Endpoint, destination: Endpoint) -> TalkKey
    ensures { result ≡ talk_between protocol (source, destination) }
{
    if is_greater(&source, &destination) {
        TalkKey {
            protocol,
            lesser: destination,
            greater: source,
        }
    } else {
        TalkKey {
            protocol,
            lesser: source,
            greater: destination,
        }
    }
}

// What a datagram without ends is, for that reason.
fn describe_endless(seen: Transport, why: Reason) -> Description
    ensures { result ≡ describe_endless seen why }
{
    match seen {
        Transport::Cut => Description::Cut(why),
        _ => Description::Bad(why),
    }
}

// What a whole datagram between two addresses is, by its data's length and the captured part of that.
fn describe_between(
    protocol: u8,
    source: Address,
    destination: Address,
    captured: &[u8],
    length: u32,
) -> Description
    ensures { result ≡ describe_between protocol source destination captured.now length }
{
    let seen = transport(protocol, captured, length);
    match ends_of(source, destination, seen) {
        Some((source, destination)) => {
            Description::Counted(talk_between(protocol, source, destination))
        }
        None => {
            let why = transport_reason(protocol, captured, length);
            describe_endless(seen, why)
        }
    }
}

// What a whole datagram of IPv4 is, by the captured part of its data.
fn describe_datagram(header: &Header, captured: &[u8]) -> Description
    ensures { result ≡ describe_datagram header.now captured.now }
{
    let key = header.key();
    let (source, destination) = (Address::Ipv4(key.source), Address::Ipv4(key.destination));
    describe_between(
        key.protocol,
        source,
        destination,
        captured,
        header.data_length(),
    )
}

// What an IPv4 packet is.
fn describe_ipv4(bytes: &[u8], whole: bool) -> Description
    ensures { result ≡ describe_read (read_of bytes.now whole) (header_reason bytes.now whole) }
{
    match Header::read(bytes, whole) {
        HeaderOr::Bad => Description::Bad(header_reason(bytes, whole)),
        HeaderOr::Cut => Description::Cut(header_reason(bytes, whole)),
        HeaderOr::Header(header, captured) => match header.fragment() {
            None => describe_datagram(&header, captured),
            Some(fragment) => Description::Fragment {
                identification: u32::from(header.key().identification),
                offset: fragment.start,
            },
        },
    }
}

// What a packet is by itself.
#[tactic(auto, unfolding(crate::specs::table::Descriptions::describe_of))]
fn describe_frame(meta: &Meta, frame: &[u8]) -> Description
    ensures { result ≡ describe_of meta.now frame.now }
{
    let whole = frame.len() >= meta.original as usize;
    match network(meta.interface.link, frame, meta.original) {
        Network::Ipv4(bytes) => describe_ipv4(bytes, whole),
        Network::OtherLink => Description::OtherLink,
        Network::NotIpv4 => Description::NotIpv4,
        Network::Short => Description::Short,
        Network::Cut => Description::Cut(Reason::LinkShort),
    }
}

/// What a packet is by itself, by what is known of it and its captured bytes: its class in a report of it alone, as
/// `packet_class` gives it, and why if it is bad or cut; of which datagram it is a fragment, and from which byte of its
/// data on; or to which conversation it belongs. RFC 791, 3.1 and 3.2; RFC 768; RFC 9293, 3.1.
pub fn describe(meta: &Meta, frame: &[u8]) -> Description
    ensures value { result ≡ describe_of meta.now frame.now }
    ensures class { described_class result ≡ lone_class meta.now frame.now }
{
    describe_frame(meta, frame)
}

// What an IPv6 packet is.
fn describe_ipv6(read: &Ipv6Packet<'_>) -> Description
    ensures { result ≡ describe_ipv6 (packet_seen read.now) }
{
    match read {
        Ipv6Packet::Bad(why) => Description::Bad(*why),
        Ipv6Packet::Cut(why) => Description::Cut(*why),
        Ipv6Packet::Fragment(fragment) => Description::Fragment {
            identification: fragment.identification,
            offset: fragment.start,
        },
        Ipv6Packet::Datagram(header, captured) => describe_between(
            header.protocol,
            Address::Ipv6(header.source),
            Address::Ipv6(header.destination),
            captured,
            header.data_length,
        ),
    }
}

// What a packet is that carries no IPv6 packet, where those are read.
fn describe_unread(description: Description) -> Description
    ensures { result ≡ describe_unread description }
{
    match description {
        Description::NotIpv4 => Description::NotIp,
        other => other,
    }
}

/// What `describe` answers, and where IPv6 packets are read (RFC 8200, 3) the same of those. Then a packet of neither
/// network is `NotIp`, and one of IPv6 has its class in a report that reads them; its fragments aren't joined.
pub fn describe_for(ipv6: bool, meta: &Meta, frame: &[u8]) -> Description
    ensures value { result ≡ describe_for ipv6 meta.now frame.now }
    ensures class { described_class result ≡ lone_class_for ipv6 meta.now frame.now }
{
    if !ipv6 {
        return describe(meta, frame);
    }
    match read_ipv6(meta, frame) {
        None => describe_unread(describe(meta, frame)),
        Some(read) => describe_ipv6(&read),
    }
}

// Puts the word of a class.
fn put_class(line: &mut Line, form: Form, name: &str)
    requires { length name.now + 13 ≤ room_in line.old }
    ensures text { text_in line.new ≡ fields_in form (class_field name.now ∷ []) (text_in line.old) }
    ensures room { room_in line.old ≤ room_in line.new + length name.now + 13 }
{
    line.put_word(form, b"class", Some(name));
}

// Puts the word of a reason.
fn put_reason(line: &mut Line, form: Form, why: Reason)
    requires { 29 ≤ room_in line.old }
    ensures text { text_in line.new ≡ fields_in form (reason_field why ∷ []) (text_in line.old) }
    ensures room { room_in line.old ≤ room_in line.new + 29 }
{
    line.put_word(form, b"reason", Some(why.name()));
}

// Puts of which datagram a packet is a fragment, and where its data begins in that.
fn put_fragment(line: &mut Line, form: Form, identification: u32, offset: u32)
    requires { 78 ≤ room_in line.old }
    ensures text { text_in line.new
        ≡ fields_in form (description_fields (described.Fragment identification offset)) (text_in line.old) }
    ensures room { room_in line.old ≤ room_in line.new + 78 }
{
    line.put_number_as(form, b" fragment-offset ", b"fragment_offset", offset);
    line.put_number(form, b"identification", identification);
    put_class(line, form, "fragment");
}

/// Puts what a packet is by itself into a line, at most 188 bytes. In text it is ` class C`, where C is `other-link`,
/// `not-ipv4`, `not-ip`, `short`, `bad reason R`, `cut reason R`, `fragment identification I fragment-offset O`, or
/// `counted PROTO A B` with the protocol and the ends as in the line of a conversation, the lesser end first. In JSON
/// it is the values with these names, and `"protocol"`, `"a"` and `"b"`.
pub fn put_description(line: &mut Line, form: Form, description: &Description)
    requires { 188 ≤ room_in line.old }
    ensures text { text_in line.new ≡ fields_in form (description_fields description.now) (text_in line.old) }
    ensures room { room_in line.old ≤ room_in line.new + 188 }
{
    match description {
        Description::OtherLink => put_class(line, form, "other-link"),
        Description::NotIpv4 => put_class(line, form, "not-ipv4"),
        Description::NotIp => put_class(line, form, "not-ip"),
        Description::Short => put_class(line, form, "short"),
        Description::Bad(why) => {
            put_reason(line, form, *why);
            put_class(line, form, "bad");
        }
        Description::Cut(why) => {
            put_reason(line, form, *why);
            put_class(line, form, "cut");
        }
        Description::Fragment {
            identification,
            offset,
        } => put_fragment(line, form, *identification, *offset),
        Description::Counted(key) => {
            put_key(line, form, key);
            put_class(line, form, "counted");
        }
    }
}
