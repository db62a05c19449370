//! The extension headers of an IPv6 packet, one after the other (RFC 8200, 4).
ghost use Rattle.std.specs.Prelude.{◌≡◌, ◌≤◌, ◌<◌, length};
ghost use Rattle.cap_ipv6.specs.Chain.{fragment_at, is_extension, is_whole, led, misfit_of, says};
ghost use Rattle.cap_ipv6.specs.Chain.{says_fragment, size_of};
ghost use Rattle.cap_ipv6.specs.Read.{IsShort};
ghost use Rattle.cap_ipv6.specs.Seen.{led_seen, place, says_seen};

use crate::packets::Ipv6Fragment;
use cap_bytes::{Order, u16_at, u32_at};
use cap_ip::Reason;

// The numbers of extension headers (IANA, Protocol Numbers).
const HOP_BY_HOP: u8 = 0;

const ROUTING: u8 = 43;

const FRAGMENT: u8 = 44;

const AUTHENTICATION: u8 = 51;

const DESTINATION_OPTIONS: u8 = 60;

const MOBILITY: u8 = 135;

const HOST_IDENTITY: u8 = 139;

const SHIM6: u8 = 140;
// The length of the shortest extension header, and of each fragment header, in bytes.
const LEAST_HEADER: usize = 8;
// A fragment's data begins at a multiple of that many bytes, and ends at one if more follow.
const BLOCK: u32 = 8;
// The most data of a datagram, in bytes (RFC 8200, 4.5).
const LONGEST_DATA: u32 = 65_535;

/// What stands at a place among the extension headers.
#[derive(Clone, Copy)]
pub(crate) enum Says {
    /// No extension header: the data begins here.
    Ends,
    /// An extension header of that many bytes.
    Leads(usize),
    /// The header of a fragment; the rest is its data.
    Breaks(Ipv6Fragment),
    /// A header that reaches past the payload, or a fragment that can't be.
    Bad(Reason),
    /// A header that wasn't captured whole.
    Cut(Reason),
}

/// Where the extension headers lead.
#[derive(Clone, Copy)]
pub(crate) enum Led<'a> {
    /// To data: the number of its protocol, its length, and the captured part of it.
    Data(u8, usize, &'a [u8]),
    /// To a fragment.
    Fragment(Ipv6Fragment),
    /// To a header that reaches past the payload, or a fragment that can't be.
    Bad(Reason),
    /// To a header that wasn't captured whole.
    Cut(Reason),
}

#[tactic(auto, unfolding(crate::specs::Chain::is_extension))]
fn is_extension(number: u8) -> bool
    ensures { result ≡ is_extension number }
{
    number == HOP_BY_HOP
        || number == ROUTING
        || number == FRAGMENT
        || number == AUTHENTICATION
        || number == DESTINATION_OPTIONS
        || number == MOBILITY
        || number == HOST_IDENTITY
        || number == SHIM6
}

// The length of an extension header in bytes, by its number and the length that it gives.
#[tactic(auto, unfolding(crate::specs::Chain::size_of))]
fn size_of(number: u8, length: u8) -> usize
    ensures value { result ≡ size_of number length }
    ensures least { 8 ≤ result }
{
    match number {
        FRAGMENT => LEAST_HEADER,
        AUTHENTICATION => (usize::from(length) + 2) * 4,
        _ => (usize::from(length) + 1) * 8,
    }
}

// What a fragment header says, of a fragment with that much data.
#[tactic(auto, unfolding(crate::specs::Chain::fragment_at))]
fn fragment_at(header: &[u8], size: u32) -> Ipv6Fragment
    requires { 8 ≤ length header.now }
    ensures value { result ≡ fragment_at header.now size }
    ensures start { result.start ≤ 65528 }
    ensures length { result.length ≡ size }
{
    let word = u16_at(Order::Big, header, 2);
    Ipv6Fragment {
        identification: u32_at(Order::Big, header, 4),
        start: 8 * u32::from(word / 8),
        length: size,
        more: word % 2 == 1,
    }
}

// A fragment header of a datagram that is whole: it begins and ends with it.
#[tactic(auto, unfolding(crate::specs::Chain::is_whole))]
fn is_whole(fragment: &Ipv6Fragment) -> bool
    ensures { result ≡ is_whole fragment.now }
{
    fragment.start == 0 && !fragment.more
}

// Why a fragment can't be, if it can't: its data is empty, or doesn't end at a whole block if more follow, or lies
// beyond the longest datagram.
#[tactic(auto, unfolding(crate::specs::Chain::misfit_of))]
fn misfit_of(fragment: &Ipv6Fragment) -> Option<Reason>
    requires start { fragment.now.start ≤ 65528 }
    requires length { fragment.now.length ≤ 65535 }
    ensures { result ≡ misfit_of fragment.now }
{
    if fragment.length == 0 {
        return Some(Reason::FragmentEmpty);
    }
    if fragment.more && fragment.length % BLOCK != 0 {
        return Some(Reason::FragmentBlock);
    }
    if fragment.start + fragment.length > LONGEST_DATA {
        return Some(Reason::FragmentBeyond);
    }
    None
}

// What a fragment header says that was captured whole.
#[tactic(auto, unfolding(crate::specs::Chain::says_fragment))]
fn says_fragment(left: usize, captured: &[u8]) -> Says
    requires whole { 8 ≤ length captured.now }
    requires least { 8 ≤ left }
    requires most { left ≤ 65535 }
    ensures { says_seen result ≡ says_fragment left captured.now }
{
    let fragment = fragment_at(captured, (left - LEAST_HEADER) as u32);
    if is_whole(&fragment) {
        return Says::Leads(LEAST_HEADER);
    }
    match misfit_of(&fragment) {
        Some(why) => Says::Bad(why),
        None => Says::Breaks(fragment),
    }
}

// What stands at a place: the header that `number` announces. The payload has `left` more bytes there, and these were
// captured.
#[tactic(auto, unfolding(crate::specs::Chain::says))]
fn look_at(number: u8, left: usize, captured: &[u8]) -> Says
    requires most { left ≤ 65535 }
    ensures { says_seen result ≡ says (place number left captured.now) }
{
    if !is_extension(number) {
        return Says::Ends;
    }
    if left < LEAST_HEADER {
        return Says::Bad(Reason::ExtensionPast);
    }
    if captured.len() < 2 {
        return Says::Cut(Reason::ExtensionCut);
    }
    let size = size_of(number, captured[1]);
    if left < size {
        return Says::Bad(Reason::ExtensionPast);
    }
    if captured.len() < size {
        return Says::Cut(Reason::ExtensionCut);
    }
    if number == FRAGMENT {
        return says_fragment(left, captured);
    }
    Says::Leads(size)
}

/// Where the extension headers lead that stand at the front of a payload: the first is the one that `number` announces.
pub(crate) fn follow(number: u8, left: usize, captured: &[u8]) -> Led<'_>
    requires most { left ≤ 65535 }
    ensures value { led_seen result ≡ led (place number left captured.now) }
    ensures short { IsShort (led_seen result) }
{
    let mut next = number;
    let mut rest = left;
    let mut bytes = captured;
    'headers: loop {
        match look_at(next, rest, bytes) {
            Says::Leads(size) => {
                next = bytes[0];
                rest -= size;
                (_, bytes) = bytes.split_at(size);
            }
            Says::Ends => return Led::Data(next, rest, bytes),
            Says::Breaks(fragment) => return Led::Fragment(fragment),
            Says::Bad(why) => return Led::Bad(why),
            Says::Cut(why) => return Led::Cut(why),
        }
    }
}
