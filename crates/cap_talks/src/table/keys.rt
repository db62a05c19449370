//! Keys of conversations as they are looked up.
ghost use Rattle.std.specs.Prelude.{◌≡◌, ◌<◌, ◌^◌, true, IfSome};
ghost use Rattle.std.proofs.Common.{rules};
ghost use Rattle.std.specs.Cmp.Rules.{hashing};
ghost use Rattle.std.specs.Hash as fed;
ghost use Rattle.cap_talks.specs.table.Conversations.{talk_key, is_forward};
ghost use Rattle.cap_talks.specs.inner.table.Ipv4Units.{end_of_ipv4, unit_between};
ghost use Rattle.cap_talks.specs.inner.table.Packed.{IsNarrow, IsNarrowEnd, are_known, both_numbers, end_at_number};
ghost use Rattle.cap_talks.specs.inner.table.Packed.{end_number, end_of_side, is_end_number, is_packed};
ghost use Rattle.cap_talks.specs.inner.table.Packed.{is_side, is_wide, mark, packed, port_number, port_of};
ghost use Rattle.cap_talks.specs.inner.table.Packed.{side_number, talk_of_wide, unpacked, widened};

use crate::table::ipv4_units::{Ipv4End, Ipv4Ends};
use crate::table::rows::TalkKey;
use crate::table::units::{Address, CountedUnit, Endpoint, is_greater};
use indexmap::IndexSet;
use std::hash::{Hash, Hasher};

/// A key as two numbers, which are compared and hashed in a fraction of the time that its fields take: a key of IPv4
/// addresses, or the place of any other among those known.
#[derive(Clone, Copy, PartialEq, Eq)]
pub(crate) struct PackedKey {
    // the lesser end, and below it the protocol; `MARK` of a place
    lesser: u64,
    // the greater end, or the place
    greater: u64,
}

// The lesser number of a key that is a place: no end of IPv4 is as great.
const MARK: u64 = 0x8000_0000_0000_0000;

// The two numbers are hashed as one of 128 bits, by one product: of two, the second would wait for the first.
impl Hash for PackedKey {
    ghost hash_input = { λ key. fed.u128 (both_numbers key) };

    ghost respects_eq = { Prim.search (hashing, rules) };

    #[inline(always)]
    fn hash<H: Hasher>(&self, state: &mut H) {
        state.write_u128(
            u128::from(self.lesser) * 0x1_0000_0000_0000_0000 + u128::from(self.greater),
        );
    }
}

/// A key with an end of IPv6, as three numbers.
#[derive(Clone, Copy, PartialEq, Eq, Hash)]
pub(crate) struct WideKey {
    // the addresses of the lesser and of the greater end
    lesser: u128,
    greater: u128,
    // the networks and the ports of both, and below them the protocol
    rest: u64,
}

// A port as a number: 0 is none.
#[inline(always)]
fn port_number(port: Option<u16>) -> u64
    ensures value { result ≡ port_number port }
    ensures bound { result < 65537 }
    ensures narrow { IfSome port (λ p. p < 65536) }
{
    match port {
        Some(port) => u64::from(port) + 1,
        None => 0,
    }
}

// The port of a number.
fn port_of(number: u64) -> Option<u16>
    requires { number < 65537 }
    ensures { result ≡ port_of number }
{
    if number == 0 {
        None
    } else {
        Some((number - 1) as u16)
    }
}

// An end of IPv4 as a number: the address, and below it the port.
#[inline(always)]
fn end_number(end: Ipv4End) -> u64
    ensures value { result ≡ end_number (end_of_ipv4 end) }
    ensures bound { result < 2 ^ 49 }
    ensures narrow { IsNarrowEnd (end_of_ipv4 end) }
{
    u64::from(end.address) * 131_072 + port_number(end.port)
}

// The end of a number.
fn end_of(number: u64) -> Endpoint
    requires { is_end_number number ≡ true }
    ensures { result ≡ end_at_number number }
{
    Endpoint {
        address: Address::Ipv4((number / 131_072) as u32),
        port: port_of(number % 131_072),
    }
}

// An end without its address, as a number: the port, and below it the network.
#[inline(always)]
fn side_number(end: &Endpoint) -> u64
    ensures value { result ≡ side_number end.now }
    ensures bound { result < 262144 }
    ensures narrow { IfSome end.now.port (λ p. p < 65536) }
{
    let port = port_number(end.port) * 2;
    match end.address {
        Address::Ipv4(_) => port,
        Address::Ipv6(_) => port + 1,
    }
}

// The end of an address and a side.
fn end_of_side(number: u128, side: u64) -> Endpoint
    requires { is_side number side ≡ true }
    ensures { result ≡ end_of_side number side }
{
    let address = if side % 2 == 0 {
        Address::Ipv4(number as u32)
    } else {
        Address::Ipv6(number)
    };
    Endpoint {
        address,
        port: port_of(side / 2),
    }
}

impl PackedKey {
    /// The key of the conversation that a unit between those ends belongs to, and whether it goes from the lesser of
    /// them, or from an end to itself.
    #[inline(always)]
    pub(crate) fn of(ends: &Ipv4Ends) -> (PackedKey, bool)
        ensures value { result.0 ≡ packed (talk_key (unit_between ends.now)) }
        ensures forward { result.1 ≡ is_forward (unit_between ends.now) }
        ensures narrow { IsNarrow (talk_key (unit_between ends.now)) }
    {
        let protocol = u64::from(ends.protocol);
        let source = end_number(ends.source);
        let destination = end_number(ends.destination);
        if source <= destination {
            let key = PackedKey {
                lesser: source * 256 + protocol,
                greater: destination,
            };
            (key, true)
        } else {
            let key = PackedKey {
                lesser: destination * 256 + protocol,
                greater: source,
            };
            (key, false)
        }
    }

    /// The key that is at a place among those known.
    #[inline(always)]
    pub(crate) fn at(place: usize) -> PackedKey
        ensures { result ≡ record { lesser = mark; greater = place } }
    {
        PackedKey {
            lesser: MARK,
            greater: place as u64,
        }
    }

    /// The key that it was made of, among those known.
    pub(crate) fn unpacked(self, known: &IndexSet<WideKey>) -> TalkKey
        requires key { is_packed known.now.keys self ≡ true }
        requires known { are_known known.now.keys ≡ true }
        ensures { result ≡ unpacked known.now.keys self }
    {
        if self.lesser == MARK {
            return match known.get_index(self.greater as usize) {
                None => unreachable!(),
                Some(key) => key.unpacked(),
            };
        }
        TalkKey {
            protocol: (self.lesser % 256) as u8,
            lesser: end_of(self.lesser / 256),
            greater: end_of(self.greater),
        }
    }
}

// The key of a conversation between two ends, the lesser first.
#[inline(always)]
fn wide_key(protocol: u8, lesser: &Endpoint, greater: &Endpoint) -> WideKey
    ensures value { result ≡ widened (record {
      protocol = protocol;
      lesser = lesser.now;
      greater = greater.now;
    }) }
    ensures lesser { IsNarrowEnd lesser.now }
    ensures greater { IsNarrowEnd greater.now }
{
    let sides = side_number(lesser) * 262_144 + side_number(greater);
    WideKey {
        lesser: lesser.address.number(),
        greater: greater.address.number(),
        rest: sides * 256 + u64::from(protocol),
    }
}

impl WideKey {
    /// The key of the conversation that a unit belongs to, and whether it goes from the lesser of its ends, or from an
    /// end to itself.
    #[inline(always)]
    pub(crate) fn of(unit: &CountedUnit) -> (WideKey, bool)
        ensures value { result.0 ≡ widened (talk_key unit.now) }
        ensures forward { result.1 ≡ is_forward unit.now }
        ensures narrow { IsNarrow (talk_key unit.now) }
    {
        let (source, destination) = (&unit.source, &unit.destination);
        if is_greater(source, destination) {
            (wide_key(unit.protocol, destination, source), false)
        } else {
            (wide_key(unit.protocol, source, destination), true)
        }
    }

    /// The key that it was made of.
    fn unpacked(&self) -> TalkKey
        requires { is_wide self.now ≡ true }
        ensures { result ≡ talk_of_wide self.now }
    {
        let sides = self.rest / 256;
        TalkKey {
            protocol: (self.rest % 256) as u8,
            lesser: end_of_side(self.lesser, sides / 262_144),
            greater: end_of_side(self.greater, sides % 262_144),
        }
    }
}
