//! Unsigned numbers at a place in bytes, in either byte order.
ghost use Rattle.std.specs.Prelude.{◌≡◌, ◌+◌, ◌≤◌, ◌++◌, length, take, drop};
ghost use Rattle.cap_bytes.specs.Number.{number, bytes_of, with_number};

use byteorder::{BigEndian, ByteOrder, LittleEndian};

/// The order of a number's bytes: one in a pcap file (draft-ietf-opsawg-pcap, 4) and in a section of a pcapng file
/// (draft-ietf-opsawg-pcapng, 3.6), `Big` in IPv4 headers (RFC 791, Appendix B).
#[derive(Clone, Copy, Debug, PartialEq, Eq)]
pub enum Order {
    /// The highest byte first.
    Big,
    /// The lowest byte first.
    Little,
}

/// The number in the 2 bytes from `place` on, in that order.
#[tactic(auto, unfolding(crate::specs::Number::number))]
pub fn u16_at(order: Order, bytes: &[u8], place: usize) -> u16
    requires { place + 2 ≤ length bytes.now }
    ensures { result ≡ number order 2 (drop place bytes.now) }
{
    let (_, rest) = bytes.split_at(place);
    match order {
        Order::Big => BigEndian::read_u16(rest),
        Order::Little => LittleEndian::read_u16(rest),
    }
}

/// The number in the 4 bytes from `place` on, in that order.
#[tactic(auto, unfolding(crate::specs::Number::number))]
pub fn u32_at(order: Order, bytes: &[u8], place: usize) -> u32
    requires { place + 4 ≤ length bytes.now }
    ensures { result ≡ number order 4 (drop place bytes.now) }
{
    let (_, rest) = bytes.split_at(place);
    match order {
        Order::Big => BigEndian::read_u32(rest),
        Order::Little => LittleEndian::read_u32(rest),
    }
}

/// The number in the 8 bytes from `place` on, in that order.
#[tactic(auto, unfolding(crate::specs::Number::number))]
pub fn u64_at(order: Order, bytes: &[u8], place: usize) -> u64
    requires { place + 8 ≤ length bytes.now }
    ensures { result ≡ number order 8 (drop place bytes.now) }
{
    let (_, rest) = bytes.split_at(place);
    match order {
        Order::Big => BigEndian::read_u64(rest),
        Order::Little => LittleEndian::read_u64(rest),
    }
}

/// Puts a number into the 2 bytes from `place` on, in that order. The other bytes stay.
#[tactic(auto, unfolding(crate::specs::Number::with_number, crate::specs::Number::bytes_of))]
pub fn put_u16(order: Order, bytes: &mut [u8], place: usize, number: u16)
    requires { place + 2 ≤ length bytes.old }
    ensures bytes { bytes.new ≡ with_number order 2 number place bytes.old }
    ensures front { take (place + 2) bytes.new ≡ take place bytes.old ++ bytes_of order 2 number }
{
    let (_, rest) = bytes.split_at_mut(place);
    match order {
        Order::Big => BigEndian::write_u16(rest, number),
        Order::Little => LittleEndian::write_u16(rest, number),
    }
}

/// Puts a number into the 4 bytes from `place` on, in that order. The other bytes stay.
#[tactic(auto, unfolding(crate::specs::Number::with_number, crate::specs::Number::bytes_of))]
pub fn put_u32(order: Order, bytes: &mut [u8], place: usize, number: u32)
    requires { place + 4 ≤ length bytes.old }
    ensures bytes { bytes.new ≡ with_number order 4 number place bytes.old }
    ensures front { take (place + 4) bytes.new ≡ take place bytes.old ++ bytes_of order 4 number }
{
    let (_, rest) = bytes.split_at_mut(place);
    match order {
        Order::Big => BigEndian::write_u32(rest, number),
        Order::Little => LittleEndian::write_u32(rest, number),
    }
}

/// Puts a number into the 8 bytes from `place` on, in that order. The other bytes stay.
#[tactic(auto, unfolding(crate::specs::Number::with_number, crate::specs::Number::bytes_of))]
pub fn put_u64(order: Order, bytes: &mut [u8], place: usize, number: u64)
    requires { place + 8 ≤ length bytes.old }
    ensures bytes { bytes.new ≡ with_number order 8 number place bytes.old }
    ensures front { take (place + 8) bytes.new ≡ take place bytes.old ++ bytes_of order 8 number }
{
    let (_, rest) = bytes.split_at_mut(place);
    match order {
        Order::Big => BigEndian::write_u64(rest, number),
        Order::Little => LittleEndian::write_u64(rest, number),
    }
}
