//! The checksum of an IPv4 header (RFC 791, 3.1; RFC 1071, 1).
ghost use Rattle.std.specs.Prelude.{◌≡◌, ◌+◌, ◌%◌, ◌/◌};
ghost use Rattle.cap_ip.specs.Checksum.{checksum_of, ChecksumLaw};

use cap_bytes::{Order, u16_at};

// The words of a header without options.
const WORDS: usize = 10;
// One above the highest word.
const CARRY: u32 = 0x1_0000;

// The carry out of a word, added at its lowest bit.
fn carried(sum: u32) -> u32
    ensures { result ≡ sum % 65536 + sum / 65536 }
{
    sum % CARRY + sum / CARRY
}

/// The checksum of an IPv4 header of 20 bytes: the ones' complement of the ones' complement sum of its
/// ten 16 bit words, big-endian (RFC 791, 3.1). The words are taken as they stand, so the caller gives
/// the checksum's own word, bytes 10 and 11, as 0.
pub fn header_checksum(header: &[u8; 20]) -> u16
    ensures { result ≡ checksum_of header.now }
{
    let mut sum: u32 = 0;
    'words: for i in 0..WORDS {
        sum += u32::from(u16_at(Order::Big, header, 2 * i));
    }
    u16::MAX - carried(carried(sum)) as u16
}

/// A law: a header of 20 bytes whose checksum was taken over it with 0 in its place, and then put there,
/// sums to all ones (RFC 1071, 1). It does nothing when it runs.
pub fn checksum_law()
    ensures { ChecksumLaw }
{}
