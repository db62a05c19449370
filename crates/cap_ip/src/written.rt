//! IPv4 headers as they are written (RFC 791, 3.1).
ghost use Rattle.std.specs.Prelude.{◌≡◌, ◌≤◌};
ghost use Rattle.cap_ip.specs.Written.{header_with, ipv4_header_bytes};

use crate::checksums::header_checksum;
use crate::headers::Header;
use cap_bytes::{Order, put_u16, put_u32};

// Version 4, and a header of five words of four bytes.
const VERSION_AND_LENGTH: u8 = 0x45;

// The length of a header without options, in bytes.
const HEADER: u16 = 20;

// A header without options, of a datagram of that many bytes of data, with that word in its checksum's
// place.
#[tactic(auto, unfolding(crate::specs::Written::header_with))]
fn header_with(header: &Header, size: u16, checksum: u16) -> [u8; 20]
    requires { size ≤ 65515 }
    ensures { result ≡ header_with header.now size checksum }
{
    let key = header.key();
    let mut bytes = [
        VERSION_AND_LENGTH,
        header.service(),
        0,
        0,
        0,
        0,
        0,
        0,
        header.time_to_live(),
        key.protocol,
        0,
        0,
        0,
        0,
        0,
        0,
        0,
        0,
        0,
        0,
    ];
    put_u16(Order::Big, &mut bytes, 2, HEADER + size);
    put_u16(Order::Big, &mut bytes, 4, key.identification);
    put_u16(Order::Big, &mut bytes, 10, checksum);
    put_u32(Order::Big, &mut bytes, 12, key.source);
    put_u32(Order::Big, &mut bytes, 16, key.destination);
    bytes
}

impl Header {
    /// The bytes of a header that says the same of a whole datagram of `size` bytes of data, at most 65,515: without
    /// options, without flags, at offset 0, with its checksum.
    #[tactic(auto, unfolding(crate::specs::Written::ipv4_header_bytes))]
    pub fn to_bytes(&self, size: u16) -> [u8; 20]
        requires { size ≤ 65515 }
        ensures { result ≡ ipv4_header_bytes self.now size }
    {
        let checksum = header_checksum(&header_with(self, size, 0));
        header_with(self, size, checksum)
    }
}
