//! Packets for the tests.
ghost use Rattle.std.specs.Prelude.{◌≡◌};

use cap_source::{Format, Meta};
use cap_time::{Interface, Resolution};

/// What is known of a packet of that link type and original length, of which no byte was captured.
pub fn meta_of(link: u16, original: u32) -> Meta
    ensures link { result.interface.link ≡ link }
    ensures original { result.original ≡ original }
{
    Meta {
        file: 1,
        offset: 24,
        format: Format::Pcap,
        skipped: 0,
        instance: 0,
        interface: Interface {
            link,
            snaplen: 262_144,
            resolution: Resolution::from_code(6).unwrap(),
            offset: 0,
        },
        units: None,
        captured: 0,
        original,
    }
}
