//! What is known of a packet beside its bytes.
ghost use Rattle.std.specs.Prelude.{◌≡◌, ◌<ℤ◌, ◌^◌, pos, IfSome};

use cap_bytes::Format;
use cap_time::{Interface, Stamp};

/// What is known of a packet beside its captured bytes.
#[derive(Clone, Copy, Debug, PartialEq, Eq)]
pub struct Meta {
    /// Where its record or block begins, in bytes.
    pub offset: u64,
    /// How many blocks of its file were skipped before it.
    pub skipped: u64,
    /// How many interface blocks of its file stand before its own interface's; 0 in a pcap file.
    pub instance: u64,
    /// The interface that it was captured at.
    pub interface: Interface,
    /// Its time in units of the interface's resolution; `None` if it has none.
    pub units: Option<u64>,
    /// How many bytes of it were captured.
    pub captured: u32,
    /// How many bytes it had.
    pub original: u32,
    /// The number of its file, from 1.
    pub file: u32,
    /// The format of its file.
    pub format: Format,
}

impl Meta {
    ghost use Rattle.cap_time.specs.Stamp.{seconds_of};
    ghost use Rattle.cap_source.specs.Times.{meta_time};

    /// The time of the packet, if it has one. Its seconds are below 2^65.
    #[inline(always)]
    pub fn time(&self) -> Option<Stamp>
        ensures time { result ≡ meta_time self.now }
        ensures bounded { IfSome result (λ time. seconds_of time <ℤ pos (2 ^ 65)) }
    {
        match self.units {
            Some(units) => Some(Stamp::new(units, &self.interface)),
            None => None,
        }
    }
}
