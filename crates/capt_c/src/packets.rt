//! Packets as a caller sees them.
ghost use Rattle.std.specs.Prelude.{◌≡◌, ◌≤ℤ◌, ◌<ℤ◌, ◌^◌, ◌+ℤ◌, ◌*ℤ◌, ◌<◌, ◌/◌, ◌%◌, pos, neg_ℤ};
ghost use Rattle.cap_time.specs.Resolution.{units_of};
ghost use Rattle.cap_time.specs.Stamp.{seconds_of, stamp_in};
ghost use Rattle.capt_c.specs.Packets.{ShowsFields, ShowsTime};

use cap_source::Meta;
use cap_time::{Interface, Stamp};

/// A packet. Its time is `seconds + carry * 2^64` whole seconds since 1970, and `numerator / denominator` of a second:
/// `carry` is 0 unless the seconds don't fit in 64 bits, and `denominator` is 0 if the packet has no time.
#[repr(C)]
#[derive(Clone, Copy, Drop)]
pub struct CPacket {
    /// Its captured bytes, which stay until the next call with the same reader.
    pub frame: *const u8,
    /// Where its record or block begins, in bytes.
    pub offset: u64,
    /// How many interface blocks of its file stand before its own interface's.
    pub instance: u64,
    /// Whole seconds since 1970.
    pub seconds: i64,
    /// The fraction of a second.
    pub numerator: u64,
    /// The units in a second, or 0 if it has no time.
    pub denominator: u64,
    /// The units in a second by which its interface counts time: the denominator, if the packet has a time.
    pub resolution: u64,
    /// The second since 1970 from which its interface counts time. `seconds` has it added.
    pub time_offset: i64,
    /// How many times 2^64 seconds are to be added.
    pub carry: u32,
    /// How many bytes of it were captured.
    pub captured: u32,
    /// How many bytes it had.
    pub original: u32,
    /// The most bytes that its interface captures of a packet, 0 for no limit.
    pub snaplen: u32,
    /// The link type of its interface, a number of the LINKTYPE registry.
    pub link: u32,
}

// The time of a packet.
#[derive(Clone, Copy)]
struct Time {
    seconds: i64,
    carry: u32,
    numerator: u64,
    denominator: u64,
}

// Whole seconds, and how many times 2^64 more.
fn whole(seconds: i128) -> (i64, u32)
    requires least { neg_ℤ (pos (2 ^ 63)) ≤ℤ seconds }
    requires most { seconds <ℤ pos (2 ^ 65) }
    ensures { result.0 +ℤ pos (result.1) *ℤ pos (2 ^ 64) ≡ seconds }
{
    if seconds < 0x8000_0000_0000_0000 {
        (seconds as i64, 0)
    } else if seconds < 0x1_8000_0000_0000_0000 {
        ((seconds - 0x1_0000_0000_0000_0000) as i64, 1)
    } else {
        ((seconds - 0x2_0000_0000_0000_0000) as i64, 2)
    }
}

// Whole seconds, and the units that are left of them, by one division. Two kinds of units are divided by a constant:
// the processor then multiplies, which takes a tenth of a division's time.
#[inline(always)]
fn split(units: u64, in_second: u64) -> (u64, u64)
    requires { 0 < in_second }
    ensures whole { result.0 ≡ units / in_second }
    ensures left { result.1 ≡ units % in_second }
{
    if in_second == 1_000_000 {
        (units / 1_000_000, units % 1_000_000)
    } else if in_second == 1_000_000_000 {
        (units / 1_000_000_000, units % 1_000_000_000)
    } else {
        (units / in_second, units % in_second)
    }
}

// The whole seconds of that many units of an interface, and how many times 2^64 more.
#[inline(never)]
fn far_seconds(units: u64, interface: &Interface) -> (i64, u32)
    ensures { result.0 +ℤ pos (result.1) *ℤ pos (2 ^ 64) ≡ seconds_of (stamp_in units interface.now) }
{
    whole(Stamp::new(units, interface).seconds())
}

// The same. `seconds` are those of the units alone, before the second is added from which the interface counts.
#[inline(always)]
fn whole_seconds(units: u64, interface: &Interface, seconds: u64) -> (i64, u32)
    requires { seconds ≡ units / units_of interface.now.resolution }
    ensures { result.0 +ℤ pos (result.1) *ℤ pos (2 ^ 64) ≡ seconds_of (stamp_in units interface.now) }
{
    // most interfaces count from 1970
    if interface.offset == 0 && seconds < 0x8000_0000_0000_0000 {
        (seconds as i64, 0)
    } else {
        far_seconds(units, interface)
    }
}

// The time of a packet, if it has one.
#[inline(always)]
fn time_of(meta: &Meta) -> Time
    ensures { ShowsTime meta.now.units meta.now.interface result.seconds result.carry result.numerator
        result.denominator }
{
    match meta.units {
        Some(units) => {
            let denominator = meta.interface.resolution.units();
            let (seconds, numerator) = split(units, denominator);
            let (seconds, carry) = whole_seconds(units, &meta.interface, seconds);
            Time {
                seconds,
                carry,
                numerator,
                denominator,
            }
        }
        None => Time {
            seconds: 0,
            carry: 0,
            numerator: 0,
            denominator: 0,
        },
    }
}

/// Where some bytes begin.
#[inline(always)]
pub fn start_of(bytes: &[u8]) -> *const u8 {
    bytes.as_ptr()
}

/// A packet whose captured bytes are there.
#[inline(always)]
pub fn packet_of(meta: &Meta, frame: &[u8]) -> CPacket
    ensures { ShowsFields meta.now result }
{
    let time = time_of(meta);
    CPacket {
        frame: start_of(frame),
        offset: meta.offset,
        instance: meta.instance,
        seconds: time.seconds,
        numerator: time.numerator,
        denominator: time.denominator,
        resolution: meta.interface.resolution.units(),
        time_offset: meta.interface.offset,
        carry: time.carry,
        captured: meta.captured,
        original: meta.original,
        snaplen: meta.interface.snaplen,
        link: u32::from(meta.interface.link),
    }
}
