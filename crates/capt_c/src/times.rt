//! Exact times of a table as a caller sees them.
ghost use Rattle.std.specs.Prelude.{◌≡◌, ◌≤ℤ◌, ◌<ℤ◌, ◌+ℤ◌, ◌*ℤ◌, ◌^◌, pos, neg_ℤ};
ghost use Rattle.capt_c.specs.Rows.{ShowsStamp};

use cap_time::Stamp;

/// An exact time: `seconds + carry * 2^64` whole seconds since 1970, and `numerator / denominator` of a second. If
/// there is none, `denominator` is 0.
#[repr(C)]
#[derive(Clone, Copy)]
pub struct CTime {
    /// Whole seconds since 1970.
    pub seconds: i64,
    /// How many times 2^64 seconds are to be added.
    pub carry: i64,
    /// The fraction of a second.
    pub numerator: u64,
    /// The units in a second, or 0 if there is no time.
    pub denominator: u64,
}

// What a number of 64 bits is above 2^63.
fn above_middle(n: u64) -> i64
    ensures { result +ℤ pos (2 ^ 63) ≡ pos n }
{
    if n < 0x8000_0000_0000_0000 {
        n as i64 - 0x7fff_ffff_ffff_ffff - 1
    } else {
        (n - 0x8000_0000_0000_0000) as i64
    }
}

// Whole seconds, and how many times 2^64 more.
fn whole(seconds: i128) -> (i64, i64)
    requires least { neg_ℤ (pos (2 ^ 97)) ≤ℤ seconds }
    requires most { seconds <ℤ pos (2 ^ 97) }
    ensures { result.0 +ℤ result.1 *ℤ pos (2 ^ 64) ≡ seconds }
{
    // 2^97 + 2^63 more, so that it isn't below 0, and the seconds are those above the middle of 64 bits
    let above = (seconds + 0x2_0000_0000_8000_0000_0000_0000) as u128;
    let (carry, rest) = (
        above / 0x1_0000_0000_0000_0000,
        above % 0x1_0000_0000_0000_0000,
    );
    (above_middle(rest as u64), carry as i64 - 0x2_0000_0000)
}

/// A time, if there is one.
pub fn time_shown(time: Option<Stamp>) -> CTime
    ensures { ShowsStamp time result }
{
    match time {
        Some(stamp) => {
            let (seconds, carry) = whole(stamp.seconds());
            CTime {
                seconds,
                carry,
                numerator: stamp.numerator(),
                denominator: stamp.denominator(),
            }
        }
        None => CTime {
            seconds: 0,
            carry: 0,
            numerator: 0,
            denominator: 0,
        },
    }
}
