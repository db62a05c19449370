//! Stamps: exact times, which keep the form in which their interface counted them.
ghost use Rattle.std.specs.Prelude.{◌≡◌, ◌==◌, ◌<◌, ◌*◌, ◌/◌, ◌%◌, ◌≤ℤ◌, ◌<ℤ◌, ◌^◌, pos, neg_ℤ, Some, None, IfSome};
ghost use Rattle.std.specs.Prelude.{IfNone, IsTrue, if◌then◌else◌};
ghost use Rattle.cap_time.specs.Code.{is_allowed};
ghost use Rattle.cap_time.specs.Time.{floor_of, remainder_of};

mod order;

use crate::resolutions::{Interface, units_of_code};
pub use crate::stamps::order::reach;

/// The units in which a pcap file counts the fraction of a second.
#[derive(Clone, Copy, Debug, PartialEq, Eq)]
pub enum Unit {
    /// A millionth of a second.
    Micro,
    /// A thousand-millionth of a second.
    Nano,
}

impl Unit {
    ghost use Rattle.cap_time.specs.Unit.{in_second};

    /// How many of them there are in a second.
    pub fn in_second(self) -> u32
        ensures { result ≡ in_second self }
    {
        match self {
            Unit::Micro => 1_000_000,
            Unit::Nano => 1_000_000_000,
        }
    }
}

/// An exact time: a number of units, counted from a whole second as its interface counts them. It is printed as whole
/// seconds and a fraction of a second that isn't reduced. Stamps compare, and hash, by the time: half a second is the
/// same as 5/10 and as 512/1024. Before second 0 the seconds are negative and the fraction still counts forward: half a
/// second before 0 is -1 and 1/2.
// Each packet has a stamp, but few are printed: so seconds and fraction are divided out where they are asked for.
#[derive(Clone, Copy, Debug)]
pub struct Stamp {
    units: u64,
    // the second from which they count, as `high * 2^64 + low`: seconds that are added take it beyond an interface's
    // offset
    low: u64,
    high: i32,
    // the code of the interface's resolution: how many units there are in a second is looked up where it is asked for.
    // It is as wide as what stands before it, since bytes between fields are copied with them.
    code: u32,
    ghost allowed: { IsTrue (is_allowed code) },
}

// An interface's offset as a stamp keeps it: what it is above a multiple of 2^64, and which multiple that is.
fn halves(offset: i64) -> (u64, i32)
    ensures low { result.0 ≡ remainder_of offset (2 ^ 64) }
    ensures high { result.1 ≡ floor_of offset (2 ^ 64) }
{
    if offset < 0 {
        (offset.cast_unsigned(), -1)
    } else {
        (offset as u64, 0)
    }
}

// Whole seconds, and the units that are left of them. Two kinds of units are divided by a constant: the processor
// then multiplies, which takes a tenth of a division's time.
fn split(units: u64, in_second: u64) -> (u64, u64)
    requires { 0 < in_second }
    ensures whole { result.0 ≡ units / in_second }
    ensures left { result.1 ≡ units % in_second }
{
    if in_second == 1_000_000 {
        (units / 1_000_000, units % 1_000_000)
    } else if in_second == 1_000_000_000 {
        (units / 1_000_000_000, units % 1_000_000_000)
    } else {
        (units / in_second, units % in_second)
    }
}

// How many units, of which a second has `in_second`, a fraction of a second is, if that is a whole number.
#[tactic(auto, using(crate::proofs::WholeUnits::whole_units))]
fn whole_units(numerator: u64, denominator: u64, in_second: u32) -> Option<u32>
    requires fraction { numerator < denominator }
    requires second { 0 < in_second }
    ensures { result ≡ (if numerator * in_second % denominator == 0 then Some
        (numerator * in_second / denominator) else None) }
{
    if denominator == u64::from(in_second) {
        return Some(numerator as u32);
    }
    let scaled = u128::from(numerator) * u128::from(in_second);
    let denominator = u128::from(denominator);
    if scaled % denominator == 0 {
        Some((scaled / denominator) as u32)
    } else {
        None
    }
}

impl Stamp {
    ghost use Rattle.cap_time.specs.Stamp.{seconds_of, numerator_of, denominator_of, printed_of};
    ghost use Rattle.cap_time.specs.Stamp.{time_of, time_in, stamp_in, stamp_plus, whole_of};
    ghost use Rattle.cap_time.specs.Time.{printed_form, printed_plus, time_plus, IsWholeTime, IsNeverWhole};
    ghost use Rattle.cap_time.specs.Unit.{in_second};

    /// The time of `units` of an interface's resolution: with `d` units in a second,
    /// `(units + offset * d) / d` seconds (draft-ietf-opsawg-pcapng, 4.2). Its `seconds` are at
    /// least -2^63 and below 2^65.
    pub fn new(units: u64, interface: &Interface) -> Stamp
        ensures stamp { result ≡ stamp_in units interface.now }
        ensures time { time_of result ≡ time_in units interface.now }
        ensures printed { printed_of result ≡ printed_form (time_in units interface.now) }
        ensures least { neg_ℤ (pos (2 ^ 63)) ≤ℤ seconds_of result }
        ensures most { seconds_of result <ℤ pos (2 ^ 65) }
    {
        let (low, high) = halves(interface.offset);
        Stamp {
            units,
            low,
            high,
            code: u32::from(interface.resolution.code()),
        }
    }

    /// The whole seconds: the floor of the time, also if it is below 0.
    pub fn seconds(self) -> i128
        ensures { result ≡ seconds_of self }
    {
        let offset = i128::from(self.low) + i128::from(self.high) * 0x1_0000_0000_0000_0000;
        offset + i128::from(split(self.units, self.denominator()).0)
    }

    /// How many units, of which a second has `denominator`, the time is above its seconds.
    pub fn numerator(self) -> u64
        ensures value { result ≡ numerator_of self }
        ensures below { result < denominator_of self }
    {
        split(self.units, self.denominator()).1
    }

    /// The units in a second.
    pub fn denominator(self) -> u64
        ensures value { result ≡ denominator_of self }
        ensures positive { 0 < result }
    {
        units_of_code(self.code)
    }

    /// The time `seconds` later, in the same form. The stamp's own seconds are below 2^65, as `new`
    /// promises.
    pub fn plus_seconds(self, seconds: u32) -> Stamp
        requires { seconds_of self <ℤ pos (2 ^ 65) }
        ensures stamp { result ≡ stamp_plus self seconds }
        ensures time { time_of result ≡ time_plus (time_of self) seconds }
        ensures printed { printed_of result ≡ printed_plus (printed_of self) seconds }
    {
        let sum = u128::from(self.low) + u128::from(seconds);
        Stamp {
            units: self.units,
            low: (sum % 0x1_0000_0000_0000_0000) as u64,
            high: self.high + (sum / 0x1_0000_0000_0000_0000) as i32,
            code: self.code,
        }
    }

    /// The time as whole seconds, which may be below 0, and whole units, fewer than a second has;
    /// `None` if no such two numbers are that time.
    pub fn whole_in(self, unit: Unit) -> Option<(i128, u32)>
        ensures value { result ≡ whole_of (in_second unit) self }
        ensures whole { IfSome result (λ w. IsWholeTime (in_second unit) (time_of self) w.0 w.1) }
        ensures inexact { IfNone result (IsNeverWhole (in_second unit) (time_of self)) }
    {
        match whole_units(self.numerator(), self.denominator(), unit.in_second()) {
            Some(units) => Some((self.seconds(), units)),
            None => None,
        }
    }
}
