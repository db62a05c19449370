//! Times, their order and their printed forms, worked out by exact arithmetic outside.
use crate::checks::{holds, same};
use cap_time::{Interface, Resolution, Stamp, Unit, reach};
use std::cmp::Ordering;
use std::hash::{DefaultHasher, Hash, Hasher};
use std::process::Abort;
use std::test::Fail;

// The units, the code and the offset of a stamp.
type Source = (u64, u8, i64);

fn stamp_of(source: Source) -> Option<Stamp> {
    let (units, code, offset) = source;
    let resolution = Resolution::from_code(code)?;
    let interface = Interface {
        link: 1,
        snaplen: 0,
        resolution,
        offset,
    };
    Some(Stamp::new(units, &interface))
}

// What a stamp prints.
fn form_of(stamp: Stamp) -> (i128, u64, u64) {
    (stamp.seconds(), stamp.numerator(), stamp.denominator())
}

fn hash_of(stamp: &Stamp) -> u64 {
    let mut hasher = DefaultHasher::new();
    stamp.hash(&mut hasher);
    hasher.finish()
}

// Codes that are read, and how many units a second has then.
const CODES: [(u8, u64); 7] = [
    (0, 1),
    (6, 1_000_000),
    (9, 1_000_000_000),
    (0x13, 10_000_000_000_000_000_000),
    (0x80, 1),
    (0x8a, 1024),
    (0xbf, 9_223_372_036_854_775_808),
];

#[test]
fn codes_of_resolutions(rt: HostRuntime) {
    for &(code, units) in &CODES {
        let resolution = Resolution::from_code(code).expect(&rt, "an allowed code");
        same!(&rt; resolution.code(), code);
        same!(&rt; resolution.units(), units, code);
    }
    for &code in &[0x14, 0x7f, 0xc0, 0xff] {
        same!(&rt; Resolution::from_code(code), None, code);
    }
}

// Stamps and what they print, by exact arithmetic outside.
const PRINTED: [(&str, Source, (i128, u64, u64)); 17] = [
    (
        "four spellings, micro",
        (2_500_000, 6, 0),
        (2, 500_000, 1_000_000),
    ),
    (
        "four spellings, nano",
        (2_500_000_000, 9, 0),
        (2, 500_000_000, 1_000_000_000),
    ),
    (
        "fraction carries",
        (2_500_000, 6, 0),
        (2, 500_000, 1_000_000),
    ),
    (
        "fraction carries at the last second",
        (4_294_967_296_500_000, 6, 0),
        (4_294_967_296, 500_000, 1_000_000),
    ),
    ("equal resolutions, two", (512, 0x8a, 0), (0, 512, 1024)),
    ("equal resolutions, ten", (5, 1, 0), (0, 5, 10)),
    (
        "negative offset",
        (500_000, 6, -1),
        (-1, 500_000, 1_000_000),
    ),
    ("inexact unit", (1, 0x8a, 0), (0, 1, 1024)),
    (
        "most units of a second",
        (u64::MAX, 0, 0),
        (18_446_744_073_709_551_615, 0, 1),
    ),
    (
        "most units of 10^-19",
        (u64::MAX, 19, 0),
        (1, 8_446_744_073_709_551_615, 10_000_000_000_000_000_000),
    ),
    (
        "most units of 2^-63",
        (u64::MAX, 0xbf, 0),
        (1, 9_223_372_036_854_775_807, 9_223_372_036_854_775_808),
    ),
    (
        "least offset",
        (0, 6, i64::MIN),
        (-9_223_372_036_854_775_808, 0, 1_000_000),
    ),
    (
        "least offset, most units",
        (u64::MAX, 0, i64::MIN),
        (9_223_372_036_854_775_807, 0, 1),
    ),
    (
        "greatest offset",
        (0, 0x80, i64::MAX),
        (9_223_372_036_854_775_807, 0, 1),
    ),
    (
        "greatest offset, most units",
        (u64::MAX, 0, i64::MAX),
        (27_670_116_110_564_327_422, 0, 1),
    ),
    (
        "greatest offset, most units of 10^-19",
        (u64::MAX, 19, i64::MAX),
        (
            9_223_372_036_854_775_808,
            8_446_744_073_709_551_615,
            10_000_000_000_000_000_000,
        ),
    ),
    (
        "least offset, most units of 2^-63",
        (u64::MAX, 0xbf, i64::MIN),
        (
            -9_223_372_036_854_775_807,
            9_223_372_036_854_775_807,
            9_223_372_036_854_775_808,
        ),
    ),
];

#[test]
fn printed_forms(rt: HostRuntime) {
    for &(name, source, printed) in &PRINTED {
        let stamp = stamp_of(source).expect(&rt, name);
        same!(&rt; form_of(stamp), printed, name);
    }
}

// Pairs of stamps and their order, by exact arithmetic outside.
const ORDERED: [(Source, Source, Ordering); 20] = [
    ((512, 0x8a, 0), (5, 1, 0), Ordering::Equal),
    ((2_500_000, 6, 0), (2_500_000_000, 9, 0), Ordering::Equal),
    ((3, 6, 0), (4, 9, 0), Ordering::Greater),
    ((1, 1, 0), (1, 0x81, 0), Ordering::Less),
    ((1, 0x81, 0), (1, 1, 0), Ordering::Greater),
    ((999_999, 6, -1), (0, 6, 0), Ordering::Less),
    ((0, 0, -1), (1, 19, -1), Ordering::Less),
    ((1, 19, -1), (0, 0, -1), Ordering::Greater),
    (
        (u64::MAX, 0, 0),
        (u64::MAX, 19, i64::MAX),
        Ordering::Greater,
    ),
    ((u64::MAX, 19, 0), (u64::MAX, 0xbf, 0), Ordering::Less),
    (
        (u64::MAX, 0xbf, i64::MIN),
        (u64::MAX, 0, i64::MIN),
        Ordering::Less,
    ),
    (
        (5_000_000_000_000_000_000, 19, 7),
        (4_611_686_018_427_387_904, 0xbf, 7),
        Ordering::Equal,
    ),
    (
        (5_000_000_000_000_000_001, 19, 7),
        (4_611_686_018_427_387_904, 0xbf, 7),
        Ordering::Greater,
    ),
    (
        (5_000_000_000_000_000_000, 19, 7),
        (4_611_686_018_427_387_905, 0xbf, 7),
        Ordering::Less,
    ),
    (
        (9_999_999_999_999_999_999, 19, 0),
        (9_223_372_036_854_775_807, 0xbf, 0),
        Ordering::Greater,
    ),
    ((333_333, 6, 3), (333_333_333, 9, 3), Ordering::Less),
    ((0, 6, i64::MIN), (0, 0x80, i64::MIN), Ordering::Equal),
    ((1_000_000, 6, 0), (0, 0x80, 1), Ordering::Equal),
    ((250, 3, 0), (1, 0x82, 0), Ordering::Equal),
    ((7, 0x83, -3), (875, 3, -3), Ordering::Equal),
];

// Two stamps are in that order by each way of asking, and hash alike if they are equal.
fn is_ordered(rt: &impl Abort, row: usize, a: Stamp, b: Stamp, order: Ordering) {
    let is_equal = order == Ordering::Equal;
    same!(rt;
        (a.cmp(&b), a.partial_cmp(&b), a == b),
        (order, Some(order), is_equal),
        row
    );
    holds!(rt; !is_equal || hash_of(&a) == hash_of(&b), row);
}

// A clock that comes to both, and the first moved to the second, are the later.
fn reaches_later(rt: &impl Abort, row: usize, a: Stamp, b: Stamp, order: Ordering) {
    let later = if order == Ordering::Less { b } else { a };
    let mut clock = None;
    for time in [Some(a), None, Some(b)] {
        reach(&mut clock, &time);
    }
    let reached = clock.expect(rt, "clock");
    let mut moved = a;
    same!(rt; moved.reach(&b), order, row);
    same!(rt;
        [form_of(reached), form_of(moved)],
        [form_of(later), form_of(later)],
        row
    );
}

#[test]
fn exact_order(rt: HostRuntime) {
    for (row, &(left, right, order)) in ORDERED.iter().enumerate() {
        let a = stamp_of(left).expect(&rt, "left");
        let b = stamp_of(right).expect(&rt, "right");
        is_ordered(&rt, row, a, b, order);
        reaches_later(&rt, row, a, b, order);
    }
}

// Stamps, and what they are in whole millionths and billionths of a second.
const WHOLE: [(Source, Option<(i128, u32)>, Option<(i128, u32)>); 10] = [
    (
        (2_500_000, 6, 0),
        Some((2, 500_000)),
        Some((2, 500_000_000)),
    ),
    (
        (2_500_000_000, 9, 0),
        Some((2, 500_000)),
        Some((2, 500_000_000)),
    ),
    ((1, 9, 0), None, Some((0, 1))),
    ((1, 0x8a, 0), None, None),
    ((512, 0x8a, 0), Some((0, 500_000)), Some((0, 500_000_000))),
    (
        (500_000, 6, -1),
        Some((-1, 500_000)),
        Some((-1, 500_000_000)),
    ),
    (
        (262_144, 0x93, 5),
        Some((5, 500_000)),
        Some((5, 500_000_000)),
    ),
    ((1, 19, 0), None, None),
    ((3, 0x83, -2), Some((-2, 375_000)), Some((-2, 375_000_000))),
    (
        (999_999_999, 9, i64::MAX),
        None,
        Some((9_223_372_036_854_775_807, 999_999_999)),
    ),
];

#[test]
fn whole_units(rt: HostRuntime) {
    for (row, &(source, micro, nano)) in WHOLE.iter().enumerate() {
        let stamp = stamp_of(source).expect(&rt, "source");
        same!(&rt;
            (stamp.whole_in(Unit::Micro), stamp.whole_in(Unit::Nano)),
            (micro, nano),
            row
        );
    }
    same!(&rt; Unit::Micro.in_second(), 1_000_000);
    same!(&rt; Unit::Nano.in_second(), 1_000_000_000);
}

#[test]
fn seconds_later(rt: HostRuntime) -> Result<(), Fail> {
    let resolution = Resolution::from_code(6).ok_or("an allowed code")?;
    let interface = Interface {
        link: 1,
        snaplen: 0,
        resolution,
        offset: -20,
    };
    let later = Stamp::new(500_000, &interface).plus_seconds(30);
    same!(&rt;
        (later.seconds(), later.numerator(), later.denominator()),
        (10, 500_000, 1_000_000)
    );
    Ok(())
}
