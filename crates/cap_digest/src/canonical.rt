//! The canonical text of a packet.
ghost use Rattle.std.specs.Prelude.{◌≡◌, ◌+◌, ◌<◌, ◌≤◌, ◌++◌, length, option_map, take};
ghost use Rattle.cap_digest.specs.Canonical.{canonical_form, common_divisor, canonical_head};
ghost use Rattle.cap_time.specs.Stamp.{printed_of};

use cap_source::Meta;
use cap_time::Stamp;

// How many bytes stand before a packet's captured bytes.
const HEAD: usize = 42;

// The greatest common divisor of two numbers, by Euclid's algorithm.
fn common_divisor(a: u64, b: u64) -> u64
    requires { 0 < b }
    ensures value { result ≡ common_divisor a b }
    ensures positive { 0 < result }
{
    let mut x = b;
    let mut y = a;
    'steps: while y != 0 {
        let rest = x % y;
        x = y;
        y = rest;
    }
    x
}

// The seconds, the numerator and the denominator that stand for a time.
fn canonical_form(time: Option<Stamp>) -> (i128, u64, u64)
    ensures seconds { result.0 ≡ (canonical_form (option_map printed_of time)).seconds }
    ensures numerator { result.1 ≡ (canonical_form (option_map printed_of time)).numerator }
    ensures denominator { result.2 ≡ (canonical_form (option_map printed_of time)).denominator }
{
    match time {
        None => (0, 0, 0),
        Some(stamp) => {
            let numerator = stamp.numerator();
            let denominator = stamp.denominator();
            let divisor = common_divisor(numerator, denominator);
            (stamp.seconds(), numerator / divisor, denominator / divisor)
        }
    }
}

// Puts some bytes at a place.
fn put(bytes: &mut [u8], place: usize, piece: &[u8])
    requires { place + length piece.now ≤ length bytes.old }
    ensures { take (place + length piece.now) bytes.new ≡ take place bytes.old ++ piece.now }
{
    bytes[place..place + piece.len()].copy_from_slice(piece);
}

/// The bytes that stand before a packet's captured bytes.
#[tactic(auto, unfolding(cap_bytes::specs::Number::bytes_of))]
pub(crate) fn head_of(meta: &Meta) -> [u8; HEAD]
    ensures { result ≡ canonical_head meta.now }
{
    let (seconds, numerator, denominator) = canonical_form(meta.time());
    let mut head = [0; HEAD];
    put(&mut head, 0, &meta.interface.link.to_be_bytes());
    put(&mut head, 2, &meta.captured.to_be_bytes());
    put(&mut head, 6, &meta.original.to_be_bytes());
    put(&mut head, 10, &seconds.to_be_bytes());
    put(&mut head, 26, &numerator.to_be_bytes());
    put(&mut head, 34, &denominator.to_be_bytes());
    head
}
