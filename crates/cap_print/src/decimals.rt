//! The decimal places of a fraction of a second, by long division.
ghost use Rattle.std.specs.Prelude.{◌≡◌, ◌+◌, ◌*◌, ◌/◌, ◌%◌, ◌<◌, ◌≤◌, length};
ghost use Rattle.cap_print.specs.Decimals.{decimal_places, place_digits};

// The first decimal place of a fraction below 1, and the numerator of what is left, ten times as great.
fn divide_place(numerator: u64, denominator: u64) -> (u8, u64)
    requires { numerator < denominator }
    ensures place { result.0 ≡ numerator * 10 / denominator }
    ensures digit { result.0 < 10 }
    ensures left { result.1 ≡ numerator * 10 % denominator }
    ensures below { result.1 < denominator }
{
    let tenfold = u128::from(numerator) * 10;
    let denominator = u128::from(denominator);
    (
        (tenfold / denominator) as u8,
        (tenfold % denominator) as u64,
    )
}

/// How many decimal places a fraction with that denominator has.
pub(crate) fn count_places(denominator: u64) -> usize
    requires { 0 < denominator }
    ensures value { result ≡ decimal_places denominator }
    ensures most { result ≤ 63 }
{
    let mut left = 1 % denominator;
    let mut places = 0;
    'places: while places < 63 && left != 0 {
        left = divide_place(left, denominator).1;
        places += 1;
    }
    places
}

/// Writes the first decimal places of a fraction below 1.
pub(crate) fn write_places(numerator: u64, denominator: u64, digits: &mut [u8])
    requires { numerator < denominator }
    ensures { digits.new ≡ place_digits (length digits.old) numerator denominator }
{
    let mut left = numerator;
    'places: for i in 0..digits.len() {
        let (place, rest) = divide_place(left, denominator);
        digits[i] = b'0' + place;
        left = rest;
    }
}
