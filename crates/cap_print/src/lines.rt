//! A line, and what is put before it.
ghost use Rattle.std.specs.Prelude.{◌≡◌, ◌+◌, ◌*◌, ◌<◌, ◌≤◌, ◌++◌, [], codes, decimal, drop, length, option_map};
ghost use Rattle.std.specs.Fmt.{signed_decimal};
ghost use Rattle.cap_print.specs.Decimals.{place_digits};
ghost use Rattle.cap_print.specs.Times.{time_json, time_text};
ghost use Rattle.cap_time.specs.Stamp.{printed_of};
ghost use Rattle.hex.specs.Hex.{encode_lower};

use crate::decimals::write_places;
use crate::digits::write_pairs;
use cap_time::Stamp;
use itoa::{Buffer, Integer, write_digits};

/// The most bytes of a line.
pub const LINE: usize = 640;

// Writes a text so that it ends at `end`, and returns where it starts.
#[inline(always)]
fn write_text(text: &[u8], room: &mut [u8], end: usize) -> usize
    requires { (length text.now ≤ end) × (end ≤ length room.old) }
    ensures start { result + length text.now ≡ end }
    ensures written { drop result room.new ≡ text.now ++ drop end room.old }
{
    let start = end - text.len();
    let (before, _) = room.split_at_mut(end);
    let (_, place) = before.split_at_mut(start);
    place.copy_from_slice(text);
    start
}

// Writes some bytes in lower case hex so that they end at `end`, and returns where they start.
#[inline(always)]
fn write_hex(bytes: &[u8], room: &mut [u8], end: usize) -> usize
    requires { (2 * length bytes.now ≤ end) × (end ≤ length room.old) }
    ensures start { result + 2 * length bytes.now ≡ end }
    ensures written { drop result room.new ≡ encode_lower bytes.now ++ drop end room.old }
{
    let start = end - 2 * bytes.len();
    let (before, _) = room.split_at_mut(end);
    let (_, place) = before.split_at_mut(start);
    write_pairs(bytes, place);
    start
}

// Writes the decimal places of a fraction below 1 so that they end at `end`, and returns where they start.
fn write_fraction(
    numerator: u64,
    denominator: u64,
    places: usize,
    room: &mut [u8],
    end: usize,
) -> usize
    requires fraction { numerator < denominator }
    requires room { (places ≤ end) × (end ≤ length room.old) }
    ensures start { result + places ≡ end }
    ensures written { drop result room.new ≡ place_digits places numerator denominator ++ drop end room.old }
{
    let start = end - places;
    let (before, _) = room.split_at_mut(end);
    let (_, place) = before.split_at_mut(start);
    write_places(numerator, denominator, place);
    start
}

/// A line that is being written, from its last byte to its first, as the digits of a number are: what is put stands
/// before all that was put already. So nothing that was put is moved or copied. Each function wants room for the most
/// that it may put.
#[derive(Drop)]
pub struct Line {
    bytes: [u8; LINE],
    // where what was put begins
    start: usize,
    ghost within: { start ≤ 640 },
}

impl Line {
    ghost use Rattle.cap_print.specs.Lines.{room_in, text_in};

    /// An empty line.
    pub fn new() -> Line
        ensures text { text_in result ≡ [] }
        ensures room { room_in result ≡ 640 }
    {
        Line {
            bytes: [0; LINE],
            start: LINE,
        }
    }

    /// Leaves nothing in it.
    #[inline(always)]
    pub fn clear(&mut self)
        ensures text { text_in self.new ≡ [] }
        ensures room { room_in self.new ≡ 640 }
    {
        self.start = LINE;
    }

    /// What was put.
    #[inline(always)]
    pub fn as_slice(&self) -> &[u8]
        ensures value { result.now ≡ text_in self.now }
    {
        self.bytes.split_at(self.start).1
    }

    /// Puts a text.
    #[inline(always)]
    pub fn prepend_text(&mut self, text: &[u8])
        requires { length text.now ≤ room_in self.old }
        ensures text { text_in self.new ≡ text.now ++ text_in self.old }
        ensures room { room_in self.new + length text.now ≡ room_in self.old }
    {
        self.start = write_text(text, &mut self.bytes, self.start);
    }

    // Takes the first byte of what was put away, if there is one.
    #[inline(always)]
    pub(crate) fn drop_first(&mut self)
        ensures text { text_in self.new ≡ drop 1 (text_in self.old) }
        ensures room { room_in self.old ≤ room_in self.new }
    {
        if self.start < LINE {
            self.start += 1;
        }
    }

    // Puts a text with one before it and one after it.
    #[inline(always)]
    pub(crate) fn prepend_between(&mut self, before: &[u8], text: &[u8], after: &[u8])
        requires { length before.now + length text.now + length after.now ≤ room_in self.old }
        ensures text { text_in self.new ≡ before.now ++ text.now ++ after.now ++ text_in self.old }
        ensures room { room_in self.new + length before.now + length text.now + length after.now ≡ room_in self.old }
    {
        let end = write_text(after, &mut self.bytes, self.start);
        let end = write_text(text, &mut self.bytes, end);
        self.start = write_text(before, &mut self.bytes, end);
    }

    // Puts a whole number, in decimal.
    #[inline(always)]
    pub(crate) fn prepend_digits(&mut self, number: u64)
        requires { length (decimal number) ≤ room_in self.old }
        ensures text { text_in self.new ≡ decimal number ++ text_in self.old }
        ensures room { room_in self.new + length (decimal number) ≡ room_in self.old }
    {
        self.start = write_digits(number, &mut self.bytes, self.start);
    }

    /// Puts a label and a whole number, in decimal.
    #[inline(always)]
    pub fn prepend_field(&mut self, label: &[u8], number: u64)
        requires { length label.now + 20 ≤ room_in self.old }
        ensures text { text_in self.new ≡ label.now ++ decimal number ++ text_in self.old }
        ensures room { room_in self.old ≤ room_in self.new + length label.now + 20 }
    {
        self.prepend_digits(number);
        self.prepend_text(label);
    }

    /// Puts a label and a whole number of any integer type, in decimal.
    pub fn prepend_integer<I: Integer>(&mut self, label: &[u8], number: I)
        requires { length label.now + I.MAX_STR_LEN ≤ room_in self.old }
        ensures text { text_in self.new ≡ label.now ++ I.text number ++ text_in self.old }
        ensures room { room_in self.old ≤ room_in self.new + length label.now + I.MAX_STR_LEN }
    {
        let mut buffer = Buffer::new();
        self.prepend_text(buffer.format(number).as_bytes());
        self.prepend_text(label);
    }

    /// Puts a label and some bytes, in lower case hex.
    #[inline(always)]
    pub fn prepend_hex(&mut self, label: &[u8], bytes: &[u8])
        requires { length label.now + 2 * length bytes.now ≤ room_in self.old }
        ensures text { text_in self.new ≡ label.now ++ encode_lower bytes.now ++ text_in self.old }
        ensures room { room_in self.new + length label.now + 2 * length bytes.now ≡ room_in self.old }
    {
        self.start = write_hex(bytes, &mut self.bytes, self.start);
        self.prepend_text(label);
    }

    // Puts a label and the seconds of a time: few are below 0, or need more than 64 bits.
    #[inline(always)]
    fn prepend_seconds(&mut self, label: &[u8], seconds: i128)
        requires { length label.now + 40 ≤ room_in self.old }
        ensures text { text_in self.new ≡ label.now ++ signed_decimal seconds ++ text_in self.old }
        ensures room { room_in self.old ≤ room_in self.new + length label.now + 40 }
    {
        match u64::try_from(seconds) {
            Ok(seconds) => self.prepend_field(label, seconds),
            Err(_) => self.prepend_integer(label, seconds),
        }
    }

    // Puts how many units a second has: most have a million, or a thousand million.
    #[inline(always)]
    fn prepend_denominator(&mut self, denominator: u64)
        requires { 21 ≤ room_in self.old }
        ensures text { text_in self.new ≡ codes "/" ++ decimal denominator ++ text_in self.old }
        ensures room { room_in self.old ≤ room_in self.new + 21 }
    {
        match denominator {
            1_000_000 => self.prepend_text(b"/1000000"),
            1_000_000_000 => self.prepend_text(b"/1000000000"),
            _ => self.prepend_field(b"/", denominator),
        }
    }

    /// Puts a label and a time as `SEC+NUM/DEN`, or `-` if there is none.
    #[inline(always)]
    pub fn prepend_time(&mut self, label: &[u8], time: Option<Stamp>)
        requires { length label.now + 82 ≤ room_in self.old }
        ensures text { text_in self.new ≡ label.now ++ time_text (option_map printed_of time) ++ text_in self.old }
        ensures room { room_in self.old ≤ room_in self.new + length label.now + 82 }
    {
        match time {
            None => {
                self.prepend_text(b"-");
                self.prepend_text(label);
            }
            Some(stamp) => {
                self.prepend_denominator(stamp.denominator());
                self.prepend_field(b"+", stamp.numerator());
                self.prepend_seconds(label, stamp.seconds());
            }
        }
    }

    /// Puts a label and a time as `[SEC,NUM,DEN]`, or `null` if there is none.
    pub fn prepend_time_array(&mut self, label: &[u8], time: Option<Stamp>)
        requires { length label.now + 84 ≤ room_in self.old }
        ensures text { text_in self.new ≡ label.now ++ time_json (option_map printed_of time) ++ text_in self.old }
        ensures room { room_in self.old ≤ room_in self.new + length label.now + 84 }
    {
        match time {
            None => self.prepend_text(b"null"),
            Some(stamp) => {
                self.prepend_text(b"]");
                self.prepend_field(b",", stamp.denominator());
                self.prepend_field(b",", stamp.numerator());
                self.prepend_seconds(b"[", stamp.seconds());
            }
        }
        self.prepend_text(label);
    }

    // Puts the first decimal places of a fraction below 1.
    pub(crate) fn prepend_places(&mut self, numerator: u64, denominator: u64, places: usize)
        requires fraction { numerator < denominator }
        requires room { places ≤ room_in self.old }
        ensures text { text_in self.new ≡ place_digits places numerator denominator ++ text_in self.old }
        ensures room { room_in self.new + places ≡ room_in self.old }
    {
        self.start = write_fraction(numerator, denominator, places, &mut self.bytes, self.start);
    }

    /// Puts a label and some bytes as a string of lower case hex digits.
    pub fn prepend_hex_string(&mut self, label: &[u8], bytes: &[u8])
        requires { length label.now + 2 * length bytes.now + 2 ≤ room_in self.old }
        ensures text { text_in self.new
            ≡ label.now ++ codes "\"" ++ encode_lower bytes.now ++ codes "\"" ++ text_in self.old }
        ensures room { room_in self.new + length label.now + 2 * length bytes.now + 2 ≡ room_in self.old }
    {
        self.prepend_text(b"\"");
        self.prepend_hex(b"\"", bytes);
        self.prepend_text(label);
    }
}
