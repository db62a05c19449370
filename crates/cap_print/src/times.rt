//! Times as one word: a decimal fraction of a second, or a date and a time of day.
ghost use Rattle.std.specs.Prelude.{◌≡◌, ◌+◌, ◌<◌, ◌≤◌, ◌++◌, IfSome, option_map};
ghost use Rattle.cap_print.specs.Dates.{calendar_seconds, clock_text, date_text, two_digits, utc_text};
ghost use Rattle.cap_print.specs.Decimals.{decimal_text, fraction_text, seconds_text};
ghost use Rattle.cap_print.specs.Lines.{room_in, text_in};
ghost use Rattle.cap_print.specs.Times.{time_json_in, time_text_in};
ghost use Rattle.cap_time.specs.Stamp.{printed_of, seconds_of};

use crate::dates::{Date, date_of};
use crate::decimals::count_places;
use crate::forms::TimeForm;
use crate::lines::Line;
use crate::numbers::Number;
use cap_time::Stamp;

// The whole seconds of a time from the beginning of the year 0000, if it is in the years 0000 to 9999.
fn calendar_seconds(time: Stamp) -> Option<u64>
    ensures value { result ≡ calendar_seconds (seconds_of time) }
    ensures most { IfSome result (λ s. s < 315569520000) }
{
    let seconds = time.seconds();
    if -62_167_219_200 <= seconds && seconds < 253_402_300_800 {
        Some((seconds + 62_167_219_200) as u64)
    } else {
        None
    }
}

impl Line {
    // Puts a fraction of a second after a point, or nothing if a unit is a whole second.
    fn prepend_fraction(&mut self, numerator: u64, denominator: u64)
        requires fraction { numerator < denominator }
        requires room { 64 ≤ room_in self.old }
        ensures text { text_in self.new ≡ fraction_text numerator denominator ++ text_in self.old }
        ensures room { room_in self.old ≤ room_in self.new + 64 }
    {
        let places = count_places(denominator);
        if places > 0 {
            self.prepend_places(numerator, denominator, places);
            self.prepend_text(b".");
        }
    }

    // Puts whole seconds and a fraction of a second.
    fn prepend_whole_and_fraction(&mut self, whole: u128, numerator: u64, denominator: u64)
        requires fraction { numerator < denominator }
        requires room { 103 ≤ room_in self.old }
        ensures text { text_in self.new ≡ seconds_text whole numerator denominator ++ text_in self.old }
        ensures room { room_in self.old ≤ room_in self.new + 103 }
    {
        self.prepend_fraction(numerator, denominator);
        whole.prepend_to(self);
    }

    // Puts a time as a decimal fraction of a second: before second 0 a minus sign, and how long before.
    fn prepend_decimal(&mut self, time: Stamp)
        requires { 104 ≤ room_in self.old }
        ensures text { text_in self.new ≡ decimal_text (printed_of time) ++ text_in self.old }
        ensures room { room_in self.old ≤ room_in self.new + 104 }
    {
        let (seconds, numerator, denominator) = (
            time.seconds(),
            time.numerator(),
            time.denominator(),
        );
        let whole = seconds.unsigned_abs();
        if seconds >= 0 {
            self.prepend_whole_and_fraction(whole, numerator, denominator);
        } else {
            if numerator == 0 {
                self.prepend_whole_and_fraction(whole, 0, denominator);
            } else {
                self.prepend_whole_and_fraction(whole - 1, denominator - numerator, denominator);
            }
            self.prepend_text(b"-");
        }
    }

    // Puts two decimal digits.
    fn prepend_two_digits(&mut self, n: u64)
        requires number { n < 100 }
        requires room { 2 ≤ room_in self.old }
        ensures text { text_in self.new ≡ two_digits n ++ text_in self.old }
        ensures room { room_in self.new + 2 ≡ room_in self.old }
    {
        let digits = [b'0' + (n / 10) as u8, b'0' + (n % 10) as u8];
        self.prepend_text(digits.as_slice());
    }

    // Puts a date as `1970-01-01`.
    fn prepend_date(&mut self, date: Date)
        requires year { date.year < 10000 }
        requires month { date.month ≤ 12 }
        requires day { date.day ≤ 31 }
        requires room { 10 ≤ room_in self.old }
        ensures text { text_in self.new ≡ date_text date ++ text_in self.old }
        ensures room { room_in self.new + 10 ≡ room_in self.old }
    {
        self.prepend_two_digits(date.day);
        self.prepend_text(b"-");
        self.prepend_two_digits(date.month);
        self.prepend_text(b"-");
        self.prepend_two_digits(date.year % 100);
        self.prepend_two_digits(date.year / 100);
    }

    // Puts seconds of a day as `T00:00:02`.
    fn prepend_clock(&mut self, seconds: u64)
        requires day { seconds < 86400 }
        requires room { 9 ≤ room_in self.old }
        ensures text { text_in self.new ≡ clock_text seconds ++ text_in self.old }
        ensures room { room_in self.new + 9 ≡ room_in self.old }
    {
        self.prepend_two_digits(seconds % 60);
        self.prepend_text(b":");
        self.prepend_two_digits(seconds / 60 % 60);
        self.prepend_text(b":");
        self.prepend_two_digits(seconds / 3_600);
        self.prepend_text(b"T");
    }

    // Puts a time in UTC, or as a decimal fraction if it isn't in the years 0000 to 9999.
    fn prepend_utc(&mut self, time: Stamp)
        requires { 104 ≤ room_in self.old }
        ensures text { text_in self.new ≡ utc_text (printed_of time) ++ text_in self.old }
        ensures room { room_in self.old ≤ room_in self.new + 104 }
    {
        match calendar_seconds(time) {
            Some(seconds) => {
                self.prepend_text(b"Z");
                self.prepend_fraction(time.numerator(), time.denominator());
                self.prepend_clock(seconds % 86_400);
                self.prepend_date(date_of(seconds / 86_400));
            }
            None => self.prepend_decimal(time),
        }
    }

    // Puts a time in text in a form, or `-` if there is none.
    pub(crate) fn prepend_time_in(&mut self, times: TimeForm, time: Option<Stamp>)
        requires { 104 ≤ room_in self.old }
        ensures text { text_in self.new ≡ time_text_in times (option_map printed_of time) ++ text_in self.old }
        ensures room { room_in self.old ≤ room_in self.new + 104 }
    {
        match (times, time) {
            (TimeForm::Exact, time) => self.prepend_time(b"", time),
            (TimeForm::Decimal, Some(time)) => self.prepend_decimal(time),
            (TimeForm::Utc, Some(time)) => self.prepend_utc(time),
            (TimeForm::Decimal | TimeForm::Utc, None) => self.prepend_text(b"-"),
        }
    }

    // Puts a time in JSON in a form, or `null` if there is none.
    pub(crate) fn prepend_time_in_json(&mut self, times: TimeForm, time: Option<Stamp>)
        requires { 106 ≤ room_in self.old }
        ensures text { text_in self.new ≡ time_json_in times (option_map printed_of time) ++ text_in self.old }
        ensures room { room_in self.old ≤ room_in self.new + 106 }
    {
        match (times, time) {
            (TimeForm::Exact, time) => self.prepend_time_array(b"", time),
            (TimeForm::Decimal, Some(time)) => {
                self.prepend_text(b"\"");
                self.prepend_decimal(time);
                self.prepend_text(b"\"");
            }
            (TimeForm::Utc, Some(time)) => {
                self.prepend_text(b"\"");
                self.prepend_utc(time);
                self.prepend_text(b"\"");
            }
            (TimeForm::Decimal | TimeForm::Utc, None) => self.prepend_text(b"null"),
        }
    }
}
