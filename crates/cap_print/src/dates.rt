//! Dates of the Gregorian calendar, by days from the beginning of the year 0000.
ghost use Rattle.std.specs.Prelude.{◌≡◌, ◌<◌, ◌≤◌};
ghost use Rattle.cap_print.specs.Dates.{cycles_of, date_of};

/// A date.
#[derive(Clone, Copy, Debug, PartialEq, Eq)]
pub struct Date {
    /// The year.
    pub year: u64,
    /// The month, from 1 to 12.
    pub month: u64,
    /// The day of the month, from 1 on.
    pub day: u64,
}

/// A day by the cycles of leap days: 400 years, 100 years, 4 years and a year, each of which begins on 1 March, so that
/// a leap day is the last of them. In a cycle of cycles the last may be longer, so no more than 3 are before it.
#[derive(Clone, Copy, Debug, PartialEq, Eq)]
pub struct Cycles {
    /// The cycles of 400 years before the day's own.
    pub four_centuries: u64,
    /// The centuries before its own, in that cycle.
    pub centuries: u64,
    /// The cycles of four years before its own, in that century.
    pub four_years: u64,
    /// The years before its own, in that cycle.
    pub years: u64,
    /// The days before it, in that year.
    pub days: u64,
}

// A day by its cycles.
fn cycles_of(day: u64) -> Cycles
    ensures { result ≡ cycles_of day }
{
    let four_centuries = day / 146_097;
    let day = day % 146_097;
    let centuries = (day / 36_524).min(3);
    let day = day - 36_524 * centuries;
    let four_years = day / 1_461;
    let day = day % 1_461;
    let years = (day / 365).min(3);
    Cycles {
        four_centuries,
        centuries,
        four_years,
        years,
        days: day - 365 * years,
    }
}

/// The date of a day of the years 0000 to 9999.
pub(crate) fn date_of(day: u64) -> Date
    requires { day < 3652425 }
    ensures date { result ≡ date_of day }
    ensures year { result.year < 10000 }
    ensures month { result.month ≤ 12 }
    ensures day { result.day ≤ 31 }
{
    let it = cycles_of(day + 146_037);
    let year = 400 * it.four_centuries + 100 * it.centuries + 4 * it.four_years + it.years;
    let months = (5 * it.days + 2) / 153;
    let day = it.days - (153 * months + 2) / 5 + 1;
    if months < 10 {
        Date {
            year: year - 400,
            month: months + 3,
            day,
        }
    } else {
        Date {
            year: year - 399,
            month: months - 9,
            day,
        }
    }
}
