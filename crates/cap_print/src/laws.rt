//! The laws of the texts of times.
ghost use Rattle.cap_print.specs.ReadTimes.{DatesOfDays, DecimalsReadBack, UtcReadsBack};

/// The laws of the forms of times, as the contract of a function that does nothing.
///
/// - `dates`: each day has a date of the Gregorian calendar, and it is the day that this date names.
/// - `decimals`, `utc`: what is printed of a time says that time, whatever the units of its interface are: nothing is
///   rounded, so no two times have one text.
pub fn time_laws()
    ensures dates { DatesOfDays }
    ensures decimals { DecimalsReadBack }
    ensures utc { UtcReadsBack }
{}
