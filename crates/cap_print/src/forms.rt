//! The forms in which lines are printed.

/// The form in which times are printed. None of them rounds.
#[derive(Clone, Copy, Debug, PartialEq, Eq)]
pub enum TimeForm {
    /// As the interface counts them: seconds, and a fraction over its units a second.
    Exact,
    /// As a decimal fraction of a second.
    Decimal,
    /// As a date and a time of day in UTC (RFC 3339), in the years 0000 to 9999; any other time as `Decimal`.
    Utc,
}

/// The form in which lines are printed.
#[derive(Clone, Copy, Debug, PartialEq, Eq)]
pub enum Form {
    /// As text, a word before each value.
    Text(TimeForm),
    /// As JSON, an object on each line (RFC 8259).
    Json(TimeForm),
}
