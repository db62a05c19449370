//! What is reported of capture files: the lines of the files, and the conversations of their datagrams.
#![tactic(auto)]

mod counts;
mod table;
mod talks;

pub use crate::counts::{Counted, Counts};
pub use crate::table::{
    Address, CountedUnit, Description, Endpoint, Held, NO_OTHERS, OtherCounts, Step, Table,
    TableTotals, TalkKey, TalkRow, TimedFrame, describe, describe_for, ipv6_law,
    other_networks_law, put_description, talk_laws, top_rows_law,
};
pub use crate::talks::{
    ReportLeft, ReportOptions, file_lines, file_lines_and_cuts, file_lines_in, report,
    report_and_count, report_in, report_with,
};
