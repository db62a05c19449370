//! What is reported of capture files: the lines of the files, and the conversations of their datagrams.

mod files;
mod reports;

pub use crate::talks::files::{file_lines, file_lines_and_cuts, file_lines_in};
pub use crate::talks::reports::{
    ReportLeft, ReportOptions, report, report_and_count, report_in, report_with,
};
