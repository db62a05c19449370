//! What the commands of `capt` do over readers and writers: what they print and write, what they find, and what they
//! leave out.
#![tactic(auto)]

mod blocks;
mod commands;
mod counting;
mod diff;
mod diff_lines;
mod faults;
mod jobs;
mod left;
mod lines;
mod list;
mod skipping;

pub use crate::blocks::{blocks_json_to, blocks_to, take_block};
pub use crate::commands::{convert_to, join_to, join_to_pcap, merge_to, merge_to_pcap};
pub use crate::counting::{
    OutputFormat, RunForm, convert_and_count, join_and_count, merge_and_count, output_format,
};
pub use crate::diff::{
    CutEnds, DEFAULT_OPTIONS, DiffEnd, DiffOptions, Differences, diff_in, diff_to,
};
pub use crate::faults::fault_line;
pub use crate::jobs::{Done, Finding, form_of, job_to, line_of, shown_of, tail_of, whole_finding};
pub use crate::left::{DroppedInfo, NOTHING_LEFT};
pub use crate::lines::write_block;
pub use crate::list::{ListOptions, list_json_to, list_to, put_packet_line};
pub use crate::skipping::{is_any_refused, kept_files, kept_number, put_left_out, refusal_in};
