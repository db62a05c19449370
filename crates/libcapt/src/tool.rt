//! The command line, and what its commands do over readers and writers.

pub use cap_check::{
    Check, CheckEnd, CheckLine, Checked, check_all_to, check_file, check_to, put_check_line,
};
pub use cap_commands::{is_any_refused, kept_files, kept_number, put_left_out, refusal_in};
pub use cap_line::{Ignored, NOTHING_IGNORED, Task};
pub use cap_tool::{
    DEFAULT_OPTIONS, DiffOptions, Done, DroppedInfo, Finding, Job, LineFault, Outcome,
    OutputFormat, RunForm, blocks_json_to, blocks_to, convert_and_count, convert_to, diff_in,
    diff_to, fault_line, job_to, join_and_count, join_to, join_to_pcap, left_lines, left_out_line,
    list_json_to, list_to, merge_and_count, merge_to, merge_to_pcap, network_line, outcome_line,
    outcome_object, output_format, parse, status_of,
};
