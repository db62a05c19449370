//! A run of the program: its files and standard streams, what is shown of it while it lasts, how it ends, and what a
//! terminal shows of it. What the commands do over readers and writers is in cap_commands, and shown here.
#![tactic(auto)]

mod causes;
mod checks;
mod created;
mod cuts;
mod digest_lines;
mod errno_writers;
mod growing;
mod hints;
mod host;
mod kinds;
mod left;
mod left_out;
mod listed;
mod named;
mod networks;
mod objects;
mod openers;
mod outcomes;
mod outlets;
mod progress;
mod progress_devices;
mod regular;
mod reserved_stdio;
mod runs;
mod shared;
mod skipping;
mod streams;
mod systems;
mod verify;
mod whole;

pub use crate::causes::Cause;
pub use crate::checks::check_named;
pub use crate::created::create_for;
pub use crate::cuts::put_cuts;
pub use crate::digest_lines::{DigestLine, line_names, lines_in};
pub use crate::errno_writers::ErrnoWriter;
pub use crate::growing::Growing;
pub use crate::hints::{hint, hint_object};
pub use crate::host::{StandardStreams, run};
pub use crate::kinds::{Kind, kind_at, kind_of};
pub use crate::left::{Told, left_lines};
pub use crate::left_out::left_out_line;
pub use crate::listed::{check_listed, names_and_list, names_in, read_list, texts_of};
pub use crate::networks::network_line;
pub use crate::objects::{outcome_object, tell_in};
pub use crate::openers::Opener;
pub use crate::outcomes::{Outcome, RunStop, end_of, outcome_line, status_of, tell};
pub use crate::outlets::{Buffered, Outlet};
pub use crate::progress::{Progress, progress_line};
pub use crate::progress_devices::ProgressDevice;
pub use crate::regular::{FileId, FileType, Regular};
pub use crate::reserved_stdio::{ReservedStdio, check_input};
pub use crate::runs::{do_job, run_job, run_words, tell_unread};
pub use crate::shared::{OutputHandle, SharedOutput};
pub use crate::skipping::find_refusals;
pub use crate::streams::{
    Input, Inputs, Output, check_output, check_terminal, create_output, open_all,
};
pub use crate::systems::System;
pub use crate::verify::{Verdict, verify_lines};
pub use crate::whole::{AtomicOutput, create_beside};
pub use cap_commands::{
    DEFAULT_OPTIONS, DiffOptions, Differences, Done, DroppedInfo, Finding, OutputFormat, RunForm,
    blocks_json_to, blocks_to, convert_and_count, convert_to, diff_in, diff_to, fault_line, job_to,
    join_and_count, join_to, join_to_pcap, list_json_to, list_to, merge_and_count, merge_to,
    merge_to_pcap, output_format,
};
pub use cap_line::{Job, LineFault, parse};
