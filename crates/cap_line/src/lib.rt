//! The command line of `capt`: what is asked for, a job with the files that it reads, or why the words give none, and
//! what clap says of them.
#![tactic(auto)]

mod command;
mod faults;
mod jobs;
mod shown;
mod texts;
mod unshown;
mod usage;
mod words;

pub use crate::faults::LineFault;
pub use crate::jobs::{
    Ignored, Job, NOTHING_IGNORED, Task, can_have_unit, can_read_ipv6, can_replace, can_share,
    can_show, can_skip, can_verify, check_files, check_inputs, data_of, files_limit, format_of,
    ignored_of, is_skipping, is_surveying, is_whole, number_of, order_of, standard_inputs, task_of,
    time_of, top_of, unit_of,
};
pub use crate::shown::{escape, escape_lines, is_hidden};
pub use crate::texts::VERSION;
pub use crate::unshown::unescape;
pub use crate::usage::{NOT_UTF_8, USAGE};
pub use crate::words::{message, parse};
