//! Capt for C, and for what calls C: the exports that `include/capt.h` declares.
#![tactic(auto)]

mod answers;
mod batches;
mod command_jobs;
mod feeding;
mod flags;
mod handles;
mod interfaces;
mod job_begins;
mod job_blocks;
mod job_calls;
mod job_ends;
mod job_lists;
mod job_options;
mod names;
mod packet_writers;
mod packets;
mod raw_box;
mod reading;
mod rows;
mod sinks;
mod sources;
mod tables;
mod texts;
mod times;
mod told_packets;
mod writing;
