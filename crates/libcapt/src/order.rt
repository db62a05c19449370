//! The packets of several files in the order of exact time.

pub use cap_merge::{Merged, RunPacket, merge_files, merge_files_with_comments};
