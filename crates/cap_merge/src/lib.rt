//! Several files' packets in the order of exact time.
#![tactic(auto)]

mod files;
mod lanes;
mod laws;
mod merging;
mod tournament;

pub use crate::files::{merge_files, merge_files_with_comments};
pub use crate::laws::merge_order;
pub use crate::merging::{Merged, RunPacket};
