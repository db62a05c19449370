//! What is counted of the packets of a file, and the lines of files that were counted.

mod counts;
mod file_lines;
mod files;

pub use crate::counts::counts::Counts;
pub(crate) use crate::counts::files::cuts_of;
pub use crate::counts::files::{Counted, put_files};
