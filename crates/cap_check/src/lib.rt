//! A check of one file: a line with how many packets it has, what is odd about them, and how it ends; the same with the
//! digest of its packets; or the digest alone. A file that is refused, and one of which a read fails, has a line as any
//! other.
#![tactic(auto)]

mod checked;
mod checking;
mod digesting;
mod lines;

pub use crate::checked::{Check, CheckEnd, CheckLine, Checked};
pub use crate::checking::{check_all_to, check_file, check_opened, check_to};
pub use crate::lines::put_check_line;
