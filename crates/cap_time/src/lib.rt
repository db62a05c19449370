//! Exact times: the resolutions and offsets of interfaces, and stamps that compare as fractions.
#![tactic(auto)]

mod resolutions;
mod stamps;

pub use crate::resolutions::{Interface, Resolution};
pub use crate::stamps::{Stamp, Unit, reach};
