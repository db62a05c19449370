//! Exact times, and the interfaces that count them.

pub use cap_time::{Interface, Resolution, Stamp, Unit};
