//! Packet captures, read, put in order, joined, written and reported: the library of `capt` by subject. Each name comes
//! from a crate below, where its contract stands.
#![tactic(auto)]

pub mod bytes;
pub mod join;
pub mod order;
pub mod read;
pub mod report;
pub mod time;
pub mod tool;
pub mod write;
