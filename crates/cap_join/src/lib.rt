//! IPv4 fragments, joined into datagrams.
#![tactic(auto)]

mod ages;
mod buffer_pools;
mod buffers;
mod datagrams;
mod groups;
mod holes;
mod joiners;
mod laws;
mod queues;
mod tables;

pub use crate::datagrams::{Datagram, JoinFault, Put, Stamped};
pub use crate::joiners::Joiner;
pub use crate::laws::{equal_clocks, places_law, worked_rows};
