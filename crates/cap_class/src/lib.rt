//! What a captured frame is by itself: a whole IPv4 datagram, a fragment of one, or none of both, and of which class;
//! the class of a packet in a report, and how many packets of each class there are.
#![tactic(auto)]

mod classes;
mod classifying;
mod counts;
mod ipv6;
mod reported;

pub use crate::classes::Class;
pub use crate::classifying::{Classified, classify, stamped_of};
pub use crate::counts::{ClassCounts, NO_PACKETS, count_frames, with_frames, with_group};
pub use crate::ipv6::{ipv6_class, read_ipv6};
pub use crate::reported::{class_of, joined_class, packet_class};
