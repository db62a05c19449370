//! What a frame carries, and the datagrams that fragments join to.

pub use cap_class::{Classified, classify, stamped_of};
pub use cap_ip::{Fragment, Header, HeaderOr, Key, Transport, header_checksum, transport};
pub use cap_join::{Datagram, JoinFault, Joiner, Put, Stamped};
pub use cap_link::{Network, OtherNetwork, network, other_network};
