//! IPv4 headers, read and written, the ports after them, and the header checksum.
#![tactic(auto)]

mod checksums;
mod fields;
mod headers;
mod ports;
mod reasons;
mod transports;
mod written;

pub use crate::checksums::{checksum_law, header_checksum};
pub use crate::headers::{Fragment, Header, HeaderOr, Key};
pub use crate::ports::transport;
pub use crate::reasons::{Reason, header_reason, transport_reason};
pub use crate::transports::Transport;
