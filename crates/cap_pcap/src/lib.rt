//! The records of pcap capture files, read and written.
#![tactic(auto)]

mod headers;
pub mod laws;
mod readers;
mod records;

pub use crate::headers::{PcapHeader, find_header, put_header};
pub use crate::readers::PcapReader;
pub use crate::records::{Record, RecordTime, find_record, put_record};
