//! The table of a report: what is counted of the packets of a run, one by one, and step by step of a merge of files;
//! the row of each conversation; and the lines of files that were counted.

mod adding;
mod conversations;
mod descriptions;
mod ipv4_units;
mod keys;
mod laws;
mod others;
mod report_lines;
mod rows;
mod tables;
mod talk_lines;
mod tallies;
mod top;
mod totals;
mod units;

pub use crate::table::descriptions::{Description, describe, describe_for, put_description};
pub use crate::table::laws::{ipv6_law, other_networks_law, talk_laws, top_rows_law};
pub(crate) use crate::table::others::with_network;
pub use crate::table::others::{NO_OTHERS, OtherCounts};
pub use crate::table::rows::{TalkKey, TalkRow};
pub use crate::table::tables::{Held, Step, Table, TableTotals};
pub use crate::table::units::{Address, CountedUnit, Endpoint, TimedFrame};
