//! What files hold, their digests, the conversations in them, and the class of a packet.

pub use cap_class::{Class, ClassCounts, packet_class};
pub use cap_digest::PacketDigest;
pub use cap_ip::Reason;
pub use cap_print::{Form, TimeForm};
pub use cap_talks::{
    Description, Held, NO_OTHERS, OtherCounts, ReportLeft, ReportOptions, Step, Table, describe,
    file_lines, file_lines_and_cuts, file_lines_in, other_networks_law, report, report_and_count,
    report_in, report_with, top_rows_law,
};
