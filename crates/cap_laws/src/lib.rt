//! Laws over several crates: what of one capture is read again when it is written in either format, and of several when
//! they are merged, at once or in rounds; and what stays of the report and of the run then.
#![tactic(auto)]

mod again;
mod digests;
mod laws;

pub use crate::again::{
    merged_again, pcap_again, pcapng_again, round_trip, rounds_law, sharing_again,
};
pub use crate::digests::{converted_digest, same_text};
pub use crate::laws::{
    check_counts, described_classes, diff_converted, diff_first, diff_same, exact_times,
    joined_by_places, joined_units, json_cuts, json_differences, json_faults, json_lines,
    json_networks, json_words, merge_sorts, merged_report, merged_run, one_class, pcap_report,
    pcapng_report, pcapng_run, refusal_rule, report_by_places, report_sums, report_totals,
    rounds_bytes, sharing_rounds, skipped_files, verified_lines, worked_report,
};
