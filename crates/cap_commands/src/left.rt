//! What a command that writes a capture leaves out, or leaves as it was.
ghost use Rattle.std.specs.Prelude.{◌≡◌};
ghost use Rattle.std.specs.Prelude.{None, replicate};
ghost use Rattle.cap_bytes.specs.Printing.{is_write};
ghost use Rattle.cap_commands.specs.Left.{both_cut, done_of, left_of_report, nothing_left, only_cut, only_cuts};

use crate::diff::CutEnds;
use cap_bytes::{CutRest, Fault};
use cap_talks::{OtherCounts, ReportLeft};
use cap_write::LeftOut;

/// What a command that writes a capture leaves out, or leaves as it was.
#[derive(Clone, Copy, Debug, PartialEq, Eq)]
pub struct DroppedInfo {
    /// How many blocks of the files aren't carried on: those that were skipped.
    pub skipped: u128,
    /// How many of these are Decryption Secrets Blocks. draft-ietf-opsawg-pcapng, 4.7.
    pub secret_blocks: u128,
    /// How many of these are Name Resolution Blocks. draft-ietf-opsawg-pcapng, 4.5.
    pub name_blocks: u128,
    /// How many interfaces of the files have a name, which isn't carried on.
    pub named: u128,
    /// How many comments the sections, interfaces and packets of the files have, which aren't carried on; 0 if they
    /// weren't counted.
    pub comments: u128,
    /// How many packets had a time below the greatest so far of their file.
    pub ran_back: u128,
    /// The rest of each file, by its place, that was cut and is dropped: of 32 files at most.
    pub cuts: [Option<CutRest>; 32],
    /// How many packets `join` leaves out, by their class in a report of the files, if they were counted.
    pub left_out: Option<LeftOut>,
    /// How many packets that `report` counts as `not-ipv4` there are of each network, if they were counted.
    pub not_ipv4: Option<OtherCounts>,
}

/// Nothing was left out, and nothing ran back.
pub const NOTHING_LEFT: DroppedInfo = DroppedInfo {
    skipped: 0,
    secret_blocks: 0,
    name_blocks: 0,
    named: 0,
    comments: 0,
    ran_back: 0,
    cuts: [None; 32],
    left_out: None,
    not_ipv4: None,
};

/// What is left of files that are read, and that ended in those rests, by their places, where they were cut.
pub(crate) fn only_cuts(cuts: [Option<CutRest>; 32]) -> DroppedInfo
    ensures { result ≡ only_cuts cuts }
{
    DroppedInfo {
        skipped: 0,
        secret_blocks: 0,
        name_blocks: 0,
        named: 0,
        comments: 0,
        ran_back: 0,
        cuts,
        left_out: None,
        not_ipv4: None,
    }
}

/// What a report leaves.
pub(crate) fn left_of_report(left: ReportLeft) -> DroppedInfo
    ensures { result ≡ left_of_report left }
{
    let cuts = left.cuts;
    DroppedInfo {
        skipped: 0,
        secret_blocks: 0,
        name_blocks: 0,
        named: 0,
        comments: 0,
        ran_back: 0,
        cuts,
        left_out: None,
        not_ipv4: left.not_ipv4,
    }
}

/// What is left of the only file that is read, and that ended in that rest, if it was cut.
pub(crate) fn only_cut(cut: Option<CutRest>) -> DroppedInfo
    ensures { result ≡ only_cut cut }
{
    let mut cuts: [Option<CutRest>; 32] = [None; 32];
    cuts[0] = cut;
    only_cuts(cuts)
}

/// What is left of the two files that are compared, and that ended in those rests, if they were cut.
pub(crate) fn both_cut(ends: CutEnds) -> DroppedInfo
    ensures { result ≡ both_cut ends }
{
    let mut left = only_cut(ends.first);
    left.cuts[1] = ends.second;
    left
}

/// What a call returns that says nothing of a rest that was cut.
pub(crate) fn without_cut(answer: Result<Option<CutRest>, Fault>) -> Result<(), Fault>
    ensures done { result ≡ done_of answer }
    ensures write { is_write result ≡ is_write answer }
{
    match answer {
        Ok(_) => Ok(()),
        Err(fault) => Err(fault),
    }
}
